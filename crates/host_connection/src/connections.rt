//! One connection: requests in, and a reply to each.
ghost use Rattle.std.specs.Prelude.{◌≡◌};
ghost use Rattle.http_wire.specs.Timing.{Ran};
ghost use Rattle.host_connection.specs.Carrying.{IsFresh};
ghost use Rattle.host_connection.specs.Serving.{Serves};
ghost use Rattle.host_connection.specs.Timing.{IsCaughtUp, Connects};

use crate::services::Prompt;
use crate::steps::{Connection, Progress};
use http_wire::Steady;
use std::alloc::Global;
use thiserror::Error;

/// Why a connection ended before its stream did, and before a reply that ends it.
#[derive(Clone, Copy, Debug, PartialEq, Eq, Error)]
pub enum ConnectionFault {
    /// A read failed.
    #[error("input fault")]
    InputFault,
    /// A write failed.
    #[error("output fault")]
    OutputFault,
    /// There was no memory for the connection.
    #[error("out of memory")]
    OutOfMemory,
}

// Goes through the phases of a new connection until it ends.
fn serve<D: Steady, S: Prompt>(
    alloc: Global,
    connection: &mut Connection,
    duplex: &mut D,
    service: &mut S,
) -> Result<(), ConnectionFault>
    requires { IsFresh connection.old }
    ensures timely { Ran D.saw (IsCaughtUp S.answers service.old) duplex.old duplex.new
        (Connects S.answers result service.old service.new) }
    ensures grows { S.grows service.old service.new }
{
    'phases: loop {
        match connection.pass(alloc, duplex, service) {
            Progress::More => {}
            Progress::Body(_) => {}
            Progress::Ended(result) => return result,
            Progress::Waits(_) => unreachable!(),
            Progress::Postponed => unreachable!(),
        }
    }
}

/// Serves one connection: answers the requests of its stream, one after another, until the stream ends or a reply ends
/// the connection, at the latest that to the 100th request.
///
/// Where the client of a request may wait for an interim reply before it sends the body (RFC 9110, section 10.1.1), that is
/// written before any read for the body. A request that is refused by its head has none.
///
/// It reads only where all whole requests that came are answered, no head is refused, and all that is sent for them is
/// written by then; nothing is read or written after the end of the stream, a fault or a reply that ends the connection.
pub fn serve_connection<D: Steady, S: Prompt>(
    alloc: Global,
    duplex: &mut D,
    service: &mut S,
) -> Result<(), ConnectionFault>
    ensures served { Serves S.answers D.read_fails D.write_fails result service.old service.new (D.left duplex.old)
        (D.held duplex.old) (D.held duplex.new) }
    ensures timely { Ran D.saw (IsCaughtUp S.answers service.old) duplex.old duplex.new
        (Connects S.answers result service.old service.new) }
    ensures grows { S.grows service.old service.new }
{
    let Ok(mut connection) = Connection::new(alloc) else {
        return Err(ConnectionFault::OutOfMemory);
    };
    let result = serve(alloc, &mut connection, duplex, service);
    // By a call: at the end of the function its proof would go through all that a connection owns.
    drop(connection);
    result
}
