//! How a run of the program ends: its exit status, and what it says on standard error.
ghost use Rattle.std.specs.Prelude.{◌≡◌, MatchResult, if◌then◌else◌, is_ok};
ghost use Rattle.host_server.specs.Asks.{IsAnswer};
ghost use Rattle.host_server.specs.Solo.{IsSaid, IsServed, fault_line};

use crate::servers::Server;
use blob_store::Shelf;
use host_connection::{ConnectionFault, serve_connection};
use host_disk::Disk;
use http_wire::{Sink, Steady, write_all};
use std::alloc::Global;

/// The exit status if the connection has ended.
const DONE: u8 = 0;

/// The exit status if input, output or memory failed.
pub(crate) const FAILED: u8 = 2;

pub(crate) const OUT_OF_MEMORY: &str = "filehost: out of memory\n";

/// Writes why a run fails, as far as that can be written, and answers the given exit status.
pub fn fail<E: Sink>(errors: &mut E, status: u8, why: &str) -> u8
    ensures status { result ≡ status }
    ensures said { IsSaid E.may_fail why.now (E.held errors.old) (E.held errors.new) }
{
    let _ = write_all(errors, why.as_bytes());
    status
}

/// The exit status after a connection that ended this way. A fault is written to `errors`.
fn status_after<E: Sink>(errors: &mut E, ended: Result<(), ConnectionFault>) -> u8
    ensures status { result ≡ (if is_ok ended then 0 else 2) }
    ensures said { MatchResult ended (λ done. E.held errors.new ≡ E.held errors.old) (λ why.
        IsSaid E.may_fail (fault_line why) (E.held errors.old) (E.held errors.new)) }
{
    match ended {
        Ok(()) => DONE,
        Err(ConnectionFault::InputFault) => fail(errors, FAILED, "filehost: input fault\n"),
        Err(ConnectionFault::OutputFault) => fail(errors, FAILED, "filehost: output fault\n"),
        Err(ConnectionFault::OutOfMemory) => fail(errors, FAILED, OUT_OF_MEMORY),
    }
}

/// Serves one connection over a server, and answers the exit status. If it isn't 0, `errors` is told why.
pub(crate) fn serve_server<S: Shelf + Drop, D: Disk + Drop, X: Steady, E: Sink>(
    alloc: Global,
    server: Server<S, D>,
    duplex: &mut X,
    errors: &mut E,
) -> u8
    ensures { IsServed (IsAnswer S.did S.failures) X.Duplex E.may_fail server result
        duplex.old duplex.new (E.held errors.old) (E.held errors.new) }
{
    let mut server = server;
    let ended = serve_connection(alloc, duplex, &mut server);
    status_after(errors, ended)
}
