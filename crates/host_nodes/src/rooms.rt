//! The room for heads and for replies. A connection that rests leaves its room to the next one that goes on.
ghost use Rattle.std.specs.Prelude.{◌≡◌, IfOk, MatchOption, None, is_none, is_some};
ghost use Rattle.host_connection.specs.Resting.{IsResting, resting_number};

use host_connection::Connection;
use std::alloc::{AllocError, Global};

/// A connection that rests before the request of this number: in the room of the spare one, or else in new room.
fn begun(
    alloc: Global,
    number: u64,
    spare: &mut Option<Box<Connection>>,
) -> Result<Box<Connection>, AllocError>
    ensures { IfOk result (λ c. IsResting number c.value) }
{
    if let Some(mut connection) = spare.take() {
        if connection.resume(number) {
            return Ok(connection);
        }
    }
    Ok(Box::new(alloc, Connection::rested(alloc, number)?)?)
}

/// The connection, or if it rests, one that goes on as it does. There is none only if it rests and there is no memory for its room.
pub(crate) fn with_room(
    alloc: Global,
    connection: Option<Box<Connection>>,
    number: u64,
    spare: &mut Option<Box<Connection>>,
) -> Option<Box<Connection>>
    ensures { MatchOption result (connection ≡ None)
        (λ c. MatchOption connection (IsResting number c.value) (λ old. c ≡ old)) }
{
    match connection {
        Some(connection) => Some(connection),
        None => begun(alloc, number, spare).ok(),
    }
}

/// A connection after a step. If it rests, its room is the spare one, and the number of the request that it is before is left.
pub(crate) fn without_room(
    connection: Box<Connection>,
    spare: &mut Option<Box<Connection>>,
) -> (Option<Box<Connection>>, u64)
    ensures kept { MatchOption result.0 (IsResting result.1 connection.value) (λ c. c ≡ connection) }
    ensures left { is_some result.0 ≡ is_none (resting_number connection.value) }
{
    match connection.resting() {
        Some(number) => {
            *spare = Some(connection);
            (None, number)
        }
        None => (Some(connection), 0),
    }
}
