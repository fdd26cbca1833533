//! Bodies of requests.
ghost use Rattle.std.specs.Prelude.{◌≡◌, ◌≤◌, ◌<◌, ◌+◌, ◌⊎◌, [], ◌++◌, length, IsErrOf, OnOk, OnErr, vec_len, vec_capacity};
ghost use Rattle.http_wire.specs.Halting.{TriesBody};
ghost use Rattle.http_wire.specs.Timing.{Ran};
ghost use Rattle.http_wire.specs.Wires.{AwaitsBody, ReadsBody};

use crate::buffers::Buffer;
use crate::duplexes::{Duplex, Steady};
use crate::faults::BodyFault;
use crate::halts::Halt;
use std::alloc::AllocError;

// Makes room for `more` bytes. A new allocation has room for twice the resulting length, up to `size`, so a body has room for at most
// twice the bytes that arrived and needs few allocations.
fn make_room(body: &mut Vec<u8>, more: usize, size: usize) -> Result<(), AllocError>
    requires { vec_len body.old + more ≤ size }
    ensures same { body.new.items ≡ body.old.items }
    ensures len { vec_len body.new ≡ vec_len body.old }
    ensures room { OnOk result (vec_len body.old + more ≤ vec_capacity body.new) }
    ensures full { OnErr result (0 < more) }
{
    let len = body.len() + more;
    if len <= body.capacity() {
        return Ok(());
    }
    body.reserve_exact(more + len.min(size - len))
}

// Moves bytes from the front of the buffer to the end of the body, until the buffer is empty or the body has `size` bytes.
fn move_front(buffer: &mut Buffer, body: &mut Vec<u8>, size: usize) -> Result<(), AllocError>
    requires { vec_len body.old ≤ size }
    ensures moved { body.new.items ++ buffer.new ≡ body.old.items ++ buffer.old }
    ensures within { vec_len body.new ≤ size }
    ensures all { OnOk result ((vec_len body.new ≡ size) ⊎ (buffer.new ≡ [])) }
    ensures cut { OnErr result (vec_len body.new < size) }
{
    let bytes = buffer.as_slice();
    let count = bytes.len().min(size - body.len());
    make_room(body, count, size)?;
    body.extend_from_slice(&bytes[..count])?;
    buffer.consume(count);
    Ok(())
}

/// Continues to read a body of `size` bytes, part of which is already in `body`. Takes bytes first from the buffer and then from the stream.
/// Allocates memory as the bytes arrive.
pub fn fill_body<D: Duplex>(
    buffer: &mut Buffer,
    duplex: &mut D,
    body: &mut Vec<u8>,
    size: usize,
) -> Result<(), Halt<BodyFault>>
    requires { vec_len body.old ≤ size }
    ensures ran { Ran D.saw (AwaitsBody (body.old.items ++ buffer.old) size) duplex.old duplex.new
        (TriesBody result size (body.old.items ++ buffer.old) body.new buffer.new) }
    ensures within { vec_len body.new ≤ size }
    ensures waits { IsErrOf result Halt.WouldWait → D.waits duplex.new }
    ensures short { IsErrOf result Halt.WouldWait → length (body.new.items ++ buffer.new) < size }
{
    move_front(buffer, body, size)?;
    'reads: while body.len() < size {
        let came = match buffer.fill(duplex) {
            Ok(came) => came,
            Err(Halt::Failed(_)) => return Err(Halt::Failed(BodyFault::ReadFault)),
            Err(Halt::WouldWait) => return Err(Halt::WouldWait),
        };
        if came == 0 {
            return Err(Halt::Failed(BodyFault::Ended));
        }
        move_front(buffer, body, size)?;
    }
    Ok(())
}

/// Reads a body of `count` bytes, first from the buffer and then from the stream, which never has to wait.
pub fn read_body<D: Steady>(
    buffer: &mut Buffer,
    duplex: &mut D,
    count: u64,
) -> Result<Vec<u8>, BodyFault>
    ensures { Ran D.saw (AwaitsBody buffer.old count) duplex.old duplex.new
        (ReadsBody result count buffer.old buffer.new) }
{
    let mut body = Vec::new(buffer.allocator());
    match fill_body(buffer, duplex, &mut body, count as usize) {
        Ok(()) => Ok(body),
        Err(Halt::Failed(fault)) => Err(fault),
        Err(Halt::WouldWait) => unreachable!(),
    }
}
