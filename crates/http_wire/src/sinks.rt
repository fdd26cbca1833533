//! The sinks that a connection writes to.
ghost use Rattle.std.specs.Prelude.{ℕ, List, Option, ⊤, ◌<◌, ◌≤◌, length, IfOk, OnOk, OnErr};
ghost use Rattle.std.specs.Io.KnownBytes.{Appends, WriteAppends};
ghost use Rattle.http_wire.specs.Sending.{AppendsFront};

use std::io::Write;
use thiserror::Error;

/// A write failed or accepted no byte.
#[derive(Clone, Copy, Debug, PartialEq, Eq, Error)]
#[error("the write failed")]
pub struct WriteFailed;

/// A stream that accepts bytes in pieces, like `Write`. Its contract gives the cause of a failure.
pub trait Sink {
    // The bytes that the sink holds, if they are known.
    ghost held: { Self → Option (List ℕ) };

    // Whether writes to such a sink can fail at all.
    ghost may_fail: { Type 0 };

    /// Writes a prefix of `bytes` and returns its length, which is at least 1 unless `bytes` is empty.
    fn write_some(&mut self, bytes: &[u8]) -> Result<usize, WriteFailed>
        ensures bound { IfOk result (λ count. count ≤ length bytes.now) }
        ensures some { IfOk result (λ count. 0 < length bytes.now → 0 < count) }
        ensures bytes { WriteAppends (held self.old) (held self.new) result bytes.now }
        ensures cause { OnErr result may_fail };
}

/// Writes all the bytes. On an error, a prefix of them was written, but not all.
pub fn write_all<W: Sink>(sink: &mut W, bytes: &[u8]) -> Result<(), WriteFailed>
    ensures ok { OnOk result (Appends (W.held sink.old) (W.held sink.new) bytes.now) }
    ensures cut { OnErr result (AppendsFront bytes.now (W.held sink.old) (W.held sink.new)) }
    ensures cause { OnErr result W.may_fail }
{
    let mut at = 0;
    'writes: while at < bytes.len() {
        let Ok(count) = sink.write_some(&bytes[at..]) else {
            return Err(WriteFailed);
        };
        at += count;
    }
    Ok(())
}

/// A sink that writes to a writer. Its writes may fail.
#[derive(Debug, Drop)]
pub struct Writing<W>(pub W);

impl<W: Write> Sink for Writing<W> {
    ghost held = { λ s. W.contents s.0 };

    ghost may_fail = { ⊤ };

    fn write_some(&mut self, bytes: &[u8]) -> Result<usize, WriteFailed> {
        match self.0.write(bytes) {
            Ok(0) if !bytes.is_empty() => Err(WriteFailed),
            Ok(count) => Ok(count),
            Err(_) => Err(WriteFailed),
        }
    }
}
