//! A connection's stream of bytes, in both directions.
ghost use Rattle.std.specs.Prelude.{ℕ, List, Option, ◌<◌, ◌≤◌, length, take, IfOk, MatchResult};
ghost use Rattle.http_wire.specs.Halting.{Halts};
ghost use Rattle.byte_slices.specs.Slices.{joined};
ghost use Rattle.http_wire.specs.Timing.{Event, ReadFails, Put, WriteFails, read_of, Moves};

use crate::halts::Halt;
use crate::sinks::{Sink, WriteFailed};
use crate::sources::{ReadFailed, Source};
use byte_slices::Slices;

/// A stream of bytes in both directions that is read and written in pieces. Each read and each write is an event that `saw` describes, so
/// a function that is generic over the stream can state the order of its reads and writes. A call that would have to wait is not an event:
/// it reads and writes no byte, and the stream does not change.
pub trait Duplex {
    // The bytes that later reads will return, if they are known.
    ghost left: { Self → Option (List ℕ) };

    // The bytes that were written, if they are known.
    ghost held: { Self → Option (List ℕ) };

    // Whether reads from such a stream can fail at all, and whether writes to it can.
    ghost read_fails: { Type 0 };

    ghost write_fails: { Type 0 };

    // Whether a read or a write may have to wait in the current state of the stream.
    ghost waits: { Self → Type 0 };

    // Relates the states of the stream before and after a read or a write.
    ghost saw: { Self → Event → Self → Type 0 };

    /// Reads some bytes to the front of `buf` and returns how many. Returns 0 only at the end of the stream.
    fn read_some(&mut self, buf: &mut [u8]) -> Result<usize, Halt<ReadFailed>>
        requires { 0 < length buf.old }
        ensures bound { IfOk result (λ count. count ≤ length buf.new) }
        ensures seen { MatchResult result (λ count. saw self.old (read_of (take count buf.new)) self.new)
            (Halts saw waits ReadFails self.old self.new) };

    /// Writes some of the bytes, from their front, and returns how many: at least one, unless `bytes` is empty.
    fn write_some(&mut self, bytes: &[u8]) -> Result<usize, Halt<WriteFailed>>
        ensures bound { IfOk result (λ count. count ≤ length bytes.now) }
        ensures some { IfOk result (λ count. 0 < length bytes.now → 0 < count) }
        ensures seen { MatchResult result (λ count. saw self.old (Put (take count bytes.now)) self.new)
            (Halts saw waits WriteFails self.old self.new) };

    /// Does the same as `write_some` for slices, one after another. A stream may write several of them in one call; this one writes from the
    /// first that has bytes.
    fn write_slices(&mut self, slices: &Slices<'_>) -> Result<usize, Halt<WriteFailed>>
        ensures bound { IfOk result (λ count. count ≤ length (joined slices.now)) }
        ensures some { IfOk result (λ count. 0 < length (joined slices.now) → 0 < count) }
        ensures seen { MatchResult result (λ count. saw self.old (Put (take count (joined slices.now))) self.new)
            (Halts saw waits WriteFails self.old self.new) }
    {
        self.write_some(slices.front())
    }

    // States what each event does to the bytes. A fault occurs only if such a fault is possible.
    ghost told: { (old new : Self) (event : Event) → saw old event new
        → Moves read_fails write_fails event (left old) (held old) (left new) (held new) };
}

/// A stream whose reads and writes never have to wait: each of them transfers bytes, finds the end or fails.
pub trait Steady: Duplex {
    ghost never_waits: { (stream : Self) → Self.Duplex.waits stream → ⊥ };
}

/// A source and a sink combined into one stream in both directions, which never has to wait.
#[derive(Debug, Drop)]
pub struct Pair<R, W> {
    pub source: R,
    pub sink: W,
}

impl<R: Source, W: Sink> Duplex for Pair<R, W> {
    ghost left = { λ pair. R.left pair.source };

    ghost held = { λ pair. W.held pair.sink };

    ghost read_fails = { R.may_fail };

    ghost write_fails = { W.may_fail };

    ghost waits = { λ pair. ⊥ };

    ghost saw = { λ old event new. Moves R.may_fail W.may_fail event (R.left old.source) (W.held old.sink) (R.left new.source) (W.held new.sink) };

    fn read_some(&mut self, buf: &mut [u8]) -> Result<usize, Halt<ReadFailed>> {
        self.source
            .read_some(buf)
            .map_err(|failed| Halt::Failed(failed))
    }

    fn write_some(&mut self, bytes: &[u8]) -> Result<usize, Halt<WriteFailed>> {
        self.sink
            .write_some(bytes)
            .map_err(|failed| Halt::Failed(failed))
    }

    ghost told = { λ old new event seen. seen };
}

impl<R: Source, W: Sink> Steady for Pair<R, W> {
    ghost never_waits = { λ pair never. never };
}
