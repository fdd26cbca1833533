//! A stream of which a step reads and writes so many bytes at most.
ghost use Rattle.std.specs.Prelude.{◌≡◌, ◌⊎◌, ◌↔◌, IsTrue};
ghost use Rattle.host_connection.specs.Metering.{Meters};

use byte_slices::Slices;
use http_wire::{Duplex, Halt, ReadFailed, WriteFailed};

/// How many bytes a step reads at most: as many as are kept for a body that takes one.
const READS: usize = 262_144;

/// How many bytes a step writes at most: a piece of 1 MiB with its head, so that most replies are out after one.
const WRITES: usize = 1_179_648;

/// A stream that a connection reads and writes. Each step reads 262,144 bytes of it at most, and writes 1,179,648 at most.
#[derive(Drop)]
pub struct Metered<D: Duplex> {
    stream: D,
    /// How many bytes the step may still read, and how many it may still write.
    reads: usize,
    writes: usize,
}

impl<D: Duplex> Metered<D> {
    /// A stream of which nothing was moved.
    pub fn new(stream: D) -> Metered<D>
        ensures { result.stream ≡ stream }
    {
        Metered {
            stream,
            reads: READS,
            writes: WRITES,
        }
    }

    /// The stream.
    pub fn stream(&self) -> &D
        ensures { result.now ≡ self.now.stream }
    {
        &self.stream
    }

    // Begins a step.
    pub(crate) fn begin(&mut self)
        ensures stream { self.new.stream ≡ self.old.stream }
        ensures reads { self.new.reads ≡ 262144 }
        ensures writes { self.new.writes ≡ 1179648 }
    {
        self.reads = READS;
        self.writes = WRITES;
    }

    // Whether the step has read or written all that it may.
    pub(crate) fn is_used_up(&self) -> bool
        ensures { IsTrue result ↔ ((self.now.reads ≡ 0) ⊎ (self.now.writes ≡ 0)) }
    {
        self.reads == 0 || self.writes == 0
    }
}

impl<D: Duplex> Duplex for Metered<D> {
    ghost left = { λ m. D.left m.stream };

    ghost held = { λ m. D.held m.stream };

    ghost read_fails = { D.read_fails };

    ghost write_fails = { D.write_fails };

    // The step has read or written all that it may, or the stream has to wait.
    ghost waits = { λ m. ((m.reads ≡ 0) ⊎ (m.writes ≡ 0)) ⊎ D.waits m.stream };

    ghost saw = { λ old event new. Meters D.saw old.stream old.reads old.writes event new.stream new.reads new.writes };

    fn read_some(&mut self, buf: &mut [u8]) -> Result<usize, Halt<ReadFailed>> {
        if self.reads == 0 {
            return Err(Halt::WouldWait);
        }
        let room = buf.len().min(self.reads);
        let count = self.stream.read_some(&mut buf[..room])?;
        self.reads -= count;
        Ok(count)
    }

    fn write_some(&mut self, bytes: &[u8]) -> Result<usize, Halt<WriteFailed>> {
        if self.writes == 0 {
            return Err(Halt::WouldWait);
        }
        let most = bytes.len().min(self.writes);
        let count = self.stream.write_some(&bytes[..most])?;
        self.writes -= count;
        Ok(count)
    }

    fn write_slices(&mut self, slices: &Slices<'_>) -> Result<usize, Halt<WriteFailed>> {
        if self.writes == 0 {
            return Err(Halt::WouldWait);
        }
        let count = self.stream.write_slices(&slices.up_to(self.writes))?;
        self.writes -= count;
        Ok(count)
    }

    ghost told = { λ old new event seen. D.told old.stream new.stream event seen.0 };
}
