//! A stream that would have to wait before each read, and before each write if that is asked for.
ghost use Rattle.std.specs.Prelude.{None, ⊤};
ghost use Rattle.http_wire.specs.Timing.{Moves};

use crate::steps::pieces::Pieces;
use http_wire::{Duplex, Halt, ReadFailed, WriteFailed};
use std::marker::Model;

/// Gives its input piece by piece. A write takes `most` bytes, or all of them at once where there is no `most`. Of every two other calls the first would have
/// to wait. Contracts don't see it.
#[derive(Drop)]
pub struct Script {
    input: Pieces,
    most: Option<usize>,
    is_ready: bool,
    written: Vec<u8>,
}

impl Model for Script {
    ghost Value = { Unit {0} };

    ghost view = { λ _. tt };
}

impl Script {
    /// A stream of this input.
    pub fn new(input: Pieces, most: Option<usize>, written: Vec<u8>) -> Script {
        Script {
            input,
            most,
            is_ready: false,
            written,
        }
    }

    /// What was written.
    pub fn written(&self) -> &[u8] {
        self.written.as_slice()
    }

    /// Whether it would have to wait now.
    fn waits(&mut self) -> bool {
        self.is_ready = !self.is_ready;
        self.is_ready
    }
}

impl Duplex for Script {
    ghost left = { λ _. None };

    ghost held = { λ _. None };

    ghost read_fails = { ⊤ };

    ghost write_fails = { ⊤ };

    ghost waits = { λ _. Unit {0} };

    ghost saw = { λ _ event _. Moves ⊤ ⊤ event None None None None };

    fn read_some(&mut self, buf: &mut [u8]) -> Result<usize, Halt<ReadFailed>> {
        if self.waits() {
            return Err(Halt::WouldWait);
        }
        Ok(self.input.give(buf))
    }

    fn write_some(&mut self, bytes: &[u8]) -> Result<usize, Halt<WriteFailed>> {
        if self.most.is_some() && self.waits() {
            return Err(Halt::WouldWait);
        }
        let count = match self.most {
            Some(most) => bytes.len().min(most.max(1)),
            None => bytes.len(),
        };
        match self.written.extend_from_slice(&bytes[..count]) {
            Ok(()) => Ok(count),
            Err(_) => Err(Halt::Failed(WriteFailed)),
        }
    }

    ghost told = { λ old new event seen. seen };
}
