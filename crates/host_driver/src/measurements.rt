//! The measurements by their names. Each gives one number.
ghost use Rattle.std.specs.Prelude.{◌≡◌};

use crate::calls::serving::OfServer;
use crate::calls::storing::OfStore;
use crate::numbers::say;
use crate::replies::measurements::OfReply;
use crate::servers::{Asked, ask};
use anyhow::Result;

/// What is measured.
#[derive(Clone, Copy)]
enum Measured {
    Server(OfServer),
    Store(OfStore),
    Reply(OfReply),
}

impl Measured {
    /// What this name stands for.
    fn named(name: &str) -> Option<Measured> {
        if let Some(calls) = OfServer::named(name) {
            return Some(Measured::Server(calls));
        }
        if let Some(calls) = OfStore::named(name) {
            return Some(Measured::Store(calls));
        }
        Some(Measured::Reply(OfReply::named(name)?))
    }
}

/// A measurement, with how many files, bytes, entries or changes it has: one at least.
#[derive(Clone, Copy)]
pub(crate) struct Measurement {
    measured: Measured,
    count: u64,
}

impl Measurement {
    /// The measurement of these words, if there is one.
    pub(crate) fn read(name: &str, count: &str) -> Option<Measurement> {
        let measured = Measured::named(name)?;
        let count = count.parse::<u64>().ok().filter(|count| *count > 0)?;
        Some(Measurement { measured, count })
    }

    /// Makes the measurement, and prints its number.
    pub(crate) fn run(self, rt: &HostRuntime) -> Result<()> {
        match self.measured {
            Measured::Server(calls) => ask(rt, Asked::Measure(calls, self.count)),
            Measured::Store(calls) => say(rt, calls.run(rt, self.count)?),
            Measured::Reply(calls) => say(rt, calls.run(rt, self.count as usize)?),
        }
    }
}
