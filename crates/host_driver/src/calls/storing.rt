//! Measurements of a history or a store.
ghost use Rattle.std.specs.Prelude.{◌≡◌};

use crate::calls::copies::time_copies;
use crate::calls::stores::{time_digest, time_distinct, time_equal, time_read, time_upload};
use crate::calls::undos::{EARLY, time_undos};
use crate::numbers::each;
use anyhow::Result;

/// How many copies are timed of a history.
const COPIES: u64 = 400;

/// What is measured on a history or a store.
#[derive(Clone, Copy)]
pub(crate) enum OfStore {
    Copy,
    Undo,
    Digest,
    Upload,
    Equal,
    Uploads,
    Read,
}

impl OfStore {
    /// What this name stands for.
    pub(crate) fn named(name: &str) -> Option<OfStore> {
        match name {
            "copy" => Some(OfStore::Copy),
            "undo" => Some(OfStore::Undo),
            "digest" => Some(OfStore::Digest),
            "upload" => Some(OfStore::Upload),
            "equal" => Some(OfStore::Equal),
            "uploads" => Some(OfStore::Uploads),
            "read" => Some(OfStore::Read),
            _ => None,
        }
    }

    /// Makes the measurement with so many entries, bytes or files, and answers its number.
    pub(crate) fn run(self, rt: &HostRuntime, count: u64) -> Result<u128> {
        match self {
            OfStore::Copy => Ok(each(time_copies(rt, count, COPIES)?, COPIES)),
            OfStore::Undo => Ok(each(time_undos(rt, count)?, EARLY)),
            OfStore::Digest => Ok(time_digest(rt, count as usize)?.as_nanos()),
            OfStore::Upload => Ok(time_upload(rt, count as usize)?.as_nanos()),
            OfStore::Equal => Ok(time_equal(rt, count as usize)?.as_nanos()),
            OfStore::Uploads => Ok(each(time_distinct(rt, count)?, count)),
            OfStore::Read => Ok(time_read(rt, count as usize)?.as_nanos()),
        }
    }
}
