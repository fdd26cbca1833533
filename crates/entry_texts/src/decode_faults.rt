//! What can go wrong when an entry is read.
ghost use Rattle.std.specs.Prelude.{◌≡◌};

use std::alloc::{AllocError, AllocFailed};
use thiserror::Error;

/// Why no entry was read.
#[derive(Clone, Copy, Debug, PartialEq, Eq, Error)]
pub enum DecodeFault {
    /// The bytes are not the text of any entry.
    #[error("this is not the text of an entry")]
    BadEntry,
    /// No memory for the entry.
    #[error("no memory for an entry")]
    OutOfMemory,
}

impl From<AllocError> for DecodeFault {
    ghost use Rattle.entry_texts.specs.declared.decode_faults.DecodeFault.TheVariants.{OutOfMemory};

    ghost from_gives = { λ _ e. e ≡ OutOfMemory };

    fn from(_error: AllocError) -> DecodeFault {
        DecodeFault::OutOfMemory
    }
}

impl<T: Drop> From<AllocFailed<T>> for DecodeFault {
    ghost use Rattle.entry_texts.specs.declared.decode_faults.DecodeFault.TheVariants.{OutOfMemory};

    ghost from_gives = { λ _ e. e ≡ OutOfMemory };

    fn from(_error: AllocFailed<T>) -> DecodeFault {
        DecodeFault::OutOfMemory
    }
}
