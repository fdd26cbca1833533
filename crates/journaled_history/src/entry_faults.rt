//! Why the last entry of a history is not put.

use std::alloc::AllocError;

/// Why the last entry of a history isn't put into its journal.
#[derive(Debug, Drop, PartialEq, Eq)]
pub enum EntryFault {
    /// There was no memory for it.
    OutOfMemory,
    /// The device of the journal failed while it was put.
    Device,
}

impl From<AllocError> for EntryFault {
    ghost use Rattle.std.specs.Prelude.{◌≡◌};
    ghost use Rattle.journaled_history.specs.declared.entry_faults.EntryFault.TheVariants.{OutOfMemory};

    ghost from_gives = { λ _ fault. fault ≡ OutOfMemory };

    fn from(_error: AllocError) -> EntryFault {
        EntryFault::OutOfMemory
    }
}
