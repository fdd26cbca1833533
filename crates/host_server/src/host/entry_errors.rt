//! Why a host gets no entry.

use host_answers::Stop;
use host_api::Refusal;
use journaled_history::EntryFault;
use site_change::{ChangeError, ChangeRefusal};

/// Why a change, or the undo of one, doesn't become the next entry.
#[derive(Debug, Drop, PartialEq, Eq)]
pub(crate) enum EntryError {
    /// It is refused.
    Refused(ChangeRefusal),
    /// There was no memory for it.
    OutOfMemory,
    /// The device of the journal failed while it was put.
    Device,
}

impl From<EntryFault> for EntryError {
    ghost use Rattle.std.specs.Prelude.{◌≡◌};
    ghost use Rattle.host_server.specs.Entries.{of_entry_fault};

    ghost from_gives = { λ fault error. error ≡ of_entry_fault fault };

    fn from(fault: EntryFault) -> EntryError {
        match fault {
            EntryFault::OutOfMemory => EntryError::OutOfMemory,
            EntryFault::Device => EntryError::Device,
        }
    }
}

impl From<ChangeError> for EntryError {
    ghost use Rattle.std.specs.Prelude.{◌≡◌};
    ghost use Rattle.host_server.specs.Entries.{of_change_error};

    ghost from_gives = { λ old error. error ≡ of_change_error old };

    fn from(error: ChangeError) -> EntryError {
        match error {
            ChangeError::Refused(reason) => EntryError::Refused(reason),
            ChangeError::OutOfMemory => EntryError::OutOfMemory,
        }
    }
}

impl From<EntryError> for Stop {
    ghost use Rattle.std.specs.Prelude.{◌≡◌};
    ghost use Rattle.host_server.specs.Entries.{stop_of};

    ghost from_gives = { λ error why. why ≡ stop_of error };

    fn from(error: EntryError) -> Stop {
        match error {
            EntryError::Refused(reason) => Stop::Refused(reason),
            EntryError::OutOfMemory => Stop::OutOfMemory,
            EntryError::Device => Stop::Device,
        }
    }
}

impl From<EntryError> for Refusal {
    ghost use Rattle.std.specs.Prelude.{◌≡◌};
    ghost use Rattle.host_answers.specs.Answers.{told_stop};
    ghost use Rattle.host_server.specs.Entries.{stop_of};

    ghost from_gives = { λ error reason. reason ≡ told_stop (stop_of error) };

    fn from(error: EntryError) -> Refusal {
        Stop::from(error).into()
    }
}
