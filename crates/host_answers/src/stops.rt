//! Why a house makes no entry.

use host_api::Refusal;
use site_change::ChangeRefusal;

/// Why a change, or the undo of one, doesn't become the next entry.
#[derive(Debug, Drop, PartialEq, Eq)]
pub enum Stop {
    /// The device of the journal failed at an earlier request.
    Broken,
    /// It is refused.
    Refused(ChangeRefusal),
    /// There was no memory for it.
    OutOfMemory,
    /// The device of the journal failed while the entry was put.
    Device,
}

impl From<Stop> for Refusal {
    ghost use Rattle.std.specs.Prelude.{◌≡◌};
    ghost use Rattle.host_answers.specs.Answers.{told_stop};

    ghost from_gives = { λ why reason. reason ≡ told_stop why };

    fn from(why: Stop) -> Refusal {
        match why {
            Stop::Broken => Refusal::Broken,
            Stop::Refused(reason) => Refusal::Change(reason),
            Stop::OutOfMemory => Refusal::OutOfMemory,
            Stop::Device => Refusal::Device,
        }
    }
}
