//! What a new desk is told apart by.
ghost use Rattle.std.specs.Prelude.{◌≡◌, ◌≤◌};

use change_log::Log;
use seen_lists::NewList;
use site_desk::KnownFiles;
use std::marker::Model;
use std::sync::Wait;
use std::sync::ledger::Blank;

/// The lists and the ledger of a desk that is not open yet, which no other desk has. The ledger has a part for each seat. Contracts see the seats and
/// the names.
#[derive(Drop)]
pub struct NewDesk {
    pub(crate) seats: u64,
    pub(crate) count: Blank,
    pub(crate) entries: NewList<Log>,
    pub(crate) uploads: NewList<KnownFiles>,
}

impl Model for NewDesk {
    ghost use Rattle.std.specs.Prelude.{◌≡◌, ◌≤◌};
    ghost use Rattle.shared_desk.specs.NewDesks.{Names, coded_names};

    ghost Value = { Names };

    ghost coded = { coded_names };

    ghost view = { λ n. record { seats = n.seats; ledger = n.count.name; entries = n.entries; uploads = n.uploads } };

    ghost invariant = { λ n. (1 ≤ n.seats) × (n.count.parts ≡ n.seats) };
}

impl NewDesk {
    /// A new desk of so many seats.
    pub fn new<R: Wait>(rt: &R, seats: u64) -> NewDesk
        requires some { 1 ≤ seats }
        requires few { seats ≤ 16 }
        ensures { result.seats ≡ seats }
    {
        NewDesk {
            seats,
            count: Blank::new(seats),
            entries: NewList::new(rt),
            uploads: NewList::new(rt),
        }
    }
}
