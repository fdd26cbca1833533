//! What is published of a desk: the list of its logs, with what is shown, and how many entries each seat made.
ghost use Rattle.std.specs.Prelude.{◌≡◌, ◌+◌, ◌≤◌, MatchOption};
ghost use Rattle.change_log.specs.Logs.{BeginsWith, last_number, with_entry};
ghost use Rattle.site_change.specs.declared.entries.Entry.{Entry as Line};

use crate::names::DeskName;
use crate::seats::{Returned, Seat};
use crate::snaps::HostSnap;
use change_log::Log;
use left_right::Absorb;
use seen_lists::{Front, Owners, Publisher, Receipt};
use std::marker::Model;
use std::sync::{Wait, ledger};

/// A receipt of a desk's log: the snapshot that has these entries.
pub type Notice<J> = Receipt<Log, J, HostSnap>;

/// The number of the last entry of a receipt's log.
pub fn number_of<J: DeskName>(notice: &Notice<J>) -> u64
    ensures { result ≡ last_number notice.now }
{
    notice.snap().log().len()
}

/// The entries of a desk, what is shown of them, and how many were made from its seats. Contracts see the entries. The publisher is boxed:
/// the toolchain proves the drop of a box, but not that of a value whose type has a bound made of a parameter.
#[derive(Drop)]
pub struct Published<J: DeskName, T: Absorb<Notice<J>, State = Log> + Drop, R: Wait + Drop> {
    opening: u64,
    count: ledger::Book<J>,
    publisher: Box<Publisher<Log, J, HostSnap, T, R>>,
}

impl<J: DeskName, T: Absorb<Notice<J>, State = Log> + Drop, R: Wait + Drop> Model
    for Published<J, T, R> {
    ghost use Rattle.std.specs.Prelude.{◌≡◌, ◌+◌, ◌≤◌};
    ghost use Rattle.change_log.specs.Logs as logs;
    ghost use Rattle.change_log.specs.Logs.{last_number};
    ghost use Rattle.change_log.specs.contracts.logs.Log as log;
    ghost use Rattle.site_desk.specs.Books.{IsCounted};

    ghost Value = { logs.Log };

    ghost coded = { log.the_row.coded };

    ghost view = { λ p. p.publisher.value.now };

    ghost invariant = { λ p.
        IsCounted (last_number J.found) p.opening p.count.total p.publisher.value.times p.publisher.value.now };
}

impl<J: DeskName, T: Absorb<Notice<J>, State = Log> + Drop, R: Wait + Drop> Published<J, T, R> {
    /// The entries of the opening, with a ledger that has counted nothing yet. It takes both out of options, since a caller that is generic
    /// in J can't pass them by value: the bound of T is made of J.
    pub fn of(
        opening: u64,
        count: &mut Option<ledger::Book<J>>,
        publisher: &mut Option<Box<Publisher<Log, J, HostSnap, T, R>>>,
    ) -> Published<J, T, R>
        requires opening { opening ≡ last_number J.found }
        requires count { MatchOption count.old ⊥ (λ book. book.total ≡ 0) }
        requires found { MatchOption publisher.old ⊥ (λ boxed. boxed.value ≡ record { times = 0; now = J.found }) }
        requires few { last_number J.found ≤ 1000000 }
        ensures { result ≡ J.found }
    {
        Published {
            opening,
            count: count.take().unwrap(),
            publisher: publisher.take().unwrap(),
        }
    }

    /// The receipt of all entries.
    pub(crate) fn last(&self) -> &Notice<J>
        ensures { result.now ≡ self.now }
    {
        self.publisher.last()
    }

    /// Tells a front of all entries. What it had seen was a beginning of them.
    pub(crate) fn tell(&mut self, seen: &mut Front<Log, J>)
        ensures same { self.new ≡ self.old }
        ensures told { seen.new ≡ self.old }
        ensures kept { BeginsWith seen.new seen.old }
    {
        self.publisher.tell(seen);
    }

    /// Shows the snapshot of the log with one entry more, which was made from this seat, and gives its receipt.
    pub(crate) fn show(
        &mut self,
        rt: &impl Wait,
        mine: &mut Seat<J>,
        log: &Log,
        owners: Owners<Log, HostSnap>,
    ) -> Notice<J>
        requires follows { (last : Line) × (log.now ≡ with_entry self.old last) }
        requires room { last_number log.now ≤ 1000000 }
        requires same { owners ≡ log.now }
        ensures shown { self.new ≡ log.now }
        ensures receipt { result ≡ log.now }
        ensures made { mine.new ≡ mine.old + 1 }
    {
        mine.count_one(&mut self.count);
        self.publisher.push(rt, log, owners)
    }

    /// The entries of the opening and those made from this seat are together no more than all entries. Nothing changes.
    pub(crate) fn audit(&mut self, mine: &mut Seat<J>)
        ensures same { self.new ≡ self.old }
        ensures made { mine.new ≡ mine.old }
        ensures floor { last_number J.found + mine.old ≤ last_number self.old }
    {
        mine.audit(&mut self.count);
    }

    /// If all seats were given back, all entries are those of the opening and those made from the seats. Nothing changes.
    pub(crate) fn tally(&mut self, all: &mut Returned<J>)
        ensures same { self.new ≡ self.old }
        ensures seats { all.new ≡ all.old }
        ensures whole { all.old.seats ≡ J.parts → last_number self.old ≡ last_number J.found + all.old.made }
    {
        all.audit(&mut self.count);
    }
}
