//! One boot: a journal is opened, and entries are put into it.
ghost use Rattle.std.specs.Prelude.{◌≡◌, ◌+◌, ◌<◌, ◌≤◌, IfSome, IsNone, IsTrue, List, MatchOption, false, length, ℕ};
ghost use Rattle.change_journal.specs.Texts.{AllStored, MayHoldNext};
ghost use Rattle.change_log.specs.Logs.{IsWhole, last_number};
ghost use Rattle.site_change.specs.declared.entries.Entry as entry;
ghost use Rattle.record_file.specs.Pairs.{Order};
ghost use Rattle.journal_stops.specs.Boots.{HasNext, LeavesPuts};

use change_journal::{Journal, Prepared, laws};
use change_log::Log;
use host_disk::Disk;
use std::alloc::Global;
use std::collections::VecDeque;

/// What became of a boot: the disks of its two slots; the entries that were found, if the journal could be opened; and how many others were acknowledged.
#[derive(Drop)]
pub struct Boot<D> {
    pub first: D,
    pub second: D,
    pub found: Option<Log>,
    pub acknowledged: u64,
}

/// Opens a journal, and puts entries one after another until one fails. A crash before it left some entries, and perhaps one more; it leaves
/// the same if the journal can't be opened. If it is opened, it had just these, and from then on a crash leaves what was found, and all
/// that was acknowledged since.
pub fn open_and_put<D: Disk>(
    alloc: Global,
    first: D,
    second: D,
    puts: VecDeque<Prepared>,
) -> Boot<D>
    ensures unopened { IsTrue D.is_modelled → (order : Order) (had : List entry.Entry) (next : entry.Entry)
        → MayHoldNext order had next (D.may_leave first) (D.may_leave second) → IsNone result.found
        → (result.acknowledged ≡ 0)
        × MayHoldNext order had next (D.may_leave result.first) (D.may_leave result.second) }
    ensures found { IsTrue D.is_modelled → (order : Order) (had : List entry.Entry) (next : entry.Entry)
        → length had < 1000000 → MayHoldNext order had next (D.may_leave first) (D.may_leave second)
        → IfSome result.found (λ log. HasNext had next log.entries) }
    ensures put { IsTrue D.is_modelled → IfSome result.found (λ log. length log.entries + length puts.items ≤ 1000000
        → LeavesPuts (D.may_leave result.first) (D.may_leave result.second) log.entries puts.items
        result.acknowledged) }
{
    laws::slots_hold_an_entry_whose_gate_is_open();
    match Journal::open(alloc, first, second) {
        Ok((journal, log)) => put_after(journal, log, puts),
        Err(stop) => Boot {
            first: stop.first,
            second: stop.second,
            found: None,
            acknowledged: 0,
        },
    }
}

/// Puts entries after those that a journal was found to have, if there are numbers left for all of them.
fn put_after<D: Disk>(mut journal: Journal<D>, log: Log, puts: VecDeque<Prepared>) -> Boot<D>
    requires puts { journal.entries ≡ log }
    requires all { IsWhole log }
    requires whole { journal.broken ≡ false }
    requires stored { IsTrue D.is_modelled
        → AllStored (D.may_leave journal.first) (D.may_leave journal.second) log.entries }
    ensures found { result.found ≡ Some log }
    ensures put { IsTrue D.is_modelled → length log.entries + length puts.items ≤ 1000000
        → LeavesPuts (D.may_leave result.first) (D.may_leave result.second) log.entries puts.items
        result.acknowledged }
{
    let mut acknowledged = 0;
    if log.len() <= 1_000_000 && puts.len() as u64 <= 1_000_000 - log.len() {
        acknowledged = put_all(&mut journal, puts);
    }
    let (first, second) = journal.into_disk();
    Boot {
        first,
        second,
        found: Some(log),
        acknowledged,
    }
}

/// Puts entries one after another, until one fails, and tells how many were acknowledged.
fn put_all<D: Disk>(journal: &mut Journal<D>, mut puts: VecDeque<Prepared>) -> u64
    requires whole { journal.old.broken ≡ false }
    requires stored { IsTrue D.is_modelled
        → AllStored (D.may_leave journal.old.first) (D.may_leave journal.old.second)
        journal.old.entries.entries }
    requires few { last_number journal.old.entries + length puts.items ≤ 1000000 }
    ensures { IsTrue D.is_modelled
        → LeavesPuts (D.may_leave journal.new.first) (D.may_leave journal.new.second)
        journal.old.entries.entries puts.items result }
{
    let mut acknowledged = 0;
    while let Some(prepared) = puts.pop_front() {
        if journal.put(prepared).is_err() {
            return acknowledged;
        }
        acknowledged += 1;
    }
    acknowledged
}
