//! A device that fails at each call of an opening and of a put, and what is opened afterwards; and one that is full.
ghost use Rattle.std.specs.Prelude.{◌≡◌};

use super::crashes::Slot;
use super::failing_disk::{FailingDisk, Fails, Leaves};
use super::files::{Filled, assert_bytes, bytes_of, disk_of, opened, prepared};
use super::opened_slots::halves;
use change_journal::{Journal, Prepared};
use host_disk::{LentDisk, MemDisk};
use record_file::{OpenFault, PutFault};
use std::alloc::Global;
use std::process::Abort;
use std::test::Fail;

/// The text of the entry that is put: it cancels the deploy 9 of the site `one`.
const CANCEL: &str = "03036f6e650000000000000009";

/// What failed.
#[derive(Clone, Copy, Debug, PartialEq, Eq)]
enum Stage {
    Opening,
    Putting,
    Nothing,
    /// Something that isn't a failing device, or an answer in its place.
    Wrong,
}

/// Whether a journal is broken, and refuses an entry for that.
fn is_broken(journal: &mut Filled<LentDisk<'_, FailingDisk<MemDisk>>>, entry: Prepared) -> bool {
    journal.is_broken() && journal.put(entry) == Err(PutFault::Broken)
}

/// Puts two entries, the second of which is refused where the device failed at the first, since that broke the journal.
fn put_two(
    journal: &mut Filled<LentDisk<'_, FailingDisk<MemDisk>>>,
    entry: Prepared,
    again: Prepared,
) -> Stage {
    match journal.put(entry) {
        Ok(()) => Stage::Nothing,
        Err(PutFault::Device) if is_broken(journal, again) => Stage::Putting,
        Err(_) => Stage::Wrong,
    }
}

/// The disks of both slots.
#[derive(Drop)]
struct Disks {
    first: FailingDisk<MemDisk>,
    second: FailingDisk<MemDisk>,
}

/// The files of two slots, and how the device of one of them fails: how many calls, and what the first of these leaves.
#[derive(Clone, Copy)]
struct Case<'a> {
    first: &'a str,
    second: &'a str,
    slot: Slot,
    fails: Fails,
    leaves: Leaves,
}

impl Case<'_> {
    /// The disks, of which the one fails after so many calls.
    fn disks(&self, alloc: Global, before: usize) -> Result<Disks, Fail> {
        let (one, other) = match self.slot {
            Slot::First => (before, usize::MAX),
            Slot::Second => (usize::MAX, before),
        };
        let (first, second) = (disk_of(alloc, self.first)?, disk_of(alloc, self.second)?);
        Ok(Disks {
            first: FailingDisk::new(first, one, self.fails, self.leaves),
            second: FailingDisk::new(second, other, self.fails, self.leaves),
        })
    }

    /// How many calls the disk that fails was asked for.
    fn calls(&self, disks: &Disks) -> usize {
        match self.slot {
            Slot::First => disks.first.calls(),
            Slot::Second => disks.second.calls(),
        }
    }
}

/// Opens the journal, and puts an entry.
fn run(alloc: Global, disks: &mut Disks, text: &[u8]) -> Result<Stage, Fail> {
    let entry = prepared(alloc, text)?;
    let again = prepared(alloc, text)?;
    let (first, second) = (
        LentDisk::new(&mut disks.first),
        LentDisk::new(&mut disks.second),
    );
    match Filled::open(alloc, first, second) {
        Ok(mut journal) => Ok(put_two(&mut journal, entry, again)),
        Err(OpenFault::Device) => Ok(Stage::Opening),
        Err(fault) => Err(Fail::from(fault)),
    }
}

/// Asserts that a call which failed was the last one, and that there were so many before it.
fn assert_calls(rt: &impl Abort, calls: usize, before: usize, stage: Stage) {
    let failed = usize::from(stage != Stage::Nothing);
    assert_eq!(rt; calls, before.saturating_add(failed), "{stage:?}");
}

/// What fails where the device does so after so many calls, and how many entries are opened after that.
fn stopped(
    rt: &impl Abort,
    alloc: Global,
    case: &Case<'_>,
    before: usize,
) -> Result<(Stage, u64), Fail> {
    let text = bytes_of(alloc, CANCEL)?;
    let mut disks = case.disks(alloc, before)?;
    let stage = run(alloc, &mut disks, text.as_slice())?;
    assert_calls(rt, case.calls(&disks), before, stage);
    disks.first.mend();
    disks.second.mend();
    Ok((stage, opened(alloc, &mut disks.first, &mut disks.second)?))
}

/// What becomes of an opening and a put, where the device fails after each number of calls: how many entries are opened
/// afterwards, for the calls of the opening and then for those of the put.
fn told_stops(rt: &impl Abort, alloc: Global, case: &Case<'_>) -> Result<String, Fail> {
    let mut text = String::new(alloc);
    let mut last = Stage::Opening;
    for before in 0..1_000 {
        let (stage, entries) = stopped(rt, alloc, case, before)?;
        if stage != last {
            write!(text, " {stage:?}")?;
            last = stage;
        }
        write!(text, " {entries}")?;
        if stage == Stage::Nothing {
            return Ok(text);
        }
    }
    Err(Fail::from("an opening and a put have too many calls"))
}

/// The files of both slots, how many entries they have, and to which slot the next one is put: some that were being made, none, one that is
/// new, and in each version one without a tail and one with one.
const SLOTS: &str = "\
00 46484a524e4c02 0000000000000001 01 ffff / | 0 Second
 / | 0 Second
01 / 00 46484a | 0 Second
0146484a524e4c01 00 / | 0 Second
 / 0146484a524e4c01 00 | 0 First
0146484a524e4c01 01 0000000d 03036f6e650000000000000001 01 0000000d 03036f6e650000000000000002 00 / | 2 Second
0146484a524e4c01 01 0000000d 03036f6e650000000000000001 07 0000000d 03036f6e650000000000000002 00 / | 1 Second
0146484a524e4c02 0000000000000001 01 0000000d 03036f6e650000000000000001 07 0000000d 03036f6e650000000000000002 00 / | 1 First
 / 0146484a524e4c02 0000000000000001 01 0000000d 03036f6e650000000000000001 00 ffffffffffffffff | 1 Second";

/// Asserts that each number of a text is this one.
fn assert_each(rt: &impl Abort, text: &str, number: &str) {
    let is_each = text.split(' ').all(|word| word == number);
    assert!(rt; is_each, "{text}");
}

/// Asserts that a failure at any call of an opening leaves the entries, and that one at a call of a put, if it is made to this slot, leaves
/// them or has the new one too: from the third call on, which opens the gate, where that is done, and else at the fourth.
fn assert_stops(
    rt: &impl Abort,
    alloc: Global,
    case: &Case<'_>,
    had: u64,
    is_put: bool,
) -> Result<(), Fail> {
    let text = told_stops(rt, alloc, case)?;
    let (stops, end) = halves(text.as_str(), " Nothing")?;
    let next = had.saturating_add(1);
    let third = if case.leaves == Leaves::All {
        next
    } else {
        had
    };
    let each = format!(in alloc; "{had}")?;
    let last = format!(in alloc; "{next}")?;
    assert_eq!(rt; end, last.as_str());
    if !is_put {
        assert_each(rt, stops, each.as_str());
        return Ok(());
    }
    let (opening, putting) = halves(stops, " Putting")?;
    let wanted = format!(in alloc; "{had} {had} {third} {next}")?;
    assert_each(rt, opening, each.as_str());
    assert_eq!(rt; putting, wanted.as_str());
    Ok(())
}

/// Asserts what a device leaves that fails so many calls and leaves this, for slots that a row names.
fn assert_row(
    rt: &impl Abort,
    alloc: Global,
    row: &str,
    fails: Fails,
    leaves: Leaves,
) -> Result<(), Fail> {
    let (files, counts) = halves(row, "|")?;
    let (first, second) = halves(files, "/")?;
    let (had, put) = halves(counts, " ")?;
    for slot in [Slot::First, Slot::Second] {
        let case = Case {
            first,
            second,
            slot,
            fails,
            leaves,
        };
        let is_put = (slot == Slot::First) == (put == "First");
        assert_stops(rt, alloc, &case, had.parse::<u64>()?, is_put)?;
    }
    Ok(())
}

/// Asserts what a device leaves that fails so many calls.
fn assert_all_stops(rt: &impl Abort, alloc: Global, fails: Fails) -> Result<(), Fail> {
    for row in SLOTS.lines() {
        for leaves in [Leaves::Nothing, Leaves::Half, Leaves::Junk, Leaves::All] {
            assert_row(rt, alloc, row, fails, leaves)?;
        }
    }
    Ok(())
}

#[test]
fn a_stop_leaves_the_entries_with_the_new_one_or_without(rt: HostRuntime) -> Result<(), Fail> {
    assert_all_stops(&rt, rt.alloc(), Fails::Always)
}

#[test]
fn a_device_that_works_again_leaves_the_journal_broken(rt: HostRuntime) -> Result<(), Fail> {
    assert_all_stops(&rt, rt.alloc(), Fails::Once)
}

/// Asserts that an entry isn't put, for this reason.
fn assert_refused(
    rt: &impl Abort,
    alloc: Global,
    journal: &mut Filled<MemDisk>,
    fault: PutFault,
) -> Result<(), Fail> {
    let text = bytes_of(alloc, CANCEL)?;
    let entry = prepared(alloc, text.as_slice())?;
    assert_eq!(rt; journal.put(entry), Err(fault));
    Ok(())
}

/// Asserts that a journal is broken, and that its file in the second slot has no entries.
fn assert_broken(rt: &impl Abort, alloc: Global, journal: Journal<MemDisk>) -> Result<(), Fail> {
    assert!(rt; journal.is_broken());
    let (mut first, mut second) = journal.into_disk();
    assert_bytes(rt, alloc, &mut first, "")?;
    assert_bytes(
        rt,
        alloc,
        &mut second,
        "0146484a524e4c02 0000000000000001 00",
    )
}

#[test]
fn a_full_disk_breaks_the_journal(rt: HostRuntime) -> Result<(), Fail> {
    let alloc = rt.alloc();
    let first = MemDisk::new(alloc, 34)?;
    let second = MemDisk::new(alloc, 34)?;
    let mut journal = Filled::open(alloc, first, second)?;
    assert_refused(&rt, alloc, &mut journal, PutFault::Device)?;
    assert_refused(&rt, alloc, &mut journal, PutFault::Broken)?;
    assert_broken(&rt, alloc, journal.into_journal())
}
