//! A stop or a failure at each call of an opening and of a put, then a crash that leaves a byte wherever it may leave any, and what is opened after that.

use super::files::{Filled, byte_at, bytes_of, disk_of, prepared};
use change_journal::Prepared;
use host_disk::{Disk, FaultDisk, FuseDisk, MemDisk};
use journal_stops::{Boot, Reopened, fail_and_open, open_and_put, stop_and_open};
use record_file::PutFault;
use std::alloc::Global;
use std::collections::VecDeque;
use std::process::Abort;
use std::test::Fail;

/// The text of the entry that is put: it cancels the deploy 1 of the site `one`.
const CANCEL: &str = "03036f6e650000000000000001";

/// A journal of 71 bytes that has this entry three times. With a fourth it has 89; that one's own gate is at 70.
const THREE: &str = "\
0146484a524e4c02 0000000000000001 01 0000000d 03036f6e650000000000000001 01 0000000d 03036f6e650000000000000001 \
01 0000000d 03036f6e650000000000000001 00";

/// The same in version 1, which has 63 bytes.
const OLD_THREE: &str = "\
0146484a524e4c01 01 0000000d 03036f6e650000000000000001 01 0000000d 03036f6e650000000000000001 01 0000000d 03036f6e650000000000000001 00";

const GATE: usize = 70;

const WHOLE: usize = 89;

/// What a crash leaves wherever it may leave any byte: a closed gate, an open one, and two that are neither.
pub(crate) const BYTES: [u8; 4] = [0, 1, 7, 255];

/// More calls than any of these runs makes.
const ALL: u64 = 1_000_000;

/// What a call does that isn't made.
#[derive(Clone, Copy, Debug, PartialEq, Eq)]
pub(crate) enum Fault {
    /// It fails, and so does each later one.
    Stop,
    /// It alone fails.
    Failure,
}

/// Whose call isn't made. The journal makes no more calls of either disk then.
#[derive(Clone, Copy, Debug, PartialEq, Eq)]
pub(crate) enum Slot {
    First,
    Second,
}

impl Slot {
    /// How many calls the disks of both slots make, where this one makes so many.
    fn calls(self, calls: u64) -> (u64, u64) {
        match self {
            Slot::First => (calls, ALL),
            Slot::Second => (ALL, calls),
        }
    }
}

/// The files of both slots, and whose disk has a fault.
#[derive(Clone, Copy)]
pub(crate) struct Case<'a> {
    pub(crate) first: &'a str,
    pub(crate) second: &'a str,
    pub(crate) slot: Slot,
}

/// Entries to be put.
fn entries(alloc: Global, count: usize) -> Result<VecDeque<Prepared>, Fail> {
    let mut all = VecDeque::new(alloc);
    for _ in 0..count {
        all.push_back(prepared(alloc, bytes_of(alloc, CANCEL)?.as_slice())?)?;
    }
    Ok(all)
}

/// Opens such files and puts so many entries, with a fault after so many calls, and a crash that leaves this byte. Then they are opened again.
pub(crate) fn reopened(
    alloc: Global,
    case: &Case<'_>,
    puts: usize,
    fault: Fault,
    calls: u64,
    byte: u8,
) -> Result<Reopened, Fail> {
    let first = disk_of(alloc, case.first)?;
    let second = disk_of(alloc, case.second)?;
    let entries = entries(alloc, puts)?;
    let calls = case.slot.calls(calls);
    let after = match fault {
        Fault::Stop => stop_and_open(alloc, first, second, calls, entries, byte),
        Fault::Failure => fail_and_open(alloc, first, second, calls, entries, byte),
    };
    Ok(after?)
}

/// How many calls of this disk the opening makes.
pub(crate) fn calls_of_opening(alloc: Global, case: &Case<'_>) -> Result<u64, Fail> {
    for calls in 0..100 {
        let after = reopened(alloc, case, 0, Fault::Stop, calls, 0)?;
        if after.found.is_some() {
            return Ok(calls);
        }
    }
    Err(Fail::from("an opening has too many calls"))
}

/// Asserts how many entries are opened after a fault in each call of a put, in turn, and then after one behind them.
fn assert_table(
    rt: &impl Abort,
    alloc: Global,
    case: &Case<'_>,
    fault: Fault,
    byte: u8,
    wanted: [u64; 5],
) -> Result<(), Fail> {
    let opening = calls_of_opening(alloc, case)?;
    for (made, entries) in (0..).zip(wanted) {
        let calls = opening.saturating_add(made);
        let after = reopened(alloc, case, 1, fault, calls, byte)?;
        assert_eq!(rt;
            after.opened.len(),
            entries,
            "{fault:?} after {made} calls, {byte}"
        );
        assert_eq!(rt; after.acknowledged, u64::from(made == 4));
    }
    Ok(())
}

/// The three entries in each slot, and those that are brought over into the second one: the disk has the fault that the entry is put to.
fn threes() -> [Case<'static>; 3] {
    [
        Case {
            first: THREE,
            second: "",
            slot: Slot::First,
        },
        Case {
            first: "",
            second: THREE,
            slot: Slot::Second,
        },
        Case {
            first: OLD_THREE,
            second: "",
            slot: Slot::Second,
        },
    ]
}

#[test]
fn a_stop_in_a_put_is_told_by_its_gate(rt: HostRuntime) -> Result<(), Fail> {
    let alloc = rt.alloc();
    for byte in BYTES {
        let third = if byte == 1 { 4 } else { 3 };
        let wanted = [3, 3, 3, third, 4];
        for case in threes() {
            assert_table(&rt, alloc, &case, Fault::Stop, byte, wanted)?;
            assert_table(&rt, alloc, &case, Fault::Failure, byte, wanted)?;
        }
    }
    Ok(())
}

/// Asserts that a crash in a put, after its gate was written, leaves this byte there, and a whole file.
fn assert_gate(rt: &impl Abort, alloc: Global, byte: u8) -> Result<(), Fail> {
    let case = threes()[0];
    let calls = calls_of_opening(alloc, &case)?.saturating_add(3);
    let fuse = FuseDisk::new(disk_of(alloc, THREE)?, calls);
    let beside = FuseDisk::new(disk_of(alloc, "")?, ALL);
    let Boot { first, .. } = open_and_put(alloc, fuse, beside, entries(alloc, 1)?);
    let mut image = first.into_disk().image(alloc, byte)?;
    assert_eq!(rt;
        (image.len(), byte_at(&mut image, GATE)?),
        (Ok(WHOLE), byte)
    );
    Ok(())
}

#[test]
fn a_crash_leaves_any_byte_at_the_gate(rt: HostRuntime) -> Result<(), Fail> {
    for byte in BYTES {
        assert_gate(&rt, rt.alloc(), byte)?;
    }
    Ok(())
}

/// Asserts that a put over these disks tells the fault of the device, and each later one that the journal is broken.
fn assert_broken<D: Disk + Drop>(
    rt: &impl Abort,
    alloc: Global,
    first: D,
    second: D,
) -> Result<(), Fail> {
    let mut journal = Filled::open(alloc, first, second)?;
    let text = bytes_of(alloc, CANCEL)?;
    assert_eq!(rt;
        journal.put(prepared(alloc, text.as_slice())?),
        Err(PutFault::Device)
    );
    for _ in 0..3 {
        assert_eq!(rt;
            journal.put(prepared(alloc, text.as_slice())?),
            Err(PutFault::Broken)
        );
    }
    Ok(())
}

/// The disks of a case.
fn disks_of(alloc: Global, case: &Case<'_>) -> Result<(MemDisk, MemDisk), Fail> {
    Ok((disk_of(alloc, case.first)?, disk_of(alloc, case.second)?))
}

#[test]
fn a_failed_call_of_a_put_breaks_the_journal(rt: HostRuntime) -> Result<(), Fail> {
    let alloc = rt.alloc();
    for case in threes() {
        let opening = calls_of_opening(alloc, &case)?;
        for made in 0..4 {
            let (one, other) = case.slot.calls(opening.saturating_add(made));
            let (first, second) = disks_of(alloc, &case)?;
            let fuses = (FuseDisk::new(first, one), FuseDisk::new(second, other));
            assert_broken(&rt, alloc, fuses.0, fuses.1)?;
            let (first, second) = disks_of(alloc, &case)?;
            let faults = (FaultDisk::new(first, one), FaultDisk::new(second, other));
            assert_broken(&rt, alloc, faults.0, faults.1)?;
        }
    }
    Ok(())
}

#[test]
fn puts_go_on_after_each_crash(rt: HostRuntime) -> Result<(), Fail> {
    let alloc = rt.alloc();
    for calls in 0..40 {
        for slot in [Slot::First, Slot::Second] {
            let case = Case {
                first: "00",
                second: "",
                slot,
            };
            let once = reopened(alloc, &case, 3, Fault::Stop, calls, 7)?;
            let found = once.opened.len();
            let (first, second) = (once.first, once.second);
            let twice = stop_and_open(
                alloc,
                first,
                second,
                slot.calls(calls),
                entries(alloc, 3)?,
                1,
            )?;
            let least = found.saturating_add(twice.acknowledged);
            assert!(&rt; found >= once.acknowledged && twice.opened.len() >= least);
            assert!(&rt; twice.opened.len() <= least.saturating_add(1));
        }
    }
    Ok(())
}
