//! A stop or a failure at each call of an opening of two slots, a crash then, and what is opened after that.
use super::crashes::{BYTES, Case, Fault, Slot, calls_of_opening, reopened};
use journal_stops::Reopened;
use std::alloc::Global;
use std::process::Abort;
use std::test::Fail;

/// Slots of each kind that an opening mends or makes: the file of the first and that of the second, how many entries they have, and how many if the
/// gate were open that isn't.
const SLOTS: &str = "\
00 / | 0 0
 / | 0 0
01 / 07 | 0 0
00 46484a524e4c02 0000000000000001 01 ffff / 00 ffff | 0 0
0246484a524e4c01 00 / | 0 0
0146484a524e4c01 00 / | 0 0
 / 0146484a524e4c01 00 | 0 0
0146484a524e4c02 0000000000000001 00 / 00 46484a | 0 0
0146484a524e4c01 01 0000000d 03036f6e650000000000000001 01 0000000d 03036f6e650000000000000002 00 / 00 46 | 2 2
0146484a524e4c01 01 0000000d 03036f6e650000000000000001 07 0000000d 03036f6e650000000000000002 00 / | 1 1
0146484a524e4c01 00 / 0146484a524e4c02 0000000000000001 01 0000000d 03036f6e650000000000000001 00 | 1 1
0146484a524e4c02 0000000000000001 01 0000000d 03036f6e650000000000000001 01 0000000d 03036f6e650000000000000002 00 / | 2 2
0146484a524e4c02 0000000000000001 01 0000000d 03036f6e650000000000000001 07 0000000d 03036f6e650000000000000002 00 / | 1 2
 / 0146484a524e4c02 0000000000000001 01 0000000d 03036f6e650000000000000001 07 0000000d 03036f6e650000000000000002 00 | 1 2
0146484a524e4c02 0000000000000001 01 0000000d 03036f6e650000000000000001 00 0000000d 03036f6e650000000000000002 00 / | 1 1
0146484a524e4c02 0000000000000001 01 0000000d 03036f6e650000000000000001 00 ffffffffffffffff / | 1 1";

/// The two halves of a text, without spaces around them.
pub(crate) fn halves<'a>(text: &'a str, separator: &str) -> Result<(&'a str, &'a str), Fail> {
    let (one, other) = text.split_once(separator).ok_or("a text has two halves")?;
    Ok((one.trim(), other.trim()))
}

/// Asserts that a fault at any call of an opening, and a crash then, leave so many entries; or if the crash leaves open gates, so many more.
fn assert_each_call(
    rt: &impl Abort,
    alloc: Global,
    case: &Case<'_>,
    fault: Fault,
    byte: u8,
    counts: (u64, u64),
) -> Result<(), Fail> {
    for calls in 0..=calls_of_opening(alloc, case)? {
        let Reopened { opened, .. } = reopened(alloc, case, 0, fault, calls, byte)?;
        let is_last = byte == 1 && opened.len() == counts.1;
        assert!(rt;
            is_last || opened.len() == counts.0,
            "{fault:?} after {calls} calls, {byte}"
        );
    }
    Ok(())
}

/// Asserts it of slots that a row names.
fn assert_row(rt: &impl Abort, alloc: Global, row: &str, slot: Slot) -> Result<(), Fail> {
    let (files, counts) = halves(row, "|")?;
    let (first, second) = halves(files, "/")?;
    let (had, more) = halves(counts, " ")?;
    let counts = (had.parse::<u64>()?, more.parse::<u64>()?);
    let case = Case {
        first,
        second,
        slot,
    };
    for byte in BYTES {
        assert_each_call(rt, alloc, &case, Fault::Stop, byte, counts)?;
        assert_each_call(rt, alloc, &case, Fault::Failure, byte, counts)?;
    }
    Ok(())
}

/// Asserts it of all.
fn assert_rows(rt: &impl Abort, alloc: Global) -> Result<(), Fail> {
    for row in SLOTS.lines() {
        assert_row(rt, alloc, row, Slot::First)?;
        assert_row(rt, alloc, row, Slot::Second)?;
    }
    Ok(())
}

#[test]
fn a_crash_in_an_opening_leaves_the_entries(rt: HostRuntime) -> Result<(), Fail> {
    assert_rows(&rt, rt.alloc())
}
