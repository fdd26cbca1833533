//! Which file of two slots is read, and what an opening makes of one of version 1 and of slots that aren't in use.
use super::files::{assert_bytes, disk_of, opened};
use super::opened_slots::halves;
use host_disk::MemDisk;
use record_file::OpenFault;
use std::alloc::Global;
use std::process::Abort;
use std::test::Fail;

/// Three entries in a file of version 1, of 63 bytes, and in one of version 2, of 71 bytes, whose gates are at 16, 34, 52 and 70.
const OLD: &str = "\
0146484a524e4c01 01 0000000d 03036f6e650000000000000001 01 0000000d 03036f6e650000000000000001 01 0000000d 03036f6e650000000000000001 00";

const CURRENT: &str = "\
0146484a524e4c02 0000000000000001 01 0000000d 03036f6e650000000000000001 01 0000000d 03036f6e650000000000000001 \
01 0000000d 03036f6e650000000000000001 00";

/// A file without entries.
const EMPTY: &str = "0146484a524e4c02 0000000000000001 00";

/// Asserts how many entries are opened of two slots, or why none, and what the slots have then.
fn assert_opened(
    rt: &impl Abort,
    alloc: Global,
    files: (&str, &str),
    wanted: Result<u64, OpenFault>,
    left: (&str, &str),
) -> Result<(), Fail> {
    let mut first: MemDisk = disk_of(alloc, files.0)?;
    let mut second: MemDisk = disk_of(alloc, files.1)?;
    assert_eq!(rt; opened(alloc, &mut first, &mut second), wanted);
    assert_bytes(rt, alloc, &mut first, left.0)?;
    assert_bytes(rt, alloc, &mut second, left.1)
}

#[test]
fn a_file_of_version_1_is_brought_over(rt: HostRuntime) -> Result<(), Fail> {
    let alloc = rt.alloc();
    assert_opened(&rt, alloc, (OLD, ""), Ok(3), (OLD, CURRENT))?;
    assert_opened(&rt, alloc, ("00 ff", OLD), Ok(3), (CURRENT, OLD))?;
    assert_opened(&rt, alloc, (OLD, CURRENT), Ok(3), (OLD, CURRENT))?;
    assert_opened(&rt, alloc, (CURRENT, OLD), Ok(3), (CURRENT, OLD))?;
    assert_opened(&rt, alloc, (OLD, EMPTY), Ok(0), (OLD, EMPTY))
}

#[test]
fn a_slot_that_is_not_in_use_has_a_byte_at_most(rt: HostRuntime) -> Result<(), Fail> {
    let alloc = rt.alloc();
    assert_opened(&rt, alloc, ("", ""), Ok(0), ("", EMPTY))?;
    assert_opened(&rt, alloc, ("01", "07"), Ok(0), ("01", EMPTY))?;
    assert_opened(&rt, alloc, ("00 4648", ""), Ok(0), ("00", EMPTY))?;
    assert_opened(&rt, alloc, (CURRENT, "00 46484a"), Ok(3), (CURRENT, "00"))?;
    assert_opened(&rt, alloc, ("07 46", CURRENT), Ok(3), ("07", CURRENT))
}

/// Slots in use with a header that is short or wrong, and two in use of one generation.
const FOREIGN: &str = "\
01 46 /
0146484a524e4c01 /
0146484a524e4c03 0000000000000002 00 /
0146484a524e4c02 0000000000000001 /
0146484a524e4c02 0000000000000000 00 /
0146484a524e4c02 0000000000000002 00 /
0146484a524e4d01 00 /
0146484a524e4c02 0000000000000001 00 / 0146484a524e4c02 0000000000000001 00
0146484a524e4c01 00 / 0146484a524e4c01 00
0146484a524e4c02 0000000000000001 00 / 01 46
0146484a524e4c01 00 / 0100";

#[test]
fn slots_without_a_header_are_left_as_they_are(rt: HostRuntime) -> Result<(), Fail> {
    let alloc = rt.alloc();
    for row in FOREIGN.lines() {
        let (first, second) = halves(row, "/")?;
        assert_opened(
            &rt,
            alloc,
            (first, second),
            Err(OpenFault::BadHeader),
            (first, second),
        )?;
        assert_opened(
            &rt,
            alloc,
            (second, first),
            Err(OpenFault::BadHeader),
            (second, first),
        )?;
    }
    Ok(())
}
