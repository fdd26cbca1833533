//! Calls that may run out of memory: what they leave then, and what they answer else. scripts/fail-allocations refuses each
//! allocation of these in turn.
ghost use Rattle.std.specs.Prelude.{◌≡◌};

use super::files::{Filled, assert_bytes, bytes_of, disk_of, opened, prepared};
use change_journal::laws::an_entry_with_a_text_is_in_range;
use entry_texts::{decode, encode};
use host_disk::{Disk, LentDisk, MemDisk};
use record_file::OpenFault;
use std::alloc::Global;
use std::process::Abort;
use std::test::Fail;

/// The texts of entries of all kinds, which docs/STORAGE.md describes. test_journal_files.py has the entries.
const ENTRIES: &str = "\
00 03 6f6e65 0000000000000005
01 03 6f6e65 00 00000000
01 03 6f6e65 01 00000000
01 03 6f6e65 02 00000000
01 03 6f6e65 03 00000001 0002 2f61 00
01 03 6f6e65 00 00000002 0002 2f61 01 aaf4c61ddcc5e8a2dabede0f3b482cd9aea9434d 0004 2f612f62 01 a9993e364706816aba3e25717850c26c9cd0d89d
01 02 612d 01 00000002 0003 2fc3a9 01 da39a3ee5e6b4b0d3255bfef95601890afd80709 0003 2fc3aa 00
02 01 39 00000000000f4240
03 03 6f6e65 0000000000000001
04 03 6f6e65 04 6e657874 0000000000000100
05 03 6f6e65 04 6e657874
06 03 6f6e65 0006 2f612e747874 0006 2f632e747874
07 03 6f6e65 0006 2f612e747874
08 03 6f6e65 0000000000000002
09 03 6f6e65 0000000000010000";

/// A file of version 1: three entries, a gate that isn't shut, and bytes after it.
const OLD: &str = "\
0146484a524e4c01 01 0000000d 03036f6e650000000000000001 01 00000015 06036f6e6500062f612e74787400062f632e747874 \
01 0000000f 01036f6e65010000000100022f6100 07 0000000d 03";

/// The same in version 2.
const FILE: &str = "\
0146484a524e4c02 0000000000000001 01 0000000d 03036f6e650000000000000001 01 00000015 06036f6e6500062f612e74787400062f632e747874 \
01 0000000f 01036f6e65010000000100022f6100 07 0000000d 03";

/// That file after it was opened, and what an opening makes of the older one.
const OPENED: &str = "\
0146484a524e4c02 0000000000000001 01 0000000d 03036f6e650000000000000001 01 00000015 06036f6e6500062f612e74787400062f632e747874 \
01 0000000f 01036f6e65010000000100022f6100 00";

/// The same after a removal of `/a.txt` and one of the alias `next` were put.
const PUT: &str = "\
0146484a524e4c02 0000000000000001 01 0000000d 03036f6e650000000000000001 01 00000015 06036f6e6500062f612e74787400062f632e747874 \
01 0000000f 01036f6e65010000000100022f6100 01 0000000d 07036f6e6500062f612e747874 01 0000000a 05036f6e65046e657874 00";

/// Asserts what is opened of two slots, of which the first has this file: three entries, or nothing, and then the slots are as before.
fn assert_opened_or_kept(
    rt: &impl Abort,
    alloc: Global,
    first: &mut MemDisk,
    second: &mut MemDisk,
    file: &str,
) -> Result<(), Fail> {
    let outcome = opened(alloc, first, second);
    if outcome == Err(OpenFault::OutOfMemory) {
        assert_bytes(rt, alloc, first, file)?;
        return assert_bytes(rt, alloc, second, "");
    }
    assert_eq!(rt; outcome, Ok(3));
    Ok(())
}

/// Asserts that so many entries are opened of two slots, which then have these bytes.
fn assert_opened(
    rt: &impl Abort,
    alloc: Global,
    first: &mut MemDisk,
    second: &mut MemDisk,
    count: u64,
    wanted: (&str, &str),
) -> Result<(), Fail> {
    assert_eq!(rt; opened(alloc, first, second)?, count);
    assert_bytes(rt, alloc, first, wanted.0)?;
    assert_bytes(rt, alloc, second, wanted.1)
}

#[test]
fn an_opening_without_memory_writes_nothing(rt: HostRuntime) -> Result<(), Fail> {
    let alloc = rt.alloc();
    for (file, wanted) in [(FILE, (OPENED, "")), (OLD, (OLD, OPENED))] {
        let mut first = disk_of(alloc, file)?;
        let mut second = disk_of(alloc, "")?;
        assert_opened_or_kept(&rt, alloc, &mut first, &mut second, file)?;
        assert_opened(&rt, alloc, &mut first, &mut second, 3, wanted)?;
    }
    Ok(())
}

/// The text of the entry that these bytes spell.
fn written_again(alloc: Global, bytes: &[u8]) -> Result<Vec<u8>, Fail> {
    let entry = decode(alloc, bytes)?;
    // A law by which what was read may be written.
    an_entry_with_a_text_is_in_range();
    Ok(encode(alloc, &entry)?)
}

#[test]
fn memory_for_each_entry_that_is_read_and_written(rt: HostRuntime) -> Result<(), Fail> {
    for row in ENTRIES.lines() {
        let bytes = bytes_of(rt.alloc(), row)?;
        let again = written_again(rt.alloc(), bytes.as_slice())?;
        assert!(rt; again == bytes, "{row}");
    }
    Ok(())
}

/// Puts the entry that these digits spell.
fn put<D: Disk + Drop>(alloc: Global, journal: &mut Filled<D>, digits: &str) -> Result<(), Fail> {
    let text = bytes_of(alloc, digits)?;
    let entry = prepared(alloc, text.as_slice())?;
    Ok(journal.put(entry)?)
}

/// Opens two slots and puts two entries.
fn put_both(alloc: Global, first: &mut MemDisk, second: &mut MemDisk) -> Result<(), Fail> {
    let mut journal = Filled::open(alloc, LentDisk::new(first), LentDisk::new(second))?;
    put(alloc, &mut journal, "07036f6e6500062f612e747874")?;
    put(alloc, &mut journal, "05036f6e65046e657874")
}

#[test]
fn memory_for_entries_that_are_put(rt: HostRuntime) -> Result<(), Fail> {
    let alloc = rt.alloc();
    for (file, wanted) in [(FILE, (PUT, "")), (OLD, (OLD, PUT))] {
        let mut first = disk_of(alloc, file)?;
        let mut second = disk_of(alloc, "")?;
        put_both(alloc, &mut first, &mut second)?;
        assert_opened(&rt, alloc, &mut first, &mut second, 5, wanted)?;
    }
    Ok(())
}
