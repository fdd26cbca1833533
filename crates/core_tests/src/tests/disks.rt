//! Disks in memory, lent, and in a file.

use host_disk::{Disk, FileDisk, LentDisk, MemDisk};
use std::fs;
use std::path::PathBuf;
use std::process::Abort;
use std::test::Fail;

/// A file in the folder where the tests run.
const PATH: &str = "a_disk_of_a_test";

/// How many writes a disk in memory records between two syncs.
const MAX_WRITES: usize = 16;

/// Whether a disk has these bytes, of which there are 8 at most.
fn has(disk: &mut impl Disk, wanted: &[u8]) -> bool {
    let mut buffer = [0; 8];
    let Some(bytes) = buffer.get_mut(..wanted.len()) else {
        return false;
    };
    disk.len() == Ok(wanted.len()) && disk.read(0, bytes).is_ok() && *bytes == *wanted
}

fn assert_has(rt: &impl Abort, disk: &mut impl Disk, wanted: &[u8]) {
    assert!(rt; has(disk, wanted));
}

/// Writes over what is there and past its end, and cuts: an empty disk then has "abx".
fn assert_kept(rt: &impl Abort, disk: &mut impl Disk) {
    assert!(rt; disk.write_at(0, b"abcd").is_ok());
    assert_has(rt, disk, b"abcd");
    assert!(rt; disk.write_at(2, b"xyz!").is_ok());
    assert_has(rt, disk, b"abxyz!");
    assert!(rt; disk.cut(3).is_ok() && disk.cut(9).is_ok());
    assert!(rt; disk.sync().is_ok());
    assert_has(rt, disk, b"abx");
    assert!(rt; disk.failures() == 0);
}

/// What isn't there is neither read nor written behind, and each failure is counted.
fn assert_refused(rt: &impl Abort, disk: &mut impl Disk) {
    let mut two = [0; 2];
    assert!(rt; disk.read(2, &mut two).is_err());
    assert!(rt; disk.write_at(4, b"").is_err());
    assert!(rt; disk.write_at(usize::MAX, b"a").is_err());
    assert!(rt; disk.read(usize::MAX, &mut two).is_err());
    assert_has(rt, disk, b"abx");
    assert!(rt; disk.failures() == 4);
}

#[test]
fn a_disk_in_memory_keeps_what_is_written(rt: HostRuntime) -> Result<(), Fail> {
    let mut disk = MemDisk::new(rt.alloc(), 6)?;
    assert_kept(&rt, &mut disk);
    assert_refused(&rt, &mut disk);
    Ok(())
}

/// Writes so many times, and answers how many of them succeeded.
fn written(disk: &mut impl Disk, times: usize) -> usize {
    (0..times)
        .filter(|_| disk.write_at(0, b"a").is_ok())
        .count()
}

#[test]
fn a_disk_in_memory_is_full(rt: HostRuntime) -> Result<(), Fail> {
    let mut disk = MemDisk::new(rt.alloc(), 4)?;
    assert!(rt; disk.write_at(0, b"abcde").is_err());
    assert!(rt; written(&mut disk, MAX_WRITES + 1) == MAX_WRITES);
    assert!(rt; disk.sync().is_ok());
    assert!(rt; disk.write_at(1, b"bcd").is_ok());
    assert_has(&rt, &mut disk, b"abcd");
    assert!(rt; disk.failures() == 2);
    Ok(())
}

#[test]
fn the_owner_has_a_lent_disk_again(rt: HostRuntime) -> Result<(), Fail> {
    let mut disk = MemDisk::new(rt.alloc(), 6)?;
    assert_kept(&rt, &mut LentDisk::new(&mut disk));
    assert_has(&rt, &mut disk, b"abx");
    Ok(())
}

/// The disk of the file at a path.
fn opened<'a>(rt: &'a HostRuntime, path: &str) -> Result<FileDisk<'a, HostRuntime>, Fail> {
    Ok(FileDisk::open(rt, PathBuf::from_str(rt.alloc(), path)?)?)
}

/// Whether the file at a path is refused as a disk.
fn is_refused(rt: &HostRuntime, path: &str) -> Result<bool, Fail> {
    Ok(FileDisk::open(rt, PathBuf::from_str(rt.alloc(), path)?).is_err())
}

#[test]
fn a_file_keeps_what_is_written(rt: HostRuntime) -> Result<(), Fail> {
    let _ = fs::remove_file(&rt, PATH);
    let mut disk = opened(&rt, PATH)?;
    assert_kept(&rt, &mut disk);
    assert_refused(&rt, &mut disk);
    assert!(rt; is_refused(&rt, PATH)?);
    drop(disk);
    assert_has(&rt, &mut opened(&rt, PATH)?, b"abx");
    fs::remove_file(&rt, PATH)?;
    assert!(rt; is_refused(&rt, "/")?);
    Ok(())
}
