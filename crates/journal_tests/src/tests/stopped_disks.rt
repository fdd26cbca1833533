//! Disks that stop or fail: a call that fails changes nothing.
use super::files::{assert_bytes, disk_of};
use host_disk::{Disk, FaultDisk, FuseDisk, MemDisk};
use std::alloc::Global;
use std::process::Abort;
use std::test::Fail;

/// Asserts that each call fails, and leaves what a crash may leave.
fn assert_fails(rt: &impl Abort, disk: &mut impl Disk) {
    let mut byte = [0];
    assert!(rt; disk.len().is_err() && disk.read(0, &mut byte).is_err());
    assert!(rt; disk.write_at(0, &[3]).is_err() && disk.cut(0).is_err() && disk.sync().is_err());
}

/// A disk with three bytes, of which the last two aren't synced.
fn unsynced(alloc: Global) -> Result<MemDisk, Fail> {
    let mut disk = disk_of(alloc, "010203")?;
    disk.write_at(1, &[8, 9])?;
    Ok(disk)
}

/// Asserts that a disk is as that one is, whatever a crash leaves.
fn assert_unsynced(rt: &impl Abort, alloc: Global, disk: &mut MemDisk) -> Result<(), Fail> {
    assert_bytes(rt, alloc, disk, "010809")?;
    assert_bytes(rt, alloc, &mut disk.image(alloc, 0)?, "010000")?;
    assert_bytes(rt, alloc, &mut disk.image(alloc, 255)?, "01ffff")
}

#[test]
fn a_call_that_fails_changes_nothing(rt: HostRuntime) -> Result<(), Fail> {
    let alloc = rt.alloc();
    let mut stopped = FuseDisk::new(unsynced(alloc)?, 1);
    assert_eq!(&rt; stopped.len(), Ok(3));
    assert_fails(&rt, &mut stopped);
    assert_eq!(&rt; stopped.failures(), 5);
    assert_unsynced(&rt, alloc, &mut stopped.into_disk())?;
    for call in 0..5 {
        let mut once = FaultDisk::new(unsynced(alloc)?, 0);
        assert!(&rt; fails(&mut once, call) && once.len() == Ok(3));
        assert_eq!(&rt; once.failures(), 1);
        assert_unsynced(&rt, alloc, &mut once.into_disk())?;
    }
    Ok(())
}

/// Whether one of the five calls fails.
fn fails(disk: &mut impl Disk, call: u8) -> bool {
    match call {
        0 => disk.len().is_err(),
        1 => disk.read(0, &mut [0]).is_err(),
        2 => disk.write_at(0, &[3]).is_err(),
        3 => disk.cut(0).is_err(),
        _ => disk.sync().is_err(),
    }
}
