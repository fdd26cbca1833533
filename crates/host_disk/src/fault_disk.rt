//! A disk that fails once.
ghost use Rattle.std.specs.Prelude.{◌≡◌, ◌⊎◌, MatchResult, None, Some};
ghost use Rattle.host_disk.specs.Calls.{IsCountedOff};

use crate::counts::counted;
use crate::disks::Disk;
use crate::faults::DeviceFault;

/// A disk that fails one call, which changes nothing, and makes all others.
#[derive(Drop)]
pub struct FaultDisk<D> {
    disk: D,
    /// How many calls it makes before the one that fails, unless that has failed.
    left: Option<u64>,
    failures: u64,
}

impl<D: Disk> FaultDisk<D> {
    /// A disk that makes so many calls, and then fails one.
    pub fn new(disk: D, calls: u64) -> FaultDisk<D>
        ensures disk { result.disk ≡ disk }
        ensures left { result.left ≡ Some calls }
        ensures failures { result.failures ≡ 0 }
    {
        FaultDisk {
            disk,
            left: Some(calls),
            failures: 0,
        }
    }

    /// Hands out the disk within, as the last call that was made left it.
    pub fn into_disk(self) -> D
        ensures { result ≡ self.disk }
    {
        self.disk
    }

    /// Counts a call off, unless it is the one that fails.
    fn count_off(&mut self) -> Result<(), DeviceFault>
        ensures disk { self.new.disk ≡ self.old.disk }
        ensures failures { self.new.failures ≡ self.old.failures }
        ensures left { MatchResult result (λ _. IsCountedOff self.old.left self.new.left)
            (λ _. (self.old.left ≡ Some 0) × (self.new.left ≡ None)) }
    {
        match self.left {
            None => Ok(()),
            Some(0) => {
                self.left = None;
                Err(DeviceFault)
            }
            Some(more) => {
                self.left = Some(more - 1);
                Ok(())
            }
        }
    }
}

impl<D: Disk> Disk for FaultDisk<D> {
    ghost is_modelled = { D.is_modelled };

    ghost seen = { λ once. D.seen once.disk };

    ghost may_leave = { λ once. D.may_leave once.disk };

    ghost moment = { λ once. D.moment once.disk };

    ghost left_since = { λ once. D.left_since once.disk };

    ghost faults = { λ once. once.failures };

    ghost may_fail = { λ once call. (once.left ≡ Some 0) ⊎ D.may_fail once.disk call };

    ghost may_stay = { λ once. D.may_stay once.disk };

    ghost counts_now = { λ once. D.counts_now once.disk };

    ghost only_now = { λ once. D.only_now once.disk };

    fn failures(&self) -> u64 {
        self.failures
    }

    fn len(&mut self) -> Result<usize, DeviceFault> {
        if self.count_off().is_err() {
            return counted(&mut self.failures, Err(DeviceFault));
        }
        let outcome = self.disk.len();
        counted(&mut self.failures, outcome)
    }

    fn read(&mut self, at: usize, bytes: &mut [u8]) -> Result<(), DeviceFault> {
        if self.count_off().is_err() {
            return counted(&mut self.failures, Err(DeviceFault));
        }
        let outcome = self.disk.read(at, bytes);
        counted(&mut self.failures, outcome)
    }

    fn write_at(&mut self, at: usize, bytes: &[u8]) -> Result<(), DeviceFault> {
        if self.count_off().is_err() {
            return counted(&mut self.failures, Err(DeviceFault));
        }
        let outcome = self.disk.write_at(at, bytes);
        counted(&mut self.failures, outcome)
    }

    fn cut(&mut self, size: usize) -> Result<(), DeviceFault> {
        if self.count_off().is_err() {
            return counted(&mut self.failures, Err(DeviceFault));
        }
        let outcome = self.disk.cut(size);
        counted(&mut self.failures, outcome)
    }

    fn sync(&mut self) -> Result<(), DeviceFault> {
        if self.count_off().is_err() {
            return counted(&mut self.failures, Err(DeviceFault));
        }
        let outcome = self.disk.sync();
        counted(&mut self.failures, outcome)
    }
}
