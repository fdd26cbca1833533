//! A disk that stops.
ghost use Rattle.std.specs.Prelude.{◌≡◌, ◌⊎◌, ◌+◌, MatchResult};

use crate::counts::counted;
use crate::disks::Disk;
use crate::faults::DeviceFault;

/// A disk that stops: it makes some calls, and from then on it fails each, which changes nothing.
#[derive(Drop)]
pub struct FuseDisk<D> {
    disk: D,
    /// How many calls it still makes.
    left: u64,
    failures: u64,
}

impl<D: Disk> FuseDisk<D> {
    /// A disk that makes so many calls before it stops.
    pub fn new(disk: D, calls: u64) -> FuseDisk<D>
        ensures disk { result.disk ≡ disk }
        ensures left { result.left ≡ calls }
        ensures failures { result.failures ≡ 0 }
    {
        FuseDisk {
            disk,
            left: calls,
            failures: 0,
        }
    }

    /// Hands out the disk within, as the last call that was made left it.
    pub fn into_disk(self) -> D
        ensures { result ≡ self.disk }
    {
        self.disk
    }

    /// Counts a call off, unless it has stopped.
    fn count_off(&mut self) -> Result<(), DeviceFault>
        ensures disk { self.new.disk ≡ self.old.disk }
        ensures failures { self.new.failures ≡ self.old.failures }
        ensures left { MatchResult result (λ _. self.old.left ≡ self.new.left + 1)
            (λ _. (self.old.left ≡ 0) × (self.new.left ≡ 0)) }
    {
        if self.left == 0 {
            return Err(DeviceFault);
        }
        self.left -= 1;
        Ok(())
    }
}

impl<D: Disk> Disk for FuseDisk<D> {
    ghost is_modelled = { D.is_modelled };

    ghost seen = { λ fuse. D.seen fuse.disk };

    ghost may_leave = { λ fuse. D.may_leave fuse.disk };

    ghost moment = { λ fuse. D.moment fuse.disk };

    ghost left_since = { λ fuse. D.left_since fuse.disk };

    ghost faults = { λ fuse. fuse.failures };

    ghost may_fail = { λ fuse call. (fuse.left ≡ 0) ⊎ D.may_fail fuse.disk call };

    ghost may_stay = { λ fuse. D.may_stay fuse.disk };

    ghost counts_now = { λ fuse. D.counts_now fuse.disk };

    ghost only_now = { λ fuse. D.only_now fuse.disk };

    fn failures(&self) -> u64 {
        self.failures
    }

    fn len(&mut self) -> Result<usize, DeviceFault> {
        if self.count_off().is_err() {
            return counted(&mut self.failures, Err(DeviceFault));
        }
        let outcome = self.disk.len();
        counted(&mut self.failures, outcome)
    }

    fn read(&mut self, at: usize, bytes: &mut [u8]) -> Result<(), DeviceFault> {
        if self.count_off().is_err() {
            return counted(&mut self.failures, Err(DeviceFault));
        }
        let outcome = self.disk.read(at, bytes);
        counted(&mut self.failures, outcome)
    }

    fn write_at(&mut self, at: usize, bytes: &[u8]) -> Result<(), DeviceFault> {
        if self.count_off().is_err() {
            return counted(&mut self.failures, Err(DeviceFault));
        }
        let outcome = self.disk.write_at(at, bytes);
        counted(&mut self.failures, outcome)
    }

    fn cut(&mut self, size: usize) -> Result<(), DeviceFault> {
        if self.count_off().is_err() {
            return counted(&mut self.failures, Err(DeviceFault));
        }
        let outcome = self.disk.cut(size);
        counted(&mut self.failures, outcome)
    }

    fn sync(&mut self) -> Result<(), DeviceFault> {
        if self.count_off().is_err() {
            return counted(&mut self.failures, Err(DeviceFault));
        }
        let outcome = self.disk.sync();
        counted(&mut self.failures, outcome)
    }
}
