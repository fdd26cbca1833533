//! A disk in memory, which may crash as any disk may.
ghost use Rattle.std.specs.Prelude.{◌≡◌, [], IfOk, true};
ghost use Rattle.std.proofs.Common.{inl};
ghost use Rattle.host_disk.specs.Contents.{IsBetween, IsImage, IsLongest, MayFail, empty_file};
ghost use Rattle.host_disk.specs.Crashes.{Only};
ghost use Rattle.host_disk.specs.Pasts.{IsAfter, LeftSince, age, only_now, stays};

use crate::contents::Content;
use crate::counts::counted;
use crate::disks::Disk;
use crate::faults::DeviceFault;
use crate::pasts::Past;
use std::alloc::{AllocError, Global};
use std::snapshot::Snapshot;

/// A disk in memory, which is proved to be one. It takes all its memory when it is made: room for its bytes, and for the places of 16
/// writes between two syncs. A call that finds no room there fails.
#[derive(Drop)]
pub struct MemDisk {
    content: Content,
    past: Past,
    failures: u64,
    ghost between: { IsBetween content },
}

impl MemDisk {
    /// An empty disk with room for `room` bytes.
    pub fn new(alloc: Global, room: usize) -> Result<MemDisk, AllocError>
        ensures empty { IfOk result (λ disk. ⟦<MemDisk as Disk>⟧.seen disk ≡ []) }
        ensures durable { IfOk result (λ disk. Only [] (⟦<MemDisk as Disk>⟧.may_leave disk)) }
        ensures failures { IfOk result (λ disk. ⟦<MemDisk as Disk>⟧.faults disk ≡ 0) }
        ensures room { IfOk result (λ disk. disk.content ≡ empty_file room) }
    {
        Ok(MemDisk {
            content: Content::new(alloc, room)?,
            past: Past::Start,
            failures: 0,
        })
    }

    /// The disk that a crash now may leave: as long as it may be, and with this byte wherever a crash may leave any. It is synced, has the
    /// same room, and no failure.
    pub fn image(&self, alloc: Global, byte: u8) -> Result<MemDisk, AllocError>
        ensures image { IfOk result (λ disk. ⟦<MemDisk as Disk>⟧.may_leave self.now (⟦<MemDisk as Disk>⟧.seen disk)) }
        ensures longest { IfOk result (λ disk. IsLongest self.now.content byte (⟦<MemDisk as Disk>⟧.seen disk)) }
        ensures durable { IfOk result (λ disk. Only (⟦<MemDisk as Disk>⟧.seen disk) (⟦<MemDisk as Disk>⟧.may_leave disk)) }
        ensures failures { IfOk result (λ disk. ⟦<MemDisk as Disk>⟧.faults disk ≡ 0) }
        ensures room { IfOk result (λ disk. disk.content.room ≡ self.now.content.room) }
    {
        Ok(MemDisk {
            content: self.content.image(alloc, byte)?,
            past: Past::Start,
            failures: 0,
        })
    }

    /// Keeps what it is as one of its moments.
    fn tick(&mut self)
        ensures past { IsAfter self.new.past self.old.past self.old.content }
        ensures content { self.new.content ≡ self.old.content }
        ensures failures { self.new.failures ≡ self.old.failures }
    {
        self.past = Past::After(Snapshot::of(&self.past), Snapshot::of(&self.content));
    }
}

impl Disk for MemDisk {
    ghost is_modelled = { true };

    ghost seen = { λ disk. disk.content.bytes };

    ghost may_leave = { λ disk. IsImage disk.content };

    ghost moment = { λ disk. age disk.past };

    ghost left_since = { λ disk. LeftSince disk.past disk.content };

    ghost faults = { λ disk. disk.failures };

    ghost may_fail = { λ disk. MayFail disk.content };

    ghost may_stay = { λ disk _. stays disk.content disk.between };

    ghost counts_now = { λ disk t c _ _ now. inl now };

    ghost only_now = { λ disk c _ left. only_now disk.past disk.content c left };

    fn failures(&self) -> u64 {
        self.failures
    }

    fn len(&mut self) -> Result<usize, DeviceFault> {
        Ok(self.content.bytes().len())
    }

    fn read(&mut self, at: usize, bytes: &mut [u8]) -> Result<(), DeviceFault> {
        let outcome = self.content.read(at, bytes);
        counted(&mut self.failures, outcome)
    }

    fn write_at(&mut self, at: usize, bytes: &[u8]) -> Result<(), DeviceFault> {
        self.tick();
        let outcome = self.content.write(at, bytes);
        counted(&mut self.failures, outcome)
    }

    fn cut(&mut self, size: usize) -> Result<(), DeviceFault> {
        self.tick();
        self.content.cut(size);
        Ok(())
    }

    fn sync(&mut self) -> Result<(), DeviceFault> {
        self.tick();
        self.content.sync();
        Ok(())
    }
}
