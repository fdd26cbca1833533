//! A disk whose bytes are read ahead.
ghost use Rattle.std.specs.Prelude.{◌≡◌, ◌↔◌, ◌+◌, ◌≤◌, ℕ, IfSome, IsTrue, List, OnErr, OnOk, drop, length, take};
ghost use Rattle.host_disk.specs.Calls.{ReadAt};
ghost use Rattle.host_disk.specs.Crashes.{CountsFailure, Elapses, IsRead};
ghost use Rattle.record_file.specs.Ahead.{IsUnchanged};
ghost use Rattle.record_file.specs.Failures.{MayFailReading, ReadsWithin};

use host_disk::{DeviceFault, Disk};
use std::alloc::Global;

/// The most bytes that are read ahead.
const MOST_AHEAD: usize = 1 << 16;

/// A disk that is read ahead: a read takes more than was asked for, so that many short reads in a row are few reads of the disk. Every
/// other call is passed on.
#[derive(Drop)]
pub(crate) struct ReadAhead<D: Disk> {
    disk: D,
    /// The bytes of the disk from `start` on are the first `len` of these.
    buffer: Vec<u8>,
    start: usize,
    len: usize,
    ghost ahead: { IsTrue D.is_modelled → IsRead (D.seen disk) start (take len buffer.items) },
}

impl<D: Disk> ReadAhead<D> {
    /// Reads a disk ahead. If there is no memory for that, each call is passed on.
    pub(crate) fn new(alloc: Global, disk: D) -> ReadAhead<D>
        ensures { result.disk ≡ disk }
    {
        ReadAhead {
            disk,
            buffer: empty_buffer(alloc),
            start: 0,
            len: 0,
        }
    }

    /// Hands out the disk.
    pub(crate) fn into_disk(self) -> D
        ensures { result ≡ self.disk }
    {
        self.disk
    }

    /// This many bytes from an offset on, if they were read.
    fn held(&self, at: usize, len: usize) -> Option<&[u8]>
        ensures read { IsTrue D.is_modelled → IfSome result (λ bytes. IsRead (D.seen self.now.disk) at bytes.now) }
        ensures len { IfSome result (λ bytes. length bytes.now ≡ len) }
    {
        let from = at.checked_sub(self.start)?;
        let ahead = self.buffer.get(..self.len)?;
        part_of(ahead, from, len)
    }

    /// Copies the bytes from an offset on, if they were read, and answers whether they were.
    fn give(&self, at: usize, bytes: &mut [u8]) -> bool
        ensures { IsTrue D.is_modelled → IsTrue result → IsRead (D.seen self.now.disk) at bytes.new }
    {
        let Some(found) = self.held(at, bytes.len()) else {
            return false;
        };
        bytes.copy_from_slice(found);
        true
    }

    /// Forgets what was read.
    fn forget(&mut self)
        ensures disk { self.new.disk ≡ self.old.disk }
        ensures buffer { self.new.buffer ≡ self.old.buffer }
        ensures none { (self.new.start ≡ 0) × (self.new.len ≡ 0) }
    {
        self.start = 0;
        self.len = 0;
    }

    /// Reads the bytes from an offset on: as many as there are and the buffer has room for.
    fn fill(&mut self, at: usize) -> Result<(), DeviceFault>
        ensures same { IsTrue D.is_modelled
            → IsUnchanged D.seen D.may_leave D.moment D.left_since self.old.disk self.new.disk }
        ensures reason { IsTrue D.is_modelled → at ≤ length (D.seen self.old.disk)
            → OnErr result (MayFailReading D.seen D.may_fail (D.seen self.old.disk)) }
        ensures cause { CountsFailure result (D.faults self.old.disk) (D.faults self.new.disk) }
        ensures ahead { IsTrue D.is_modelled → OnOk result ((self.new.start ≡ at)
            × (take self.new.len self.new.buffer.items
            ≡ take (length self.old.buffer.items) (drop at (D.seen self.old.disk)))) }
    {
        self.forget();
        let size = self.disk.len()?;
        let len = self.buffer.len().min(size.saturating_sub(at));
        read_into(&mut self.disk, at, len, &mut self.buffer)?;
        self.start = at;
        self.len = len;
        Ok(())
    }

    /// Reads ahead from an offset on, if this many bytes have room in the buffer and were not read.
    fn read_on(&mut self, at: usize, len: usize) -> Result<(), DeviceFault>
        ensures same { IsTrue D.is_modelled
            → IsUnchanged D.seen D.may_leave D.moment D.left_since self.old.disk self.new.disk }
        ensures reason { IsTrue D.is_modelled → at ≤ length (D.seen self.old.disk)
            → OnErr result (MayFailReading D.seen D.may_fail (D.seen self.old.disk)) }
        ensures cause { CountsFailure result (D.faults self.old.disk) (D.faults self.new.disk) }
    {
        if len < self.buffer.len() && self.held(at, len).is_none() {
            return self.fill(at);
        }
        Ok(())
    }
}

/// This many bytes from an offset on, if there are that many.
fn part_of(bytes: &[u8], from: usize, len: usize) -> Option<&[u8]>
    ensures part { IfSome result (λ part. part.now ≡ take len (drop from bytes.now)) }
    ensures within { IfSome result (λ _. from + len ≤ length bytes.now) }
{
    bytes.get(from..)?.get(..len)
}

/// Reads this many bytes from an offset on into the front of a slice.
pub(crate) fn read_front<D: Disk>(
    disk: &mut D,
    at: usize,
    len: usize,
    buffer: &mut [u8],
) -> Result<(), DeviceFault>
    requires { len ≤ length buffer.old }
    ensures size { length buffer.new ≡ length buffer.old }
    ensures read { IsTrue D.is_modelled → OnOk result (IsRead (D.seen disk.old) at (take len buffer.new)) }
    ensures seen { IsTrue D.is_modelled → D.seen disk.new ≡ D.seen disk.old }
    ensures crash { IsTrue D.is_modelled → (c : List ℕ) → D.may_leave disk.new c ↔ D.may_leave disk.old c }
    ensures time { IsTrue D.is_modelled
        → Elapses (D.moment disk.old) (D.moment disk.new)
        (D.left_since disk.old) (D.left_since disk.new) (D.may_leave disk.new) }
    ensures reason { OnErr result (D.may_fail disk.old (ReadAt at len)) }
    ensures cause { CountsFailure result (D.faults disk.old) (D.faults disk.new) }
{
    disk.read(at, &mut buffer[..len])
}

/// The same into the front of a list.
fn read_into<D: Disk>(
    disk: &mut D,
    at: usize,
    len: usize,
    buffer: &mut Vec<u8>,
) -> Result<(), DeviceFault>
    requires { len ≤ length buffer.old.items }
    ensures size { length buffer.new.items ≡ length buffer.old.items }
    ensures read { IsTrue D.is_modelled → OnOk result (IsRead (D.seen disk.old) at (take len buffer.new.items)) }
    ensures seen { IsTrue D.is_modelled → D.seen disk.new ≡ D.seen disk.old }
    ensures crash { IsTrue D.is_modelled → (c : List ℕ) → D.may_leave disk.new c ↔ D.may_leave disk.old c }
    ensures time { IsTrue D.is_modelled
        → Elapses (D.moment disk.old) (D.moment disk.new)
        (D.left_since disk.old) (D.left_since disk.new) (D.may_leave disk.new) }
    ensures reason { OnErr result (D.may_fail disk.old (ReadAt at len)) }
    ensures cause { CountsFailure result (D.faults disk.old) (D.faults disk.new) }
{
    read_front(disk, at, len, buffer)
}

/// A buffer for what is read ahead. It has no room if there is no memory.
fn empty_buffer(alloc: Global) -> Vec<u8> {
    let mut buffer = Vec::new(alloc);
    let _ = buffer.resize(MOST_AHEAD, 0);
    buffer
}

impl<D: Disk> Disk for ReadAhead<D> {
    ghost is_modelled = { D.is_modelled };

    ghost seen = { λ ahead. D.seen ahead.disk };

    ghost may_leave = { λ ahead. D.may_leave ahead.disk };

    ghost moment = { λ ahead. D.moment ahead.disk };

    ghost left_since = { λ ahead. D.left_since ahead.disk };

    ghost faults = { λ ahead. D.faults ahead.disk };

    ghost may_fail = { λ ahead call. IsTrue D.is_modelled → ReadsWithin (D.seen ahead.disk) call → MayFailReading D.seen D.may_fail (D.seen ahead.disk) };

    ghost may_stay = { λ ahead. D.may_stay ahead.disk };

    ghost counts_now = { λ ahead. D.counts_now ahead.disk };

    ghost only_now = { λ ahead. D.only_now ahead.disk };

    fn failures(&self) -> u64 {
        self.disk.failures()
    }

    fn len(&mut self) -> Result<usize, DeviceFault> {
        self.disk.len()
    }

    fn read(&mut self, at: usize, bytes: &mut [u8]) -> Result<(), DeviceFault> {
        self.read_on(at, bytes.len())?;
        if self.give(at, bytes) {
            return Ok(());
        }
        self.disk.read(at, bytes)
    }

    fn write_at(&mut self, at: usize, bytes: &[u8]) -> Result<(), DeviceFault> {
        self.forget();
        self.disk.write_at(at, bytes)
    }

    fn cut(&mut self, size: usize) -> Result<(), DeviceFault> {
        self.forget();
        self.disk.cut(size)
    }

    fn sync(&mut self) -> Result<(), DeviceFault> {
        self.disk.sync()
    }
}
