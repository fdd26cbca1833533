//! The bytes of a disk in memory, with what a crash may leave of them.
ghost use Rattle.std.specs.Prelude.{◌≡◌, ◌↔◌, ◌⊎◌, ◌+◌, ◌++◌, ◌<◌, ◌≤◌, ℕ, IfOk, IsErr, IsOk, OnErr, OnOk, drop, length, slice_index, take, vec_capacity};
ghost use Rattle.host_disk.specs.Crashes.{IsRead};
ghost use Rattle.host_disk.specs.Contents.{FindsNoRoom, IsBetween, IsInside, IsLongest, IsOutside, after_cut, after_sync, after_write, empty_file};

use crate::faults::DeviceFault;
use arrayvec::ArrayVec;
use std::alloc::{AllocError, Global};
use std::marker::Model;

/// A stretch of bytes: where it begins, and how many.
#[derive(Clone, Copy, Debug, Default)]
pub(crate) struct Stretch {
    pub(crate) at: usize,
    pub(crate) len: usize,
}

/// How many writes may come between two syncs.
const MAX_WRITES: usize = 16;

/// A file in memory. It takes none after `new`.
#[derive(Drop)]
pub(crate) struct Content {
    bytes: Vec<u8>,
    least: usize,
    greatest: usize,
    written: ArrayVec<Stretch, MAX_WRITES>,
    room: usize,
}

impl Model for Content {
    ghost use Rattle.std.specs.Prelude.{◌≤◌, length, vec_capacity};
    ghost use Rattle.host_disk.specs.Contents.{Kept};

    ghost Value = { Kept };

    ghost view = { λ f. record { bytes = f.bytes.items; least = f.least; greatest = f.greatest; written = f.written.items; room = f.room } };

    ghost invariant = { λ f. (f.least ≤ length f.bytes.items) × (length f.bytes.items ≤ f.greatest) × (f.greatest ≤ f.room) × (f.room ≤ vec_capacity f.bytes) };
}

impl Content {
    /// An empty file with room for so many bytes.
    pub(crate) fn new(alloc: Global, room: usize) -> Result<Content, AllocError>
        ensures { IfOk result (λ file. file ≡ empty_file room) }
    {
        Ok(Content {
            bytes: Vec::with_capacity(alloc, room)?,
            least: 0,
            greatest: 0,
            written: ArrayVec::new(),
            room,
        })
    }

    /// Its bytes.
    pub(crate) fn bytes(&self) -> &[u8]
        ensures { result.now ≡ self.now.bytes }
    {
        &self.bytes
    }

    /// Reads bytes from `at` on. Where they aren't all there, nothing is read.
    pub(crate) fn read(&self, at: usize, into: &mut [u8]) -> Result<(), DeviceFault>
        ensures ok { OnOk result (IsRead self.now.bytes at into.new) }
        ensures all { IsOk result ↔ (at + length into.old ≤ length self.now.bytes) }
    {
        let rest = self.bytes.get(at..).ok_or(DeviceFault)?;
        let found = rest.get(..into.len()).ok_or(DeviceFault)?;
        into.copy_from_slice(found);
        Ok(())
    }

    /// Writes bytes from `at` on. Without room nothing changes.
    pub(crate) fn write(&mut self, at: usize, bytes: &[u8]) -> Result<(), DeviceFault>
        ensures ok { OnOk result (self.new ≡ after_write self.old at bytes.now) }
        ensures err { OnErr result (self.new ≡ self.old) }
        ensures full { IsErr result ↔ FindsNoRoom self.old at (length bytes.now) }
        ensures between { IsBetween self.old → IsBetween self.new }
    {
        if at > self.bytes.len() || bytes.len() > self.room - at || self.written.is_full() {
            return Err(DeviceFault);
        }
        let end = at + bytes.len();
        put(&mut self.bytes, at, bytes)?;
        self.greatest = self.greatest.max(end);
        self.written.push(Stretch {
            at,
            len: bytes.len(),
        });
        Ok(())
    }

    /// Cuts it to its first `size` bytes; where it has no more, the bytes stay.
    pub(crate) fn cut(&mut self, size: usize)
        ensures cut { self.new ≡ after_cut self.old size }
        ensures between { IsBetween self.old → IsBetween self.new }
    {
        self.bytes.truncate(size);
        self.least = self.least.min(size);
    }

    /// Makes it last: from now on a crash leaves what is there.
    pub(crate) fn sync(&mut self)
        ensures synced { self.new ≡ after_sync self.old }
        ensures between { IsBetween self.new }
    {
        self.least = self.bytes.len();
        self.greatest = self.bytes.len();
        self.written.clear();
    }

    /// The longest file that a crash may leave, with this byte wherever a crash may leave any. It is synced, and has the same room.
    pub(crate) fn image(&self, alloc: Global, byte: u8) -> Result<Content, AllocError>
        ensures longest { IfOk result (λ file. IsLongest self.now byte file.bytes) }
        ensures synced { IfOk result (λ file. file ≡ after_sync file) }
        ensures room { IfOk result (λ file. file.room ≡ self.now.room) }
    {
        let mut bytes = Vec::with_capacity(alloc, self.room)?;
        bytes.extend_from_slice(&self.bytes[..self.least])?;
        bytes.resize(self.greatest, byte)?;
        overwrite(&mut bytes, &self.written, byte);
        Ok(Content {
            bytes,
            least: self.greatest,
            greatest: self.greatest,
            written: ArrayVec::new(),
            room: self.room,
        })
    }
}

/// Puts bytes at a place, over what is there and past its end. It takes no memory, since it has room.
fn put(file: &mut Vec<u8>, at: usize, bytes: &[u8]) -> Result<(), DeviceFault>
    requires within { at ≤ length file.old.items }
    requires room { at + length bytes.now ≤ vec_capacity file.old }
    ensures ok { IsOk result }
    ensures items { file.new.items ≡ take at file.old.items ++ bytes.now ++ drop (at + length bytes.now) file.old.items }
    ensures capacity { vec_capacity file.old ≤ vec_capacity file.new }
{
    let over = bytes.len().min(file.len() - at);
    let (front, back) = bytes.split_at(over);
    file[at..at + over].copy_from_slice(front);
    file.extend_from_slice(back).map_err(|_| DeviceFault)
}

/// Puts a byte at each place of a stretch that a file has.
fn overwrite_stretch(file: &mut [u8], stretch: Stretch, byte: u8)
    ensures outside { (i : ℕ) → (i < stretch.at) ⊎ (stretch.at + stretch.len ≤ i)
        → slice_index file.new i ≡ slice_index file.old i }
    ensures inside { (i : ℕ) → i < length file.old → stretch.at ≤ i → i < stretch.at + stretch.len
        → slice_index file.new i ≡ byte }
{
    let end = stretch.at.saturating_add(stretch.len).min(file.len());
    let at = stretch.at.min(end);
    file[at..end].fill(byte);
}

/// Puts a byte at each place of some stretches that a file has.
fn overwrite(file: &mut [u8], stretches: &[Stretch], byte: u8)
    ensures outside { (i : ℕ) → IsOutside stretches.now i → slice_index file.new i ≡ slice_index file.old i }
    ensures inside { (i : ℕ) → i < length file.old → IsInside stretches.now i → slice_index file.new i ≡ byte }
    ensures either { (i : ℕ) → i < length file.old
        → (slice_index file.new i ≡ byte) ⊎ (slice_index file.new i ≡ slice_index file.old i) }
{
    for stretch in stretches {
        overwrite_stretch(file, *stretch, byte);
    }
}
