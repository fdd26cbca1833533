//! A buffer of bytes that were read and not yet consumed.
ghost use Rattle.std.specs.Prelude.{◌≡◌, ℕ, ◌≤◌, ◌<◌, ◌+◌, ◌-◌, List, [], ◌++◌, length, take, drop, IfOk, IfErr, slice_range, vec_len};
ghost use Rattle.http_wire.specs.Halting.{Halts};
ghost use Rattle.http_wire.specs.Timing.{ReadFails, read_of};

use crate::duplexes::Duplex;
use crate::halts::Halt;
use crate::sources::ReadFailed;
use std::alloc::{AllocError, Global};
use std::marker::Model;

/// The maximum size of a head in bytes, including the empty lines before it. It is also the capacity of a buffer.
pub(crate) const HEAD_LIMIT: usize = 16384;

/// Bytes that were read from a stream and not yet consumed, at most `HEAD_LIMIT` of them. Contracts see the list of these bytes.
#[derive(Drop)]
pub struct Buffer {
    bytes: Vec<u8>,
    start: usize,
    end: usize,
}

impl Model for Buffer {
    ghost Value = { List ℕ };

    ghost view = { λ b. slice_range b.bytes.items b.start b.end };

    ghost invariant = { λ b. (b.start ≤ b.end) × (b.end ≤ 16384) × (vec_len b.bytes ≡ 16384) };
}

impl Buffer {
    /// Returns an empty buffer and allocates its whole capacity.
    pub fn new(alloc: Global) -> Result<Buffer, AllocError>
        ensures { IfOk result (λ buffer. buffer ≡ []) }
    {
        Ok(Buffer {
            bytes: vec![in alloc; 0; HEAD_LIMIT]?,
            start: 0,
            end: 0,
        })
    }

    /// Returns the allocator of the buffer.
    pub fn allocator(&self) -> Global {
        *self.bytes.allocator()
    }

    /// Returns the bytes in the buffer.
    pub fn as_slice(&self) -> &[u8]
        ensures value { result.now ≡ self.now }
        ensures fits { length self.now ≤ HEAD_LIMIT }
    {
        &self.bytes[self.start..self.end]
    }

    /// Removes the first `count` bytes.
    pub fn consume(&mut self, count: usize)
        requires { count ≤ length self.old }
        ensures { self.new ≡ drop count self.old }
    {
        self.start += count;
    }

    /// Appends more bytes with a single read and returns how many. Returns 0 only at the end of the stream. If the read fails or would
    /// have to wait, the bytes in the buffer do not change.
    pub fn fill<D: Duplex>(&mut self, duplex: &mut D) -> Result<usize, Halt<ReadFailed>>
        requires room { length self.old < HEAD_LIMIT }
        ensures grown { IfOk result (λ count. (piece : List ℕ) × (self.new ≡ self.old ++ piece) × (length piece ≡ count)
            × D.saw duplex.old (read_of piece) duplex.new) }
        ensures err { IfErr result (λ halt. (self.new ≡ self.old)
            × Halts D.saw D.waits ReadFails duplex.old duplex.new halt) }
    {
        self.end = pack(&mut self.bytes, self.start, self.end);
        self.start = 0;
        let count = read_behind(duplex, &mut self.bytes, self.end)?;
        self.end += count;
        Ok(count)
    }
}

// Moves the bytes from `start` to `end` to the front and returns how many there are.
fn pack(bytes: &mut Vec<u8>, start: usize, end: usize) -> usize
    requires ordered { start ≤ end }
    requires in_range { end ≤ vec_len bytes.old }
    ensures count { result + start ≡ end }
    ensures moved { take result bytes.new.items ≡ slice_range bytes.old.items start end }
    ensures len { vec_len bytes.new ≡ vec_len bytes.old }
{
    if start > 0 {
        bytes.copy_within(start..end, 0);
    }
    end - start
}

/// Reads some bytes into `bytes`, from index `end` on, with a single read.
pub fn read_behind<D: Duplex>(
    duplex: &mut D,
    bytes: &mut [u8],
    end: usize,
) -> Result<usize, Halt<ReadFailed>>
    requires { end < length bytes.old }
    ensures grown { IfOk result (λ count. (piece : List ℕ) × (take (end + count) bytes.new ≡ take end bytes.old ++ piece)
        × (length piece ≡ count) × D.saw duplex.old (read_of piece) duplex.new) }
    ensures within { IfOk result (λ count. end + count ≤ length bytes.old) }
    ensures err { IfErr result (λ halt. (take end bytes.new ≡ take end bytes.old)
        × Halts D.saw D.waits ReadFails duplex.old duplex.new halt) }
{
    let count = duplex.read_some(&mut bytes[end..])?;
    Ok(count)
}
