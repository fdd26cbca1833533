//! The sources that a connection reads from.
ghost use Rattle.std.specs.Prelude.{ℕ, List, Option, Some, ⊤, ◌≤◌, length, IfOk, OnErr};
ghost use Rattle.std.specs.Io.KnownBytes.{ReadConsumes};

use std::io::Read;
use thiserror::Error;

/// A read failed; nothing was read.
#[derive(Clone, Copy, Debug, PartialEq, Eq, Error)]
#[error("the read failed")]
pub struct ReadFailed;

/// A byte stream that is read in pieces, like `Read`. Its contract gives the cause of a failure.
pub trait Source {
    // The bytes that later reads give, if they are known.
    ghost left: { Self → Option (List ℕ) };

    // Whether reads of such a source can fail at all.
    ghost may_fail: { Type 0 };

    /// Reads some bytes into the front of `buf` and returns their number, which is 0 only at the end or if `buf` is empty.
    fn read_some(&mut self, buf: &mut [u8]) -> Result<usize, ReadFailed>
        ensures bound { IfOk result (λ n. n ≤ length buf.new) }
        ensures bytes { ReadConsumes (left self.old) (left self.new) result buf.new }
        ensures cause { OnErr result may_fail };
}

/// A source that reads from a reader. Its reads may fail.
#[derive(Debug, Drop)]
pub struct Reading<R>(pub R);

impl<R: Read> Source for Reading<R> {
    ghost left = { λ s. R.remaining s.0 };

    ghost may_fail = { ⊤ };

    fn read_some(&mut self, buf: &mut [u8]) -> Result<usize, ReadFailed> {
        self.0.read(buf).map_err(|_| ReadFailed)
    }
}

/// Bytes in memory are a source whose reads never fail.
impl Source for &[u8] {
    ghost left = { λ s. Some s.now };

    ghost may_fail = { ⊥ };

    fn read_some(&mut self, buf: &mut [u8]) -> Result<usize, ReadFailed> {
        let count = self.len().min(buf.len());
        let (front, rest) = self.split_at(count);
        buf[..count].copy_from_slice(front);
        *self = rest;
        Ok(count)
    }
}
