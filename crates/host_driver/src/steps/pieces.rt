//! The input of a connection, in pieces.
ghost use Rattle.std.specs.Prelude.{◌≤◌, None, length, ⊤};

use http_wire::{ReadFailed, Source};
use std::alloc::{AllocError, Global};

/// Bytes that are cut at some places. A read gives bytes up to the next cut.
#[derive(Drop)]
pub struct Pieces {
    input: Vec<u8>,
    cuts: Vec<usize>,
    /// The place in `cuts` of the next cut.
    next: usize,
    /// How many bytes were read.
    at: usize,
}

/// The places that lie behind all those before them.
fn ascending(alloc: Global, places: &[usize]) -> Result<Vec<usize>, AllocError> {
    let mut cuts = Vec::new(alloc);
    let mut last = 0;
    for place in places {
        if *place > last {
            cuts.push(*place)?;
            last = *place;
        }
    }
    Ok(cuts)
}

impl Pieces {
    /// These bytes, cut at these places, the lowest first.
    pub fn new(alloc: Global, input: Vec<u8>, places: &[usize]) -> Result<Pieces, AllocError> {
        Ok(Pieces {
            input,
            cuts: ascending(alloc, places)?,
            next: 0,
            at: 0,
        })
    }

    /// Where the piece ends that is read next.
    fn end(&mut self) -> usize {
        if self.cuts.get(self.next) == Some(&self.at) {
            self.next = self.next.saturating_add(1);
        }
        let length = self.input.len();
        match self.cuts.get(self.next) {
            Some(cut) => length.min(*cut),
            None => length,
        }
    }

    /// Copies the next piece to the front of `buf`, as far as there is room, and answers how many bytes that are.
    pub fn give(&mut self, buf: &mut [u8]) -> usize
        ensures { result ≤ length buf.new }
    {
        let end = self.end();
        let piece = self.input.get(self.at..end).unwrap_or(&[]);
        let count = piece.len().min(buf.len());
        buf[..count].copy_from_slice(&piece[..count]);
        self.at = self.at.saturating_add(count);
        count
    }
}

impl Source for Pieces {
    ghost left = { λ _. None };

    ghost may_fail = { ⊤ };

    fn read_some(&mut self, buf: &mut [u8]) -> Result<usize, ReadFailed> {
        Ok(self.give(buf))
    }
}
