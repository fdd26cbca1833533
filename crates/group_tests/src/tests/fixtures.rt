//! Chunks by their numbers, who gives them, and who gives other things in their place.
ghost use Rattle.std.specs.Prelude.{⊤};

use byte_view::Chunk;
use chunk_group::{Outcome, Source};
use chunk_reads::ReadFault;
use host_names::Digest;
use peer_link::{PeerFault, PeerLink};
use std::alloc::{AllocError, Global};
use std::sync::atomic::{AtomicU64, Ordering};

/// The bytes of the chunk of a number.
pub(super) fn bytes_of(alloc: Global, number: usize) -> Result<Vec<u8>, AllocError> {
    Vec::from_elem(alloc, (number % 256) as u8, number % 97 + 20)
}

/// The chunk of a number.
pub(super) fn chunk_of(alloc: Global, number: usize) -> Result<Chunk, ReadFault> {
    let bytes = bytes_of(alloc, number).map_err(|_| ReadFault::OutOfMemory)?;
    let name = Digest::of_bytes(bytes.as_slice());
    Chunk::check(name, bytes).map_err(|_| ReadFault::Damaged)
}

/// The name of the chunk of a number.
pub(super) fn name_of(alloc: Global, number: usize) -> Result<Digest, AllocError> {
    Ok(Digest::of_bytes(bytes_of(alloc, number)?.as_slice()))
}

/// The names of the chunks of the first numbers.
pub(super) fn names(alloc: Global, count: usize) -> Result<Vec<Digest>, AllocError> {
    let mut names = Vec::new(alloc);
    for number in 0..count {
        names.push(name_of(alloc, number)?)?;
    }
    Ok(names)
}

/// The number of the chunk of a name.
pub(super) fn number_of(names: &[Digest], name: &Digest) -> Option<usize> {
    names.iter().position(|other| *other == *name)
}

/// What is given where a chunk is asked for.
#[derive(Clone, Copy, Debug, PartialEq, Eq)]
pub(super) enum Gift {
    Right,
    /// Another chunk.
    Other,
    /// All but its last byte.
    Short,
    Nothing,
}

/// The gift at a call, where these are given in turn.
pub(super) fn gift_at(gifts: &[Gift], call: u64) -> Gift {
    match gifts.len() as u64 {
        0 => Gift::Right,
        count => gifts
            .get((call % count) as usize)
            .copied()
            .unwrap_or(Gift::Right),
    }
}

/// The bytes that are given for the chunk of a number.
fn given(alloc: Global, number: usize, gift: Gift) -> Result<Option<Vec<u8>>, AllocError> {
    match gift {
        Gift::Right => Ok(Some(bytes_of(alloc, number)?)),
        Gift::Other => Ok(Some(bytes_of(alloc, number.wrapping_add(1))?)),
        Gift::Short => {
            let mut bytes = bytes_of(alloc, number)?;
            bytes.pop();
            Ok(Some(bytes))
        }
        Gift::Nothing => Ok(None),
    }
}

/// A peer, or a source, that gives these things in turn, and counts its calls.
#[derive(Clone, Copy)]
pub(super) struct Giver<'a> {
    alloc: Global,
    names: &'a [Digest],
    gifts: &'a [Gift],
    calls: &'a AtomicU64,
}

impl<'a> Giver<'a> {
    pub(super) fn new(
        alloc: Global,
        names: &'a [Digest],
        gifts: &'a [Gift],
        calls: &'a AtomicU64,
    ) -> Giver<'a> {
        Giver {
            alloc,
            names,
            gifts,
            calls,
        }
    }

    fn next_gift(&self) -> Gift {
        gift_at(self.gifts, self.calls.fetch_add(1, Ordering::SeqCst))
    }
}

impl PeerLink for Giver<'_> {
    ghost fetched = { λ _ _ _ _ _. Unit {0} };

    fn fetch(&mut self, _peer: usize, key: &Digest) -> Result<Vec<u8>, PeerFault> {
        let number = number_of(self.names, key).ok_or(PeerFault)?;
        let gift = self.next_gift();
        match given(self.alloc, number, gift) {
            Ok(Some(bytes)) => Ok(bytes),
            _ => Err(PeerFault),
        }
    }
}

impl Source for Giver<'_> {
    ghost allows = { λ _ _. ⊤ };

    ghost loaded = { λ _ _ _ _. Unit {0} };

    fn load(&mut self, key: &Digest) -> Result<Chunk, ReadFault> {
        let number = number_of(self.names, key).ok_or(ReadFault::Missing)?;
        match self.next_gift() {
            Gift::Right => chunk_of(self.alloc, number),
            Gift::Nothing => Err(ReadFault::Missing),
            Gift::Short => Err(ReadFault::Device),
            Gift::Other => chunk_of(self.alloc, number.wrapping_add(1)),
        }
    }
}

/// Whether a read gave the chunk of a number.
pub(super) fn is_chunk_of(
    alloc: Global,
    given: &Outcome,
    number: usize,
) -> Result<bool, AllocError> {
    let bytes = bytes_of(alloc, number)?;
    match given {
        Ok(chunk) => Ok(chunk.view().bytes() == bytes.as_slice()),
        Err(_) => Ok(false),
    }
}
