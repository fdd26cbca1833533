//! Slices of chunks that together are a stretch of a file.
ghost use Rattle.std.specs.Prelude.{◌≡◌, ◌<◌, ◌≤◌, All, length, map};
ghost use Rattle.std.specs.Iterator.{YieldsFirstRef, at_most};
ghost use Rattle.byte_view.specs.Marks.{TellsFirst};
ghost use Rattle.byte_view.specs.Parts.{parts};

use crate::blob_infos::PIECE_SIZE;
use crate::chunks::Chunk;
use std::iter::Iterator;
use std::marker::Model;
use std::sync::Arc;

/// Slices of chunks, in order. Contracts see the list of those that are left.
#[derive(Drop)]
pub struct Pieces<'a> {
    chunks: &'a [Arc<Chunk>],
    /// Where the first slice begins in its chunk.
    from: usize,
    /// Where the last slice ends, counted from the start of the first chunk.
    to: usize,
}

impl<'a> Model for Pieces<'a> {
    ghost use Rattle.std.specs.Prelude.{◌<◌, All, List, ℕ, length, map};
    ghost use Rattle.byte_view.specs.Parts.{parts};

    ghost Value = { List (List ℕ) };

    ghost view = { λ p. parts (map (λ chunk. chunk.value) p.chunks.now) p.from p.to };

    ghost invariant = { λ p. (p.from < 65536) × All (λ piece. 0 < length piece) (parts (map (λ chunk. chunk.value) p.chunks.now) p.from p.to) };
}

impl<'a> Pieces<'a> {
    /// The bytes from `from` up to `to`, both counted from the start of the first chunk.
    pub(crate) fn new(chunks: &'a [Arc<Chunk>], from: usize, to: usize) -> Pieces<'a>
        requires start { from < 65536 }
        requires filled { All (λ piece. 0 < length piece) (parts (map (λ chunk. chunk.value) chunks.now) from to) }
        ensures { result ≡ parts (map (λ chunk. chunk.value) chunks.now) from to }
    {
        Pieces { chunks, from, to }
    }

    /// Whether the chunk of the next slice has the mark. If it lacks it, so does the slice.
    pub fn next_may_have_mark(&self) -> bool
        ensures { TellsFirst self.now result }
    {
        match self.chunks.split_first() {
            Some((chunk, _)) => chunk.has_mark(),
            None => false,
        }
    }
}

impl<'a> Iterator for Pieces<'a> {
    type Item = &'a [u8];

    ghost next_gives = { YieldsFirstRef (λ pieces. pieces) };

    ghost remaining = { λ pieces. at_most (length pieces) };

    fn next(&mut self) -> Option<&'a [u8]> {
        let (chunk, rest) = self.chunks.split_first()?;
        let bytes = chunk.view().bytes();
        let piece = &bytes[self.from..self.to.min(bytes.len())];
        self.chunks = rest;
        self.from = 0;
        self.to = self.to.saturating_sub(PIECE_SIZE);
        Some(piece)
    }
}
