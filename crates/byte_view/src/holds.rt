//! Holds: the chunks of one stretch of a file.
ghost use Rattle.std.specs.Prelude.{◌≡◌, ◌↔◌, ◌<◌, ◌≤◌, ◌-◌, All, IfErr, IfOk, IsOk, IsTrue, length, map};
ghost use Rattle.std.specs.List.{concat};
ghost use Rattle.host_names.specs.Digests.{digest_of};
ghost use Rattle.byte_view.specs.Cuts.{IsPure, pieces_met, slice};
ghost use Rattle.byte_view.specs.Parts.{HaveSizes};

use crate::blob_infos::{BlobInfo, PIECE_SIZE};
use crate::chunks::Chunk;
use crate::pieces::Pieces;
use std::marker::Model;
use std::sync::Arc;
use thiserror::Error;

/// A chunk has the name of a piece, but not its length.
#[derive(Debug, Drop, Error)]
#[error("a chunk is not as long as its piece")]
pub struct WrongLength {
    pub chunks: Vec<Arc<Chunk>>,
}

/// A stretch of a file, from its first to its last byte, and the chunks that have its bytes.
#[derive(Drop)]
pub struct Hold {
    info: Arc<BlobInfo>,
    first: usize,
    last: usize,
    chunks: Vec<Arc<Chunk>>,
}

impl Model for Hold {
    ghost use Rattle.std.specs.Prelude.{map};
    ghost use Rattle.byte_view.specs.Holds.{Held, IsHeld};

    ghost Value = { Held };

    ghost view = { λ h. record { file = h.info.value; first = h.first; last = h.last; chunks = map (λ chunk. chunk.value) h.chunks.items } };

    ghost invariant = { λ h. IsHeld (record { file = h.info.value; first = h.first; last = h.last; chunks = map (λ chunk. chunk.value) h.chunks.items }) };
}

/// Whether each chunk has the length of its piece. The file has `left` bytes from the start of the first of these pieces on.
fn have_sizes(chunks: &[Arc<Chunk>], mut left: usize) -> bool
    ensures { IsTrue result ↔ HaveSizes (map (λ chunk. chunk.value) chunks.now) left }
{
    for chunk in chunks {
        if chunk.view().len() != left.min(PIECE_SIZE) {
            return false;
        }
        left = left.saturating_sub(PIECE_SIZE);
    }
    true
}

impl Hold {
    ghost use Rattle.byte_view.specs.Holds.{Held, IsHeld, LiesIn, chunks_met, held_part, lent};

    /// Holds these chunks for the stretch from `first` to `last`, if each is as long as its piece. Otherwise it hands them back.
    pub fn new(
        info: Arc<BlobInfo>,
        first: usize,
        last: usize,
        chunks: Vec<Arc<Chunk>>,
    ) -> Result<Hold, WrongLength>
        requires ordered { first ≤ last }
        requires within { last < length info.value }
        requires named { map digest_of (map (λ chunk. chunk.value) chunks.items) ≡ map digest_of (pieces_met info.value first last) }
        ensures long { IsOk result ↔ (map length (map (λ chunk. chunk.value) chunks.items) ≡ map length (pieces_met info.value first last)) }
        ensures held { IfOk result (λ hold. hold ≡ record { file = info.value; first = first; last = last; chunks = map (λ chunk. chunk.value) chunks.items }) }
        ensures handed_back { IfErr result (λ wrong. wrong.chunks ≡ chunks) }
    {
        let left = info.len() - first / PIECE_SIZE * PIECE_SIZE;
        if !have_sizes(chunks.as_slice(), left) {
            return Err(WrongLength { chunks });
        }
        Ok(Hold {
            info,
            first,
            last,
            chunks,
        })
    }

    /// The first and the last byte of the stretch.
    pub fn stretch(&self) -> (usize, usize)
        ensures value { result ≡ (self.now.first, self.now.last) }
        ensures held { IsHeld self.now }
    {
        (self.first, self.last)
    }

    /// The bytes from `first` to `last`, a slice of each chunk that has some of them. The hold lends them.
    pub fn pieces(&self, first: usize, last: usize) -> Pieces<'_>
        requires { LiesIn self.now first last }
        ensures each { result ≡ lent self.now first last }
        ensures filled { All (λ piece. 0 < length piece) result }
        ensures joined { concat result ≡ held_part self.now first last }
        ensures pure { All (IsPure self.now.file) (chunks_met self.now first last) → concat result ≡ slice self.now.file first last }
    {
        let before = self.first / PIECE_SIZE;
        let place = first / PIECE_SIZE;
        let chunks = &self.chunks.as_slice()[place - before..last / PIECE_SIZE + 1 - before];
        let start = place * PIECE_SIZE;
        Pieces::new(chunks, first - start, last + 1 - start)
    }
}
