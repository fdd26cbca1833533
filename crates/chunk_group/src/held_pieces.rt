//! The pieces of a node that somebody holds.
ghost use Rattle.std.specs.Prelude.{◌≡◌, IfOk, IfSome};
ghost use Rattle.host_names.specs.Digests.{digest_of};

use byte_view::{Chunk, PIECE_SIZE};
use host_names::Digest;
use std::alloc::{AllocError, Global};
use std::collections::BTreeMap;
use std::sync::Arc;

/// How many pieces are added before those that nobody else holds are let go.
const PIECES_BETWEEN_LOOKS: usize = 32;

/// A share of each whole piece that a node has read and that somebody may still hold: the caches, or a reply that is sent. Whoever reads a piece that the caches
/// have let go meanwhile gets this share. So a node has the bytes of a whole piece once, however many replies hold it.
///
/// Pieces that are shorter, as the last one of a file may be, aren't kept here: files that are tiny have more of them than could be looked through.
#[derive(Drop)]
pub(crate) struct HeldPieces {
    pieces: BTreeMap<Digest, Arc<Chunk>>,
    added: usize,
}

impl HeldPieces {
    /// There are none.
    pub(crate) fn new(alloc: Global) -> HeldPieces {
        HeldPieces {
            pieces: BTreeMap::new(alloc),
            added: 0,
        }
    }

    /// A share of the piece that has the name of this one, if it is held.
    fn held(&self, piece: &Chunk) -> Result<Option<Arc<Chunk>>, AllocError>
        ensures { IfOk result (λ share. IfSome share (λ held. digest_of held.value ≡ digest_of piece.now)) }
    {
        let name = piece.name();
        match self.pieces.get(&name) {
            Some(held) if held.name() == name => Ok(Some(Arc::try_clone(held)?)),
            _ => Ok(None),
        }
    }

    /// Keeps a share of a piece, if there is memory for it.
    fn add(&mut self, piece: &Arc<Chunk>) {
        if self.added >= PIECES_BETWEEN_LOOKS {
            self.let_go();
        }
        if let Ok(share) = Arc::try_clone(piece) {
            let _ = self.pieces.insert(piece.name(), share);
            self.added = self.added.saturating_add(1);
        }
    }

    /// A share of a piece that was read: of the one that is held, if one of that name is, and else of this one.
    pub(crate) fn share(&mut self, alloc: Global, piece: Chunk) -> Result<Arc<Chunk>, AllocError>
        ensures { IfOk result (λ share. digest_of share.value ≡ digest_of piece) }
    {
        if piece.view().len() < PIECE_SIZE {
            return Ok(Arc::new(alloc, piece)?);
        }
        if let Some(share) = self.held(&piece)? {
            return Ok(share);
        }
        let share = Arc::new(alloc, piece)?;
        self.add(&share);
        Ok(share)
    }

    /// Lets go of each piece that nobody else holds.
    pub(crate) fn let_go(&mut self) {
        self.pieces.retain(|_, piece| Arc::strong_count(piece) > 1);
        self.added = 0;
    }
}
