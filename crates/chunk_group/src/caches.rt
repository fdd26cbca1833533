//! The caches of a node, and what is kept in them.
ghost use Rattle.std.specs.Prelude.{◌≡◌, ◌<◌, ◌≤◌, IfOk, IfSome, IsOk, None, MatchOption, OnErr, OnOk, length, option_map};
ghost use Rattle.host_names.specs.Digests.{digest_of};
ghost use Rattle.chunk_lru.specs.Rules.{held, looked_up};
ghost use Rattle.chunk_reads.specs.declared.faults.ReadFault.{ReadFault as Fault};
ghost use Rattle.chunk_reads.specs.Reading.{IsNotHeld, ReadsInTurn};
ghost use Rattle.chunk_group.specs.Kept.{IsKept, KeptIn};
ghost use Rattle.chunk_group.specs.Looks.{LooksUp};

use crate::coins::Coin;
use crate::loads::Giver;
use byte_view::{BlobInfo, Chunk, Hold};
use chunk_lru::{ChunkCache, Which};
use chunk_reads::{ChunkReader, ReadFault, hold_stretch};
use host_names::Digest;
use std::alloc::{AllocError, Global};
use std::sync::Arc;

/// The two caches, and the coin that says which chunks from peers are kept.
#[derive(Drop)]
pub(crate) struct Caches<C> {
    cache: ChunkCache,
    coin: C,
}

impl<C: Coin> Caches<C> {
    pub(crate) fn new(cache: ChunkCache, coin: C) -> Caches<C>
        ensures cache { result.cache ≡ cache }
        ensures coin { result.coin ≡ coin }
    {
        Caches { cache, coin }
    }

    /// A share of the chunk of a key. A miss changes nothing.
    pub(crate) fn get(&mut self, key: &Digest) -> Result<Option<Arc<Chunk>>, AllocError>
        ensures found { IfOk result (λ share. option_map (λ chunk. chunk.value) share ≡ held key.now self.old.cache) }
        ensures named { IfOk result (λ share. IfSome share (λ chunk. digest_of chunk.value ≡ key.now)) }
        ensures ok { OnOk result (self.new.cache ≡ looked_up key.now self.old.cache) }
        ensures miss { held key.now self.old.cache ≡ None → IsOk result × (self.new ≡ self.old) }
        ensures err { OnErr result (self.new ≡ self.old) }
        ensures coin { self.new.coin ≡ self.old.coin }
    {
        self.cache.get(key)
    }

    /// Adds a share of a chunk, if there is memory for it.
    fn add(&mut self, which: Which, chunk: &Arc<Chunk>)
        ensures kept { KeptIn which chunk.now.value self.old.cache self.new.cache }
        ensures coin { self.new.coin ≡ self.old.coin }
    {
        if let Ok(share) = Arc::try_clone(chunk) {
            let _ = self.cache.add(which, share);
        }
    }

    /// Keeps a chunk that was loaded: in main if the source gave it; in hot if a peer gave it and the coin draws 0. If there is no memory
    /// for that, the chunk isn't kept.
    pub(crate) fn keep(&mut self, giver: Giver, chunk: &Arc<Chunk>)
        ensures { IsKept C.drew giver chunk.now.value self.old self.new }
    {
        match giver {
            Giver::Source => self.add(Which::Main, chunk),
            Giver::Peer => {
                if self.coin.draw() == 0 {
                    self.add(Which::Hot, chunk);
                }
            }
        }
    }

    /// A stretch of a file, from its first to its last byte, if each chunk that it meets is in the caches, and there is memory for it.
    pub(crate) fn hold(
        &mut self,
        alloc: Global,
        info: Arc<BlobInfo>,
        first: usize,
        last: usize,
    ) -> Option<Hold>
        requires ordered { first ≤ last }
        requires within { last < length info.value }
        ensures stretch { IfSome result (λ hold. (hold.file ≡ info.value) × (hold.first ≡ first) × (hold.last ≡ last)) }
        ensures looks { MatchOption result ((why : Fault) × IsNotHeld LooksUp self.old info.value first last why self.new)
            (λ hold. ReadsInTurn LooksUp self.old hold.chunks self.new) }
    {
        match hold_stretch(alloc, self, info, first, last) {
            Ok(hold) => Some(hold),
            Err(_) => None,
        }
    }
}

/// Reads what is in the caches. What isn't there is missing: nobody is asked for it.
impl<C: Coin> ChunkReader for Caches<C> {
    ghost use Rattle.chunk_group.specs.Looks.{LooksUp};

    ghost reads = { LooksUp };

    fn read(&mut self, name: &Digest) -> Result<Arc<Chunk>, ReadFault> {
        match self.get(name) {
            Ok(Some(chunk)) => Ok(chunk),
            Ok(None) => Err(ReadFault::Missing),
            Err(_) => Err(ReadFault::OutOfMemory),
        }
    }
}
