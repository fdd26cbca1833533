//! One list of chunks, in the order of their last use.
ghost use Rattle.std.specs.Prelude.{◌≡◌, ◌∷◌, ◌+◌, ◌<◌, ◌^◌, [], IfOk, IsOk, IsSome, None, OnErr, OnOk, is_some, length, option_map};
ghost use Rattle.std.specs.NonZero.{non_zero_usize_get};
ghost use Rattle.host_names.specs.Digests.{digest_of};
ghost use Rattle.chunk_lru.specs.Recent.{found, inserted, recent, size_of, to_front, without_last};

use byte_view::Chunk;
use host_names::Digest;
use lru::LruCache;
use std::alloc::{AllocError, Global};
use std::marker::Model;
use std::num::NonZeroUsize;
use std::sync::Arc;

/// Chunks under the bytes of their names, and what they count together.
///
/// The keys are bytes, since `Digest` has no `Hash`. They are hashed with a fixed seed, so that runs repeat: whoever uploads chunks whose
/// names collide in that hash can make look-ups slow.
#[derive(Drop)]
pub(crate) struct ChunkList {
    chunks: LruCache<[u8; 20], Arc<Chunk>>,
    size: u128,
}

impl Model for ChunkList {
    ghost use Rattle.std.specs.Prelude.{◌≡◌};
    ghost use Rattle.chunk_lru.specs.Recent.{AreNamed, Recent, chunks_of, recent, size_of};

    ghost Value = { Recent };

    ghost view = { λ list. recent (chunks_of (λ share. share.value) list.chunks.entries) list.chunks.cap };

    ghost invariant = { λ list. AreNamed (λ share. share.value) list.chunks.entries × (list.size ≡ size_of (chunks_of (λ share. share.value) list.chunks.entries)) };
}

/// What an entry counts: 40, and the bytes of its chunk. Sums of these have 128 bits, since with the entry that was just inserted the
/// caches may be over the limit, which may be any `usize`.
fn weight(chunk: &Chunk) -> u128
    ensures value { result ≡ 40 + length chunk.now }
    ensures bound { result < 2 ^ 65 }
{
    40 + chunk.view().len() as u128
}

impl ChunkList {
    /// An empty list with room for this many chunks.
    pub(crate) fn new(alloc: Global, room: NonZeroUsize) -> Result<ChunkList, AllocError>
        ensures { IfOk result (λ list. list ≡ recent [] (non_zero_usize_get room)) }
    {
        Ok(ChunkList {
            chunks: LruCache::sparse(alloc, room)?,
            size: 0,
        })
    }

    /// What the entries count together.
    pub(crate) fn size(&self) -> u128
        ensures { result ≡ size_of self.now.chunks }
    {
        self.size
    }

    /// A share of the chunk of a name, which becomes the first.
    pub(crate) fn get(&mut self, name: &Digest) -> Result<Option<Arc<Chunk>>, AllocError>
        ensures found { IfOk result (λ share. option_map (λ chunk. chunk.value) share ≡ found name.now self.old.chunks) }
        ensures ok { OnOk result (self.new ≡ recent (to_front name.now self.old.chunks) self.old.room) }
        ensures miss { found name.now self.old.chunks ≡ None → IsOk result }
        ensures err { OnErr result (self.new ≡ self.old) }
    {
        // The chunk that was used last stays the first.
        let Some((last, first)) = self.chunks.peek_mru() else {
            return Ok(None);
        };
        if *last == name.0 {
            return Ok(Some(Arc::try_clone(first)?));
        }
        let Some(chunk) = self.chunks.peek(&name.0) else {
            return Ok(None);
        };
        // The share comes first: where there is no memory for it, nothing moves.
        let share = Arc::try_clone(chunk)?;
        self.chunks.promote(&name.0);
        Ok(Some(share))
    }

    /// Makes the chunk of a name the first. Answers whether it is there.
    fn promote(&mut self, name: &Digest) -> bool
        ensures found { result ≡ is_some (found name.now self.old.chunks) }
        ensures moved { self.new ≡ recent (to_front name.now self.old.chunks) self.old.room }
    {
        self.chunks.promote(&name.0)
    }

    /// Adds a chunk, which isn't there, as the first.
    fn push(&mut self, chunk: Arc<Chunk>) -> Result<(), AllocError>
        requires missing { found (digest_of chunk.value) self.old.chunks ≡ None }
        requires room { length self.old.chunks < self.old.room }
        requires size { size_of self.old.chunks < 2 ^ 127 }
        ensures ok { OnOk result (self.new ≡ recent (chunk.value ∷ self.old.chunks) self.old.room) }
        ensures bound { OnOk result (size_of self.new.chunks < size_of self.old.chunks + 2 ^ 65) }
        ensures err { OnErr result (self.new ≡ self.old) }
    {
        let weight = weight(&chunk);
        self.chunks.put(chunk.name().0, chunk)?;
        self.size += weight;
        Ok(())
    }

    /// Adds a chunk as the first. If its name is there, the chunk that is held becomes the first instead.
    pub(crate) fn add(&mut self, chunk: Arc<Chunk>) -> Result<(), AllocError>
        requires room { length self.old.chunks < self.old.room }
        requires size { size_of self.old.chunks < 2 ^ 127 }
        ensures ok { OnOk result (self.new ≡ recent (inserted chunk.value self.old.chunks) self.old.room) }
        ensures bound { OnOk result (size_of self.new.chunks < size_of self.old.chunks + 2 ^ 65) }
        ensures present { IsSome (found (digest_of chunk.value) self.old.chunks) → IsOk result }
        ensures err { OnErr result (self.new ≡ self.old) }
    {
        if self.promote(&chunk.name()) {
            return Ok(());
        }
        self.push(chunk)
    }

    /// Removes the last chunk.
    pub(crate) fn remove_last(&mut self)
        ensures { self.new ≡ recent (without_last self.old.chunks) self.old.room }
    {
        if let Some((_, chunk)) = self.chunks.pop_lru() {
            self.size -= weight(&chunk);
        }
    }
}
