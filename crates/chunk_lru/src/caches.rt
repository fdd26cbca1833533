//! The two caches.
ghost use Rattle.std.specs.Prelude.{◌≡◌, ◌+◌, ◌<◌, ◌≤◌, ◌^◌, IfOk, IfSome, IsOk, IsSome, None, OnErr, OnOk, option_map};
ghost use Rattle.host_names.specs.Digests.{digest_of};
ghost use Rattle.chunk_lru.specs.Caches.{empty, together};
ghost use Rattle.chunk_lru.specs.Recent.{HaveOwnNames, found, recent, size_of};
ghost use Rattle.chunk_lru.specs.Rules.{added, chunks_in, evicted, held, looked_up, total};

use crate::lists::ChunkList;
use byte_view::Chunk;
use host_names::Digest;
use std::alloc::{AllocError, Global};
use std::marker::Model;
use std::num::NonZeroUsize;
use std::sync::Arc;

/// One of the two caches: of chunks that the source gave, or of those that a peer gave.
#[derive(Clone, Copy, Debug, PartialEq, Eq)]
pub enum Which {
    Main,
    Hot,
}

/// Two caches of chunks under one limit. Each entry counts 40, whatever the allocator takes for it, and the bytes of its chunk. Contracts
/// see the chunks of each cache, the last used first.
#[derive(Drop)]
pub struct ChunkCache {
    limit: usize,
    main: ChunkList,
    hot: ChunkList,
}

impl Model for ChunkCache {
    ghost use Rattle.chunk_lru.specs.Caches.{AreWithin, Cache, together};

    ghost Value = { Cache };

    ghost view = { λ cache. together cache.limit cache.main cache.hot };

    ghost invariant = { λ cache. AreWithin cache.limit cache.main cache.hot };
}

/// Removes chunks until the rest is within the limit: the last of hot if hot counts more than an eighth of main, else the last of main.
fn evict(main: &mut ChunkList, hot: &mut ChunkList, limit: usize)
    requires { total (together limit main.old hot.old) < 2 ^ 127 }
    ensures main { main.new ≡ recent (evicted (together limit main.old hot.old)).main main.old.room }
    ensures hot { hot.new ≡ recent (evicted (together limit main.old hot.old)).hot hot.old.room }
    ensures within { total (together limit main.new hot.new) ≤ limit }
{
    while main.size() + hot.size() > limit as u128 {
        if hot.size() > main.size() / 8 {
            hot.remove_last();
        } else {
            main.remove_last();
        }
    }
}

impl ChunkCache {
    /// Two caches with nothing in them.
    pub fn new(alloc: Global, limit: usize) -> Result<ChunkCache, AllocError>
        ensures { IfOk result (λ cache. cache ≡ empty limit) }
    {
        // An entry counts 40 or more, so there is always room for one more than the limit allows, and the lists evict
        // nothing by themselves.
        let room = NonZeroUsize::MIN.saturating_add(limit / 40);
        Ok(ChunkCache {
            limit,
            main: ChunkList::new(alloc, room)?,
            hot: ChunkList::new(alloc, room)?,
        })
    }

    /// What the entries of main and of hot count, in bytes. Together they are within the limit, and neither has a name twice.
    pub fn sizes(&self) -> (usize, usize)
        ensures counted { result ≡ (size_of self.now.main, size_of self.now.hot) }
        ensures within { total self.now ≤ self.now.limit }
        ensures once { HaveOwnNames self.now.main × HaveOwnNames self.now.hot }
    {
        (self.main.size() as usize, self.hot.size() as usize)
    }

    /// A share of the chunk of a name, from main or else from hot. The chunk becomes the first of its cache. If there is no memory for the
    /// share, nothing changes.
    pub fn get(&mut self, name: &Digest) -> Result<Option<Arc<Chunk>>, AllocError>
        ensures found { IfOk result (λ share. option_map (λ chunk. chunk.value) share ≡ held name.now self.old) }
        ensures named { IfOk result (λ share. IfSome share (λ chunk. digest_of chunk.value ≡ name.now)) }
        ensures ok { OnOk result (self.new ≡ looked_up name.now self.old) }
        ensures miss { held name.now self.old ≡ None → IsOk result }
        ensures err { OnErr result (self.new ≡ self.old) }
    {
        match self.main.get(name)? {
            Some(chunk) => Ok(Some(chunk)),
            None => self.hot.get(name),
        }
    }

    /// Adds a chunk to one of the caches, as its first, and evicts what is over the limit. That may be this chunk too: one that counts more
    /// than the limit is evicted by the same rule, after all older chunks of its list. If the cache has the chunk's name, the chunk that it
    /// holds becomes the first, and nothing else changes. If memory runs out, nothing changes.
    pub fn add(&mut self, which: Which, chunk: Arc<Chunk>) -> Result<(), AllocError>
        ensures ok { OnOk result (self.new ≡ added which chunk.value self.old) }
        ensures present { IsSome (found (digest_of chunk.value) (chunks_in which self.old)) → IsOk result }
        ensures err { OnErr result (self.new ≡ self.old) }
    {
        match which {
            Which::Main => self.main.add(chunk)?,
            Which::Hot => self.hot.add(chunk)?,
        }
        evict(&mut self.main, &mut self.hot, self.limit);
        Ok(())
    }
}
