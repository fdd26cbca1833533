//! The group of a node on one thread.
ghost use Rattle.std.specs.Prelude.{◌≡◌, ◌↔◌, ◌<◌, ◌≤◌, ◌≢◌, Err, IfErr, IfOk, None, Ok, OnOk, length};
ghost use Rattle.host_names.specs.Digests.{digest_of};
ghost use Rattle.chunk_reads.specs.declared.faults.ReadFault.TheVariants.{OutOfMemory};
ghost use Rattle.chunk_lru.specs.Caches.{empty};
ghost use Rattle.chunk_lru.specs.Rules.{held};
ghost use Rattle.chunk_group.specs.Fills.{Fills, IsMiss};
ghost use Rattle.chunk_group.specs.Loads.{IsGivenFault};
ghost use Rattle.chunk_group.specs.Owners.{Owns};
ghost use Rattle.chunk_reads.specs.Reading.{IsNotHeld, ReadsInTurn};
ghost use Rattle.chunk_group.specs.Nodes.{ReadsOf};

use crate::caches::Caches;
use crate::coins::Coin;
use crate::loads::{Given, Suppliers};
use crate::places::RingPlace;
use crate::sources::Source;
use byte_view::{BlobInfo, Chunk, Hold};
use chunk_lru::ChunkCache;
use chunk_reads::{ChunkReader, Holder, ReadFault, hold_stretch};
use host_names::Digest;
use peer_link::PeerLink;
use peer_ring::{Ring, RingHash};
use std::alloc::{AllocError, Global};
use std::sync::Arc;

/// What reads of a node change: its caches, and whom it asks for chunks.
#[derive(Drop)]
pub(crate) struct Node<S, L, C> {
    caches: Caches<C>,
    pub(crate) suppliers: Suppliers<S, L>,
}

impl<S: Source, L: PeerLink, C: Coin> Node<S, L, C> {
    /// A share of a chunk that isn't in the caches.
    fn fill<H: RingHash + Copy + Drop>(
        &mut self,
        alloc: Global,
        place: &RingPlace<H>,
        key: &Digest,
    ) -> Result<Arc<Chunk>, ReadFault>
        requires { held key.now self.old.caches.cache ≡ None }
        ensures named { IfOk result (λ chunk. digest_of chunk.value ≡ key.now) }
        ensures chunk { IfOk result (λ chunk. IsMiss S.loaded L.fetched C.drew (Owns H.hashed place.now.ring key.now) place.now.me self.old key.now (Ok chunk.value) self.new) }
        ensures missed { IfErr result (λ fault. IsMiss S.loaded L.fetched C.drew (Owns H.hashed place.now.ring key.now) place.now.me self.old key.now (Err fault) self.new) }
        ensures fault { IfErr result (λ fault. fault ≢ OutOfMemory → IsGivenFault S.loaded self.old.suppliers.source key.now fault self.new.suppliers.source) }
    {
        let Given { chunk, giver } = self.suppliers.ask(place, key)?;
        let chunk = Arc::new(alloc, chunk).map_err(|_| ReadFault::OutOfMemory)?;
        self.caches.keep(giver, &chunk);
        Ok(chunk)
    }
}

/// A node of a group that one thread reads chunks through.
#[derive(Drop)]
pub struct SoloGroup<H: RingHash + Drop, S, L, C> {
    alloc: Global,
    place: RingPlace<H>,
    pub(crate) node: Node<S, L, C>,
}

impl<H: RingHash + Copy + Drop, S: Source + Drop, L: PeerLink + Drop, C: Coin + Drop> SoloGroup<
    H,
    S,
    L,
    C,
> {
    /// The node at a place in a ring. Its caches are empty. Together they count at most `limit`, in bytes.
    pub fn new(
        alloc: Global,
        limit: usize,
        ring: Ring<H>,
        me: usize,
        source: S,
        link: L,
        coin: C,
    ) -> Result<SoloGroup<H, S, L, C>, AllocError>
        requires { me < length ring.names }
        ensures place { IfOk result (λ group. (group.place.ring ≡ ring) × (group.place.me ≡ me)) }
        ensures caches { IfOk result (λ group. (group.node.caches.cache ≡ empty limit) × (group.node.caches.coin ≡ coin)) }
        ensures suppliers { IfOk result (λ group. (group.node.suppliers.source ≡ source) × (group.node.suppliers.link ≡ link)) }
    {
        let cache = ChunkCache::new(alloc, limit)?;
        Ok(SoloGroup::with_cache(alloc, cache, ring, me, source, link, coin))
    }
}

impl<H: RingHash + Copy + Drop, S: Source, L: PeerLink, C: Coin> SoloGroup<H, S, L, C> {
    /// The node at a place in a ring, with these caches.
    pub fn with_cache(
        alloc: Global,
        cache: ChunkCache,
        ring: Ring<H>,
        me: usize,
        source: S,
        link: L,
        coin: C,
    ) -> SoloGroup<H, S, L, C>
        requires { me < length ring.names }
        ensures place { (result.place.ring ≡ ring) × (result.place.me ≡ me) }
        ensures caches { (result.node.caches.cache ≡ cache) × (result.node.caches.coin ≡ coin) }
        ensures suppliers { (result.node.suppliers.source ≡ source) × (result.node.suppliers.link ≡ link) }
    {
        SoloGroup {
            alloc,
            place: RingPlace::new(ring, me),
            node: Node {
                caches: Caches::new(cache, coin),
                suppliers: Suppliers { source, link },
            },
        }
    }

    /// A share of the chunk of a key: from the caches, or else from the peer that owns it, or else from the source. What the source gave
    /// goes into main, and what a peer gave into hot if the coin draws 0. If there is no memory for that, the chunk isn't kept.
    pub fn get(&mut self, key: &Digest) -> Result<Arc<Chunk>, ReadFault>
        ensures named { IfOk result (λ chunk. digest_of chunk.value ≡ key.now) }
        ensures chunk { IfOk result (λ chunk. Fills S.loaded L.fetched C.drew (Owns H.hashed self.old.place.ring) self.old.place.me self.old.node key.now (Ok chunk.value) self.new.node) }
        ensures filled { IfErr result (λ fault. Fills S.loaded L.fetched C.drew (Owns H.hashed self.old.place.ring) self.old.place.me self.old.node key.now (Err fault) self.new.node) }
        ensures fault { IfErr result (λ fault. fault ≢ OutOfMemory → IsGivenFault S.loaded self.old.node.suppliers.source key.now fault self.new.node.suppliers.source) }
        ensures place { self.new.place ≡ self.old.place }
    {
        match self.node.caches.get(key) {
            Ok(Some(chunk)) => Ok(chunk),
            Ok(None) => self.node.fill(self.alloc, &self.place, key),
            Err(_) => Err(ReadFault::OutOfMemory),
        }
    }

    /// A stretch of a file, from its first to its last byte, with the chunks that it meets. Each chunk is read once, and has the name and
    /// the length of its piece.
    pub fn hold(
        &mut self,
        info: Arc<BlobInfo>,
        first: usize,
        last: usize,
    ) -> Result<Hold, ReadFault>
        requires ordered { first ≤ last }
        requires within { last < length info.value }
        ensures stretch { IfOk result (λ hold. (hold.file ≡ info.value) × (hold.first ≡ first) × (hold.last ≡ last)) }
        ensures read { IfOk result (λ hold. ReadsInTurn (ReadsOf S.loaded L.fetched C.drew H.hashed) self.old hold.chunks self.new) }
        ensures fault { IfErr result (λ fault. IsNotHeld (ReadsOf S.loaded L.fetched C.drew H.hashed) self.old info.value first last fault self.new) }
    {
        hold_stretch(self.alloc, self, info, first, last)
    }
}

impl<H: RingHash + Copy + Drop, S: Source, L: PeerLink, C: Coin> ChunkReader
    for SoloGroup<H, S, L, C> {
    ghost reads = { ReadsOf S.loaded L.fetched C.drew H.hashed };

    fn read(&mut self, name: &Digest) -> Result<Arc<Chunk>, ReadFault> {
        self.get(name)
    }
}

/// Files are read through the caches; what these don't have comes from the owner of its key, or else from the source.
impl<H: RingHash + Copy + Drop, S: Source, L: PeerLink, C: Coin> Holder for SoloGroup<H, S, L, C> {
    ghost gave = { λ old hold new. ReadsInTurn (ReadsOf S.loaded L.fetched C.drew H.hashed) old hold.chunks new };

    ghost failed = { IsNotHeld (ReadsOf S.loaded L.fetched C.drew H.hashed) };

    fn hold(&mut self, info: Arc<BlobInfo>, first: usize, last: usize) -> Result<Hold, ReadFault> {
        self.hold(info, first, last)
    }
}
