//! The group of a node that threads share.
ghost use Rattle.std.specs.Prelude.{◌≡◌, ◌<◌, ◌≤◌, IfErr, IfOk, IfSome, MatchResult, length};
ghost use Rattle.host_names.specs.Digests.{digest_of};
ghost use Rattle.chunk_reads.specs.declared.faults.ReadFault.TheVariants.{OutOfMemory};
ghost use Rattle.chunk_group.specs.Faults.{MayAnswer};
ghost use Rattle.chunk_group.specs.Holding.{MayNotHold};

use crate::caches::Caches;
use crate::coins::Coin;
use crate::held_pieces::HeldPieces;
use crate::loads::{Given, Giver, Suppliers, from_source};
use crate::places::RingPlace;
use crate::sources::{Loading, Outcome, Source};
use byte_view::{BlobInfo, Chunk, Hold};
use chunk_lru::ChunkCache;
use chunk_reads::{ChunkReader, ReadFault, hold_stretch};
use host_names::Digest;
use peer_link::{LocalChunks, PeerLink};
use peer_ring::{Ring, RingHash};
use single_flight::{Flights, Loads};
use std::alloc::{AllocError, Global};
use std::sync::{Arc, Mutex, Wait};

/// A node of a group that threads read chunks through. Each call works with a copy of the source, and with the link that it is given or a copy of the
/// node's own.
#[derive(Drop)]
pub struct Group<H: RingHash + Drop, S: Source, L, C>
where
    Loading<S>: Loads<Outcome>,
{
    alloc: Global,
    place: RingPlace<H>,
    suppliers: Suppliers<S, L>,
    caches: Mutex<Caches<C>>,
    held: Mutex<HeldPieces>,
    flights: Flights<Outcome, Loading<S>>,
}

impl<H: RingHash + Copy + Drop, S: Source + Copy, L: PeerLink + Copy, C: Coin + Drop> Group<
    H,
    S,
    L,
    C,
> {
    /// The node at a place in a ring. Its caches are empty. Together they count at most `limit`, in bytes.
    pub fn new(
        alloc: Global,
        limit: usize,
        ring: Ring<H>,
        me: usize,
        source: S,
        link: L,
        coin: C,
    ) -> Result<Group<H, S, L, C>, AllocError>
        requires { me < length ring.names }
        ensures place { IfOk result (λ group. (group.place.ring ≡ ring) × (group.place.me ≡ me)) }
        ensures suppliers { IfOk result (λ group. (group.suppliers.source ≡ source) × (group.suppliers.link ≡ link)) }
    {
        Ok(Group {
            alloc,
            place: RingPlace::new(ring, me),
            suppliers: Suppliers { source, link },
            caches: Mutex::new(Caches::new(ChunkCache::new(alloc, limit)?, coin)),
            held: Mutex::new(HeldPieces::new(alloc)),
            flights: Flights::new(alloc),
        })
    }

    /// A copy of the node's link, as it was given: nothing was fetched through it.
    pub fn link(&self) -> L
        ensures { result ≡ self.now.suppliers.link }
    {
        self.suppliers.link
    }

    /// A share of a chunk that is in the caches.
    fn look<R: Wait>(&self, rt: &R, key: &Digest) -> Result<Option<Arc<Chunk>>, ReadFault>
        ensures named { IfOk result (λ share. IfSome share (λ chunk. digest_of chunk.value ≡ key.now)) }
        ensures fault { IfErr result (λ fault. fault ≡ OutOfMemory) }
    {
        let looked = self.caches.lock(rt).get(key);
        looked.map_err(|_| ReadFault::OutOfMemory)
    }

    /// A share of a chunk that was given, or of one of that name that is held. The chunk is kept by the rule of `Caches::keep`.
    fn share<R: Wait>(&self, rt: &R, giver: Giver, chunk: Chunk) -> Outcome
        ensures named { IfOk result (λ share. digest_of share.value ≡ digest_of chunk) }
        ensures fault { IfErr result (λ fault. fault ≡ OutOfMemory) }
    {
        let shared = self.held.lock(rt).share(self.alloc, chunk);
        let share = shared.map_err(|_| ReadFault::OutOfMemory)?;
        self.caches.lock(rt).keep(giver, &share);
        Ok(share)
    }

    /// What a leader does: it looks into the caches once more, and then loads. It holds no lock while it loads.
    ///
    /// Between the caller's look and its lead, the key's last flight may have ended. Its leader keeps a chunk before it ends the flight, so this
    /// look finds a chunk that was kept, and doesn't load it again.
    fn fill<R: Wait>(&self, rt: &R, link: &mut L, key: &Digest) -> Outcome
        ensures named { IfOk result (λ chunk. digest_of chunk.value ≡ key.now) }
        ensures fault { IfErr result (λ fault. MayAnswer S.allows key.now fault) }
    {
        if let Some(chunk) = self.look(rt, key)? {
            return Ok(chunk);
        }
        let mut suppliers = Suppliers {
            source: self.suppliers.source,
            link: *link,
        };
        let asked = suppliers.ask(&self.place, key);
        *link = suppliers.link;
        let Given { chunk, giver } = asked?;
        self.share(rt, giver, chunk)
    }

    /// The same for a leader that asks no peer.
    fn fill_alone<R: Wait>(&self, rt: &R, key: &Digest) -> Outcome
        ensures named { IfOk result (λ chunk. digest_of chunk.value ≡ key.now) }
        ensures fault { IfErr result (λ fault. MayAnswer S.allows key.now fault) }
    {
        if let Some(chunk) = self.look(rt, key)? {
            return Ok(chunk);
        }
        let mut source = self.suppliers.source;
        let chunk = from_source(&mut source, key)?;
        self.share(rt, Giver::Source, chunk)
    }

    /// A share of the chunk of a key: from the caches, or from the load of it that is in flight; else it is loaded, from the peer that owns
    /// it, or else from the source. No lock is held during a load.
    pub fn get<R: Wait>(&self, rt: &R, key: &Digest) -> Result<Arc<Chunk>, ReadFault>
        ensures named { IfOk result (λ chunk. digest_of chunk.value ≡ key.now) }
        ensures fault { IfErr result (λ fault. MayAnswer S.allows key.now fault) }
    {
        let mut link = self.link();
        self.get_by(rt, &mut link, key)
    }

    /// The same by this link, if a peer is asked.
    fn get_by<R: Wait>(&self, rt: &R, link: &mut L, key: &Digest) -> Result<Arc<Chunk>, ReadFault>
        ensures named { IfOk result (λ chunk. digest_of chunk.value ≡ key.now) }
        ensures fault { IfErr result (λ fault. MayAnswer S.allows key.now fault) }
    {
        if let Some(chunk) = self.look(rt, key)? {
            return Ok(chunk);
        }
        let run: Result<Outcome, AllocError> = self
            .flights
            .run(rt, key, || self.fill(rt, link, key));
        match run {
            Ok(outcome) => outcome,
            Err(_) => Err(ReadFault::OutOfMemory),
        }
    }

    /// The same, but a leader asks the source alone.
    fn get_alone<R: Wait>(&self, rt: &R, key: &Digest) -> Result<Arc<Chunk>, ReadFault>
        ensures named { IfOk result (λ chunk. digest_of chunk.value ≡ key.now) }
        ensures fault { IfErr result (λ fault. MayAnswer S.allows key.now fault) }
    {
        if let Some(chunk) = self.look(rt, key)? {
            return Ok(chunk);
        }
        let run: Result<Outcome, AllocError> = self
            .flights
            .run(rt, key, || self.fill_alone(rt, key));
        match run {
            Ok(outcome) => outcome,
            Err(_) => Err(ReadFault::OutOfMemory),
        }
    }

    /// A stretch of a file, from its first to its last byte, with the chunks that it meets. Each chunk is read once, and has the name and
    /// the length of its piece. Peers are asked by this link. A caller that reads several stretches for one purpose reads them all by one link, so that what
    /// the link keeps of its calls, such as the time that they took, is of all of them.
    ///
    /// The call may wait, and takes a handle for that; so a `Group` is no `Holder`.
    pub fn hold<R: Wait>(
        &self,
        rt: &R,
        link: &mut L,
        info: Arc<BlobInfo>,
        first: usize,
        last: usize,
    ) -> Result<Hold, ReadFault>
        requires ordered { first ≤ last }
        requires within { last < length info.value }
        ensures stretch { IfOk result (λ hold. (hold.file ≡ info.value) × (hold.first ≡ first) × (hold.last ≡ last)) }
        ensures fault { IfErr result (λ fault. MayNotHold S.allows info.value first last fault) }
    {
        let mut reading = Reading {
            rt,
            group: self,
            link: *link,
        };
        let held = hold_stretch(self.alloc, &mut reading, info, first, last);
        *link = reading.link;
        held
    }

    /// The same if each chunk is in the caches by now, and there is memory for it; else nothing. Nobody is asked, and no flight is joined. It takes the lock of
    /// the caches once.
    pub fn hold_cached<R: Wait>(
        &self,
        rt: &R,
        info: Arc<BlobInfo>,
        first: usize,
        last: usize,
    ) -> Option<Hold>
        requires ordered { first ≤ last }
        requires within { last < length info.value }
        ensures { IfSome result (λ hold. (hold.file ≡ info.value) × (hold.first ≡ first) × (hold.last ≡ last)) }
    {
        self.caches.lock(rt).hold(self.alloc, info, first, last)
    }
}

/// What a peer is given: a chunk from the caches, from the load of it that is in flight, or from the source, as `get` gives it; nothing if
/// there is a fault. It asks no peer.
impl<H: RingHash + Copy + Drop, S: Source + Copy, L: PeerLink + Copy, C: Coin + Drop> LocalChunks
    for Group<H, S, L, C> {
    fn local<R: Wait>(&self, rt: &R, key: &Digest) -> Option<Arc<Chunk>> {
        self.get_alone(rt, key).ok()
    }
}

/// Frees from time to time what is kept for nobody.
pub trait Tidy {
    /// Frees it now.
    fn tidy<R: Wait>(&self, rt: &R);
}

/// A node lets go of the whole pieces that neither its caches nor any reader holds.
impl<H: RingHash + Drop, S: Source, L, C> Tidy for Group<H, S, L, C>
where
    Loading<S>: Loads<Outcome>,
{
    fn tidy<R: Wait>(&self, rt: &R) {
        self.held.lock(rt).let_go();
    }
}

/// A group that one thread reads through, and by which link it asks peers. The thread may wait.
#[derive(Drop)]
struct Reading<'a, R, H: RingHash + Drop, S: Source, L: Drop, C>
where
    Loading<S>: Loads<Outcome>,
{
    rt: &'a R,
    group: &'a Group<H, S, L, C>,
    link: L,
}

impl<
    R: Wait,
    H: RingHash + Copy + Drop,
    S: Source + Copy,
    L: PeerLink + Copy,
    C: Coin + Drop,
> ChunkReader for Reading<'_, R, H, S, L, C> {
    ghost reads = { λ _ name answer _. MatchResult answer (λ chunk. digest_of chunk ≡ name) (λ fault. MayAnswer S.allows name fault) };

    fn read(&mut self, name: &Digest) -> Result<Arc<Chunk>, ReadFault> {
        self.group.get_by(self.rt, &mut self.link, name)
    }
}
