//! The files of a node that is alone: they are on its shelf, and read through a cache of their chunks.
ghost use Rattle.std.specs.Prelude.{◌≡◌, ◌<◌, ◌≤◌, IfErr, IfOk, length};
ghost use Rattle.chunk_lru.specs.Caches.{empty};
ghost use Rattle.std.specs.Borrow.{Lends, sem};
ghost use Rattle.blob_store.specs.contracts.shelf_files.Files as files;
ghost use Rattle.chunk_reads.specs.Reading.{IsNotHeld};
ghost use Rattle.chunk_group.specs.Cached.{GaveOfNode, ReadsChunk, with_shelf};
ghost use Rattle.chunk_group.specs.contracts.node_files.NodeFiles.{the_row};

use crate::coins::Counter;
use crate::file_sources::FileSource;
use crate::solo_groups::SoloGroup;
use blob_store::{Files, Shelf};
use byte_view::{BlobInfo, Hold};
use chunk_lru::ChunkCache;
use chunk_reads::{Holder, ReadFault};
use peer_link::NoLink;
use peer_ring::{DigestHash, Ring, RingFault};
use std::alloc::{AllocError, Global};
use std::marker::Model;
use std::sync::Arc;

/// What the cache counts at most, in bytes: 64 MiB.
const CACHE_LIMIT: usize = 67_108_864;

/// The files of a node that is alone: its ring has one name, its link no peer, and its source is the shelf. Contracts see the shelf, and
/// the cache through which its chunks are read, since nothing else of the node can be told apart.
#[derive(Drop)]
pub struct NodeFiles<S> {
    group: SoloGroup<DigestHash, FileSource<S>, NoLink, Counter>,
}

impl<S> Model for NodeFiles<S> {
    ghost use Rattle.chunk_group.specs.Cached.{CachedShelf};
    ghost use Rattle.chunk_group.specs.Shelves.{shelf_of};
    ghost use Rattle.chunk_group.specs.Lone.{IsLone};

    ghost Value = { CachedShelf S };

    ghost view = { λ files. shelf_of files.group };

    ghost invariant = { λ files. IsLone files.group };
}

/// A ring of one name.
fn lone_ring(alloc: Global) -> Result<Ring<DigestHash>, AllocError>
    ensures { IfOk result (λ ring. length ring.names ≡ 1) }
{
    match Ring::new(alloc, &["solo"], &DigestHash) {
        Ok(ring) => Ok(ring),
        Err(RingFault::OutOfMemory) => Err(AllocError),
        Err(RingFault::NoPeers | RingFault::TooManyPeers) => unreachable!(),
    }
}

impl<S: Shelf> NodeFiles<S> {
    /// The files of a shelf. The cache is empty. If there is no memory for the ring or for the cache, the files are handed back.
    pub fn new(alloc: Global, files: Files<S>) -> Result<NodeFiles<S>, Files<S>>
        ensures new { IfOk result (λ node. node ≡ record { shelf = files.shelf; cache = empty 67108864 }) }
        ensures back { IfErr result (λ back. back ≡ files) }
    {
        let Ok(ring) = lone_ring(alloc) else {
            return Err(files);
        };
        let Ok(cache) = ChunkCache::new(alloc, CACHE_LIMIT) else {
            return Err(files);
        };
        let source = FileSource::new(files);
        let group = SoloGroup::with_cache(alloc, cache, ring, 0, source, NoLink, Counter::new());
        Ok(NodeFiles { group })
    }

    /// The files on its shelf. Uploads go there and past the cache, so the first read of each piece still checks what the shelf has of it.
    pub fn files_mut(&mut self) -> &mut Files<S>
        ensures* lends { sem 𝓛 (Lends (the_row S.row) (files.the_row S.row) self.entry result (λ files. with_shelf files.shelf self.old)) }
        ensures value { result.now.shelf ≡ self.old.shelf }
    {
        let source = &mut self.group.node.suppliers.source;
        &mut source.files
    }

    /// A stretch of a file, from its first to its last byte, with the chunks that it meets. They are read in turn, from the cache or else
    /// from the shelf, and each has the name and the length of its piece.
    ///
    /// A chunk in the cache isn't looked for on the shelf. So a file that is lost or damaged after it was read is sent as it was, as long
    /// as its chunks are in the cache; they were checked on their way in, and their type keeps them so.
    pub fn hold(
        &mut self,
        info: Arc<BlobInfo>,
        first: usize,
        last: usize,
    ) -> Result<Hold, ReadFault>
        requires ordered { first ≤ last }
        requires within { last < length info.value }
        ensures stretch { IfOk result (λ hold. (hold.file ≡ info.value) × (hold.first ≡ first) × (hold.last ≡ last)) }
        ensures read { IfOk result (λ hold. GaveOfNode S.did S.failures self.old hold self.new) }
        ensures fault { IfErr result (λ fault.
            IsNotHeld (ReadsChunk S.did S.failures) self.old info.value first last fault self.new) }
    {
        self.group.hold(info, first, last)
    }
}

impl<S: Shelf> Holder for NodeFiles<S> {
    ghost gave = { GaveOfNode S.did S.failures };

    ghost failed = { IsNotHeld (ReadsChunk S.did S.failures) };

    fn hold(&mut self, info: Arc<BlobInfo>, first: usize, last: usize) -> Result<Hold, ReadFault> {
        self.hold(info, first, last)
    }
}
