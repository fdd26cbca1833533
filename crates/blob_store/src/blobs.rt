//! The store: files whose pieces and tables are on a shelf.
ghost use Rattle.std.specs.Prelude.{◌≡◌, ◌≢◌, ◌↔◌, ◌<◌, ◌≤◌, Err, IfErr, IfOk, MatchResult, None, OnErr, OnOk, Some, IsSome, length, option_map};
ghost use Rattle.std.specs.Prelude.{map as map_list};
ghost use Rattle.std.specs.FinMap as map;
ghost use Rattle.std.specs.List.Sorted.{IsStrictlySortedBy};
ghost use Rattle.host_names.specs.Digests.{digest_cmp, digest_of};
ghost use Rattle.byte_view.specs.Contents.{AreDigested, with_file};
ghost use Rattle.blob_store.specs.declared.shelves.ShelfName.TheVariants.{Part};
ghost use Rattle.chunk_reads.specs.declared.faults.ReadFault.TheVariants as read_fault;
ghost use Rattle.blob_store.specs.Calls.{Got, PutsFile};
ghost use Rattle.blob_store.specs.Faults.{HasPutSome, IsChunkFault};
ghost use Rattle.blob_store.specs.Openings.{IsOpenFault, IsOpened};
ghost use Rattle.blob_store.specs.declared.openings.OpenFault.TheVariants as open_fault;
ghost use Rattle.blob_store.specs.declared.shelves.ShelfFault.TheVariants as shelf_fault;
ghost use Rattle.blob_store.specs.declared.blobs.UploadFault.TheVariants as upload_fault;

use crate::blob_indexes::BlobIndex;
use crate::openings::{OpenFault, Wanted, open_files};
use crate::shelf_files::Files;
use crate::shelves::{Shelf, ShelfFault};
use byte_view::{BlobInfo, Chunk, MAX_SIZE, Uploads};
use chunk_reads::ReadFault;
use host_names::Digest;
use std::alloc::Global;
use std::marker::Model;
use std::sync::Arc;
use thiserror::Error;

/// Why a file can't be uploaded.
#[derive(Clone, Copy, Debug, PartialEq, Eq, Error)]
pub enum UploadFault {
    #[error("a file has at most 16,777,216 bytes")]
    TooLarge,
    #[error("the device failed")]
    Device,
    #[error("out of memory")]
    OutOfMemory,
}

impl UploadFault {
    /// The fault of an upload whose shelf failed this way.
    pub(crate) fn of_shelf(fault: ShelfFault) -> UploadFault
        ensures device { (result ≡ upload_fault.Device) ↔ (fault ≡ shelf_fault.Device) }
        ensures memory { (result ≡ upload_fault.OutOfMemory) ↔ (fault ≡ shelf_fault.OutOfMemory) }
        ensures judged { result ≢ upload_fault.TooLarge }
    {
        match fault {
            ShelfFault::Device => UploadFault::Device,
            ShelfFault::OutOfMemory => UploadFault::OutOfMemory,
        }
    }
}

/// A store: the files that were uploaded. What it knows of each is in memory, and the bytes are on the shelf. Contracts see both. Its two
/// halves can be used apart: what it knows (`BlobIndex`), and the files on the shelf (`Files`).
#[derive(Drop)]
pub struct Blobs<S> {
    known: BlobIndex,
    files: Files<S>,
}

impl<S> Model for Blobs<S> {
    ghost use Rattle.blob_store.specs.Files.{Store, coded_store};

    ghost Value = { Store S };

    ghost coded = { coded_store S.code };

    ghost view = { λ blobs. record { known = blobs.known; shelf = blobs.files.shelf } };
}

/// Why a store couldn't be opened, with its shelf as it is then: what is said of the fault is said of that shelf.
#[derive(Drop)]
pub struct NotOpened<S> {
    pub fault: OpenFault,
    pub shelf: S,
}

impl<S: Shelf> Blobs<S> {
    /// A store over a shelf. It knows no file yet.
    pub fn new(alloc: Global, shelf: S) -> Blobs<S>
        ensures none { result.known ≡ map.empty }
        ensures shelf { result.shelf ≡ shelf }
    {
        Blobs {
            known: BlobIndex::new(alloc),
            files: Files::new(alloc, shelf),
        }
    }

    /// A store over a shelf that may have files. Each wanted digest is listed once, in the order of digests. It reads each of these files
    /// whole, in this order, and knows those that the shelf gives whole. A missing or damaged file isn't known; the first one that must be
    /// there is a fault. A failure of the device is a fault at any file, and so is a lack of memory. After a fault the store asks for
    /// nothing more, and the shelf is handed back.
    pub fn open(alloc: Global, shelf: S, wanted: &[Wanted]) -> Result<Blobs<S>, NotOpened<S>>
        requires rising { IsStrictlySortedBy digest_cmp (map_list (λ one. one.digest) wanted.now) }
        ensures opened { IfOk result (λ blobs. IsOpened S.did shelf wanted.now blobs.known blobs.shelf) }
        ensures fault { IfErr result (λ stop. IsOpenFault S.did shelf wanted.now stop.fault stop.shelf) }
        ensures device { IfErr result (λ stop. stop.fault ≡ open_fault.Device → S.failures shelf < S.failures stop.shelf) }
        ensures count { MatchResult result (λ blobs. S.failures shelf ≤ S.failures blobs.shelf) (λ stop. S.failures shelf ≤ S.failures stop.shelf) }
    {
        let mut shelf = shelf;
        match open_files(alloc, &mut shelf, wanted) {
            Ok(known) => Ok(Blobs {
                known,
                files: Files::new(alloc, shelf),
            }),
            Err(fault) => Err(NotOpened { fault, shelf }),
        }
    }

    /// Its halves: what is known of the files, and the files on the shelf.
    pub fn into_parts(self) -> (BlobIndex, Files<S>)
        ensures known { result.0 ≡ self.known }
        ensures shelf { result.1.shelf ≡ self.shelf }
    {
        (self.known, self.files)
    }

    /// Hands out the shelf, without what is known.
    pub fn into_shelf(self) -> S
        ensures { result ≡ self.shelf }
    {
        self.files.into_shelf()
    }

    /// What is known of the file of a digest.
    pub fn find(&self, digest: &Digest) -> Option<&Arc<BlobInfo>>
        ensures found { option_map (λ info. info.now.value) result ≡ map.get self.now.known digest.now }
        ensures digested { AreDigested self.now.known }
    {
        self.known.find(digest)
    }

    /// Adds a file of at most `MAX_SIZE` bytes, and answers what is kept of it. A piece that the file has several times is put once; one
    /// that a known file has isn't put, unless there was no memory to keep its name. Nothing is put for a known digest. After a fault the
    /// store knows what it knew before.
    pub fn upload(&mut self, bytes: &[u8]) -> Result<Arc<BlobInfo>, UploadFault>
        ensures large { (result ≡ Err upload_fault.TooLarge) ↔ (16777216 < length bytes.now) }
        ensures info { IfOk result (λ info. map.get self.new.known (digest_of bytes.now) ≡ Some info.value) }
        ensures ok { OnOk result (self.new.known ≡ with_file self.old.known bytes.now) }
        ensures err { OnErr result (self.new.known ≡ self.old.known) }
        ensures device { IfErr result (λ fault. fault ≡ upload_fault.Device → S.failures self.old.shelf < S.failures self.new.shelf) }
        ensures count { S.failures self.old.shelf ≤ S.failures self.new.shelf }
        ensures known { IsSome (map.get self.old.known (digest_of bytes.now)) → self.new.shelf ≡ self.old.shelf }
        ensures put { OnOk result (map.get self.old.known (digest_of bytes.now) ≡ None
            → PutsFile S.did self.old.known self.old.shelf bytes.now None self.new.shelf) }
        ensures not_put { IfErr result
            (λ fault. HasPutSome S.did self.old.known self.old.shelf bytes.now fault self.new.shelf) }
    {
        if bytes.len() > MAX_SIZE {
            return Err(UploadFault::TooLarge);
        }
        let digest = Digest::of_bytes(bytes);
        if let Some(known) = self.known.find(&digest) {
            return known.clone().map_err(|_| UploadFault::OutOfMemory);
        }
        let info = self.files.put(&self.known, digest, bytes)?;
        let kept = info.clone().map_err(|_| UploadFault::OutOfMemory)?;
        self.known.keep(kept).map_err(|_| UploadFault::OutOfMemory)?;
        Ok(info)
    }

    /// The chunk with this name, as the shelf gives it now, and checked: it has that name. What is known stays.
    ///
    /// The answer has the checked chunk and no bytes next to it. So bytes from a shelf are hashed once, and never used unchecked.
    pub fn chunk(&mut self, name: &Digest) -> Result<Chunk, ReadFault>
        ensures given { IfOk result (λ chunk. S.did self.old.shelf (Got (Part name.now) (Some chunk)) self.new.shelf) }
        ensures named { IfOk result (λ chunk. digest_of chunk ≡ name.now) }
        ensures fault { IfErr result (λ fault. IsChunkFault S.did self.old.shelf name.now fault self.new.shelf) }
        ensures device { IfErr result (λ fault. fault ≡ read_fault.Device → S.failures self.old.shelf < S.failures self.new.shelf) }
        ensures count { S.failures self.old.shelf ≤ S.failures self.new.shelf }
        ensures known { self.new.known ≡ self.old.known }
    {
        self.files.chunk(name)
    }
}

impl<S: Shelf> Uploads for Blobs<S> {
    ghost contents = { λ blobs. blobs.known };

    fn find(&self, digest: &Digest) -> Option<&Arc<BlobInfo>> {
        self.find(digest)
    }
}
