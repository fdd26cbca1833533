//! Files on a shelf, without what is known of them.
ghost use Rattle.std.specs.Prelude.{◌≡◌, ◌↔◌, ◌<◌, ◌≤◌, Err, IfErr, IfOk, None, OnOk, Some, length};
ghost use Rattle.host_names.specs.Digests.{digest_of};
ghost use Rattle.blob_store.specs.declared.blobs.UploadFault.TheVariants as upload_fault;
ghost use Rattle.chunk_reads.specs.declared.faults.ReadFault.TheVariants as read_fault;
ghost use Rattle.blob_store.specs.declared.shelves.ShelfName.TheVariants.{Part};
ghost use Rattle.blob_store.specs.Calls.{Got, PutsFile};
ghost use Rattle.blob_store.specs.Faults.{HasPutPart, IsChunkFault};

use crate::blob_indexes::BlobIndex;
use crate::blobs::UploadFault;
use crate::puts::put_file;
use crate::reading::read_chunk;
use crate::shelves::Shelf;
use crate::tables::table_text;
use byte_view::{BlobInfo, Chunk, MAX_SIZE};
use chunk_reads::ReadFault;
use host_names::Digest;
use std::alloc::Global;
use std::sync::Arc;

/// Files on a shelf. What is known of them is kept elsewhere.
#[derive(Drop)]
pub struct Files<S> {
    alloc: Global,
    shelf: S,
}

impl<S: Shelf> Files<S> {
    /// The files of a shelf.
    pub fn new(alloc: Global, shelf: S) -> Files<S>
        ensures { result.shelf ≡ shelf }
    {
        Files { alloc, shelf }
    }

    /// Hands out the shelf.
    pub fn into_shelf(self) -> S
        ensures { result ≡ self.shelf }
    {
        self.shelf
    }

    /// The shelf, for one call of it.
    pub(crate) fn shelf_mut(&mut self) -> &mut S {
        &mut self.shelf
    }

    /// Puts a file of at most `MAX_SIZE` bytes on the shelf, each piece once and then its table, and answers what is kept of it. The shelf
    /// has to have the known files: a piece that one of these has isn't put, unless there was no memory to keep its name.
    pub fn put(
        &mut self,
        known: &BlobIndex,
        digest: Digest,
        bytes: &[u8],
    ) -> Result<Arc<BlobInfo>, UploadFault>
        requires { digest ≡ digest_of bytes.now }
        ensures large { (result ≡ Err upload_fault.TooLarge) ↔ (16777216 < length bytes.now) }
        ensures info { IfOk result (λ info. info.value ≡ bytes.now) }
        ensures put { OnOk result (PutsFile S.did known.now self.old.shelf bytes.now None self.new.shelf) }
        ensures not_put { IfErr result
            (λ fault. HasPutPart S.did known.now self.old.shelf bytes.now fault self.new.shelf) }
        ensures device { IfErr result (λ fault. fault ≡ upload_fault.Device → S.failures self.old.shelf < S.failures self.new.shelf) }
        ensures count { S.failures self.old.shelf ≤ S.failures self.new.shelf }
    {
        if bytes.len() > MAX_SIZE {
            return Err(UploadFault::TooLarge);
        }
        let alloc = self.alloc;
        let info = BlobInfo::digested(alloc, digest, bytes).map_err(|_| UploadFault::OutOfMemory)?;
        let table = table_text(alloc, info.len(), info.names()).map_err(
            |_| UploadFault::OutOfMemory,
        )?;
        let info = Arc::new(alloc, info).map_err(|_| UploadFault::OutOfMemory)?;
        put_file(
            &mut self.shelf,
            known.pieces(),
            &info,
            bytes,
            table.as_slice(),
        )
        .map_err(UploadFault::of_shelf)?;
        Ok(info)
    }

    /// The chunk with this name, as the shelf gives it now, and checked: it has that name.
    pub fn chunk(&mut self, name: &Digest) -> Result<Chunk, ReadFault>
        ensures given { IfOk result (λ chunk. S.did self.old.shelf (Got (Part name.now) (Some chunk)) self.new.shelf) }
        ensures named { IfOk result (λ chunk. digest_of chunk ≡ name.now) }
        ensures fault { IfErr result (λ fault. IsChunkFault S.did self.old.shelf name.now fault self.new.shelf) }
        ensures device { IfErr result (λ fault. fault ≡ read_fault.Device → S.failures self.old.shelf < S.failures self.new.shelf) }
        ensures count { S.failures self.old.shelf ≤ S.failures self.new.shelf }
    {
        read_chunk(&mut self.shelf, *name)
    }
}
