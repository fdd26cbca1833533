//! The files that a store knows.
ghost use Rattle.std.specs.Prelude.{◌≡◌, None, OnErr, OnOk, option_map};
ghost use Rattle.std.specs.FinMap as map;
ghost use Rattle.host_names.specs.Digests.{digest_of};
ghost use Rattle.byte_view.specs.Contents.{AreDigested, with_file};
ghost use Rattle.blob_store.specs.Calls.{AreKnownNames};

use crate::stored_pieces::StoredPieces;
use byte_view::{BlobInfo, Uploads};
use host_names::Digest;
use std::alloc::{AllocError, Global};
use std::collections::BTreeMap;
use std::marker::Model;
use std::sync::Arc;

/// The files that a store knows: what is kept of each, under its digest, and the names of their pieces. Contracts see the bytes of each
/// file.
///
/// The names of pieces are kept here and not with the shelf. So they are always names of pieces of files that the shelf has whole, and no
/// clause above speaks of them.
#[derive(Drop)]
pub struct BlobIndex {
    files: BTreeMap<Digest, Arc<BlobInfo>>,
    pieces: StoredPieces,
}

impl Model for BlobIndex {
    ghost use Rattle.std.specs.Coded.{coded_ℕ, coded_list};
    ghost use Rattle.std.specs.FinMap as map;
    ghost use Rattle.host_names.specs.Digests.{coded_digest};
    ghost use Rattle.byte_view.specs.Contents.{Contents, AreDigested};
    ghost use Rattle.blob_store.specs.Calls.{AreKnownNames};
    ghost use Rattle.blob_store.specs.Files.{stored};

    ghost Value = { Contents };

    ghost coded = { map.code coded_digest (coded_list coded_ℕ) };

    ghost view = { λ u. stored (λ file. file.value) u.files.entries };

    ghost invariant = { λ u. AreDigested (stored (λ file. file.value) u.files.entries)
        × AreKnownNames (stored (λ file. file.value) u.files.entries) u.pieces.names.keys };
}

impl BlobIndex {
    /// No files yet.
    pub fn new(alloc: Global) -> BlobIndex
        ensures { result ≡ map.empty }
    {
        BlobIndex {
            files: BTreeMap::new(alloc),
            pieces: StoredPieces::new(alloc),
        }
    }

    /// How many files are known.
    pub fn len(&self) -> u64
        ensures { result ≡ map.len self.now }
    {
        self.files.len() as u64
    }

    /// The file of a digest, if it is known.
    pub fn find(&self, digest: &Digest) -> Option<&Arc<BlobInfo>>
        ensures found { option_map (λ info. info.now.value) result ≡ map.get self.now digest.now }
        ensures digested { AreDigested self.now }
    {
        self.files.get(digest)
    }

    /// The names of the pieces of its files, but for those that there was no memory to keep.
    pub(crate) fn pieces(&self) -> &StoredPieces
        ensures { AreKnownNames self.now result.now.names.keys }
    {
        &self.pieces
    }

    /// Adds a file. A known digest keeps its file, and takes no memory. If there is no memory for the file, nothing changes; if there is
    /// none for the name of a piece, only that name isn't kept, so that no upload fails for it.
    pub fn keep(&mut self, file: Arc<BlobInfo>) -> Result<(), AllocError>
        ensures ok { OnOk result (self.new ≡ with_file self.old file.value) }
        ensures err { OnErr result (self.new ≡ self.old) }
        ensures memory { OnErr result (map.get self.old (digest_of file.value) ≡ None) }
    {
        let digest = file.digest();
        if self.find(&digest).is_some() {
            return Ok(());
        }
        self.files.insert(digest, file)?;
        self.keep_names(&digest);
        Ok(())
    }

    /// Keeps the names of the pieces of a known file, as far as there is memory for them.
    fn keep_names(&mut self, digest: &Digest)
        ensures { self.new ≡ self.old }
    {
        if let Some(info) = self.files.get(digest) {
            self.pieces.add(info.names());
        }
    }
}

impl Uploads for BlobIndex {
    ghost contents = { λ known. known };

    fn find(&self, digest: &Digest) -> Option<&Arc<BlobInfo>> {
        self.find(digest)
    }
}
