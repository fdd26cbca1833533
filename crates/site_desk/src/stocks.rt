//! Uploads that are known, and what a book knows of them.
ghost use Rattle.std.specs.Prelude.{◌≡◌, None, OnErr, OnOk};
ghost use Rattle.std.specs.FinMap as map;
ghost use Rattle.host_names.specs.Digests.{digest_of};
ghost use Rattle.blob_store.specs.Calls.{PutsFile};
ghost use Rattle.byte_view.specs.Contents.{AreDigested, with_file};
ghost use Rattle.site_change.specs.Changes.{IsWithin};

use blob_store::{BlobIndex, Shelf};
use byte_view::BlobInfo;
use growing::Growing;
use seen_lists::{Front, ListName, SeenList};
use site_change::uploads_are_digested;
use std::alloc::AllocError;
use std::marker::{Brand, Model};
use std::snapshot::Snapshot;
use std::sync::Arc;

/// More files than there is memory for.
const MOST: u64 = 1 << 61;

/// Files that are known, which become more. Contracts see the bytes of each file.
#[derive(Drop)]
pub struct KnownFiles {
    index: BlobIndex,
}

impl Model for KnownFiles {
    ghost use Rattle.byte_view.specs.Contents.{Contents};
    ghost use Rattle.blob_store.specs.contracts.blob_indexes.BlobIndex as known;

    ghost Value = { Contents };

    ghost coded = { known.the_row.coded };

    ghost view = { λ k. k.index };
}

impl KnownFiles {
    /// The files of an index.
    fn of(index: BlobIndex) -> KnownFiles
        ensures { result ≡ index }
    {
        KnownFiles { index }
    }

    /// The index.
    fn index(&self) -> &BlobIndex
        ensures { result.now ≡ self.now }
    {
        &self.index
    }

    /// Adds a file. If memory runs out, nothing changes.
    fn keep(&mut self, file: Arc<BlobInfo>) -> Result<(), AllocError>
        ensures ok { OnOk result (self.new ≡ with_file self.old file.value) }
        ensures err { OnErr result (self.new ≡ self.old) }
    {
        self.index.keep(file)
    }
}

impl Growing for KnownFiles {
    ghost use Rattle.site_change.specs.Changes.{IsWithin};
    ghost use Rattle.site_desk.specs.Stocks as stocks;

    ghost is_later = { IsWithin };

    ghost itself = { stocks.itself };

    ghost goes_on = { stocks.goes_on };
}

impl ListName<KnownFiles> for Brand {
    ghost use Rattle.std.specs.FinMap as map;

    ghost book = { record { number = 0; log_name = 0; cells_name = 0 } };

    ghost found = { map.empty };
}

/// Known files, with a list of what is known, which only grows. The list is in clauses alone: whoever has seen a front of it knows some of these files.
/// Contracts see the bytes of each file.
#[derive(Drop)]
pub struct Stock<K: ListName<KnownFiles>> {
    files: KnownFiles,
    list: SeenList<KnownFiles, K>,
}

impl<K: ListName<KnownFiles>> Model for Stock<K> {
    ghost use Rattle.std.specs.Prelude.{◌≡◌};
    ghost use Rattle.byte_view.specs.Contents.{Contents};
    ghost use Rattle.blob_store.specs.contracts.blob_indexes.BlobIndex as known;

    ghost Value = { Contents };

    ghost coded = { known.the_row.coded };

    ghost view = { λ s. s.files };

    ghost invariant = { λ s. s.list.now ≡ s.files };
}

/// What somebody knows of a stock's files who learns of them from time to time: each file is under its own digest. Contracts see the bytes of each known file.
#[derive(Drop)]
pub struct Tie<K: ListName<KnownFiles>> {
    front: Front<KnownFiles, K>,
}

impl<K: ListName<KnownFiles>> Model for Tie<K> {
    ghost use Rattle.byte_view.specs.Contents.{AreDigested, Contents};
    ghost use Rattle.blob_store.specs.contracts.blob_indexes.BlobIndex as known;

    ghost Value = { Contents };

    ghost coded = { known.the_row.coded };

    ghost view = { λ t. t.front };

    ghost invariant = { λ t. AreDigested t.front };
}

impl<K: ListName<KnownFiles>> Tie<K> {
    /// Each of the files is under its own digest.
    pub(crate) fn are_digested(&self)
        ensures { AreDigested self.now }
    {
        // A proof knows what a value is made of once it is read.
        self.front.again();
    }

    /// A copy.
    pub(crate) fn again(&self) -> Tie<K>
        ensures { result ≡ self.now }
    {
        Tie {
            front: self.front.again(),
        }
    }

    /// Learns what another one has seen.
    pub(crate) fn learn(&mut self, other: &Tie<K>)
        ensures kept { IsWithin self.old self.new }
        ensures learnt { IsWithin other.now self.new }
    {
        self.front.learn(&other.front);
    }
}

impl<K: ListName<KnownFiles>> Stock<K> {
    /// The files of an index, which are those of the list.
    pub fn of(index: BlobIndex, list: SeenList<KnownFiles, K>) -> Stock<K>
        requires { list.now ≡ index }
        ensures { result ≡ index }
    {
        Stock {
            files: KnownFiles::of(index),
            list,
        }
    }

    /// The index.
    pub fn index(&self) -> &BlobIndex
        ensures { result.now ≡ self.now }
    {
        self.files.index()
    }

    /// Adds a file that was put on a shelf whole, as this shelf was before and as it was then. A known digest keeps its file, and takes no memory. If memory
    /// runs out, nothing changes.
    pub fn keep<S: Shelf>(
        &mut self,
        file: Arc<BlobInfo>,
        before: Snapshot<S>,
        after: Snapshot<S>,
    ) -> Result<(), AllocError>
        requires put { PutsFile S.did map.empty before.value file.value None after.value }
        ensures ok { OnOk result (self.new ≡ with_file self.old file.value) }
        ensures err { OnErr result (self.new ≡ self.old) }
        ensures memory { OnErr result (map.get self.old (digest_of file.value) ≡ None) }
    {
        let _ = (before, after);
        if self.files.index().find(&file.digest()).is_some() {
            return Ok(());
        }
        if self.list.len() >= MOST {
            return Err(AllocError);
        }
        self.files.keep(file)?;
        self.list.push(&self.files);
        Ok(())
    }

    /// What somebody knows who knows all files so far.
    pub fn tie(&self) -> Tie<K>
        ensures { result ≡ self.now }
    {
        uploads_are_digested(self.files.index());
        Tie {
            front: self.list.front(),
        }
    }

    /// Tells somebody of all files so far. What was known before is among them.
    pub fn tell(&mut self, tie: &mut Tie<K>)
        ensures same { self.new ≡ self.old }
        ensures told { tie.new ≡ self.old }
        ensures more { IsWithin tie.old tie.new }
    {
        uploads_are_digested(self.files.index());
        self.list.tell(&mut tie.front);
    }
}
