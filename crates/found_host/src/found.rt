//! What is found where a host is opened.
ghost use Rattle.std.specs.Prelude.{◌≡◌};
ghost use Rattle.change_undo.specs.Plans.{IsHistoryOver};

use blob_store::Blobs;
use change_journal::Journal;
use change_undo::History;
use host_disk::Disk;
use std::marker::Model;

/// What is found where a host is opened: a journal, the history of its entries, and the store of the files over which that history is what it is.
/// Contracts see the journal, the store, and how many entries the history may have.
#[derive(Drop)]
pub struct Found<D: Disk, S> {
    history: History,
    journal: Journal<D>,
    blobs: Blobs<S>,
}

impl<D: Disk, S> Model for Found<D, S> {
    ghost use Rattle.change_log.specs.contracts.logs.Log as log;
    ghost use Rattle.blob_store.specs.contracts.blob_indexes.BlobIndex as known;
    ghost use Rattle.found_host.specs.Remains.{IsFound, Remains, coded_remains};

    ghost Value = { Remains D S };

    ghost coded = { coded_remains log.the_row.coded known.the_row.coded D.code S.code };

    ghost view = { λ f. record { limit = f.history.limit; journal = f.journal; store = f.blobs } };

    ghost invariant = { λ f. IsFound f.history f.journal.entries f.blobs.known };
}

impl<D: Disk, S> Found<D, S> {
    /// A history with its journal and its store.
    pub fn of(history: History, journal: Journal<D>, blobs: Blobs<S>) -> Found<D, S>
        requires journaled { journal.entries ≡ history.entries }
        requires over { IsHistoryOver blobs.known history }
        ensures limit { result.limit ≡ history.limit }
        ensures journal { result.journal ≡ journal }
        ensures store { result.store ≡ blobs }
    {
        Found {
            history,
            journal,
            blobs,
        }
    }

    /// The history.
    pub fn history(&self) -> &History
        ensures entries { result.now.entries ≡ self.now.journal.entries }
        ensures limit { result.now.limit ≡ self.now.limit }
        ensures over { IsHistoryOver self.now.store.known result.now }
    {
        &self.history
    }

    /// Its parts: the history, the journal and the store.
    pub fn into_parts(self) -> (History, Journal<D>, Blobs<S>)
        ensures entries { result.0.entries ≡ self.journal.entries }
        ensures limit { result.0.limit ≡ self.limit }
        ensures over { IsHistoryOver self.store.known result.0 }
        ensures journal { result.1 ≡ self.journal }
        ensures store { result.2 ≡ self.store }
    {
        let Found {
            history,
            journal,
            blobs,
        } = self;
        (history, journal, blobs)
    }
}
