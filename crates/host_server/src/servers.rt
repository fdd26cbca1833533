//! A host, its journal, and the shelf that its files are on.
ghost use Rattle.std.specs.Prelude.{◌≡◌, ◌≤◌, None, IfOk};
ghost use Rattle.std.specs.Coded.{Coded-set};
ghost use Rattle.std.specs.FinMap as map;
ghost use Rattle.change_log.specs.Logs.{empty_log};
ghost use Rattle.change_log.specs.contracts.logs.Log as logs;
ghost use Rattle.chunk_lru.specs.Caches.{empty};
ghost use Rattle.host_server.specs.Journals.{Agrees, is_broken};

use crate::host::SoloHouse;
use blob_store::{Files, Shelf};
use change_journal::Journal;
use chunk_group::NodeFiles;
use host_disk::Disk;
use std::alloc::{AllocError, Global};

/// A host on one thread, the journal of its entries, if it has one, and its files: they are on a shelf, and read through a cache.
///
/// The host and the files are two parts, since different words describe them: the meaning of a change is said of the host alone, and only
/// reads and uploads speak of the shelf.
#[derive(Drop)]
pub struct Server<S, D: Disk> {
    pub(crate) house: SoloHouse,
    pub(crate) journal: Option<Journal<D>>,
    pub(crate) files: NodeFiles<S>,
    pub ghost agrees: { Agrees journal house.entries } by { Coded-set logs.the_row.coded _ _ },
}

impl<S: Shelf + Drop, D: Disk> Server<S, D> {
    /// A server over a shelf, without entries, known files or a journal. It takes at most `limit` entries. Its cache is empty, and is all
    /// that takes memory.
    pub fn new(alloc: Global, shelf: S, limit: u64) -> Result<Server<S, D>, AllocError>
        requires some { 1 ≤ limit }
        requires bounded { limit ≤ 1000000 }
        ensures house { IfOk result (λ server.
            server.house ≡ record { limit = limit; entries = empty_log; uploads = map.empty }) }
        ensures journal { IfOk result (λ server. server.journal ≡ None) }
        ensures shelf { IfOk result (λ server. server.files.shelf ≡ shelf) }
        ensures cache { IfOk result (λ server. server.files.cache ≡ empty 67108864) }
    {
        let files = NodeFiles::new(alloc, Files::new(alloc, shelf)).map_err(|_| AllocError)?;
        Ok(Server {
            house: SoloHouse::new(alloc, limit),
            journal: None,
            files,
        })
    }

    /// Hands out its journal, if it has one.
    pub fn into_journal(self) -> Option<Journal<D>>
        ensures { result ≡ self.journal }
    {
        self.journal
    }
}

impl<S: Shelf, D: Disk> Server<S, D> {
    /// Whether the device of its journal failed during a put.
    pub fn is_broken(&self) -> bool
        ensures { result ≡ is_broken self.now.journal }
    {
        match &self.journal {
            Some(journal) => journal.is_broken(),
            None => false,
        }
    }

    /// Its host.
    pub fn house(&self) -> &SoloHouse
        ensures { result.now ≡ self.now.house }
    {
        &self.house
    }
}
