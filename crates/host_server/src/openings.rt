//! Openings: a server of what is found in two slots and on a shelf.
ghost use Rattle.std.specs.Prelude.{◌≡◌, ◌⊎◌, ◌<◌, ◌≤◌, ℕ, IfErr, IfOk, IsTrue, List, MatchResult, Some, length};
ghost use Rattle.record_file.specs.Failures.{MayFailReading};
ghost use Rattle.record_file.specs.Pairs.{AreForeign, AreRefused, Order, ReadsRecord};
ghost use Rattle.change_journal.specs.Held.{Keeps};
ghost use Rattle.change_journal.specs.Texts.{HoldsEntries, IsText, LeavesNext, MayHoldNext};
ghost use Rattle.site_change.specs.declared.entries.Entry.{Entry as Line};
ghost use Rattle.found_host.specs.Openings.{HadJournal, IsNoRecordFault, IsOpenFault};
ghost use Rattle.found_host.specs.declared.faults.OpenFault.TheVariants.{BadHeader, BlobsDevice, JournalDevice, OutOfMemory};
ghost use Rattle.host_server.specs.Openings.{IsGivenBack, IsOpened, IsServerOf};

use crate::host::SoloHouse;
use crate::servers::Server;
use blob_store::Shelf;
use change_journal::Journal;
use chunk_group::NodeFiles;
use found_host::{Found, NotOpened, OpenFault};
use host_disk::Disk;
use std::alloc::Global;

impl<S: Shelf, D: Disk> Server<S, D> {
    /// The server of what is found. Its cache is empty, and is all that takes memory: if there is none for it, the disks and the shelf are
    /// handed back.
    fn of_found(alloc: Global, found: Found<D, S>) -> Result<Self, NotOpened<S, D>>
        ensures { MatchResult result (IsServerOf found) (IsGivenBack found) }
    {
        let (history, journal, blobs) = found.into_parts();
        let (known, files) = blobs.into_parts();
        match NodeFiles::new(alloc, files) {
            Ok(files) => Ok(Server {
                house: SoloHouse::of(alloc, history, known),
                journal: Some(journal),
                files,
            }),
            Err(files) => Err(given_back(journal, files.into_shelf())),
        }
    }

    /// Opens the journal of two slots, then the files on a shelf that its entries want, and then the history, in which each entry has to be
    /// accepted in turn; it takes at most `limit` entries. The first fault ends the opening, and the disks and the shelf are handed back.
    pub fn open(
        alloc: Global,
        first: D,
        second: D,
        shelf: S,
        limit: u64,
    ) -> Result<Self, NotOpened<S, D>>
        requires some { 1 ≤ limit }
        requires bounded { limit ≤ 1000000 }
        ensures opened { IfOk result (λ server. IsOpened S.did first second shelf limit server) }
        ensures fault { IfErr result (λ stop.
            IsOpenFault D.Disk S.did first second shelf limit stop.fault stop.first stop.second stop.shelf) }
        ensures kept { IsTrue D.is_modelled → (had : List Line) → length had ≤ 1000000
            → HoldsEntries had (D.seen first) (D.seen second)
            → MatchResult result (λ server. server.house.entries.entries ≡ had) (λ stop. IsNoRecordFault stop.fault) }
        ensures any_moment { IsTrue D.is_modelled → (order : Order) (had : List Line) (next : Line)
            → MayHoldNext order had next (D.may_leave first) (D.may_leave second)
            → MatchResult result (λ server. (journal : Keeps _) → server.journal ≡ Some journal
            → LeavesNext D.moment D.left_since order had next first second journal.first journal.second) (λ stop.
            LeavesNext D.moment D.left_since order had next first second stop.first stop.second) }
        ensures memory { IsTrue D.is_modelled → IfErr result (λ stop. stop.fault ≡ OutOfMemory
            → ReadsRecord (D.seen first) (D.seen second)
            ⊎ HadJournal D.Disk first second stop.first stop.second) }
        ensures no_journal { IsTrue D.is_modelled → AreForeign (D.seen first) (D.seen second)
            → MatchResult result (λ _. ⊥) (λ stop.
            (stop.fault ≡ BadHeader) ⊎ (stop.fault ≡ JournalDevice)) }
        ensures reason { IsTrue D.is_modelled
            → AreRefused (λ header before. IsText header) (D.seen first) (D.seen second)
            → IfErr result (λ stop. stop.fault ≡ JournalDevice → MayFailReading D.seen D.may_fail (D.seen first)
            ⊎ MayFailReading D.seen D.may_fail (D.seen second)) }
        ensures device { IfErr result (λ stop. stop.fault ≡ BlobsDevice
            → S.failures shelf < S.failures stop.shelf) }
        ensures count { MatchResult result (λ server. S.failures shelf ≤ S.failures server.files.shelf) (λ stop.
            S.failures shelf ≤ S.failures stop.shelf) }
    {
        let found = Found::open(alloc, first, second, shelf, limit)?;
        Server::of_found(alloc, found)
    }
}

/// Hands the disks of a journal and a shelf back, of which there was no memory to make a server.
fn given_back<S, D: Disk>(journal: Journal<D>, shelf: S) -> NotOpened<S, D>
    ensures fault { result.fault ≡ OutOfMemory }
    ensures disks { (result.first ≡ journal.first) × (result.second ≡ journal.second) }
    ensures shelf { result.shelf ≡ shelf }
{
    let (first, second) = journal.into_disk();
    NotOpened {
        fault: OpenFault::OutOfMemory,
        first,
        second,
        shelf,
    }
}
