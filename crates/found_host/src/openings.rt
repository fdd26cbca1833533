//! Openings: a host is found again by a journal's entries and the files on a shelf.
ghost use Rattle.std.specs.Prelude.{◌≡◌, ◌⊎◌, ◌<◌, ◌≤◌, ℕ, IfErr, IfOk, IsTrue, List, MatchResult, length};
ghost use Rattle.record_file.specs.Failures.{MayFailReading};
ghost use Rattle.record_file.specs.Pairs.{AreForeign, AreRefused, Order, ReadsRecord};
ghost use Rattle.change_journal.specs.Texts.{HoldsEntries, IsText, LeavesNext, MayHoldNext};
ghost use Rattle.site_change.specs.declared.entries.Entry.{Entry as Line};
ghost use Rattle.host_opening.specs.Replays.{IsReplayed};
ghost use Rattle.found_host.specs.Openings as spec;
ghost use Rattle.found_host.specs.Openings.{HadJournal, HasFiles, IsHostFault, IsNoRecordFault, IsOpened, IsOpenFault};
ghost use Rattle.found_host.specs.declared.faults.OpenFault.TheVariants.{BadHeader, BlobsDevice, JournalDevice};
ghost use Rattle.found_host.specs.declared.faults.OpenFault.TheVariants.{OutOfMemory};

use crate::faults::{NotOpened, OpenFault, of_blobs, of_journal, of_replay};
use crate::found::Found;
use blob_store::{Blobs, Shelf};
use change_journal::Journal;
use change_log::Log;
use change_undo::History;
use host_disk::Disk;
use host_opening::{replay, wanted};
use std::alloc::Global;

/// A host that couldn't be made of a shelf: why, and the shelf as it is then.
#[derive(Drop)]
struct NoHost<S> {
    fault: OpenFault,
    shelf: S,
}

/// The files of a shelf that are wanted for these entries.
fn open_blobs<S: Shelf>(alloc: Global, log: &Log, shelf: S) -> Result<Blobs<S>, NoHost<S>>
    ensures opened { IfOk result (λ blobs. HasFiles S.did shelf log.now blobs.known blobs.shelf) }
    ensures fault { IfErr result (λ stop. spec.IsFilesFault S.did shelf log.now stop.fault stop.shelf) }
    ensures device { IfErr result (λ stop. stop.fault ≡ BlobsDevice → S.failures shelf < S.failures stop.shelf) }
    ensures count { MatchResult result (λ blobs. S.failures shelf ≤ S.failures blobs.shelf) (λ stop.
        S.failures shelf ≤ S.failures stop.shelf) }
{
    let Ok(wanted) = wanted(alloc, log) else {
        return Err(NoHost {
            fault: OpenFault::OutOfMemory,
            shelf,
        });
    };
    match Blobs::open(alloc, shelf, wanted.as_slice()) {
        Ok(blobs) => Ok(blobs),
        Err(stop) => Err(NoHost {
            fault: of_blobs(stop.fault),
            shelf: stop.shelf,
        }),
    }
}

/// The history of these entries, over the store of the files that they want.
fn find_history<S: Shelf>(
    alloc: Global,
    log: &Log,
    shelf: S,
    limit: u64,
) -> Result<(History, Blobs<S>), NoHost<S>>
    requires some { 1 ≤ limit }
    requires bounded { limit ≤ 1000000 }
    ensures files { IfOk result (λ answer. HasFiles S.did shelf log.now answer.1.known answer.1.shelf) }
    ensures replayed { IfOk result (λ answer. IsReplayed answer.1.known limit log.now answer.0) }
    ensures fault { IfErr result (λ stop. IsHostFault S.did shelf limit log.now stop.fault stop.shelf) }
    ensures device { IfErr result (λ stop. stop.fault ≡ BlobsDevice → S.failures shelf < S.failures stop.shelf) }
    ensures count { MatchResult result (λ answer. S.failures shelf ≤ S.failures answer.1.shelf) (λ stop.
        S.failures shelf ≤ S.failures stop.shelf) }
{
    let blobs = open_blobs(alloc, log, shelf)?;
    match replay(alloc, log, limit, &blobs) {
        Ok(history) => Ok((history, blobs)),
        Err(fault) => Err(NoHost {
            fault: of_replay(fault),
            shelf: blobs.into_shelf(),
        }),
    }
}

impl<D: Disk, S: Shelf> Found<D, S> {
    /// Opens the journal of two slots, and then the files on a shelf that its entries want; last, each entry is accepted in turn,
    /// of as many as the limit says. The first fault ends it, and the disks and the shelf are handed back.
    pub fn open(
        alloc: Global,
        first: D,
        second: D,
        shelf: S,
        limit: u64,
    ) -> Result<Found<D, S>, NotOpened<S, D>>
        requires some { 1 ≤ limit }
        requires bounded { limit ≤ 1000000 }
        ensures opened { IfOk result (λ found. IsOpened D.Disk S.did first second shelf limit found) }
        ensures fault { IfErr result (λ stop.
            IsOpenFault D.Disk S.did first second shelf limit stop.fault stop.first stop.second stop.shelf) }
        ensures kept { IsTrue D.is_modelled → (had : List Line) → length had ≤ 1000000
            → HoldsEntries had (D.seen first) (D.seen second)
            → MatchResult result (λ found. found.journal.entries.entries ≡ had) (λ stop. IsNoRecordFault stop.fault) }
        ensures any_moment { IsTrue D.is_modelled → (order : Order) (had : List Line) (next : Line)
            → MayHoldNext order had next (D.may_leave first) (D.may_leave second) → MatchResult result (λ found.
            LeavesNext D.moment D.left_since order had next first second found.journal.first found.journal.second)
            (λ stop. LeavesNext D.moment D.left_since order had next first second stop.first stop.second) }
        ensures memory { IsTrue D.is_modelled → IfErr result (λ stop. stop.fault ≡ OutOfMemory
            → ReadsRecord (D.seen first) (D.seen second)
            ⊎ HadJournal D.Disk first second stop.first stop.second) }
        ensures no_journal { IsTrue D.is_modelled → AreForeign (D.seen first) (D.seen second)
            → MatchResult result (λ _. ⊥) (λ stop.
            (stop.fault ≡ BadHeader) ⊎ (stop.fault ≡ JournalDevice)) }
        ensures reason { IsTrue D.is_modelled
            → AreRefused (λ header before. IsText header) (D.seen first) (D.seen second)
            → IfErr result (λ stop. stop.fault ≡ JournalDevice → MayFailReading D.seen D.may_fail (D.seen first)
            ⊎ MayFailReading D.seen D.may_fail (D.seen second)) }
        ensures device { IfErr result (λ stop. stop.fault ≡ BlobsDevice
            → S.failures shelf < S.failures stop.shelf) }
        ensures count { MatchResult result (λ found. S.failures shelf ≤ S.failures found.store.shelf) (λ stop.
            S.failures shelf ≤ S.failures stop.shelf) }
    {
        let (journal, log) = match Journal::open(alloc, first, second) {
            Ok(opened) => opened,
            Err(stop) => {
                return Err(NotOpened {
                    fault: of_journal(stop.fault),
                    first: stop.first,
                    second: stop.second,
                    shelf,
                });
            }
        };
        match find_history(alloc, &log, shelf, limit) {
            Ok((history, blobs)) => Ok(Found::of(history, journal, blobs)),
            Err(stop) => Err(without_host(journal, stop)),
        }
    }
}

/// Hands the disks and the shelf back of which no host could be made.
fn without_host<D: Disk, S>(journal: Journal<D>, stop: NoHost<S>) -> NotOpened<S, D>
    ensures disks { (result.first ≡ journal.first) × (result.second ≡ journal.second) }
    ensures shelf { (result.fault ≡ stop.fault) × (result.shelf ≡ stop.shelf) }
{
    let (first, second) = journal.into_disk();
    NotOpened {
        fault: stop.fault,
        first,
        second,
        shelf: stop.shelf,
    }
}
