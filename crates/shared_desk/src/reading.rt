//! What readers ask a desk.
ghost use Rattle.std.specs.Prelude.{◌≡◌, IfOk, IsSome, OnErr};
ghost use Rattle.byte_view.specs.Contents.{AreDigested};
ghost use Rattle.change_log.specs.Logs.{BeginsWith};
ghost use Rattle.site_change.specs.Changes.{IsWithin};
ghost use Rattle.site_state.specs.Missing.{AreMissing, least_missing_of};

use crate::desks::Desk;
use blob_store::Files;
use change_log::Log;
use host_disk::Disk;
use host_names::Digest;
use left_right::Absorb;
use seen_lists::{Front, ListName};
use site_change::uploads_are_digested;
use site_desk::{DeskName, KnownFiles, Notice, SeenFiles};
use site_state::{Listing, missing};
use std::alloc::{AllocError, Global};
use std::sync::{Mutex, Wait};

impl<
    J: DeskName,
    K: ListName<KnownFiles>,
    D: Disk,
    S,
    T: Absorb<Notice<J>, State = Log> + Drop,
    R: Wait + Drop,
> Desk<J, K, D, S, T, R> {
    /// The files on the shelf, behind their lock. Threads reach them by a `ShelfAccess`, which may pass the lock.
    pub fn files(&self) -> &Mutex<Files<S>> {
        &self.files
    }

    /// The listed digests whose files aren't known by now, in their order, each once. What is known by now is told, and what was known before is among it. The
    /// lock of the files that are known is held meanwhile, and no other.
    pub fn missing(
        &self,
        rt: &impl Wait,
        alloc: Global,
        known: &mut SeenFiles<K>,
        files: &Listing,
    ) -> Result<Vec<Digest>, AllocError>
        ensures lacking { IfOk result (λ digests. AreMissing known.new files.now.1 digests.items) }
        ensures memory { OnErr result (IsSome (least_missing_of known.new files.now.1)) }
        ensures digested { AreDigested known.new }
        ensures files { IsWithin known.old known.new }
    {
        let mut stock = self.stock.lock(rt);
        stock.show(known);
        uploads_are_digested(stock.index());
        missing(alloc, files, stock.index())
    }

    /// The receipt of all entries, for somebody who has seen a front that isn't shown: it begins with that. The lock of the book is held meanwhile.
    pub fn shown(&self, rt: &impl Wait, seen: &mut Front<Log, J>) -> Result<Notice<J>, AllocError>
        ensures receipt { IfOk result (λ receipt. receipt ≡ seen.new) }
        ensures seen { BeginsWith seen.new seen.old }
    {
        let mut book = self.book.lock(rt);
        book.tell(seen);
        book.last().again()
    }
}
