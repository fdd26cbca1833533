//! Uploads, in steps: what a deploy lists at a path, the bytes, and the publishing. Each lock is held for a step alone, and none while bytes are
//! put on the shelf, unless the shelf itself has one.
ghost use Rattle.std.specs.Prelude.{◌≡◌, ◌↔◌, ◌+◌, ◌<◌, Err, IfErr, IfOk, IsSome, MatchOption, MatchResult, length, ⊤};
ghost use Rattle.std.specs.FinMap as map;
ghost use Rattle.host_names.specs.Digests.{digest_of};
ghost use Rattle.blob_store.specs.Calls.{PutsFile};
ghost use Rattle.blob_store.specs.Faults.{HasPutPart};
ghost use Rattle.blob_store.specs.Receipts.{HasFailedPut};
ghost use Rattle.blob_store.specs.declared.blobs.UploadFault.TheVariants as upload_fault;
ghost use Rattle.change_log.specs.Logs.{BeginsWith, last_number};
ghost use Rattle.shared_desk.specs.Uploads.{Judges, Publishes};
ghost use Rattle.site_change.specs.Changes.{IsWithin};

use crate::desks::Desk;
use crate::turns;
use blob_store::{
    AbsenceReceipt, BlobIndex, Files, PutReceipt, SharedShelf, Shelf, ShelfAccess, UploadFault,
};
use byte_view::{BlobInfo, MAX_SIZE};
use change_log::Log;
use host_disk::Disk;
use host_names::{Digest, FilePath, SiteName};
use left_right::Absorb;
use seen_lists::{Front, ListName};
use site_desk::{DeskName, KnownFiles, Notice, Seat, SeenFiles, Stock, Tie, UploadError};
use std::alloc::Global;
use std::snapshot::Snapshot;
use std::sync::{Arc, Mutex, Wait};

/// What is known, if the file of a digest is.
fn tie_if_known<K: ListName<KnownFiles>>(stock: &Stock<K>, digest: &Digest) -> Option<Tie<K>>
    ensures { MatchOption result ⊤ (λ known. IsSome (map.get known digest.now)) }
{
    stock.index().find(digest)?;
    Some(stock.tie())
}

/// A file that was put on a shelf whole, with what the shelf was before and what it was then. These exist for clauses alone.
#[derive(Drop)]
struct PutFile<S> {
    info: Arc<BlobInfo>,
    before: Snapshot<S>,
    after: Snapshot<S>,
}

/// What is known once a file is, which was put before.
fn tie_with<K: ListName<KnownFiles>, S: Shelf>(
    stock: &mut Stock<K>,
    file: PutFile<S>,
) -> Result<Tie<K>, UploadFault>
    requires put { PutsFile S.did map.empty file.before.value file.info.value None file.after.value }
    ensures known { IfOk result (λ known. IsSome (map.get known (digest_of file.info.value))) }
    ensures memory { IfErr result (λ fault. fault ≡ upload_fault.OutOfMemory) }
{
    match stock.keep(file.info, file.before, file.after) {
        Ok(()) => Ok(stock.tie()),
        Err(_) => Err(UploadFault::OutOfMemory),
    }
}

/// Puts a file on a shelf, piece by piece, and its table last.
fn put<S: Shelf + Drop>(
    alloc: Global,
    shelf: S,
    digest: Digest,
    bytes: &[u8],
) -> Result<PutFile<S>, UploadFault>
    requires { digest ≡ digest_of bytes.now }
    ensures large { (result ≡ Err upload_fault.TooLarge) ↔ (16777216 < length bytes.now) }
    ensures info { IfOk result (λ file. file.info.value ≡ bytes.now) }
    ensures put { IfOk result (λ file. PutsFile S.did map.empty file.before.value bytes.now None file.after.value) }
    ensures not_put { IfErr result (λ fault.
        (before : S) × (after : S) × HasPutPart S.did map.empty before bytes.now fault after) }
{
    let before = Snapshot::of(&shelf);
    let mut files = Files::new(alloc, shelf);
    let info = files.put(&BlobIndex::new(alloc), digest, bytes)?;
    let shelf = files.into_shelf();
    Ok(PutFile {
        info,
        before,
        after: Snapshot::of(&shelf),
    })
}

impl<
    J: DeskName,
    K: ListName<KnownFiles>,
    D: Disk,
    S,
    T: Absorb<Notice<J>, State = Log> + Drop,
    R: Wait + Drop,
> Desk<J, K, D, S, T, R> {
    /// Puts bytes on the shelf, and gives what is known once their file is. It becomes known last, in one step.
    fn store_new<A: ShelfAccess<S, U, N>, U: PutReceipt + Drop, N: AbsenceReceipt + Drop>(
        &self,
        rt: &impl Wait,
        access: &A,
        digest: Digest,
        bytes: &[u8],
    ) -> Result<Tie<K>, UploadFault>
        requires { digest ≡ digest_of bytes.now }
        ensures large { (result ≡ Err upload_fault.TooLarge) ↔ (16777216 < length bytes.now) }
        ensures known { IfOk result (λ known. IsSome (map.get known (digest_of bytes.now))) }
        ensures device { result ≡ Err upload_fault.Device → HasFailedPut A.failed bytes.now }
    {
        let shelf = SharedShelf::new(rt, &self.files, access);
        let file = put(self.alloc, shelf, digest, bytes)?;
        tie_with(&mut *self.stock.lock(rt), file)
    }

    /// The second step of an upload: stores bytes, and gives what is known then. Bytes that aren't known are put on the shelf by `access`.
    pub fn store<A: ShelfAccess<S, U, N>, U: PutReceipt + Drop, N: AbsenceReceipt + Drop>(
        &self,
        rt: &impl Wait,
        access: &A,
        digest: Digest,
        bytes: &[u8],
    ) -> Result<Tie<K>, UploadFault>
        requires { digest ≡ digest_of bytes.now }
        ensures large { (result ≡ Err upload_fault.TooLarge) ↔ (16777216 < length bytes.now) }
        ensures known { IfOk result (λ known. IsSome (map.get known (digest_of bytes.now))) }
        ensures device { result ≡ Err upload_fault.Device → HasFailedPut A.failed bytes.now }
    {
        if bytes.len() > MAX_SIZE {
            return Err(UploadFault::TooLarge);
        }
        let known = tie_if_known(&*self.stock.lock(rt), &digest);
        if let Some(known) = known {
            return Ok(known);
        }
        self.store_new(rt, access, digest, bytes)
    }

    /// The first step of an upload, from a seat: the digest that a deploy of a site lists at a path, if an upload there may go on. A front is told the
    /// entries by which that is so: what it had seen was a beginning of them.
    pub fn judge(
        &self,
        rt: &impl Wait,
        seen: &mut Front<Log, J>,
        mine: &mut Seat<J>,
        site: &SiteName,
        number: u64,
        path: &FilePath,
    ) -> Result<Digest, UploadError<Notice<J>>>
        ensures judged { Judges D.Disk (last_number J.found + mine.old) seen.new site.now number path.now result }
        ensures seen { BeginsWith seen.new seen.old }
        ensures made { mine.new ≡ mine.old }
    {
        let mut book = self.book.lock(rt);
        turns::judge(&mut *book, seen, mine, site, number, path)
    }

    /// The last step of an upload, from a seat: publishes a deploy of a site if it is ready then; the receipt is of that entry. If it isn't published, the
    /// files remain known. Both are told by which that is so: the files that are known, and the entries that are there before.
    pub fn publish_if_ready(
        &self,
        rt: &impl Wait,
        seen: &mut Front<Log, J>,
        known: &mut SeenFiles<K>,
        mine: &mut Seat<J>,
        site: &SiteName,
        number: u64,
    ) -> Result<Option<Notice<J>>, UploadError<Notice<J>>>
        ensures done { Publishes D.Disk (last_number J.found + mine.old) seen.new known.new site.now number result }
        ensures seen { BeginsWith seen.new seen.old }
        ensures files { IsWithin known.old known.new }
        ensures made { MatchResult result
            (λ published. MatchOption published (mine.new ≡ mine.old) (λ _. mine.new ≡ mine.old + 1))
            (λ _. mine.new ≡ mine.old) }
    {
        let mut book = self.book.lock(rt);
        let mut stock = self.stock.lock(rt);
        let mut hints = self.hints.lock(rt);
        turns::publish_if_ready(
            rt,
            &mut *book,
            &mut *stock,
            &mut *hints,
            seen,
            known,
            mine,
            site,
            number,
        )
    }
}
