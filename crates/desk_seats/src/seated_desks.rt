//! A desk that threads share, from a node's seat.
ghost use Rattle.std.specs.Prelude.{ℕ, ◌≡◌, ◌⊎◌, ◌+◌, Ok, Err, IfOk, IfErr, IsTrue};
ghost use Rattle.change_log.specs.Logs.{BeginsWith, last_number};
ghost use Rattle.site_change.specs.Changes.{IsWithin};
ghost use Rattle.desk_seats.specs.Asked.{IsAsked};
ghost use Rattle.shared_desk.specs.Uploads.{Judges, Publishes};
ghost use Rattle.host_answers.specs.Asking as asking;
ghost use Rattle.host_answers.specs.Asking.{asking_takes};
ghost use Rattle.host_api.specs.declared.refusals.Refusal.TheVariants as reason;

use blob_store::{AbsenceReceipt, PutReceipt, ShelfAccess};
use change_log::Log;
use host_answers::asked_for;
use host_api::{Ask, Items, Refusal};
use host_disk::Disk;
use host_names::{Digest, FilePath, SiteName};
use http_wire::Head;
use left_right::Absorb;
use seen_lists::ListName;
use shared_desk::Desk;
use shared_house::{DeskAccess, LogFront, Taken};
use site_change::Command;
use site_desk::{DeskError, DeskName, KnownFiles, Notice, Seat, SeenFiles, UploadError};
use site_state::Listing;
use std::alloc::{AllocError, Global};
use std::marker::PhantomData;
use std::sync::{Mutex, Wait};
use std::thread::{self, Threads};

/// How many bytes a body has at most that is parsed beside others. Longer ones are parsed one at a time, since that takes up to a hundred times their size.
const PARSED_TOGETHER: usize = 65_536;

/// What a request asks for, found out in a thread of its own if one can be made. The C library gives such a thread the memory that the one before it has
/// freed. So what all long bodies take together is never more than one of them takes; else each thread that parses would keep so much.
fn asked_apart<W: Threads>(rt: &W, alloc: Global, head: &Head, body: &[u8]) -> Result<Ask, Refusal>
    ensures ok { IfOk result (λ ask. asking.asked_for head.now body.now ≡ Ok ask) }
    ensures refused { IfErr result (λ why.
        ((why ≡ reason.OutOfMemory) × IsTrue (asking_takes head.now body.now))
        ⊎ (asking.asked_for head.now body.now ≡ Err why)) }
{
    let (ask, ()) = thread::join(
        rt,
        move || -> Result<Ask, Refusal>
            ensures ok { IfOk result (λ ask. asking.asked_for head.entry.now body.entry.now ≡ Ok ask) }
            ensures refused { IfErr result (λ why.
                ((why ≡ reason.OutOfMemory) × IsTrue (asking_takes head.entry.now body.entry.now))
                ⊎ (asking.asked_for head.entry.now body.entry.now ≡ Err why)) }
        { asked_for(alloc, head, body) },
        || {},
    );
    ask
}

/// A desk from a node's seat, which the node's workers share behind a lock. An upload takes that lock for its first step and for its last one. So no
/// worker waits for the seat while the bytes of another one are hashed or put on the shelf.
#[derive(Drop)]
pub struct SeatedDesk<
    'a,
    J: DeskName,
    K: ListName<KnownFiles>,
    D: Disk,
    S,
    T: Absorb<Notice<J>, State = Log> + Drop,
    R: Wait + Drop,
    W,
    A,
    U,
    N,
> {
    rt: &'a W,
    desk: &'a Desk<J, K, D, S, T, R>,
    access: &'a A,
    seat: &'a Mutex<Seat<J>>,
    // The turn to parse a long body.
    parsing: &'a Mutex<()>,
    put: PhantomData<U>,
    absence: PhantomData<N>,
}

impl<
    'a,
    J: DeskName,
    K: ListName<KnownFiles>,
    D: Disk,
    S,
    T: Absorb<Notice<J>, State = Log> + Drop,
    R: Wait + Drop,
    W,
    A,
    U,
    N,
> SeatedDesk<'a, J, K, D, S, T, R, W, A, U, N> {
    /// A desk from a seat, for a thread that reaches the shelf this way and waits for locks by this handle. All that share `parsing` parse one long body at
    /// a time.
    pub fn new(
        rt: &'a W,
        desk: &'a Desk<J, K, D, S, T, R>,
        access: &'a A,
        seat: &'a Mutex<Seat<J>>,
        parsing: &'a Mutex<()>,
    ) -> SeatedDesk<'a, J, K, D, S, T, R, W, A, U, N> {
        SeatedDesk {
            rt,
            desk,
            access,
            seat,
            parsing,
            put: PhantomData,
            absence: PhantomData,
        }
    }
}

impl<
    J: DeskName,
    K: ListName<KnownFiles>,
    D: Disk,
    S,
    T: Absorb<Notice<J>, State = Log> + Drop,
    R: Wait + Drop,
    W: Wait,
    A,
    U,
    N,
> SeatedDesk<'_, J, K, D, S, T, R, W, A, U, N> {
    /// The first step of an upload, at the seat: the digest that is listed.
    fn judge(
        &self,
        seen: &mut LogFront<J>,
        site: &SiteName,
        deploy: u64,
        path: &FilePath,
    ) -> Result<Digest, UploadError<Notice<J>>>
        ensures judged { (made : ℕ)
            × Judges D.Disk (last_number J.found + made) seen.new site.now deploy path.now result }
        ensures later { BeginsWith seen.new seen.old }
    {
        let mut seat = self.seat.lock(self.rt);
        self.desk
            .judge(self.rt, seen, &mut *seat, site, deploy, path)
    }

    /// The last step of an upload, at the seat: publishes the deploy if it is ready, over these files and maybe more.
    fn publish_if_ready(
        &self,
        seen: &mut LogFront<J>,
        known: &mut SeenFiles<K>,
        site: &SiteName,
        deploy: u64,
    ) -> Result<Option<Notice<J>>, UploadError<Notice<J>>>
        ensures done { (made : ℕ)
            × Publishes D.Disk (last_number J.found + made) seen.new known.new site.now deploy result }
        ensures later { BeginsWith seen.new seen.old }
        ensures files { IsWithin known.old known.new }
    {
        let mut seat = self.seat.lock(self.rt);
        self.desk
            .publish_if_ready(self.rt, seen, known, &mut *seat, site, deploy)
    }
}

impl<
    J: DeskName,
    K: ListName<KnownFiles>,
    D: Disk,
    S,
    T: Absorb<Notice<J>, State = Log> + Drop,
    R: Wait + Drop,
    W: Wait + Threads,
    A: ShelfAccess<S, U, N>,
    U: PutReceipt + Drop,
    N: AbsenceReceipt + Drop,
> DeskAccess<J, K> for SeatedDesk<'_, J, K, D, S, T, R, W, A, U, N> {
    ghost did = { IsAsked D.Disk A.failed (last_number J.found) };

    fn asked_for(&self, alloc: Global, head: &Head, body: &[u8]) -> Result<Ask, Refusal> {
        if body.len() <= PARSED_TOGETHER {
            return asked_for(alloc, head, body);
        }
        let _turn = self.parsing.lock(self.rt);
        asked_apart(self.rt, alloc, head, body)
    }

    fn commit(
        &self,
        seen: &mut LogFront<J>,
        command: Command,
    ) -> Result<Notice<J>, DeskError<Notice<J>>> {
        let mut seat = self.seat.lock(self.rt);
        self.desk.commit(self.rt, seen, &mut *seat, command)
    }

    fn undo(
        &self,
        seen: &mut LogFront<J>,
        site: &SiteName,
        change: u64,
    ) -> Result<Notice<J>, DeskError<Notice<J>>> {
        let mut seat = self.seat.lock(self.rt);
        self.desk.undo(self.rt, seen, &mut *seat, site, change)
    }

    fn upload(
        &self,
        seen: &mut LogFront<J>,
        known: &mut SeenFiles<K>,
        site: &SiteName,
        deploy: u64,
        path: &FilePath,
        bytes: &[u8],
    ) -> Result<Taken<Notice<J>>, UploadError<Notice<J>>> {
        let listed = match self.judge(seen, site, deploy, path) {
            Ok(listed) => listed,
            Err(why) => return Err(why),
        };
        let digest = Digest::of_bytes(bytes);
        if listed != digest {
            return Err(UploadError::WrongDigest);
        }
        match self.desk.store(self.rt, self.access, digest, bytes) {
            Ok(stored) => known.learn(&SeenFiles::of(stored)),
            Err(fault) => return Err(UploadError::NotStored(fault)),
        }
        match self.publish_if_ready(seen, known, site, deploy) {
            Ok(published) => Ok(Taken { digest, published }),
            Err(why) => Err(why),
        }
    }

    fn missing(
        &self,
        alloc: Global,
        known: &mut SeenFiles<K>,
        files: &Listing,
    ) -> Result<Items<Digest>, AllocError> {
        let digests = self.desk.missing(self.rt, alloc, known, files)?;
        Ok(Items::from(digests))
    }

    fn shown(&self, seen: &mut LogFront<J>) -> Result<Notice<J>, AllocError> {
        self.desk.shown(self.rt, seen)
    }
}
