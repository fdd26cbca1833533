//! A house whose history others change.
ghost use Rattle.std.specs.Prelude.{◌≡◌, IfErr, IfOk, OnErr, OnOk, option_map};
ghost use Rattle.change_log.specs.Logs.{BeginsWith, last_number};
ghost use Rattle.host_answers.specs.declared.stops.Stop.TheVariants.{OutOfMemory};
ghost use Rattle.shared_house.specs.Entering as spec;
ghost use Rattle.shared_house.specs.Entering.{published_log, refusal_of, stop_of};
ghost use Rattle.shared_house.specs.Seeing.{HasAll, Known, by_front};

use crate::desk_access::DeskAccess;
use crate::notes::{LogFront, Note};
use blob_store::UploadFault;
use change_log::Log;
use host_answers::Stop;
use host_api::Refusal;
use seen_lists::{ListName, LookFault, Visitor};
use site_change::ChangeRefusal;
use site_desk::{
    DeskError, DeskName, HostSnap, KnownFiles, Notice, SeenFiles, UploadError, number_of,
};
use std::alloc::AllocError;
use std::marker::Model;
use std::sync::Arc;

/// A visitor of a desk.
pub type DeskVisitor<J> = Visitor<Log, J, HostSnap>;

/// What one worker of a node answers requests over: a visitor of the desk, which is the worker's own, the desk, and the node's files. It shows the
/// snapshot of its last look or receipt. Contracts see the latest log that it saw or learnt of, the files that it has seen, and what it shows.
#[derive(Drop)]
pub struct SharedHouse<J: DeskName, K: ListName<KnownFiles>, D, G> {
    pub(crate) visitor: DeskVisitor<J>,
    pub(crate) seen_files: SeenFiles<K>,
    pub(crate) desk: D,
    pub(crate) files: G,
    pub(crate) snap: Arc<HostSnap>,
}

impl<J: DeskName, K: ListName<KnownFiles>, D, G> Model for SharedHouse<J, K, D, G> {
    ghost use Rattle.blob_store.specs.contracts.blob_indexes.BlobIndex as index;
    ghost use Rattle.change_log.specs.contracts.logs.Log as logs;
    ghost use Rattle.change_undo.specs.contracts.histories.History as histories;
    ghost use Rattle.shared_house.specs.Seeing.{coded_known};
    ghost use Rattle.shared_house.specs.Sights.{Sight, coded_sight};

    ghost Value = { Sight };

    ghost coded = { coded_sight (coded_known logs.the_row.coded index.the_row.coded) histories.the_row.coded };

    ghost view = { λ h. record {
      known = record { log = h.visitor.known; files = h.seen_files };
      past = h.snap.value;
    } };
}

impl<J: DeskName, K: ListName<KnownFiles>, D: Drop, G: Drop> SharedHouse<J, K, D, G> {
    /// A house of what is shown now. It has seen no files.
    pub fn new(
        visitor: DeskVisitor<J>,
        desk: D,
        files: G,
    ) -> Result<SharedHouse<J, K, D, G>, LookFault>
        ensures { IfOk result (λ house. BeginsWith house.known.log visitor.known) }
    {
        let mut visitor = visitor;
        let snap = visitor.look()?;
        Ok(SharedHouse {
            visitor,
            seen_files: SeenFiles::none(),
            desk,
            files,
            snap,
        })
    }
}

impl<J: DeskName, K: ListName<KnownFiles>, D, G> SharedHouse<J, K, D, G> {
    /// A note of what it knows.
    pub(crate) fn note(&self) -> Note<J, K>
        ensures { result ≡ self.now.known }
    {
        Note {
            log: self.visitor.front(),
            files: self.seen_files.again(),
        }
    }

    /// The front of the log that it knows.
    pub(crate) fn front(&self) -> LogFront<J>
        ensures { result ≡ self.now.known.log }
    {
        self.visitor.front()
    }

    /// Learns what a note has.
    pub(crate) fn learn_note(&mut self, note: &Note<J, K>)
        ensures kept { HasAll self.old.known self.new.known }
        ensures learnt { HasAll note.now self.new.known }
    {
        self.visitor.learn_front(&note.log);
        self.seen_files.learn(&note.files);
    }

    /// Learns of files by which the desk answered.
    fn find(&mut self, known: &SeenFiles<K>)
        ensures { by_front.finds self.old.known known.now self.new.known }
    {
        self.seen_files.learn(known);
    }

    /// Learns of an entry by its receipt, and gives the entry's number.
    pub(crate) fn learn(&mut self, receipt: Notice<J>) -> u64
        ensures number { result ≡ last_number receipt }
        ensures learnt { by_front.learns self.old.known receipt self.new.known }
    {
        let number = number_of(&receipt);
        self.visitor.learn(receipt);
        number
    }

    /// The same, and shows the snapshot that has the entry. There may be no memory for an owner of the snapshot.
    pub(crate) fn take(&mut self, receipt: Notice<J>) -> Result<u64, Stop>
        ensures number { IfOk result (λ number. number ≡ last_number receipt) }
        ensures shown { OnOk result (self.new.past.entries ≡ receipt) }
        ensures learnt { by_front.learns self.old.known receipt self.new.known }
        ensures memory { IfErr result (λ why. why ≡ OutOfMemory) }
    {
        let snap = Arc::try_clone(receipt.snap());
        let number = self.learn(receipt);
        let Ok(snap) = snap else {
            return Err(Stop::OutOfMemory);
        };
        self.snap = snap;
        Ok(number)
    }

    /// Learns of the log at which the desk answered.
    fn learn_log(&mut self, seen: &LogFront<J>)
        ensures { by_front.learns self.old.known seen.now self.new.known }
    {
        self.visitor.learn_front(seen);
    }

    /// What is told if the desk makes no entry. The log at which it answered is learnt.
    pub(crate) fn stop(&mut self, seen: &LogFront<J>, why: DeskError<Notice<J>>) -> Stop
        ensures told { result ≡ stop_of why }
        ensures learnt { by_front.learns self.old.known seen.now self.new.known }
    {
        self.learn_log(seen);
        stop_for(why)
    }

    /// Learns of the files by which the desk took an upload, of the log at which it did, and of the publishing of a deploy, if there is one. Gives the number of
    /// its entry.
    pub(crate) fn learn_taken(
        &mut self,
        seen: &LogFront<J>,
        known: &SeenFiles<K>,
        published: Option<Notice<J>>,
    ) -> Option<u64>
        ensures number { result ≡ option_map last_number published }
        ensures learnt { (mid : Known) × by_front.finds self.old.known known.now mid
            × by_front.learns mid (published_log seen.now published) self.new.known }
    {
        self.find(known);
        match published {
            Some(receipt) => Some(self.learn(receipt)),
            None => {
                self.learn_log(seen);
                None
            }
        }
    }

    /// What is told if an upload isn't taken, or its deploy isn't published. The files and the log at which the desk answered are learnt.
    pub(crate) fn not_taken(
        &mut self,
        seen: &LogFront<J>,
        known: &SeenFiles<K>,
        why: UploadError<Notice<J>>,
    ) -> Refusal
        ensures told { result ≡ refusal_of why }
        ensures learnt { (mid : Known) × by_front.finds self.old.known known.now mid
            × by_front.learns mid seen.now self.new.known }
    {
        self.find(known);
        self.learn_log(seen);
        refusal_for(why)
    }
}

impl<J: DeskName, K: ListName<KnownFiles>, D: DeskAccess<J, K>, G> SharedHouse<J, K, D, G> {
    /// The snapshot of the latest that is shown, was seen or was learnt. There may be no memory for an owner of it.
    pub(crate) fn see(&mut self) -> Result<Arc<HostSnap>, AllocError>
        ensures seen { IfOk result (λ snap. self.new.known.log ≡ snap.value.entries) }
        ensures kept { BeginsWith self.new.known.log self.old.known.log }
        ensures files { self.new.known.files ≡ self.old.known.files }
        ensures same { OnErr result (self.new.known ≡ self.old.known) }
    {
        match self.visitor.look() {
            Ok(snap) => Ok(snap),
            Err(LookFault::OutOfMemory) => Err(AllocError),
            Err(LookFault::Behind) => self.catch_up(),
        }
    }

    /// The same, of the desk itself: what was learnt isn't shown.
    fn catch_up(&mut self) -> Result<Arc<HostSnap>, AllocError>
        ensures seen { IfOk result (λ snap. self.new.known.log ≡ snap.value.entries) }
        ensures kept { BeginsWith self.new.known.log self.old.known.log }
        ensures files { self.new.known.files ≡ self.old.known.files }
        ensures same { OnErr result (self.new.known ≡ self.old.known) }
    {
        let mut seen = self.visitor.front();
        let last = self.desk.shown(&mut seen)?;
        let snap = Arc::try_clone(last.snap())?;
        self.visitor.learn(last);
        Ok(snap)
    }
}

/// What is told if a desk makes no entry.
fn stop_for<J: DeskName>(why: DeskError<Notice<J>>) -> Stop
    ensures { result ≡ stop_of why }
{
    match why {
        DeskError::Broken => Stop::Broken,
        DeskError::Refused { reason, .. } => Stop::Refused(reason),
        DeskError::NoReceipt(_) | DeskError::OutOfMemory => Stop::OutOfMemory,
        DeskError::Device => Stop::Device,
    }
}

/// Why an upload isn't taken, or its deploy isn't published.
fn refusal_for<J: DeskName>(why: UploadError<Notice<J>>) -> Refusal
    ensures { result ≡ refusal_of why }
{
    match why {
        UploadError::Broken => Refusal::Broken,
        UploadError::NoSuchDeploy => Refusal::Change(ChangeRefusal::NoSuchDeploy),
        UploadError::NotListed => Refusal::NotListed,
        UploadError::WrongDigest => Refusal::WrongDigest,
        UploadError::NotStored(fault) => refusal_of_fault(fault),
        UploadError::NotPublished(why) => stop_for(why).into(),
    }
}

/// Why a file isn't stored.
fn refusal_of_fault(fault: UploadFault) -> Refusal
    ensures { result ≡ spec.refusal_of_fault fault }
{
    match fault {
        UploadFault::TooLarge => Refusal::TooLarge,
        UploadFault::Device => Refusal::Device,
        UploadFault::OutOfMemory => Refusal::OutOfMemory,
    }
}
