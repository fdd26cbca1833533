//! How a node reaches the desk that nodes share.
ghost use Rattle.std.specs.Prelude.{◌≡◌, ◌⊎◌, Ok, Err, IfErr, IfOk, IsTrue};
ghost use Rattle.change_log.specs.Logs.{BeginsWith, Log};
ghost use Rattle.site_change.specs.declared.entries.Entry.TheVariants as entry;
ghost use Rattle.host_answers.specs.Asking as asking;
ghost use Rattle.host_api.specs.declared.refusals.Refusal.TheVariants as reason;
ghost use Rattle.shared_house.specs.Desks.{DeskCall, Enters, Lacks, Takes};
ghost use Rattle.byte_view.specs.Contents.{AreDigested};
ghost use Rattle.site_change.specs.Changes.{IsWithin};
ghost use Rattle.shared_house.specs.Entering.{IsEntryAnswer, IsLackAnswer, IsUploadAnswer, reason_of_command, reason_of_undo};

use crate::notes::LogFront;
use host_api::{Ask, Items, Refusal};
use host_names::{Digest, FilePath, SiteName};
use http_wire::Head;
use seen_lists::ListName;
use site_change::Command;
use site_desk::{DeskError, DeskName, KnownFiles, Notice, SeenFiles, UploadError};
use site_state::Listing;
use std::alloc::{AllocError, Global};

/// An upload that is taken: the digest of its bytes, and the receipt of the publishing if its deploy is published then.
#[derive(Drop)]
pub struct Taken<R> {
    pub digest: Digest,
    pub published: Option<R>,
}

/// Where entries are made and files are kept. Others make entries and upload files there meanwhile. Whoever asks says what was seen of the desk's log, and is
/// told the log at which the desk answers: it begins with that. Whoever asks about files says which were seen, and is told those by which the desk answers: all
/// that were seen are among them.
pub trait DeskAccess<J: DeskName, K: ListName<KnownFiles>> {
    /// What a call, with its answer, shows. Each desk chooses it. A house is proved over any such desk, so it can show a call only by making it.
    ghost did: { DeskCall → Type 0 };

    /// What a request asks for. Requests with long bodies wait for each other before they are parsed.
    fn asked_for(&self, alloc: Global, head: &Head, body: &[u8]) -> Result<Ask, Refusal>
        ensures ok { IfOk result (λ ask. asking.asked_for head.now body.now ≡ Ok ask) }
        ensures refused { IfErr result (λ why.
            ((why ≡ reason.OutOfMemory) × IsTrue (asking.asking_takes head.now body.now))
            ⊎ (asking.asked_for head.now body.now ≡ Err why)) };

    /// Makes a command the next entry of whatever the log is by then, and gives the receipt of it.
    fn commit(
        &self,
        seen: &mut LogFront<J>,
        command: Command,
    ) -> Result<Notice<J>, DeskError<Notice<J>>>
        ensures later { BeginsWith seen.new seen.old }
        ensures asked { did (Enters (entry.Change command) seen.new result) }
        ensures answer { IsEntryAnswer (entry.Change command) (reason_of_command command) seen.new result };

    /// Makes the undo of a change of a site the next entry of whatever the log is by then, and gives the receipt of it.
    fn undo(
        &self,
        seen: &mut LogFront<J>,
        site: &SiteName,
        change: u64,
    ) -> Result<Notice<J>, DeskError<Notice<J>>>
        ensures later { BeginsWith seen.new seen.old }
        ensures asked { did (Enters (entry.Undo site.now change) seen.new result) }
        ensures answer { IsEntryAnswer (entry.Undo site.now change) (reason_of_undo site.now change) seen.new result };

    /// Takes bytes as the file that a deploy lists at a path, and publishes the deploy if it is ready then.
    fn upload(
        &self,
        seen: &mut LogFront<J>,
        known: &mut SeenFiles<K>,
        site: &SiteName,
        deploy: u64,
        path: &FilePath,
        bytes: &[u8],
    ) -> Result<Taken<Notice<J>>, UploadError<Notice<J>>>
        ensures files { IsWithin known.old known.new }
        ensures asked { did (Takes site.now deploy path.now bytes.now seen.new known.new result) }
        ensures answer { (first : Log) × BeginsWith first seen.old × BeginsWith seen.new first
            × IsUploadAnswer site.now deploy path.now bytes.now first seen.new known.new result };

    /// The listed digests whose files aren't uploaded by now.
    fn missing(
        &self,
        alloc: Global,
        known: &mut SeenFiles<K>,
        files: &Listing,
    ) -> Result<Items<Digest>, AllocError>
        ensures files { IsWithin known.old known.new }
        ensures digested { AreDigested known.new }
        ensures asked { did (Lacks files.now.1 known.new result) }
        ensures answer { IsLackAnswer known.new files.now.1 result };

    /// The receipt of all entries. It may wait for a change that is being made. A house asks for it only if it has learnt of entries that aren't shown, which
    /// no desk lets anybody learn of.
    fn shown(&self, seen: &mut LogFront<J>) -> Result<Notice<J>, AllocError>
        ensures later { BeginsWith seen.new seen.old }
        ensures receipt { IfOk result (λ receipt. receipt ≡ seen.new) };
}
