//! Houses: what requests are answered over.
ghost use Rattle.std.specs.Prelude.{◌≡◌, ◌⊎◌, ℕ, List, Some, Ok, Err, IfErr, IfOk, IsTrue, option_map, reverse, true};
ghost use Rattle.http_wire.specs.Requests.{RequestParts};
ghost use Rattle.change_undo.specs.Histories.{entry_at, marked_entry};
ghost use Rattle.change_undo.specs.SiteEntries.{numbers_of};
ghost use Rattle.site_change.specs.declared.entries.Entry.TheVariants as entry;
ghost use Rattle.host_replies.specs.Replies.{Answer, is_head};
ghost use Rattle.host_api.specs.declared.refusals.Refusal.TheVariants as reason;
ghost use Rattle.host_answers.specs.Answers.{AnswersBy};
ghost use Rattle.host_answers.specs.Asking as asking;
ghost use Rattle.host_answers.specs.Houses.{Calls};

use crate::stops::Stop;
use crate::uploads::Uploaded;
use change_log::Log;
use change_undo::SiteEntries;
use chunk_reads::Holder;
use host_api::{Ask, Items, Refusal};
use host_names::{Digest, FilePath, SiteName};
use http_wire::Head;
use site_change::{Command, Entry};
use site_state::{Listing, State};
use std::alloc::{AllocError, Global};

/// What requests are answered over: a history that is looked at and changed, and files that are held. A look shows one state and its
/// entries, which are lent until the next look or entry.
///
/// What each call does is the house's own relation. So `answer` is proved once, over a house of one thread and over one whose history others
/// change. The state may change between a look and an entry, so an entry is told by what is shown after it.
///
/// Each house has to be a `Service` by an impl of its own: the language takes no impl of another crate's trait for every type.
pub trait House: Holder {
    // What each of its calls does.
    ghost calls: { Calls Self };

    // What a request of these parts and this body is answered, and what the house is then.
    ghost answers: { Self → RequestParts → List ℕ → Answer → Self → Type 0 };

    // What stays of a house, whatever is asked of it.
    ghost grows: { Self → Self → Type 0 };

    /// What a request asks for, as the function `asked_for` finds it. A house may let requests with long bodies wait for each other first.
    fn asked_for(&self, alloc: Global, head: &Head, body: &[u8]) -> Result<Ask, Refusal>
        ensures ok { IfOk result (λ ask. asking.asked_for head.now body.now ≡ Ok ask) }
        ensures refused { IfErr result (λ why.
            ((why ≡ reason.OutOfMemory) × IsTrue (asking.asking_takes head.now body.now))
            ⊎ (asking.asked_for head.now body.now ≡ Err why)) };

    /// Looks at the history: what is there is shown from then on. On an error it may have looked or not.
    fn look(&mut self) -> Result<(), AllocError>
        ensures { calls.looks self.old result self.new };

    /// The state that is shown.
    fn state(&self) -> &State
        ensures { result.now ≡ (calls.seen self.now).state };

    /// The entries that are shown.
    fn log(&self) -> &Log
        ensures { result.now ≡ (calls.seen self.now).entries };

    /// The entry with this number, from 1 on, as it is shown, and whether an undo names it.
    fn marked_entry(&self, number: u64) -> Option<(&Entry, bool)>
        ensures { option_map (λ found. (found.0.now, found.1)) result
            ≡ marked_entry (calls.seen self.now).entries number };

    /// The numbers of the entries of a site that are shown, the newest first. The work is a look-up of the site, and one in a list for each
    /// number that is taken.
    fn entries_of(&self, site: &SiteName) -> SiteEntries<'_>
        ensures { result ≡ reverse (numbers_of (calls.seen self.now).entries site.now) };

    /// The listed digests that aren't uploaded.
    fn missing(&self, alloc: Global, files: &Listing) -> Result<Items<Digest>, AllocError>
        ensures { calls.misses self.now files.now.1 result };

    /// Makes a command the next entry, and answers its number. The entry is shown from then on.
    fn commit(&mut self, command: Command) -> Result<u64, Stop>
        ensures did { calls.commits self.old command result self.new }
        ensures shown { IfOk result (λ number.
            entry_at (calls.seen self.new).entries number ≡ Some (entry.Change command)) };

    /// Makes the undo of a change of a site the next entry, and answers its number.
    fn undo(&mut self, site: &SiteName, change: u64) -> Result<u64, Stop>
        ensures { calls.undoes self.old site.now change result self.new };

    /// Takes bytes as the file at a path of a deploy of a site, and publishes the deploy if it is ready then.
    fn upload(
        &mut self,
        site: &SiteName,
        deploy: u64,
        path: &FilePath,
        bytes: &[u8],
    ) -> Result<Uploaded, Refusal>
        ensures { calls.uploads self.old site.now deploy path.now bytes.now result self.new };

    // What is answered follows from the calls that are made for it, and so does what stays.
    ghost told: { (old new : Self) (parts : RequestParts) (body : List ℕ) (answer : Answer)
        → AnswersBy calls Self.gave Self.failed old parts body answer new → answers old parts body answer new };

    ghost grew: { (old new : Self) (parts : RequestParts) (body : List ℕ) (answer : Answer)
        → AnswersBy calls Self.gave Self.failed old parts body answer new → grows old new };

    // Only to HEAD is a body told by its length alone.
    ghost withheld: { (old : Self) (parts : RequestParts) (body : List ℕ) (answer : Answer) (new : Self)
        → answers old parts body answer new → answer.withheld ≡ true → is_head parts ≡ true };

    // What stays does so where nothing is answered, and from one answer to the next.
    ghost stays: { (house : Self) → grows house house };

    ghost goes_on: { (first mid last : Self) → grows first mid → grows mid last → grows first last };
}
