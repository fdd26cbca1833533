//! A host on one thread: its history, and what is known of its uploads.
ghost use Rattle.std.specs.Prelude.{◌≡◌, ◌≤◌, [], ◌∷◌, Some, None, IfOk, OnOk, OnErr, false, option_map, reverse};
ghost use Rattle.std.specs.FinMap as map;
ghost use Rattle.host_names.specs.Digests.{digest_of};
ghost use Rattle.site_change.specs.Refusals.{IsRefusedBy};
ghost use Rattle.change_undo.specs.Histories.{IsUndoRefusedBy, run, marked_entry};
ghost use Rattle.change_log.specs.Logs.{empty_log};
ghost use Rattle.change_undo.specs.SiteEntries.{numbers_of};
ghost use Rattle.site_change.specs.declared.entries.Entry.TheVariants as entry;
ghost use Rattle.host_server.specs.Entries.{IsEntered, IsRefusedAs, IsUndoRefusedAs};
ghost use Rattle.change_undo.specs.Plans.{IsHistoryOver};
ghost use Rattle.host_server.specs.Hosts.{Grows, host_of, state_of, next_number, with_entry, with_upload, IsLawful};
ghost use Rattle.host_server.specs.Journals.{Agrees, is_broken};
ghost use Rattle.host_server.specs.Outcomes;
ghost use Rattle.host_server.specs.Reasons;
ghost use Rattle.host_server.specs.Reasons.{commit_refusal};

use super::entry_errors::EntryError;
use super::readiness::Readiness;
use blob_store::BlobIndex;
use byte_view::BlobInfo;
use change_journal::Journal;
use change_log::Log;
use change_undo::laws::deploys_were_opened_by_their_entries;
use change_undo::{History, SiteEntries};
use host_disk::Disk;
use host_names::SiteName;
use journaled_history::{put_last, with_change, with_undo};
use site_change::{ChangeError, Command, Entry};
use site_state::State;
use std::alloc::{AllocError, Global};
use std::marker::Model;
use std::sync::Arc;

/// A host on one thread. Contracts see its entries, their limit, and its uploads; the state is what these give. How ready its deploys are
/// is kept for speed alone.
#[derive(Drop)]
pub struct SoloHouse {
    pub(super) alloc: Global,
    history: History,
    uploads: BlobIndex,
    readiness: Readiness,
}

impl Model for SoloHouse {
    ghost use Rattle.change_log.specs.contracts.logs.Log as log;
    ghost use Rattle.blob_store.specs.contracts.blob_indexes.BlobIndex as known;
    ghost use Rattle.host_server.specs.Hosts.{Host, host_of, coded_host};
    ghost use Rattle.host_server.specs.Readiness.{IsKeptWith};

    ghost Value = { Host };

    ghost coded = { coded_host log.the_row.coded known.the_row.coded };

    ghost view = { λ h. host_of h.history h.uploads };

    ghost invariant = { λ h. IsKeptWith h.history h.uploads h.readiness.places };
}

impl SoloHouse {
    /// A host without entries. It takes at most `limit` of them.
    pub fn new(alloc: Global, limit: u64) -> SoloHouse
        requires some { 1 ≤ limit }
        requires bounded { limit ≤ 1000000 }
        ensures { result ≡ record { limit = limit; entries = empty_log; uploads = map.empty } }
    {
        SoloHouse {
            alloc,
            history: History::new(alloc, limit),
            uploads: BlobIndex::new(alloc),
            readiness: Readiness::new(alloc),
        }
    }

    /// The host of a history and its uploads.
    pub(crate) fn of(alloc: Global, history: History, uploads: BlobIndex) -> SoloHouse
        requires over { IsHistoryOver uploads history }
        ensures { result ≡ host_of history uploads }
    {
        SoloHouse {
            alloc,
            history,
            uploads,
            readiness: Readiness::new(alloc),
        }
    }

    /// The state: what the changes that no undo names give when they run from the state of the base.
    pub fn state(&self) -> &State
        ensures value { result.now ≡ state_of self.now }
        ensures run { run self.now.uploads self.now.entries ≡ Some result.now }
        ensures lawful { IsLawful self.now }
    {
        self.history.state()
    }

    /// A law of every host: each entry was allowed in its place. It does nothing.
    pub(crate) fn lawful(&self)
        ensures { IsLawful self.now }
    {
        let _ = &self.history;
    }

    /// The entries. Takes no memory.
    pub fn log(&self) -> &Log
        ensures { result.now ≡ self.now.entries }
    {
        self.history.log()
    }

    /// The entry with this number, from 1 on, and whether an undo names it.
    pub(crate) fn marked_entry(&self, number: u64) -> Option<(&Entry, bool)>
        ensures { option_map (λ found. (found.0.now, found.1)) result ≡ marked_entry self.now.entries number }
    {
        self.history.marked_entry(number)
    }

    /// The numbers of the entries of a site, the newest first. Takes no memory.
    pub(crate) fn entries_of(&self, site: &SiteName) -> SiteEntries<'_>
        ensures { result ≡ reverse (numbers_of self.now.entries site.now) }
    {
        self.history.entries_of(site)
    }

    /// What was uploaded.
    pub fn uploads(&self) -> &BlobIndex
        ensures { result.now ≡ self.now.uploads }
    {
        &self.uploads
    }

    /// Makes a command the next entry, and answers its number. The entry is put into the journal first. On an error the host doesn't get
    /// it.
    pub(super) fn enter<D: Disk>(
        &mut self,
        journal: &mut Option<Journal<D>>,
        command: Command,
    ) -> Result<u64, EntryError>
        requires agrees { Agrees journal.old self.old.entries }
        requires whole { is_broken journal.old ≡ false }
        ensures number { IfOk result (λ number. number ≡ next_number self.old) }
        ensures entries { OnOk result (self.new ≡ with_entry self.old (entry.Change command)) }
        ensures refused { IsRefusedAs (commit_refusal self.old command) result }
        ensures journal { IsEntered D.Disk result (entry.Change command) journal.old journal.new }
        ensures err { OnErr result (self.new ≡ self.old) }
        ensures grows { Grows self.old self.new }
    {
        match journal {
            Some(journal) => self.commit_into(journal, command),
            None => Ok(self.commit_alone(command)?),
        }
    }

    /// The same without a journal. On an error nothing changes.
    fn commit_alone(&mut self, command: Command) -> Result<u64, ChangeError>
        ensures number { IfOk result (λ number. number ≡ next_number self.old) }
        ensures entries { OnOk result (self.new ≡ with_entry self.old (entry.Change command)) }
        ensures refused { IsRefusedBy (commit_refusal self.old command) result }
        ensures err { OnErr result (self.new ≡ self.old) }
        ensures grows { Grows self.old self.new }
    {
        self.history.commit(&self.uploads, command)
    }

    /// The same with a journal. All that takes memory comes before the entry is put.
    fn commit_into<D: Disk>(
        &mut self,
        journal: &mut Journal<D>,
        command: Command,
    ) -> Result<u64, EntryError>
        requires agrees { journal.old.entries ≡ self.old.entries }
        requires whole { journal.old.broken ≡ false }
        ensures number { IfOk result (λ number. number ≡ next_number self.old) }
        ensures entries { OnOk result (self.new ≡ with_entry self.old (entry.Change command)) }
        ensures refused { IsRefusedAs (commit_refusal self.old command) result }
        ensures journal { IsEntered D.Disk result (entry.Change command) (Some journal.old) (Some journal.new) }
        ensures err { OnErr result (self.new ≡ self.old) }
        ensures grows { Grows self.old self.new }
    {
        let next = with_change(self.alloc, &self.history, &self.uploads, command)?;
        put_last(self.alloc, journal, &next)?;
        self.history = next;
        Ok(self.history.len())
    }

    /// Makes the undo of a change of this site the next entry, and answers its number. The entry is put into the journal first. On an error
    /// the host doesn't get it.
    pub(super) fn enter_undo<D: Disk>(
        &mut self,
        journal: &mut Option<Journal<D>>,
        site: &SiteName,
        change: u64,
    ) -> Result<u64, EntryError>
        requires agrees { Agrees journal.old self.old.entries }
        requires whole { is_broken journal.old ≡ false }
        ensures number { IfOk result (λ number. number ≡ next_number self.old) }
        ensures entries { OnOk result (self.new ≡ with_entry self.old (entry.Undo site.now change)) }
        ensures refused { IsUndoRefusedAs (Reasons.undo_refusal self.old site.now change) result }
        ensures journal { IsEntered D.Disk result (entry.Undo site.now change) journal.old journal.new }
        ensures err { OnErr result (self.new ≡ self.old) }
        ensures grows { Grows self.old self.new }
    {
        match journal {
            Some(journal) => self.undo_into(journal, site, change),
            None => Ok(self.undo_alone(site, change)?),
        }
    }

    /// The same without a journal. On an error nothing changes.
    fn undo_alone(&mut self, site: &SiteName, change: u64) -> Result<u64, ChangeError>
        ensures number { IfOk result (λ number. number ≡ next_number self.old) }
        ensures entries { OnOk result (self.new ≡ with_entry self.old (entry.Undo site.now change)) }
        ensures refused { IsUndoRefusedBy (Reasons.undo_refusal self.old site.now change) result }
        ensures err { OnErr result (self.new ≡ self.old) }
        ensures grows { Grows self.old self.new }
    {
        self.history.undo(site, change)
    }

    /// The same with a journal. All that takes memory comes before the entry is put.
    fn undo_into<D: Disk>(
        &mut self,
        journal: &mut Journal<D>,
        site: &SiteName,
        change: u64,
    ) -> Result<u64, EntryError>
        requires agrees { journal.old.entries ≡ self.old.entries }
        requires whole { journal.old.broken ≡ false }
        ensures number { IfOk result (λ number. number ≡ next_number self.old) }
        ensures entries { OnOk result (self.new ≡ with_entry self.old (entry.Undo site.now change)) }
        ensures refused { IsUndoRefusedAs (Reasons.undo_refusal self.old site.now change) result }
        ensures journal { IsEntered D.Disk result (entry.Undo site.now change) (Some journal.old) (Some journal.new) }
        ensures err { OnErr result (self.new ≡ self.old) }
        ensures grows { Grows self.old self.new }
    {
        let next = with_undo(&self.history, site, change)?;
        put_last(self.alloc, journal, &next)?;
        self.history = next;
        Ok(self.history.len())
    }

    /// Adds a file to the uploads. A known digest keeps its file, and takes no memory. If memory runs out, nothing changes.
    pub(crate) fn keep(&mut self, file: Arc<BlobInfo>) -> Result<(), AllocError>
        ensures ok { OnOk result (self.new ≡ with_upload self.old file.value) }
        ensures err { OnErr result (self.new ≡ self.old) }
        ensures unknown { OnErr result (map.get self.old.uploads (digest_of file.value) ≡ None) }
        ensures grows { Grows self.old self.new }
    {
        self.uploads.keep(file)
    }

    /// Whether the deploy of a number publishes itself now.
    pub(super) fn is_ready(&mut self, site: &SiteName, number: u64) -> bool
        ensures ready { result ≡ Outcomes.is_ready self.old site.now number }
        ensures same { self.new ≡ self.old }
    {
        deploys_were_opened_by_their_entries();
        match self.history.state().draft(site, number) {
            Some(draft) => draft.auto && self.readiness.is_complete(&self.uploads, number, draft),
            None => false,
        }
    }

    /// Forgets how far the files of a deploy were uploaded, if the deploy is no longer open.
    pub(super) fn forget(&mut self, closed: Option<u64>)
        ensures { self.new ≡ self.old }
    {
        if let Some(number) = closed {
            self.readiness.forget(number);
        }
    }
}
