//! Histories: changes are committed at their end, and undone by an entry of their own.
ghost use Rattle.std.specs.Prelude.{◌≡◌, ◌≤◌, [], nat_le, reverse, Some, IfErr, IfOk, OnOk, OnErr, option_copied, option_map};
ghost use Rattle.std.specs.FinMap as map;
ghost use Rattle.byte_view.specs.Contents.{Contents};
ghost use Rattle.site_change.specs.Refusals.{IsRefusedBy};
ghost use Rattle.site_change.specs.Changes.{applied};
ghost use Rattle.site_change.specs.Uploaded.{AreUploaded};
ghost use Rattle.site_change.specs.declared.entries.Entry.TheVariants as entry;
ghost use Rattle.change_undo.specs.Clashes;
ghost use Rattle.change_undo.specs.Effects.{UndoesChange};
ghost use Rattle.change_undo.specs.BaseFaults.{IsBaseFault};
ghost use Rattle.change_undo.specs.Histories;
ghost use Rattle.change_undo.specs.Histories.{base_state};
ghost use Rattle.change_log.specs.Logs;
ghost use Rattle.change_log.specs.Logs.{empty_log, last_number, next_number, with_entry, with_only};
ghost use Rattle.change_undo.specs.Plans.{IsHistoryOver, IsRecorded};
ghost use Rattle.change_undo.specs.SiteEntries.{numbers_of};

use crate::base_faults::BaseFault;
use crate::records::Records;
use crate::site_entries::SiteEntries;
use byte_view::Uploads;
use change_log::{Log, may_be_base, state_of};
use host_names::{Cell, SiteName};
use site_change::{ChangeError, ChangeRefusal, Command, Entry, Plan, decide, uploads_are_digested};
use site_state::State;
use std::alloc::{AllocError, Global};
use std::marker::Model;

/// The greatest limit of a history, in entries.
pub const GREATEST_LIMIT: u64 = 1_000_000;

// Clauses and documents have this number: whoever changes it changes them.
const _: () = prove!(GREATEST_LIMIT == 1_000_000);

/// The log so far, and the state that the changes in it give that no undo names: the changes that live. Contracts see the limit, the log, what
/// each live change changed and touched, and the state. The state is always what the live changes give when they run from the state of the
/// log's base, in the order of their numbers; a log that has all its entries begins with nothing. Copies share the log and what is kept of it.
///
/// A history keeps no uploads. Its contracts speak of any uploads over which it is a history (`IsHistoryOver`), and a commit asks for such;
/// it is then a history over all that have more, too (`histories_outlast_uploads`).
#[derive(Drop)]
pub struct History {
    limit: u64,
    records: Records,
    state: State,
}

impl Model for History {
    ghost use Rattle.std.specs.Coded.{coded_list, coded_option};
    ghost use Rattle.change_log.specs.contracts.logs.Log as log;
    ghost use Rattle.site_change.specs.contracts.plans.Plan as plan;
    ghost use Rattle.site_state.specs.contracts.states.State as states;
    ghost use Rattle.change_undo.specs.Histories.{Past};
    ghost use Rattle.change_undo.specs.Past.{IsSound, coded_past, past_of};

    ghost Value = { Past };

    ghost coded = { coded_past log.the_row.coded (coded_list (coded_option plan.the_row.coded)) states.the_row.coded };

    ghost view = { λ h. past_of h.limit h.records h.state };

    ghost invariant = { λ h. IsSound h.limit h.records h.state };
}

impl History {
    /// A history without entries. It takes at most `limit` of them.
    pub fn new(alloc: Global, limit: u64) -> History
        requires some { 1 ≤ limit }
        requires bounded { limit ≤ 1000000 }
        ensures { result ≡ record { limit = limit; entries = empty_log; plans = []; state = map.empty } }
    {
        History {
            limit,
            records: Records::new(Log::new(alloc)),
            state: State::new(alloc),
        }
    }

    /// A history of the base of this log, without its entries. It asks what `new` asks, and that the base has no number above the limit. It is
    /// refused exactly where the base may not be one over these uploads (`IsBase`).
    pub fn over<U: Uploads>(limit: u64, log: &Log, uploads: &U) -> Result<History, BaseFault>
        requires some { 1 ≤ limit }
        requires bounded { limit ≤ 1000000 }
        requires within { log.now.base ≤ limit }
        ensures over { IfOk result (λ history. IsHistoryOver (U.contents uploads.now) history) }
        ensures fault { IfErr result (λ fault. IsBaseFault (U.contents uploads.now) log.now fault) }
        ensures made { IfOk result (λ history. history ≡ record {
          limit = limit;
          entries = with_only log.now [];
          plans = [];
          state = base_state (U.contents uploads.now) log.now;
        }) }
    {
        let alloc = log.allocator();
        let base = log.base();
        if !may_be_base(alloc, uploads, base, log.base_state())? {
            return Err(BaseFault::NotLegal(base));
        }
        let state = state_of(alloc, uploads, log.base_state())?;
        let records = Records::new(log.without_entries()?);
        Ok(History {
            limit,
            records,
            state,
        })
    }

    /// The state: what the live changes give when they run from that of the base. `deploys_were_opened_by_their_entries` says what that tells of its
    /// deploys.
    pub fn state(&self) -> &State
        ensures value { result.now ≡ self.now.state }
        ensures over { (uploads : Contents) × IsHistoryOver uploads self.now }
    {
        &self.state
    }

    /// The number of the last entry, which is at most the limit; that of the base if there is none.
    pub fn len(&self) -> u64
        ensures number { result ≡ last_number self.now.entries }
        ensures room { last_number self.now.entries ≤ self.now.limit }
        ensures some { 1 ≤ self.now.limit }
        ensures bounded { self.now.limit ≤ 1000000 }
    {
        self.records.len()
    }

    /// Whether its last entry has the greatest number that its limit allows.
    pub fn is_full(&self) -> bool
        ensures { result ≡ nat_le self.now.limit (last_number self.now.entries) }
    {
        self.limit <= self.records.len()
    }

    /// The log. Takes no memory.
    pub fn log(&self) -> &Log
        ensures { result.now ≡ self.now.entries }
    {
        self.records.log()
    }

    /// The entry with this number; none up to the base.
    pub fn entry(&self, number: u64) -> Option<&Entry>
        ensures { option_copied result ≡ Histories.entry_at self.now.entries number }
    {
        self.log().entry(number)
    }

    /// The entry with this number, and whether an undo names it; none up to the base.
    pub fn marked_entry(&self, number: u64) -> Option<(&Entry, bool)>
        ensures { option_map (λ found. (found.0.now, found.1)) result
            ≡ Histories.marked_entry self.now.entries number }
    {
        let entry = self.entry(number)?;
        let mark = self.records.mark(number)?;
        Some((entry, mark.is_undone))
    }

    /// The numbers of the entries of a site, the newest first; none if no entry names the site. Takes no memory. The work is a look-up of the
    /// site among those that have entries, and one in a list for each number that is taken.
    pub fn entries_of(&self, site: &SiteName) -> SiteEntries<'_>
        ensures { result ≡ reverse (numbers_of self.now.entries site.now) }
    {
        self.records.entries_of(site)
    }

    /// The clash of the change with this number: the first later change that was not undone and reads or writes a cell which that change
    /// changed, and the first such cell in the order of cells. None if no later change does so, and none for a number that is not that of a
    /// change, or whose change was undone. Numbers count over all sites. The work is two look-ups in an index for each changed cell, and
    /// one in the cells that the clash touches; it grows with the logarithm of the entries.
    pub fn clash(&self, change: u64) -> Option<(u64, &Cell)>
        ensures { (uploads : Contents) → IsHistoryOver uploads self.now
            → option_map (λ found. (found.0, found.1.now)) result ≡ Clashes.clash uploads self.now.entries change }
    {
        self.records.clash(change)
    }

    /// What the change with this number changes and touches in its place among the live changes; what was undone has no part in it. None
    /// for a number that is not that of a change, and for a change that was undone. Takes no memory.
    pub fn record(&self, number: u64) -> Option<&Plan>
        ensures value { option_copied result ≡ Histories.recorded self.now number }
        ensures over { (uploads : Contents) → IsHistoryOver uploads self.now → IsRecorded uploads self.now.entries number (option_copied result) }
    {
        self.records.plan(number)
    }

    /// Each served or kept file is among these uploads, over which this is a history.
    pub fn files_were_uploaded<U: Uploads>(&self, uploads: &U)
        requires { IsHistoryOver (U.contents uploads.now) self.now }
        ensures { AreUploaded (U.contents uploads.now) self.now.state }
    {
        uploads_are_digested(uploads);
    }

    /// Commits a command as the next entry, and answers the entry's number. It has to be a history over these uploads. On an error nothing
    /// changes.
    pub fn commit<U: Uploads>(&mut self, uploads: &U, command: Command) -> Result<u64, ChangeError>
        requires over { IsHistoryOver (U.contents uploads.now) self.old }
        ensures refused { IsRefusedBy (Histories.commit_refusal (U.contents uploads.now) self.old.limit self.old.entries self.old.state command) result }
        ensures number { IfOk result (λ number. number ≡ next_number self.old.entries) }
        ensures entries { OnOk result (self.new.entries ≡ with_entry self.old.entries (entry.Change command)) }
        ensures state { OnOk result (self.new.state ≡ applied command (next_number self.old.entries) self.old.state (U.contents uploads.now)) }
        ensures over { IsHistoryOver (U.contents uploads.now) self.new }
        ensures err { OnErr result (self.new ≡ self.old) }
        ensures limit { self.new.limit ≡ self.old.limit }
    {
        if self.is_full() {
            return Err(ChangeError::Refused(ChangeRefusal::HistoryFull));
        }
        self.files_were_uploaded(uploads);
        let number = self.len() + 1;
        let alloc = self.records.allocator();
        let plan = decide(alloc, &self.state, uploads, number, &command)?;
        self.records
            .append_change(number, command, &mut self.state, plan)?;
        Ok(number)
    }

    /// Undoes the change with this number, which belongs to this site, by the next entry, and answers that entry's number. Each cell that
    /// the change changed then has what it had before the change, and every other cell what it has now. If a later change that was not
    /// undone reads or writes what this one changed, the undo is refused, and names that clash. On an error nothing changes. The work is
    /// that of `clash`, that of `State::set_cells` with these cells, one write of the index with the cells that the change touched, and a
    /// copy of the marks and of the index.
    ///
    /// What is written back is in the change's plan. It is what the other live changes give from the state of the base, since no later one reads
    /// or writes those cells.
    pub fn undo(&mut self, site: &SiteName, change: u64) -> Result<u64, ChangeError>
        ensures refused { (uploads : Contents) → IsHistoryOver uploads self.old
            → Histories.IsUndoRefusedBy (Histories.undo_refusal uploads self.old.limit self.old.entries site.now change) result }
        ensures number { IfOk result (λ number. number ≡ next_number self.old.entries) }
        ensures entries { OnOk result (self.new.entries ≡ with_entry self.old.entries (entry.Undo site.now change)) }
        ensures over { OnOk result ((uploads : Contents) → IsHistoryOver uploads self.old → IsHistoryOver uploads self.new) }
        ensures effect { OnOk result ((uploads : Contents) → IsHistoryOver uploads self.old → UndoesChange uploads self.old self.new change) }
        ensures at_once { OnOk result ((uploads : Contents) (before : Logs.Log) (command : Command) → IsHistoryOver uploads self.old
            → self.old.entries ≡ with_entry before (entry.Change command) → change ≡ next_number before
            → Histories.run uploads before ≡ Some self.new.state) }
        ensures err { OnErr result (self.new ≡ self.old) }
        ensures limit { self.new.limit ≡ self.old.limit }
    {
        if let Some(reason) = self.undo_refusal(site, change)? {
            return Err(ChangeError::Refused(reason));
        }
        let number = self.len() + 1;
        self.records
            .append_undo(number, site, change, &mut self.state)?;
        Ok(number)
    }

    /// A copy. Neither sees what is done to the other. The work is that of `State::copy`, and a count for each ten thousand entries or so.
    pub fn copy(&self) -> Result<History, AllocError>
        ensures { IfOk result (λ copy. copy ≡ self.now) }
    {
        Ok(History {
            limit: self.limit,
            records: self.records.copy()?,
            state: self.state.copy()?,
        })
    }
}
