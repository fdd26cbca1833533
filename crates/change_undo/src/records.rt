//! The entries of a history with their marks.
ghost use Rattle.std.specs.Prelude.{◌≡◌, ◌+◌, ◌-◌, ◌<◌, ◌≤◌, [], ◌∷◌, ◌++◌, length, reverse, false, None, Some, IfOk, OnOk, OnErr, option_copied, slice_get};
ghost use Rattle.site_state.specs.Changes.{writes};
ghost use Rattle.site_state.specs.States.{with_cells};
ghost use Rattle.site_state.specs.declared.changes.Side.TheVariants.{After, Before};
ghost use Rattle.site_change.specs.declared.entries.Entry.TheVariants as entry;
ghost use Rattle.change_undo.specs.Indexed.{IsIndexOf};
ghost use Rattle.change_log.specs.Appending.{AreWritable};
ghost use Rattle.change_undo.specs.Kept.{changes_of, plan_at, plan_of};
ghost use Rattle.change_undo.specs.PlannedEntries.{log_of, mark_at, marked_log, marks_of, plan_in, with_logged, with_undo, with_undone};
ghost use Rattle.change_undo.specs.SiteEntries.{numbers_of};

use crate::marks::Mark;
use crate::site_entries::{SiteEntries, SiteIndex};
use change_log::Log;
use host_names::SiteName;
use persistent_lists::SharedList;
use shared_blocks::Shared;
use site_change::{Command, Entry, Plan};
use site_state::{Change, Side, State};
use std::alloc::{AllocError, Global};
use std::marker::Model;
use touch_index::Index;

/// A log, each of its entries with its mark. Contracts see them together. The index finds the live changes that may touch a cell, and that of the
/// sites the entries of a site, without a look at each entry. Copies share all of it.
///
/// The marks are in a list of their own: an undo changes one mark and no entry. So the entries can be lent as they are (`History::log`),
/// and none is ever copied.
#[derive(Drop)]
pub(crate) struct Records {
    log: Log,
    marks: SharedList<Mark>,
    index: Index,
    sites: SiteIndex,
}

impl Model for Records {
    ghost use Rattle.change_log.specs.contracts.names.Names as named;
    ghost use Rattle.site_change.specs.contracts.entries.Entry as entry;
    ghost use Rattle.site_change.specs.contracts.plans.Plan as plan;
    ghost use Rattle.change_undo.specs.Indexed.{BelongTogether};
    ghost use Rattle.change_undo.specs.PlannedEntries.{PlannedLog, coded_planned, marked_log};

    ghost Value = { PlannedLog };

    ghost coded = { coded_planned named.the_row.coded entry.the_row.coded plan.the_row.coded };

    ghost view = { λ r. marked_log r.log r.marks.items };

    ghost invariant = { λ r. BelongTogether r.log r.marks.items r.index r.sites.earlier.items r.sites.last };
}

/// What the change with this number, above the base, changes in its place; nothing if it has no plan.
fn changes_in(marks: &SharedList<Mark>, base: u64, number: u64) -> &[Change]
    requires some { base < number }
    ensures { result.now ≡ changes_of (plan_in (slice_get marks.now.items (number - base - 1))) }
{
    match marks.get((number - base - 1) as usize) {
        Some(mark) => mark.changes(),
        None => &[],
    }
}

impl Records {
    /// A log without entries, which takes no memory.
    pub(crate) fn new(log: Log) -> Records
        requires { log.entries ≡ [] }
        ensures { result ≡ marked_log log [] }
    {
        let alloc = log.allocator();
        Records {
            log,
            marks: SharedList::new(alloc),
            index: Index::new(alloc),
            sites: SiteIndex::new(alloc),
        }
    }

    /// Where its memory comes from.
    pub(crate) fn allocator(&self) -> Global {
        self.log.allocator()
    }

    /// The log alone.
    pub(crate) fn log(&self) -> &Log
        ensures { result.now ≡ log_of self.now }
    {
        &self.log
    }

    /// The number after which it begins.
    pub(crate) fn base(&self) -> u64
        ensures { result ≡ self.now.base }
    {
        self.log.base()
    }

    /// The number of the last entry; that of the base if there is none.
    pub(crate) fn len(&self) -> u64
        ensures { result ≡ self.now.base + length self.now.logged }
    {
        self.log.len()
    }

    /// The mark of the entry with this number; none up to the base.
    pub(crate) fn mark(&self, number: u64) -> Option<&Mark>
        ensures { option_copied result ≡ mark_at self.now.base self.now.logged number }
    {
        let base = self.base();
        if number <= base {
            return None;
        }
        self.marks.get((number - base - 1) as usize)
    }

    /// What the change with this number, above the base, changes and touches in its place, if it lives.
    pub(crate) fn plan(&self, number: u64) -> Option<&Plan>
        ensures { option_copied result ≡ plan_of self.now.base self.now.logged number }
    {
        match self.mark(number) {
            Some(mark) => mark.plan(),
            None => None,
        }
    }

    /// Under which keys the changes that live are posted.
    pub(crate) fn index(&self) -> &Index
        ensures { IsIndexOf self.now.base self.now.logged result.now }
    {
        &self.index
    }

    /// The numbers of the entries of a site, the newest first.
    pub(crate) fn entries_of(&self, site: &SiteName) -> SiteEntries<'_>
        ensures { result ≡ reverse (numbers_of (log_of self.now) site.now) }
    {
        self.sites.entries_of(self.log.base(), site)
    }

    /// Appends a change under the next number, with its plan, and writes into the state what the plan leaves. If memory runs out, nothing
    /// changes.
    pub(crate) fn append_change(
        &mut self,
        number: u64,
        command: Command,
        state: &mut State,
        plan: Plan,
    ) -> Result<(), AllocError>
        requires next { number ≡ self.old.base + length self.old.logged + 1 }
        requires writable { AreWritable state.old After plan.changes.items }
        ensures entries { OnOk result (self.new ≡ with_logged self.old (self.old.logged ++ record { entry = entry.Change command; is_undone = false; plan = Some plan } ∷ [])) }
        ensures state { OnOk result (state.new ≡ with_cells state.old (writes After plan.changes.items)) }
        ensures err { OnErr result ((self.new ≡ self.old) × (state.new ≡ state.old)) }
    {
        let alloc = self.log.allocator();
        let index = self.index.with(alloc, &plan.touched, number)?;
        let plan = Shared::new(alloc, plan)?;
        self.marks.reserve()?;
        let addition = self.sites.prepare(command.site(), number)?;
        let changes = plan.get().changes.as_slice();
        self.log
            .append(Entry::Change(command), state, changes, Side::After)?;
        self.marks.push_reserved(Mark::of_change(plan));
        self.index = index;
        self.sites.add(addition);
        Ok(())
    }

    /// The marks after the undo of the change with this number. They are a copy, so that an undo can still fail.
    fn marks_after_undo(&self, change: u64) -> Result<SharedList<Mark>, AllocError>
        requires some { self.now.base < change }
        requires within { change ≤ self.now.base + length self.now.logged }
        ensures { IfOk result (λ marks. marks.items
            ≡ marks_of (with_undone (change - self.now.base - 1) self.now.logged) ++ record { is_undone = false; plan = None } ∷ []) }
    {
        let place = change - self.base() - 1;
        let mut marks = self.marks.copy()?;
        marks.set(place as usize, Mark::undone())?;
        marks.push(Mark::of_undo())?;
        Ok(marks)
    }

    /// The index after the undo of the change with this number. It is a copy as well.
    fn index_after_undo(&self, change: u64) -> Result<Index, AllocError>
        requires some { self.now.base < change }
        ensures { IfOk result (λ index. IsIndexOf self.now.base (with_undone (change - self.now.base - 1) self.now.logged) index) }
    {
        let index = self.index();
        match self.plan(change) {
            Some(plan) => index.without(self.log.allocator(), &plan.touched, change),
            None => index.copy(),
        }
    }

    /// Appends the undo of a change under the next number, marks that change, and gives each cell that it changed what the cell had before.
    /// If memory runs out, nothing changes.
    pub(crate) fn append_undo(
        &mut self,
        number: u64,
        site: &SiteName,
        change: u64,
        state: &mut State,
    ) -> Result<(), AllocError>
        requires next { number ≡ self.old.base + length self.old.logged + 1 }
        requires some { self.old.base < change }
        requires within { change ≤ self.old.base + length self.old.logged }
        requires writable { AreWritable state.old Before (changes_of (plan_at self.old.logged (change - self.old.base - 1))) }
        ensures entries { OnOk result (self.new ≡ with_logged self.old (with_undo self.old.base site.now change self.old.logged)) }
        ensures state { OnOk result (state.new
            ≡ with_cells state.old (writes Before (changes_of (plan_at self.old.logged (change - self.old.base - 1))))) }
        ensures err { OnErr result ((self.new ≡ self.old) × (state.new ≡ state.old)) }
    {
        let marks = self.marks_after_undo(change)?;
        let index = self.index_after_undo(change)?;
        let addition = self.sites.prepare(site, number)?;
        let entry = Entry::Undo {
            site: site.copied(),
            change,
        };
        let changes = changes_in(&self.marks, self.log.base(), change);
        self.log.append(entry, state, changes, Side::Before)?;
        self.marks = marks;
        self.index = index;
        self.sites.add(addition);
        Ok(())
    }

    /// A copy, which shares the entries, the marks and both indexes.
    pub(crate) fn copy(&self) -> Result<Records, AllocError>
        ensures { IfOk result (λ copy. copy ≡ self.now) }
    {
        Ok(Records {
            log: self.log.copy()?,
            marks: self.marks.copy()?,
            index: self.index.copy()?,
            sites: self.sites.copy()?,
        })
    }
}
