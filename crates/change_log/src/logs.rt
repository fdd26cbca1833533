//! The entries of a history, without what is kept next to them.
ghost use Rattle.std.specs.Prelude.{◌≡◌, ◌≤◌, ◌^◌, [], length, nat_le, IfOk, OnOk, OnErr, option_copied};
ghost use Rattle.std.specs.FinMap as map;
ghost use Rattle.site_state.specs.Changes.{writes};
ghost use Rattle.site_state.specs.States.{with_cells};
ghost use Rattle.change_log.specs.Logs.{empty_log, entry_at, last_number, with_entry, with_only};
ghost use Rattle.change_log.specs.Appending.{AreWritable};

use crate::names::Names;
use persistent_lists::SharedList;
use shared_blocks::Shared;
use site_change::Entry;
use site_state::{Change, Side, State};
use std::alloc::{AllocError, Global};
use std::marker::Model;

/// How many entries a log may have at most: so many that there never is memory for one more.
const MOST_ENTRIES: usize = 1 << 48;

/// The entries of a history, each with its number. It may begin after its first ones: then it has what the changes up to a number left, its
/// base, and the entries from the next number on. Copies share all of it.
#[derive(Drop)]
pub struct Log {
    alloc: Global,
    base: u64,
    names: Names,
    entries: SharedList<Shared<Entry>>,
}

impl Model for Log {
    ghost use Rattle.std.specs.Prelude.{◌≡◌, ◌≤◌, ◌^◌, length};
    ghost use Rattle.std.specs.FinMap as map;
    ghost use Rattle.std.specs.Coded.{coded_list};
    ghost use Rattle.change_log.specs.Logs as logs;
    ghost use Rattle.change_log.specs.contracts.names.Names as kept;
    ghost use Rattle.site_change.specs.contracts.entries.Entry as entry;

    ghost Value = { logs.Log };

    ghost coded = { logs.coded_log kept.the_row.coded (coded_list entry.the_row.coded) };

    ghost view = { λ l. record { base = l.base; names = l.names; entries = l.entries.items } };

    ghost invariant = { λ l.
        (l.base ≤ 1000000) × (length l.entries.items ≤ 2 ^ 48) × (l.base ≡ 0 → l.names ≡ map.empty) };
}

impl Log {
    /// A log without entries, which takes no memory.
    pub fn new(alloc: Global) -> Log
        ensures { result ≡ empty_log }
    {
        Log {
            alloc,
            base: 0,
            names: Names::new(alloc),
            entries: SharedList::new(alloc),
        }
    }

    /// A log that begins after the entry with this number, of which these names tell what the changes up to it left. It has no entries.
    pub fn over(alloc: Global, base: u64, names: Names) -> Log
        requires some { 1 ≤ base }
        requires bounded { base ≤ 1000000 }
        ensures { result ≡ record { base = base; names = names; entries = [] } }
    {
        Log {
            alloc,
            base,
            names,
            entries: SharedList::new(alloc),
        }
    }

    /// Where its memory comes from.
    pub fn allocator(&self) -> Global {
        self.alloc
    }

    /// The number of the entry after which it begins; 0 if it has all.
    pub fn base(&self) -> u64
        ensures base { result ≡ self.now.base }
        ensures bounded { result ≤ 1000000 }
        ensures none { result ≡ 0 → self.now.names ≡ map.empty }
    {
        self.base
    }

    /// What the changes up to the base left. Takes no memory.
    pub fn base_state(&self) -> &Names
        ensures { result.now ≡ self.now.names }
    {
        &self.names
    }

    /// The number of the last entry; that of the base where there is none.
    pub fn len(&self) -> u64
        ensures { result ≡ last_number self.now }
    {
        self.base + self.entries.len() as u64
    }

    /// The entry with this number; none up to the base.
    pub fn entry(&self, number: u64) -> Option<&Entry>
        ensures { option_copied result ≡ entry_at self.now number }
    {
        if number <= self.base {
            return None;
        }
        match self.entries.get((number - self.base - 1) as usize) {
            Some(entry) => Some(entry.get()),
            None => None,
        }
    }

    /// Whether it has as many entries as it may.
    fn is_full(&self) -> bool
        ensures { result ≡ nat_le (2 ^ 48) (length self.now.entries) }
    {
        MOST_ENTRIES <= self.entries.len()
    }

    /// Appends an entry. If memory runs out, nothing changes.
    pub fn push(&mut self, entry: Entry) -> Result<(), AllocError>
        ensures ok { OnOk result (self.new ≡ with_entry self.old entry) }
        ensures err { OnErr result (self.new ≡ self.old) }
    {
        if self.is_full() {
            return Err(AllocError);
        }
        let entry = Shared::new(self.alloc, entry)?;
        self.entries.push(entry)
    }

    /// Appends an entry, and writes into a state what the changes have on a side. If memory runs out, nothing changes: all that takes
    /// memory comes before the state is written, and nothing after that can fail.
    pub fn append(
        &mut self,
        entry: Entry,
        state: &mut State,
        changes: &[Change],
        side: Side,
    ) -> Result<(), AllocError>
        requires writable { AreWritable state.old side changes.now }
        ensures entries { OnOk result (self.new ≡ with_entry self.old entry) }
        ensures state { OnOk result (state.new ≡ with_cells state.old (writes side changes.now)) }
        ensures err { OnErr result ((self.new ≡ self.old) × (state.new ≡ state.old)) }
    {
        if self.is_full() {
            return Err(AllocError);
        }
        let entry = Shared::new(self.alloc, entry)?;
        self.entries.reserve()?;
        state.set_cells(changes, side)?;
        self.entries.push_reserved(entry);
        Ok(())
    }

    /// A log of the same base, without entries.
    pub fn without_entries(&self) -> Result<Log, AllocError>
        ensures { IfOk result (λ log. log ≡ with_only self.now []) }
    {
        Ok(Log {
            alloc: self.alloc,
            base: self.base,
            names: self.names.copy()?,
            entries: SharedList::new(self.alloc),
        })
    }

    /// A copy, which shares the base and the entries. Neither sees what is added to the other.
    pub fn copy(&self) -> Result<Log, AllocError>
        ensures { IfOk result (λ copy. copy ≡ self.now) }
    {
        Ok(Log {
            alloc: self.alloc,
            base: self.base,
            names: self.names.copy()?,
            entries: self.entries.copy()?,
        })
    }
}
