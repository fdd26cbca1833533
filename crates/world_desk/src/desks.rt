//! Desks.
ghost use Rattle.std.specs.Prelude.{◌≡◌, ◌<◌, ◌≤◌, IfOk, IfSome, OnErr, OnOk, Some, length, slice_get};
ghost use Rattle.site_change.specs.declared.entries.Entry.TheVariants as entry;
ghost use Rattle.change_undo.specs.Histories.{run};
ghost use Rattle.world_desk.specs.Desks.{asked, happens, is_published, look_count, start, with_upload};
ghost use Rattle.world_desk.specs.Desks as step;

use crate::entries::{ask_commit, ask_undo};
use crate::visitors::{Sight, Visitor, show_to, visitors_of};
use blob_store::BlobIndex;
use byte_view::{BlobInfo, MAX_SIZE};
use change_log::Log;
use change_undo::History;
use change_undo::laws::histories_outlast_uploads;
use host_names::SiteName;
use site_change::Command;
use site_state::State;
use std::alloc::{AllocError, Global};
use std::marker::Model;
use std::sync::Arc;

/// A desk: its history, what is shown of it, what was uploaded, and what visitors have seen. Contracts see the logs and the contents of the
/// uploads. Both histories are legal over these, and their states are what their logs give.
#[derive(Drop)]
pub struct Desk {
    alloc: Global,
    history: History,
    shown: History,
    uploads: BlobIndex,
    visitors: Vec<Visitor>,
}

impl Model for Desk {
    ghost use Rattle.std.specs.Coded.{coded_list, coded_ℕ};
    ghost use Rattle.std.specs.FinMap as map;
    ghost use Rattle.host_names.specs.Digests.{coded_digest};
    ghost use Rattle.change_log.specs.contracts.logs.Log as logs;
    ghost use Rattle.change_undo.specs.Plans.{IsHistoryOver};
    ghost use Rattle.world_desk.specs.Desks.{DeskState, coded_desk};

    ghost Value = { DeskState };

    ghost coded = { coded_desk (map.code coded_digest (coded_list coded_ℕ)) logs.the_row.coded };

    ghost view = { λ d. record {
      limit = d.history.limit;
      uploads = d.uploads;
      log = d.history.entries;
      shown = d.shown.entries;
      visitors = d.visitors.items;
    } };

    ghost invariant = { λ d. IsHistoryOver d.uploads d.history × IsHistoryOver d.uploads d.shown };
}

/// Adds a file to the uploads. If memory runs out, nothing changes.
fn keep(alloc: Global, uploads: &mut BlobIndex, bytes: &[u8]) -> Result<(), AllocError>
    ensures ok { OnOk result (uploads.new ≡ with_upload uploads.old bytes.now) }
    ensures err { OnErr result (uploads.new ≡ uploads.old) }
{
    if bytes.len() > MAX_SIZE {
        return Ok(());
    }
    let info = Arc::new(alloc, BlobInfo::of(alloc, bytes)?)?;
    uploads.keep(info)
}

impl Desk {
    /// A desk at which nothing has happened, for this many visitors. Its log takes at most `limit` entries.
    pub fn new(alloc: Global, limit: u64, visitors: usize) -> Result<Desk, AllocError>
        requires some { 1 ≤ limit }
        requires bounded { limit ≤ 1000000 }
        ensures { IfOk result (λ desk. desk ≡ start limit visitors) }
    {
        Ok(Desk {
            alloc,
            history: History::new(alloc, limit),
            shown: History::new(alloc, limit),
            uploads: BlobIndex::new(alloc),
            visitors: visitors_of(alloc, visitors)?,
        })
    }

    /// The logs of the looks of a visitor, in order. Takes no memory.
    pub fn looks(&self, visitor: usize) -> &[Log]
        requires { visitor < length self.now.visitors }
        ensures { IfSome (slice_get self.now.visitors visitor) (λ v. result.now ≡ v.looks) }
    {
        let visitor = &self.visitors[visitor];
        visitor.looks.as_slice()
    }

    /// How many visitors there are. They are numbered from 0 on.
    pub fn visitors(&self) -> usize
        ensures { result ≡ length self.now.visitors }
    {
        self.visitors.len()
    }

    /// How many looks a visitor has had; 0 if there is none with this number.
    pub fn look_count(&self, visitor: usize) -> usize
        ensures { result ≡ look_count self.now visitor }
    {
        match self.visitors.get(visitor) {
            Some(visitor) => visitor.looks.len(),
            None => 0,
        }
    }

    /// The state that the shown log gives.
    pub fn shown_state(&self) -> &State
        ensures { run self.now.uploads self.now.shown ≡ Some result.now }
    {
        self.shown.state()
    }

    /// Whether all that the desk has is shown.
    fn is_published(&self) -> bool
        ensures { result ≡ is_published self.now }
    {
        self.shown.len() == self.history.len()
    }

    /// Commits a command, if it isn't refused and no entry is unpublished. If memory runs out, nothing changes.
    pub fn commit(&mut self, command: &Command) -> Result<(), AllocError>
        ensures ok { OnOk result (self.new ≡ happens self.old (step.Ask (entry.Change command.now))) }
        ensures err { OnErr result (self.new ≡ self.old) }
    {
        if self.is_published() {
            ask_commit(&mut self.history, &self.uploads, command)?;
        }
        Ok(())
    }

    /// Undoes a change, if that isn't refused and no entry is unpublished. If memory runs out, nothing changes.
    pub fn undo(&mut self, site: &SiteName, change: u64) -> Result<(), AllocError>
        ensures ok { OnOk result (self.new ≡ happens self.old (step.Ask (entry.Undo site.now change))) }
        ensures err { OnErr result (self.new ≡ self.old) }
    {
        if self.is_published() {
            ask_undo(&mut self.history, &self.uploads, site, change)?;
        }
        Ok(())
    }

    /// Shows what the desk has. If memory runs out, nothing changes.
    pub fn publish(&mut self) -> Result<(), AllocError>
        ensures ok { OnOk result (self.new ≡ happens self.old step.Publish) }
        ensures err { OnErr result (self.new ≡ self.old) }
    {
        self.shown = self.history.copy()?;
        Ok(())
    }

    /// A visitor looks, if there is one with this number. If memory runs out, nothing changes.
    pub fn enter(&mut self, visitor: usize) -> Result<(), AllocError>
        ensures ok { OnOk result (self.new ≡ happens self.old (step.Enter visitor)) }
        ensures err { OnErr result (self.new ≡ self.old) }
    {
        show_to(&mut self.visitors, visitor, Sight::Look, self.shown.log())
    }

    /// A visitor is told of what is shown, if there is one with this number. If memory runs out, nothing changes.
    pub fn learn(&mut self, visitor: usize) -> Result<(), AllocError>
        ensures ok { OnOk result (self.new ≡ happens self.old (step.Learn visitor)) }
        ensures err { OnErr result (self.new ≡ self.old) }
    {
        show_to(
            &mut self.visitors,
            visitor,
            Sight::Telling,
            self.shown.log(),
        )
    }

    /// Uploads a file, unless it has more than 16,777,216 bytes. If memory runs out, nothing changes.
    pub fn upload(&mut self, bytes: &[u8]) -> Result<(), AllocError>
        ensures ok { OnOk result (self.new ≡ happens self.old (step.Upload bytes.now)) }
        ensures err { OnErr result (self.new ≡ self.old) }
    {
        keep(self.alloc, &mut self.uploads, bytes)?;
        histories_outlast_uploads();
        Ok(())
    }
}
