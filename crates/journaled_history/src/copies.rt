//! Histories with one entry more, beside the old one, and the journal that gets that entry.
ghost use Rattle.std.specs.Prelude.{◌≡◌, ◌⊎◌, None, Err, ℕ, IfOk, IfErr, OnOk, false};
ghost use Rattle.byte_view.specs.Contents.{Contents};
ghost use Rattle.site_change.specs.Refusals.{IsRefusedBy};
ghost use Rattle.host_names.specs.declared.names.SiteName.{SiteName as Site};
ghost use Rattle.site_change.specs.declared.commands.Command.{Command as Change};
ghost use Rattle.entry_texts.specs.Spells.{IsInRange};
ghost use Rattle.change_undo.specs.Histories;
ghost use Rattle.change_undo.specs.Histories.{IsUndoRefusedBy};
ghost use Rattle.change_log.specs.Logs.{with_entry};
ghost use Rattle.change_undo.specs.Plans.{IsHistoryOver};
ghost use Rattle.site_change.specs.declared.entries.Entry.{Entry as Line};
ghost use Rattle.site_change.specs.declared.entries.Entry.TheVariants as entry;
ghost use Rattle.journaled_history.specs.declared.entry_faults.EntryFault.TheVariants.{Device, OutOfMemory};
ghost use Rattle.journaled_history.specs.Puts.{IsPut, IsPutInVain};

use crate::entry_faults::EntryFault;
use byte_view::Uploads;
use change_journal::{Journal, prepare};
use change_undo::History;
use change_undo::laws::deploys_were_opened_by_their_entries;
use host_disk::Disk;
use host_names::SiteName;
use site_change::{ChangeError, ChangeRefusal, Command, decide};
use std::alloc::Global;

/// The answer to a command for which there was no memory to copy the history: the first reason against the command, or that memory ran out
/// if there is none.
fn without_copy<U: Uploads>(
    alloc: Global,
    history: &History,
    uploads: &U,
    command: &Command,
) -> ChangeError
    requires { IsHistoryOver (U.contents uploads.now) history.now }
    ensures { IsRefusedBy {A = ℕ}
        (Histories.commit_refusal (U.contents uploads.now) history.now.limit history.now.entries history.now.state
        command.now) (Err result) }
{
    if history.is_full() {
        return ChangeError::Refused(ChangeRefusal::HistoryFull);
    }
    history.files_were_uploaded(uploads);
    match decide(alloc, history.state(), uploads, history.len() + 1, command) {
        Ok(_) => ChangeError::OutOfMemory,
        Err(error) => error,
    }
}

/// The answer to an undo for which there was no memory to copy the history: the first reason against the undo, or that memory ran out if
/// there is none.
fn why_not_undone(history: &History, site: &SiteName, change: u64) -> ChangeError
    ensures { (uploads : Contents) → IsHistoryOver uploads history.now
        → IsUndoRefusedBy {A = ℕ}
        (Histories.undo_refusal uploads history.now.limit history.now.entries site.now change) (Err result) }
{
    match history.undo_refusal(site, change) {
        Ok(Some(reason)) => ChangeError::Refused(reason),
        Ok(None) => ChangeError::OutOfMemory,
        Err(_) => ChangeError::OutOfMemory,
    }
}

/// An accepted command or undo has numbers from 1 to 1,000,000, and lists at most 10,000 paths. It does nothing.
fn accepted_is_in_range(history: &History)
    ensures commands { (uploads : Contents) (command : Change)
        → Histories.commit_refusal uploads history.now.limit history.now.entries history.now.state command ≡ None
        → IsInRange (entry.Change command) }
    ensures undos { (uploads : Contents) (site : Site) (change : ℕ)
        → Histories.undo_refusal uploads history.now.limit history.now.entries site change ≡ None
        → IsInRange (entry.Undo site change) }
{
    let _ = history.len();
    let _ = history.state();
    deploys_were_opened_by_their_entries();
}

/// A copy of the history with a command as its next entry.
pub fn with_change<U: Uploads>(
    alloc: Global,
    history: &History,
    uploads: &U,
    command: Command,
) -> Result<History, ChangeError>
    requires { IsHistoryOver (U.contents uploads.now) history.now }
    ensures refused { IsRefusedBy
        (Histories.commit_refusal (U.contents uploads.now) history.now.limit history.now.entries history.now.state
        command) result }
    ensures entries { IfOk result (λ next. next.entries ≡ with_entry history.now.entries (entry.Change command)) }
    ensures in_range { OnOk result (IsInRange (entry.Change command)) }
    ensures over { IfOk result (λ next. IsHistoryOver (U.contents uploads.now) next) }
    ensures limit { IfOk result (λ next. next.limit ≡ history.now.limit) }
{
    accepted_is_in_range(history);
    let Ok(mut next) = history.copy() else {
        return Err(without_copy(alloc, history, uploads, &command));
    };
    next.commit(uploads, command)?;
    Ok(next)
}

/// A copy of the history with the undo of a change of this site as its next entry.
pub fn with_undo(history: &History, site: &SiteName, change: u64) -> Result<History, ChangeError>
    ensures refused { (uploads : Contents) → IsHistoryOver uploads history.now
        → IsUndoRefusedBy (Histories.undo_refusal uploads history.now.limit history.now.entries site.now change)
        result }
    ensures entries { IfOk result
        (λ next. next.entries ≡ with_entry history.now.entries (entry.Undo site.now change)) }
    ensures in_range { OnOk result ((uploads : Contents) → IsHistoryOver uploads history.now
        → IsInRange (entry.Undo site.now change)) }
    ensures over { IfOk result (λ next. (uploads : Contents) → IsHistoryOver uploads history.now
        → IsHistoryOver uploads next) }
    ensures limit { IfOk result (λ next. next.limit ≡ history.now.limit) }
{
    accepted_is_in_range(history);
    let Ok(mut next) = history.copy() else {
        return Err(why_not_undone(history, site, change));
    };
    next.undo(site, change)?;
    Ok(next)
}

/// Puts the last entry of a history into the journal, which has the entries before it. Its error is a type of its own, since each owner of
/// a history tells it in other words.
pub fn put_last<D: Disk>(
    alloc: Global,
    journal: &mut Journal<D>,
    next: &History,
) -> Result<(), EntryFault>
    requires follows { (last : Line) × IsInRange last × (next.now.entries ≡ with_entry journal.old.entries last) }
    requires whole { journal.old.broken ≡ false }
    ensures put { OnOk result ((last : Line) → next.now.entries ≡ with_entry journal.old.entries last
        → IsPut D.Disk journal.old last journal.new) }
    ensures fault { IfErr result (λ fault. ((fault ≡ OutOfMemory) × (journal.new ≡ journal.old))
        ⊎ ((fault ≡ Device) × ((last : Line) → next.now.entries ≡ with_entry journal.old.entries last
        → IsPutInVain D.Disk journal.old last journal.new))) }
{
    let entry = next.entry(next.len()).unwrap();
    let prepared = prepare(alloc, entry)?;
    match journal.put(prepared) {
        Ok(()) => Ok(()),
        Err(_) => Err(EntryFault::Device),
    }
}
