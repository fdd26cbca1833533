//! The history of some entries.
ghost use Rattle.std.specs.Prelude.{◌≡◌, ◌≢◌, ◌≤◌, [], IfErr, IfOk, OnOk};
ghost use Rattle.change_log.specs.Logs.{with_entry, with_only};
ghost use Rattle.change_undo.specs.Plans.{IsHistoryOver};
ghost use Rattle.host_opening.specs.Replays.{IsAppendFault, IsReplayed, StopsAt, StopsAtBase};
ghost use Rattle.host_opening.specs.declared.replays.ReplayFault.TheVariants as replay_fault;

use crate::places::entry_of;
use byte_view::Uploads;
use change_log::Log;
use change_undo::{BaseFault, History};
use site_change::{ChangeError, Entry};
use std::alloc::Global;
use thiserror::Error;

/// Why there is no history of some entries.
#[derive(Clone, Copy, Debug, PartialEq, Eq, Error)]
pub enum ReplayFault {
    /// The entry of this number is not accepted after those before it; or the base of the log, which has this number, may not be one.
    #[error("entry {0} is not legal")]
    NotLegal(u64),
    #[error("out of memory")]
    OutOfMemory,
}

/// The fault of a replay in which the entry with this number wasn't appended.
fn fault_at(number: u64, error: ChangeError) -> ReplayFault
    ensures { result ≡ Rattle.host_opening.specs.Replays.fault_at number error }
{
    match error {
        ChangeError::Refused(_) => ReplayFault::NotLegal(number),
        ChangeError::OutOfMemory => ReplayFault::OutOfMemory,
    }
}

/// Appends a copy of an entry to a history, which is one over these uploads.
fn append<U: Uploads>(history: &mut History, entry: &Entry, uploads: &U) -> Result<(), ChangeError>
    requires over { IsHistoryOver (U.contents uploads.now) history.old }
    ensures entries { OnOk result (history.new.entries ≡ with_entry history.old.entries entry.now) }
    ensures over { OnOk result (IsHistoryOver (U.contents uploads.now) history.new) }
    ensures limit { history.new.limit ≡ history.old.limit }
    ensures fault { IfErr result (λ error. IsAppendFault (U.contents uploads.now) history.old entry.now error) }
{
    match entry {
        Entry::Change(command) => {
            let copy = command.clone()?;
            match history.commit(uploads, copy) {
                Ok(_) => Ok(()),
                Err(error) => Err(error),
            }
        }
        Entry::Undo { site, change } => {
            history.undo(site, *change)?;
            Ok(())
        }
    }
}

/// A history of the base of this log; one without entries, if the log has all of them.
fn begin<U: Uploads>(
    alloc: Global,
    log: &Log,
    limit: u64,
    uploads: &U,
) -> Result<History, ReplayFault>
    requires some { 1 ≤ limit }
    requires bounded { limit ≤ 1000000 }
    ensures begun { IfOk result (λ history. IsReplayed (U.contents uploads.now) limit (with_only log.now []) history) }
    ensures fault { IfErr result (λ fault. StopsAtBase (U.contents uploads.now) limit log.now fault) }
{
    if log.base() == 0 {
        return Ok(History::new(alloc, limit));
    }
    if limit < log.base() {
        return Err(ReplayFault::NotLegal(log.base()));
    }
    match History::over(limit, log, uploads) {
        Ok(history) => Ok(history),
        Err(BaseFault::NotLegal(base)) => Err(ReplayFault::NotLegal(base)),
        Err(BaseFault::OutOfMemory) => Err(ReplayFault::OutOfMemory),
    }
}

/// The history of this log over these uploads, whose entries have numbers up to `limit`: each is accepted in turn. Else the number of the
/// first one that isn't, because it is refused or because the history is full before it; or that of the base, if that may not be one.
pub fn replay<U: Uploads>(
    alloc: Global,
    log: &Log,
    limit: u64,
    uploads: &U,
) -> Result<History, ReplayFault>
    requires some { 1 ≤ limit }
    requires bounded { limit ≤ 1000000 }
    ensures replayed { IfOk result (λ history. IsReplayed (U.contents uploads.now) limit log.now history) }
    ensures fault { IfErr result (λ fault. StopsAt (U.contents uploads.now) limit log.now fault) }
{
    let mut history = begin(alloc, log, limit, uploads)?;
    for place in log.base()..log.len() {
        let number = history.len() + 1;
        if let Err(error) = append(&mut history, entry_of(log, place + 1), uploads) {
            return Err(fault_at(number, error));
        }
    }
    Ok(history)
}
