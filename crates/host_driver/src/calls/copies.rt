//! Copies of a history.
ghost use Rattle.std.specs.Prelude.{◌≡◌, [], IfOk};
ghost use Rattle.std.specs.FinMap as map;
ghost use Rattle.change_undo.specs.Histories.{Past};
ghost use Rattle.change_undo.specs.Plans.{IsHistoryOver};

use crate::calls::files::{Contents, listing};
use crate::calls::stores::empty_store;
use anyhow::{Result, anyhow};
use blob_store::{Blobs, MemShelf};
use change_undo::{GREATEST_LIMIT, History};
use host_names::SiteName;
use site_change::{ChangeError, Command};
use std::alloc::Global;
use std::time::{Duration, Instant};

/// The number of the deploy that is cancelled in each copy.
const CANCELLED: u64 = 1;

/// What a commit answered, which no measurement expects to be refused.
pub(crate) fn expected(committed: Result<u64, ChangeError>) -> Result<u64> {
    committed.map_err(|_| anyhow!("the history refused it"))
}

/// Opens a deploy of one file that isn't uploaded.
pub(crate) fn opening(alloc: Global) -> Result<Command> {
    Ok(Command::Open {
        site: SiteName::new("one")?,
        files: listing(alloc, false, 0..1, Contents::Own)?,
        auto: false,
    })
}

/// A history without entries, which is what it is over these uploads.
pub(crate) fn empty(alloc: Global, uploads: &Blobs<MemShelf>) -> History
    ensures { IsHistoryOver uploads.now.known result }
{
    let _ = uploads;
    History::new(alloc, GREATEST_LIMIT)
}

/// A history of so many openings, each of which adds a cell.
fn opened(alloc: Global, uploads: &Blobs<MemShelf>, count: u64) -> Result<History>
    ensures { IfOk result (λ history. IsHistoryOver uploads.now.known history) }
{
    let mut history = empty(alloc, uploads);
    for _ in 0..count {
        let _ = expected(history.commit(uploads, opening(alloc)?))?;
    }
    Ok(history)
}

/// Cancels a deploy in a copy.
fn cancel_in_copy(history: &History, uploads: &Blobs<MemShelf>) -> Result<()>
    requires { IsHistoryOver uploads.now.known history.now }
{
    let mut copy = history.copy()?;
    let site = SiteName::new("one")?;
    let number = CANCELLED;
    let _ = expected(copy.commit(uploads, Command::Cancel { site, number }))?;
    Ok(())
}

/// The time of so many copies of a history, with one commit on each.
fn time_cancels(
    rt: &HostRuntime,
    history: &History,
    uploads: &Blobs<MemShelf>,
    times: u64,
) -> Result<Duration>
    requires { IsHistoryOver uploads.now.known history.now }
{
    let begun = Instant::now(rt)?;
    for _ in 0..times {
        cancel_in_copy(history, uploads)?;
    }
    Ok(begun.elapsed(rt)?)
}

/// The same of a history of so many entries and cells.
pub(crate) fn time_copies(rt: &HostRuntime, entries: u64, times: u64) -> Result<Duration> {
    let uploads = empty_store(rt.alloc());
    let history = opened(rt.alloc(), &uploads, entries)?;
    time_cancels(rt, &history, &uploads, times)
}
