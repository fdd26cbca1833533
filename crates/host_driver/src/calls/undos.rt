//! Undos of early changes.
ghost use Rattle.std.specs.Prelude.{◌≡◌};
ghost use Rattle.change_undo.specs.Plans.{IsHistoryOver};

use crate::calls::copies::{empty, expected, opening};
use crate::calls::files::{Contents, listing};
use crate::calls::stores::empty_store;
use anyhow::Result;
use blob_store::{Blobs, MemShelf};
use change_undo::History;
use host_names::{AliasName, SiteName};
use site_change::Command;
use std::alloc::Global;
use std::time::{Duration, Instant};

/// How many early changes are undone.
pub(crate) const EARLY: u64 = 200;

/// The number of the deploy that is kept.
const KEPT: u64 = 1;

/// How many entries come before the early changes: the opening of that deploy, and its publishing.
const FIRST: u64 = 2;

/// Commits a command.
fn commit(history: &mut History, uploads: &Blobs<MemShelf>, command: Command) -> Result<()>
    requires { IsHistoryOver uploads.now.known history.old }
    ensures { IsHistoryOver uploads.now.known history.new }
{
    let _ = expected(history.commit(uploads, command))?;
    Ok(())
}

/// Opens a deploy without files, and publishes it.
fn keep(alloc: Global, history: &mut History, uploads: &Blobs<MemShelf>) -> Result<()>
    requires { IsHistoryOver uploads.now.known history.old }
    ensures { IsHistoryOver uploads.now.known history.new }
{
    let opening = Command::Open {
        site: SiteName::new("one")?,
        files: listing(alloc, false, 0..0, Contents::Own)?,
        auto: false,
    };
    commit(history, uploads, opening)?;
    let site = SiteName::new("one")?;
    let number = KEPT;
    commit(history, uploads, Command::Publish { site, number })
}

/// The change of a turn: an opening, or a move of an alias to the kept deploy. Each early move is of an alias of its own, and
/// all later ones are of one other alias.
fn change_of(alloc: Global, turn: u64) -> Result<Command> {
    if turn % 2 == 0 {
        return opening(alloc);
    }
    let alias = turn.min(EARLY);
    let text = format!(in alloc; "alias-{alias}")?;
    let site = SiteName::new("one")?;
    let name = AliasName::new(text.as_str())?;
    let number = KEPT;
    Ok(Command::MoveAlias { site, name, number })
}

/// Adds the early changes, and so many later ones.
fn commit_all(
    alloc: Global,
    history: &mut History,
    uploads: &Blobs<MemShelf>,
    later: u64,
) -> Result<()>
    requires { IsHistoryOver uploads.now.known history.old }
{
    for turn in 0..EARLY.saturating_add(later) {
        commit(history, uploads, change_of(alloc, turn)?)?;
    }
    Ok(())
}

/// Undoes the early changes, the last one first, so that each has only the later ones after it.
fn undo_early(history: &mut History) -> Result<()> {
    let site = SiteName::new("one")?;
    for turn in 0..EARLY {
        let _ = expected(history.undo(&site, FIRST + EARLY - turn))?;
    }
    Ok(())
}

/// The time of these undos.
fn time_early(rt: &HostRuntime, history: &mut History) -> Result<Duration> {
    let begun = Instant::now(rt)?;
    undo_early(history)?;
    Ok(begun.elapsed(rt)?)
}

/// The time of the undos of the early changes, each of which has so many live changes of its site after it.
pub(crate) fn time_undos(rt: &HostRuntime, later: u64) -> Result<Duration> {
    let uploads = empty_store(rt.alloc());
    let mut history = empty(rt.alloc(), &uploads);
    keep(rt.alloc(), &mut history, &uploads)?;
    commit_all(rt.alloc(), &mut history, &uploads, later)?;
    time_early(rt, &mut history)
}
