//! Which deploys are published.
ghost use Rattle.std.specs.Prelude.{◌≡◌, ◌||◌, IfOk, OnOk};
ghost use Rattle.std.specs.BTreeSet.{contains};
ghost use Rattle.host_names.specs.Cells.{cell_cmp};
ghost use Rattle.host_names.specs.declared.cells.Cell.{Cell as Place};
ghost use Rattle.host_opening.specs.Needs.{HasPublished, publishes};

use crate::places::entry_of;
use change_log::Log;
use host_names::Cell;
use site_change::{Command, Entry};
use std::alloc::{AllocError, Global};
use std::collections::BTreeSet;

/// The cell of the deploy that an entry publishes or restores.
fn published_by(entry: &Entry) -> Option<Cell>
    ensures { result ≡ Rattle.host_opening.specs.Needs.published_by entry.now }
{
    match entry {
        Entry::Change(Command::Publish { site, number })
        | Entry::Change(Command::Restore { site, number }) => {
            Some(Cell::Kept(site.copied(), *number))
        }
        _ => None,
    }
}

fn add_published(published: &mut BTreeSet<Cell>, entry: &Entry) -> Result<(), AllocError>
    ensures { OnOk result ((c : Place) → contains cell_cmp published.new c ≡ (publishes c entry.now || contains cell_cmp published.old c)) }
{
    match published_by(entry) {
        Some(cell) => {
            published.insert(cell)?;
            Ok(())
        }
        None => Ok(()),
    }
}

/// The cells of the deploys that an entry publishes or restores, undone or not.
pub(crate) fn published(alloc: Global, log: &Log) -> Result<BTreeSet<Cell>, AllocError>
    ensures { IfOk result (λ published. HasPublished log.now published) }
{
    let mut published = BTreeSet::new(alloc);
    for place in log.base()..log.len() {
        add_published(&mut published, entry_of(log, place + 1))?;
    }
    Ok(published)
}
