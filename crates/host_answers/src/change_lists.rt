//! The list of the changes of a site.
ghost use Rattle.std.specs.Prelude.{◌≡◌, IfOk, reverse, take};
ghost use Rattle.host_api.specs.declared.texts.Told.TheVariants.{Changes};
ghost use Rattle.host_replies.specs.Bodies.{answer_of};
ghost use Rattle.host_replies.specs.Replies.{Tells};
ghost use Rattle.host_answers.specs.ChangeLists as spec;

use crate::houses::House;
use host_api::{ChangeLine, Items, Told, word_of};
use host_names::SiteName;
use host_replies::Reply;
use site_change::Entry;
use std::alloc::{AllocError, Global};

/// How many entries of a site are shown.
const MOST_LINES: usize = 1_000;

/// The line of the entry with this number, if it is the site's.
fn line<H: House>(house: &H, site: &SiteName, number: u64) -> Option<ChangeLine>
    ensures { result ≡ spec.line_at (H.calls.seen house.now).entries site.now number }
{
    let (entry, is_undone) = house.marked_entry(number)?;
    if entry.site() != site {
        return None;
    }
    Some(match entry {
        Entry::Change(command) => ChangeLine::Change {
            entry: number,
            kind: word_of(command),
            is_live: !is_undone,
        },
        Entry::Undo { change, .. } => ChangeLine::Undo {
            entry: number,
            of: *change,
        },
    })
}

/// The lines of the last entries of a site, the newest first.
fn newest_lines<H: House>(
    alloc: Global,
    house: &H,
    site: &SiteName,
) -> Result<Vec<ChangeLine>, AllocError>
    ensures { IfOk result (λ lines.
        lines.items ≡ take 1000 (reverse (spec.lines_of (H.calls.seen house.now).entries site.now))) }
{
    let mut lines = Vec::new(alloc);
    for number in house.entries_of(site) {
        if lines.len() == MOST_LINES {
            return Ok(lines);
        }
        if let Some(line) = line(house, site, number) {
            lines.push(line)?;
        }
    }
    Ok(lines)
}

/// The same lines, the oldest first.
fn list_changes<H: House>(
    alloc: Global,
    house: &H,
    site: &SiteName,
) -> Result<Items<ChangeLine>, AllocError>
    ensures { IfOk result (λ lines. lines ≡ spec.shown_lines (H.calls.seen house.now).entries site.now) }
{
    let mut lines = newest_lines(alloc, house, site)?;
    lines.reverse();
    Ok(Items::from(lines))
}

/// The reply that lists the changes of a site.
pub(crate) fn show_changes<H: House>(alloc: Global, house: &H, site: &SiteName) -> Reply
    ensures { Tells (Changes (spec.shown_lines (H.calls.seen house.now).entries site.now)) (answer_of result) }
{
    match list_changes(alloc, house, site) {
        Ok(lines) => Reply::of_told(alloc, &Told::Changes(lines)),
        Err(_) => Reply::out_of_memory(),
    }
}
