//! The changes that turn the files that a site serves into those of a tree.
ghost use Rattle.std.specs.Prelude.{◌≡◌, IfOk, MatchOption, [], true};
ghost use Rattle.host_names.specs.Cells.{cell_cmp};
ghost use Rattle.host_names.specs.declared.cells.Cell.TheVariants as cell;
ghost use Rattle.site_state.specs.States.{is_live_of};
ghost use Rattle.site_state.specs.Values.{value_alike};
ghost use Rattle.site_state.specs.declared.values.Value.TheVariants as value;
ghost use Rattle.site_change.specs.Differences.{AreLiveChanges, AreSides, Comparable, IsStep, change_at};

use crate::plans::push_some;
use host_names::{Cell, CellRef, FilePath, SiteName};
use persistent_maps::Range;
use site_state::{Change, File, Value};
use std::alloc::{AllocError, Global};
use std::cmp::Ordering;

/// A cell with what is in it.
type Entry = (Cell, Value);

/// A path with the file that a tree has there.
type Listed = (FilePath, File);

/// A step along both lists: what it changes, and what is left of each.
#[derive(Drop)]
struct Step<'a> {
    change: Option<Change>,
    live: Range<'a, Cell, Value>,
    tree: &'a [Listed],
}

/// How the path of a live cell compares with that of a file in the tree.
fn compare_paths(site: &SiteName, entry: &Entry, listed: &Listed) -> Ordering
    requires { is_live_of site.now entry.now.0 ≡ true }
    ensures { result ≡ cell_cmp entry.now.0 (cell.Live site.now listed.now.0) }
{
    match &entry.0 {
        Cell::Live(_, path) => path.cmp(&listed.0),
        Cell::Kept(..) | Cell::Alias(..) | Cell::Draft(..) => unreachable!(),
    }
}

/// Whether the value of a cell is this file, by its digest.
fn is_file(held: &Value, file: &File) -> bool
    ensures { result ≡ value_alike held.now (value.Live file.now) }
{
    match held {
        Value::Live(own) => own == file,
        Value::Kept(_) | Value::Alias(_) | Value::Draft(_) => false,
    }
}

/// The file is removed.
fn removed(entry: &Entry) -> Result<Change, AllocError>
    ensures { IfOk result (λ change. change ≡ record { cell = entry.now.0; before = Some entry.now.1; after = None }) }
{
    Ok(Change {
        cell: entry.0.clone()?,
        before: Some(entry.1.clone()?),
        after: None,
    })
}

/// A file is added.
fn added(site: &SiteName, listed: &Listed) -> Result<Change, AllocError>
    ensures { IfOk result
        (λ change. change
        ≡ record { cell = cell.Live site.now listed.now.0; before = None; after = Some (value.Live listed.now.1) }) }
{
    Ok(Change {
        cell: CellRef::Live(site, &listed.0).to_cell()?,
        before: None,
        after: Some(Value::Live(listed.1.clone()?)),
    })
}

/// The file is replaced by another.
fn replaced(entry: &Entry, file: &File) -> Result<Change, AllocError>
    ensures { IfOk result
        (λ change. change
        ≡ record { cell = entry.now.0; before = Some entry.now.1; after = Some (value.Live file.now) }) }
{
    Ok(Change {
        cell: entry.0.clone()?,
        before: Some(entry.1.clone()?),
        after: Some(Value::Live(file.clone()?)),
    })
}

/// What changes if one file is there and the other is to be.
fn rewritten(entry: &Entry, file: &File) -> Result<Option<Change>, AllocError>
    requires { Comparable (Some entry.now.1) (Some (value.Live file.now)) }
    ensures { IfOk result (λ change. change ≡ change_at entry.now.0 (Some entry.now.1) (Some (value.Live file.now))) }
{
    if is_file(&entry.1, file) {
        return Ok(None);
    }
    Ok(Some(replaced(entry, file)?))
}

impl<'a> Step<'a> {
    /// The first step along two lists that are in the order of paths; none if both are at their ends.
    fn next(
        site: &SiteName,
        live: Range<'a, Cell, Value>,
        tree: &'a [Listed],
    ) -> Result<Option<Step<'a>>, AllocError>
        requires { AreSides site.now live tree.now }
        ensures { IfOk result (λ step. MatchOption step
            ((live.entry ≡ []) × (tree.now ≡ []))
            (λ s. IsStep site.now live.entry tree.now s.change s.live s.tree.now)) }
    {
        let (change, live, tree) = match (live.split_first(), tree.split_first()) {
            (None, None) => return Ok(None),
            (Some((entry, left)), None) => (Some(removed(entry)?), left, tree),
            (None, Some((listed, left))) => (Some(added(site, listed)?), live, left),
            (Some((entry, live_left)), Some((listed, tree_left))) => {
                match compare_paths(site, entry, listed) {
                    Ordering::Less => (Some(removed(entry)?), live_left, tree),
                    Ordering::Greater => (Some(added(site, listed)?), live, tree_left),
                    Ordering::Equal => (rewritten(entry, &listed.1)?, live_left, tree_left),
                }
            }
        };
        Ok(Some(Step { change, live, tree }))
    }
}

/// The changes of a site's live cells that turn the files that are there into those of a tree. Both lists are in the order of paths, and
/// each is gone through once.
pub fn live_changes<'a>(
    alloc: Global,
    site: &SiteName,
    live: Range<'a, Cell, Value>,
    tree: &'a [Listed],
) -> Result<Vec<Change>, AllocError>
    requires { AreSides site.now live tree.now }
    ensures { IfOk result (λ changes. AreLiveChanges site.now live.entry tree.now changes.items) }
{
    let mut changes = Vec::new(alloc);
    let mut live_left = live;
    let mut tree_left = tree;
    while let Some(step) = Step::next(site, live_left, tree_left)? {
        let Step { change, live, tree } = step;
        push_some(&mut changes, change)?;
        live_left = live;
        tree_left = tree;
    }
    Ok(changes)
}
