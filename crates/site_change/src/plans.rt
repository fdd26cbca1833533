//! What a command changes, cell by cell, and what it touches.
ghost use Rattle.std.specs.Prelude.{◌≡◌, ◌++◌, IfOk, OnOk, option_copied, option_to_list};
ghost use Rattle.std.specs.FinMap as map;
ghost use Rattle.site_state.specs.Values.{are_alike};
ghost use Rattle.site_change.specs.Differences.{Comparable, change_at};

use crate::touched::Touched;
use host_names::Cell;
use site_state::{Change, State, Value};
use std::alloc::AllocError;

/// What a command changes and touches, in the state and with the number for which it was decided. Nothing is carried out yet. Each cell
/// that it changes is among those that it touches.
#[derive(Drop)]
pub struct Plan {
    /// The cells that it changes, in their order, each with two different values.
    pub changes: Vec<Change>,
    /// The cells that it touches.
    pub touched: Touched,
}

impl Plan {
    /// A plan of these changes. It has no room for more, since a history keeps it.
    pub(crate) fn new(changes: Vec<Change>, touched: Touched) -> Plan
        ensures changes { result.changes.items ≡ changes.items }
        ensures touched { result.touched ≡ touched }
    {
        let mut changes = changes;
        changes.shrink_to_fit();
        Plan { changes, touched }
    }
}

/// Adds a change, if there is one, after the others.
pub fn push_some(changes: &mut Vec<Change>, change: Option<Change>) -> Result<(), AllocError>
    ensures { OnOk result (changes.new.items ≡ changes.old.items ++ option_to_list change) }
{
    match change {
        Some(change) => Ok(changes.push(change)?),
        None => Ok(()),
    }
}

/// Whether a cell already holds what will be there, by the digests of files.
fn is_same(before: Option<&Value>, after: &Option<Value>) -> bool
    ensures { result ≡ are_alike (option_copied before.entry) after.now }
{
    match (before, after) {
        (None, None) => true,
        (Some(before), Some(after)) => before == after,
        (None, Some(_)) | (Some(_), None) => false,
    }
}

fn copy_of(held: Option<&Value>) -> Result<Option<Value>, AllocError>
    ensures { IfOk result (λ copy. copy ≡ option_copied held.entry) }
{
    match held {
        Some(held) => Ok(Some(held.clone()?)),
        None => Ok(None),
    }
}

/// What changes if this is written into a cell.
pub fn change_in(
    state: &State,
    cell: Cell,
    after: Option<Value>,
) -> Result<Option<Change>, AllocError>
    requires { Comparable (map.get state.now cell) after }
    ensures { IfOk result (λ change. change ≡ change_at cell (map.get state.now cell) after) }
{
    let before = state.value(&cell);
    if is_same(before, &after) {
        return Ok(None);
    }
    let before = copy_of(before)?;
    Ok(Some(Change {
        cell,
        before,
        after,
    }))
}

/// Appends what changes if this is written into a cell, if anything does.
pub fn push_change(
    changes: &mut Vec<Change>,
    state: &State,
    cell: Cell,
    after: Option<Value>,
) -> Result<(), AllocError>
    requires { Comparable (map.get state.now cell) after }
    ensures { OnOk result (changes.new.items
        ≡ changes.old.items ++ option_to_list (change_at cell (map.get state.now cell) after)) }
{
    push_some(changes, change_in(state, cell, after)?)
}
