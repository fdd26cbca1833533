//! What changes in cells, and which side of that is written.
ghost use Rattle.std.specs.Prelude.{◌≡◌, IfOk, IsTrue};
ghost use Rattle.std.specs.List.Sorted.{IsStrictlySortedBy};
ghost use Rattle.std.specs.Map.{keys_of};
ghost use Rattle.host_names.specs.Cells.{cell_cmp};
ghost use Rattle.persistent_maps.specs.Edits.{edited_by};
ghost use Rattle.site_state.specs.Changes.{on_side, writes};

use crate::values::Value;
use host_names::Cell;
use persistent_maps::SharedMap;
use std::alloc::{AllocError, Global};

/// What changes in one cell. An empty cell has the value `None`.
#[derive(Drop)]
pub struct Change {
    /// The cell.
    pub cell: Cell,
    /// What is there before.
    pub before: Option<Value>,
    /// What is there afterwards.
    pub after: Option<Value>,
}

/// Which side of a change.
#[derive(Clone, Copy)]
pub enum Side {
    /// What is there before.
    Before,
    /// What is there afterwards.
    After,
}

/// A cell with what is written into it.
type Write = (Cell, Option<Value>);

impl Change {
    /// What it has on a side.
    fn on(&self, side: Side) -> &Option<Value>
        ensures { result.now ≡ on_side side self.now }
    {
        match side {
            Side::Before => &self.before,
            Side::After => &self.after,
        }
    }

    /// Its cell with what it has on a side. The copy shares the files.
    fn write(&self, side: Side) -> Result<Write, AllocError>
        ensures { IfOk result (λ write. write ≡ (self.now.cell, on_side side self.now)) }
    {
        Ok((self.cell.clone()?, self.on(side).clone()?))
    }
}

/// Whether the cell of each change comes before that of the next.
pub(crate) fn are_rising(changes: &[Change], side: Side) -> bool
    ensures { IsTrue result → IsStrictlySortedBy cell_cmp (keys_of (writes side changes.now)) }
{
    changes.is_sorted_by(|one, other| one.cell < other.cell)
}

/// What the changes have on a side, by cell.
pub(crate) fn writes_of(
    alloc: Global,
    changes: &[Change],
    side: Side,
) -> Result<Vec<Write>, AllocError>
    ensures { IfOk result (λ all. all.items ≡ writes side changes.now) }
{
    let mut all = Vec::with_capacity(alloc, changes.len())?;
    for change in changes {
        all.push(change.write(side)?)?;
    }
    Ok(all)
}

/// A copy of the cells, into which each change writes in its turn what it has on a side.
pub(crate) fn written_in_turn(
    cells: &SharedMap<Cell, Value>,
    changes: &[Change],
    side: Side,
) -> Result<SharedMap<Cell, Value>, AllocError>
    ensures { IfOk result (λ copy. copy ≡ edited_by cell_cmp cells.now (writes side changes.now)) }
{
    let mut copy = cells.copy()?;
    'changes: for change in changes {
        let (cell, value) = change.write(side)?;
        copy.write(cell, value)?;
    }
    Ok(copy)
}
