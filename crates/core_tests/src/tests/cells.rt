//! One cell of a state, written by a call of its own.
use super::fixtures::assert_holds;
use byte_view::BlobInfo;
use host_names::{Cell, FilePath, SiteName};
use site_state::{File, State, Value};
use std::alloc::{AllocError, Global};
use std::process::Abort;
use std::sync::Arc;
use std::test::Fail;

fn file(alloc: Global, bytes: &str) -> Result<Value, AllocError> {
    let info = BlobInfo::of(alloc, bytes.as_bytes())?;
    Ok(Value::Live(File::new(Arc::new(alloc, info)?)))
}

/// Writes into a cell where that is allowed, and tells whether it is.
fn write(state: &mut State, cell: Cell, value: Option<Value>) -> Result<bool, AllocError> {
    if !state.may_write(&cell, &value) {
        return Ok(false);
    }
    state.set_cell(cell, value)?;
    Ok(true)
}

/// Asserts that a cell has a value once that is written.
fn assert_written(
    rt: &impl Abort,
    state: &mut State,
    cell: &Cell,
    value: &Option<Value>,
) -> Result<(), Fail> {
    let is_allowed = write(state, cell.clone()?, value.clone()?)?;
    let is_there = state.value(cell) == value.as_ref();
    assert_holds(rt, "a value is written", is_allowed && is_there, true);
    Ok(())
}

/// Asserts so of two files in turn, and of nothing before and after them.
fn assert_values(
    rt: &impl Abort,
    alloc: Global,
    state: &mut State,
    cell: &Cell,
) -> Result<(), Fail> {
    assert_written(rt, state, cell, &None)?;
    assert_written(rt, state, cell, &Some(file(alloc, "old")?))?;
    assert_written(rt, state, cell, &Some(file(alloc, "new")?))?;
    assert_written(rt, state, cell, &None)
}

#[test]
fn a_cell_has_what_was_written_last(rt: HostRuntime) -> Result<(), Fail> {
    let cell = Cell::Live(SiteName::new("one")?, FilePath::read(rt.alloc(), "/a")?);
    assert_values(&rt, rt.alloc(), &mut State::new(rt.alloc()), &cell)
}
