//! Commands that change one cell, or two.
ghost use Rattle.std.specs.Prelude.{◌≡◌, ◌||◌, IfOk, Some, None, false};
ghost use Rattle.std.specs.FinMap as map;
ghost use Rattle.std.specs.Str.{bytes_eq};
ghost use Rattle.std.specs.declared.cmp.Ordering.TheVariants.{Less};
ghost use Rattle.host_names.specs.Cells.{cell_cmp};
ghost use Rattle.host_names.specs.declared.cells.Cell.TheVariants as cell;
ghost use Rattle.site_state.specs.Aliases.{alias_for};
ghost use Rattle.site_state.specs.States.{alias_at, draft_at, is_alias_of, kept_at, live_at, with_cell};
ghost use Rattle.site_state.specs.declared.values.Value.TheVariants as value;
ghost use Rattle.site_change.specs.declared.refusals.ChangeRefusal.TheVariants as reason;
ghost use Rattle.site_change.specs.Changes.{needed, removal_refusal, rename_refusal, renamed, same_cell};
ghost use Rattle.site_change.specs.Decisions.{IsDecision};
ghost use Rattle.site_change.specs.Differences.{Comparable};
ghost use Rattle.site_change.specs.Plans.{IsDifference};
ghost use Rattle.site_change.specs.TouchedCells.{AreTouched, is_among};

use crate::plans::{Plan, push_change};
use crate::refusals::{ChangeError, ChangeRefusal};
use crate::touched::{Touched, TouchedCells};
use host_names::{AliasName, Cell, CellRef, FilePath, SiteName};
use site_state::{Change, File, State, Value};
use std::alloc::{AllocError, Global};
use std::cmp::Ordering;

/// A cell, and what is written into it.
pub(crate) type Write = (Cell, Option<Value>);

/// What changes if this is written into one cell.
fn change_one(
    alloc: Global,
    state: &State,
    cell: Cell,
    after: Option<Value>,
) -> Result<Vec<Change>, AllocError>
    requires { Comparable (map.get state.now cell) after }
    ensures { IfOk result (λ changes. IsDifference state.now (with_cell state.now cell after) changes.items) }
{
    let mut changes = Vec::new(alloc);
    push_change(&mut changes, state, cell, after)?;
    Ok(changes)
}

/// What changes if these are written into two cells, given in their order.
fn change_two(
    alloc: Global,
    state: &State,
    first: Write,
    second: Write,
) -> Result<Vec<Change>, AllocError>
    requires apart { cell_cmp first.0 second.0 ≡ Less }
    requires first { Comparable (map.get state.now first.0) first.1 }
    requires second { Comparable (map.get state.now second.0) second.1 }
    ensures { IfOk result (λ changes. IsDifference state.now
        (with_cell (with_cell state.now first.0 first.1) second.0 second.1) changes.items) }
{
    let mut changes = Vec::new(alloc);
    push_change(&mut changes, state, first.0, first.1)?;
    push_change(&mut changes, state, second.0, second.1)?;
    Ok(changes)
}

/// The plan of a command that writes one cell, and touches these.
pub(crate) fn plan_one(
    alloc: Global,
    state: &State,
    site: &SiteName,
    write: Write,
    touched: TouchedCells,
) -> Result<Plan, AllocError>
    requires { Comparable (map.get state.now write.0) write.1 }
    ensures changes { IfOk result (λ plan. IsDifference state.now (with_cell state.now write.0 write.1) plan.changes.items) }
    ensures touched { IfOk result (λ plan. AreTouched site.now (is_among site.now touched) plan.touched) }
{
    let changes = change_one(alloc, state, write.0, write.1)?;
    Ok(Plan::new(changes, Touched::new(site, touched)))
}

/// What cancelling an open deploy changes and touches.
pub(crate) fn cancel(
    alloc: Global,
    state: &State,
    site: &SiteName,
    number: u64,
) -> Result<Plan, ChangeError>
    ensures { IsDecision (needed reason.NoSuchDraft (draft_at state.now site.now number))
        site.now (λ c. same_cell c (cell.Draft site.now number)) state.now
        (with_cell state.now (cell.Draft site.now number) None)
        result }
{
    if state.draft(site, number).is_none() {
        return Err(ChangeError::Refused(ChangeRefusal::NoSuchDraft));
    }
    let draft = Cell::Draft(site.copied(), number);
    let touched = TouchedCells::Draft(number);
    Ok(plan_one(alloc, state, site, (draft, None), touched)?)
}

/// What removing a file changes and touches.
pub(crate) fn remove(
    alloc: Global,
    state: &State,
    site: &SiteName,
    path: &FilePath,
) -> Result<Plan, ChangeError>
    ensures { IsDecision (needed reason.NoSuchFile (live_at state.now site.now path.now))
        site.now (λ c. same_cell c (cell.Live site.now path.now)) state.now
        (with_cell state.now (cell.Live site.now path.now) None)
        result }
{
    if state.file(site, path).is_none() {
        return Err(ChangeError::Refused(ChangeRefusal::NoSuchFile));
    }
    let live = CellRef::Live(site, path).to_cell()?;
    let touched = TouchedCells::Path(path.clone()?);
    Ok(plan_one(alloc, state, site, (live, None), touched)?)
}

/// What changes if these are written into two cells, given in any order.
fn change_both(
    alloc: Global,
    state: &State,
    one: Write,
    other: Write,
) -> Result<Vec<Change>, AllocError>
    requires apart { same_cell one.0 other.0 ≡ false }
    requires one { Comparable (map.get state.now one.0) one.1 }
    requires other { Comparable (map.get state.now other.0) other.1 }
    ensures { IfOk result (λ changes. IsDifference state.now
        (with_cell (with_cell state.now one.0 one.1) other.0 other.1) changes.items) }
{
    match one.0.cmp(&other.0) {
        Ordering::Less => change_two(alloc, state, one, other),
        Ordering::Equal | Ordering::Greater => change_two(alloc, state, other, one),
    }
}

/// What changes if this file is served at another path instead of this one.
fn change_paths(
    alloc: Global,
    state: &State,
    site: &SiteName,
    source: &FilePath,
    target: &FilePath,
    file: &File,
) -> Result<Vec<Change>, AllocError>
    requires apart { same_cell (cell.Live site.now source.now) (cell.Live site.now target.now) ≡ false }
    requires free { live_at state.now site.now target.now ≡ None }
    ensures { IfOk result (λ changes. IsDifference state.now
        (renamed site.now source.now target.now state.now (Some file.now)) changes.items) }
{
    let left = CellRef::Live(site, source).to_cell()?;
    let reached = CellRef::Live(site, target).to_cell()?;
    let file = Value::Live(file.clone()?);
    change_both(alloc, state, (left, None), (reached, Some(file)))
}

/// What renaming a file changes and touches.
pub(crate) fn rename(
    alloc: Global,
    state: &State,
    site: &SiteName,
    source: &FilePath,
    target: &FilePath,
) -> Result<Plan, ChangeError>
    ensures { IsDecision (rename_refusal (bytes_eq source.now target.now) (live_at state.now site.now source.now) (live_at state.now site.now target.now))
        site.now (λ c. same_cell c (cell.Live site.now source.now) || same_cell c (cell.Live site.now target.now)) state.now
        (renamed site.now source.now target.now state.now (live_at state.now site.now source.now))
        result }
{
    if source == target {
        return Err(ChangeError::Refused(ChangeRefusal::SamePath));
    }
    let Some(file) = state.file(site, source) else {
        return Err(ChangeError::Refused(ChangeRefusal::NoSuchFile));
    };
    if state.file(site, target).is_some() {
        return Err(ChangeError::Refused(ChangeRefusal::PathTaken));
    }
    let touched = TouchedCells::Paths(source.clone()?, target.clone()?);
    let changes = change_paths(alloc, state, site, source, target, file)?;
    Ok(Plan::new(changes, Touched::new(site, touched)))
}

/// What moving an alias to a kept deploy changes and touches.
pub(crate) fn move_alias(
    alloc: Global,
    state: &State,
    site: &SiteName,
    name: &AliasName,
    number: u64,
) -> Result<Plan, ChangeError>
    ensures { IsDecision (needed reason.NoSuchDeploy (kept_at state.now site.now number))
        site.now (λ c. same_cell c (cell.Kept site.now number) || same_cell c (cell.Alias site.now name.now)) state.now
        (with_cell state.now (cell.Alias site.now name.now) (Some (value.Alias number)))
        result }
{
    if state.kept(site, number).is_none() {
        return Err(ChangeError::Refused(ChangeRefusal::NoSuchDeploy));
    }
    let write = (
        Cell::Alias(site.copied(), name.copied()),
        Some(Value::Alias(number)),
    );
    let touched = TouchedCells::AliasAndKept(name.copied(), number);
    Ok(plan_one(alloc, state, site, write, touched)?)
}

/// What removing an alias changes and touches.
pub(crate) fn remove_alias(
    alloc: Global,
    state: &State,
    site: &SiteName,
    name: &AliasName,
) -> Result<Plan, ChangeError>
    ensures { IsDecision (needed reason.NoSuchAlias (alias_at state.now site.now name.now))
        site.now (λ c. same_cell c (cell.Alias site.now name.now)) state.now
        (with_cell state.now (cell.Alias site.now name.now) None)
        result }
{
    if state.alias(site, name).is_none() {
        return Err(ChangeError::Refused(ChangeRefusal::NoSuchAlias));
    }
    let alias = Cell::Alias(site.copied(), name.copied());
    let touched = TouchedCells::Alias(name.copied());
    Ok(plan_one(alloc, state, site, (alias, None), touched)?)
}

/// What removing a kept deploy changes and touches.
pub(crate) fn remove_deploy(
    alloc: Global,
    state: &State,
    site: &SiteName,
    number: u64,
) -> Result<Plan, ChangeError>
    ensures { IsDecision (removal_refusal (kept_at state.now site.now number) (alias_for state.now site.now number))
        site.now (λ c. same_cell c (cell.Kept site.now number) || is_alias_of site.now c) state.now
        (with_cell state.now (cell.Kept site.now number) None)
        result }
{
    if state.kept(site, number).is_none() {
        return Err(ChangeError::Refused(ChangeRefusal::NoSuchDeploy));
    }
    if let Some(name) = state.alias_for(site, number) {
        return Err(ChangeError::Refused(ChangeRefusal::DeployInUse(name.copied())));
    }
    let kept = Cell::Kept(site.copied(), number);
    let touched = TouchedCells::KeptAndAliases(number);
    Ok(plan_one(alloc, state, site, (kept, None), touched)?)
}
