//! The state of a base: what its names stand for, if it may be one.
ghost use Rattle.std.specs.Prelude.{◌≡◌, ◌++◌, [], ℕ as Number, IfOk, OnOk, cond, map as mapped, option_to_list, true};
ghost use Rattle.std.specs.BTreeMap.{is_at};
ghost use Rattle.std.specs.BTreeSet.{contains};
ghost use Rattle.std.specs.FinMap as map;
ghost use Rattle.std.specs.List.{list_all};
ghost use Rattle.std.specs.Ordering.{nat_cmp};
ghost use Rattle.site_state.specs.Changes.{writes};
ghost use Rattle.site_state.specs.declared.changes.Side.TheVariants.{After};
ghost use Rattle.change_log.specs.Bases as bases;
ghost use Rattle.change_log.specs.Founding as spec;

use crate::names::{Name, Names};
use byte_view::Uploads;
use host_names::{Cell, Digest, FilePath};
use site_state::{Change, File, PathMap, Side, State, Tree, Value};
use std::alloc::{AllocError, Global};
use std::collections::BTreeSet;
use std::sync::Arc;

fn is_known<U: Uploads>(uploads: &U, digest: &Digest) -> bool
    ensures { result ≡ map.contains_key (U.contents uploads.now) digest.now }
{
    uploads.find(digest).is_some()
}

fn are_known<U: Uploads>(uploads: &U, files: &[(FilePath, Digest)]) -> bool
    ensures { result ≡ list_all (λ f. map.contains_key (U.contents uploads.now) f.1) files.now }
{
    for (_, digest) in files {
        if !is_known(uploads, digest) {
            return false;
        }
    }
    true
}

/// Whether each file that is served or kept was uploaded.
fn has_known<U: Uploads>(uploads: &U, name: &Name) -> bool
    ensures { result ≡ spec.has_known (U.contents uploads.now) name.now }
{
    match name {
        Name::Live(digest) => is_known(uploads, digest),
        Name::Kept(files) => are_known(uploads, files.entries()),
        Name::Alias(_) => true,
        Name::Draft(_) => true,
    }
}

/// The number of the deploy whose cell it is.
fn deploy_of(cell: &Cell) -> Option<u64>
    ensures { result ≡ bases.deploy_of cell.now }
{
    match cell {
        Cell::Kept(_, number) => Some(*number),
        Cell::Draft(_, number) => Some(*number),
        Cell::Live(..) => None,
        Cell::Alias(..) => None,
    }
}

fn is_numbered(base: u64, number: Option<u64>) -> bool
    ensures { result ≡ spec.is_numbered base number }
{
    match number {
        Some(number) => number <= base,
        None => true,
    }
}

/// Whether an alias names a kept deploy of its site.
fn is_named(names: &Names, cell: &Cell, name: &Name) -> bool
    ensures { result ≡ spec.is_named names.now cell.now name.now }
{
    match (cell, name) {
        (Cell::Alias(site, _), Name::Alias(number)) => {
            names.get(&Cell::Kept(site.copied(), *number)).is_some()
        }
        _ => true,
    }
}

/// Whether a name may be in its cell of a base, but for the numbers of other deploys.
fn fits<U: Uploads>(uploads: &U, base: u64, names: &Names, cell: &Cell, name: &Name) -> bool
    ensures { result ≡ spec.fits (U.contents uploads.now) base names.now cell.now name.now }
{
    is_numbered(base, deploy_of(cell)) && has_known(uploads, name) && is_named(names, cell, name)
}

fn all_fit<U: Uploads>(uploads: &U, base: u64, names: &Names) -> bool
    ensures { result
        ≡ list_all (λ e. spec.fits (U.contents uploads.now) base names.now e.0 e.1) (map.entries names.now) }
{
    let mut left = names.cells();
    'cells: while let Some(((cell, name), rest)) = left.split_first() {
        if !fits(uploads, base, names, cell, name) {
            return false;
        }
        left = rest;
    }
    true
}

/// Adds a number, if there is one, after the others.
fn push_some(numbers: &mut Vec<u64>, number: Option<u64>) -> Result<(), AllocError>
    ensures { OnOk result (numbers.new.items ≡ numbers.old.items ++ option_to_list number) }
{
    match number {
        Some(number) => Ok(numbers.push(number)?),
        None => Ok(()),
    }
}

/// The numbers of the deploys, in the order of their cells.
fn numbers_of(alloc: Global, names: &Names) -> Result<Vec<u64>, AllocError>
    ensures { IfOk result (λ numbers. numbers.items ≡ spec.numbers_in (map.entries names.now)) }
{
    let mut numbers = Vec::new(alloc);
    let mut left = names.cells();
    'cells: while let Some(((cell, _), rest)) = left.split_first() {
        push_some(&mut numbers, deploy_of(cell))?;
        left = rest;
    }
    Ok(numbers)
}

fn add_number(numbers: &mut BTreeSet<u64>, number: u64) -> Result<(), AllocError>
    ensures { OnOk result ((m : Number) → contains nat_cmp numbers.new m
        ≡ cond (is_at (nat_cmp number) m) true (contains nat_cmp numbers.old m)) }
{
    numbers.insert(number)?;
    Ok(())
}

/// Whether each of these numbers is there once.
fn all_once(alloc: Global, numbers: &[u64]) -> Result<bool, AllocError>
    ensures { IfOk result (λ once. once ≡ spec.all_once [] numbers.now) }
{
    let mut seen = BTreeSet::new(alloc);
    let mut left = numbers;
    'numbers: while let Some((number, rest)) = left.split_first() {
        if seen.contains(number) {
            return Ok(false);
        }
        add_number(&mut seen, *number)?;
        left = rest;
    }
    Ok(true)
}

/// Whether these names may be the base of a log at this number.
pub fn may_be_base<U: Uploads>(
    alloc: Global,
    uploads: &U,
    base: u64,
    names: &Names,
) -> Result<bool, AllocError>
    ensures may { IfOk result (λ may. may ≡ true → bases.IsBase (U.contents uploads.now) base names.now) }
    ensures all { IfOk result (λ may. bases.IsBase (U.contents uploads.now) base names.now → may ≡ true) }
{
    names.are_lawful();
    if !all_fit(uploads, base, names) {
        return Ok(false);
    }
    let numbers = numbers_of(alloc, names)?;
    all_once(alloc, numbers.as_slice())
}

/// The uploaded file of a digest.
fn file_of<U: Uploads>(uploads: &U, digest: &Digest) -> Result<File, AllocError>
    requires { map.contains_key (U.contents uploads.now) digest.now ≡ true }
    ensures { IfOk result (λ file. file ≡ bases.file_of (U.contents uploads.now) digest.now) }
{
    match uploads.find(digest) {
        Some(info) => Ok(File::new(Arc::try_clone(info)?)),
        None => unreachable!(),
    }
}

/// The files of a deploy, by their digests.
fn tree_of<U: Uploads>(
    alloc: Global,
    uploads: &U,
    files: &PathMap<Digest>,
) -> Result<Tree, AllocError>
    requires { list_all (λ f. map.contains_key (U.contents uploads.now) f.1) files.now ≡ true }
    ensures { IfOk result (λ tree. tree ≡ mapped (λ f. (f.0, bases.file_of (U.contents uploads.now) f.1)) files.now) }
{
    let entries = files.entries();
    let mut tree = Vec::with_capacity(alloc, entries.len())?;
    for (path, digest) in entries {
        tree.push((path.clone()?, file_of(uploads, digest)?))?;
    }
    PathMap::from_sorted(alloc, tree)
}

/// The value that a name stands for.
fn value_of<U: Uploads>(alloc: Global, uploads: &U, name: &Name) -> Result<Value, AllocError>
    requires { spec.has_known (U.contents uploads.now) name.now ≡ true }
    ensures { IfOk result (λ value. value ≡ bases.value_of (U.contents uploads.now) name.now) }
{
    match name {
        Name::Live(digest) => Ok(Value::Live(file_of(uploads, digest)?)),
        Name::Kept(files) => Ok(Value::Kept(tree_of(alloc, uploads, files)?)),
        Name::Alias(number) => Ok(Value::Alias(*number)),
        Name::Draft(draft) => Ok(Value::Draft(draft.clone()?)),
    }
}

/// What the names of a base write, each into its cell.
fn changes_of<U: Uploads>(
    alloc: Global,
    uploads: &U,
    names: &Names,
) -> Result<Vec<Change>, AllocError>
    requires { list_all (λ e. spec.has_known (U.contents uploads.now) e.1) (map.entries names.now) ≡ true }
    ensures { IfOk result (λ changes. writes After changes.items
        ≡ spec.writes_in (U.contents uploads.now) (map.entries names.now)) }
{
    let mut changes = Vec::new(alloc);
    let mut left = names.cells();
    'cells: while let Some(((cell, name), rest)) = left.split_first() {
        let after = Some(value_of(alloc, uploads, name)?);
        changes.push(Change {
            cell: cell.clone()?,
            before: None,
            after,
        })?;
        left = rest;
    }
    Ok(changes)
}

/// The state that the names of a base stand for.
pub fn state_of<U: Uploads>(alloc: Global, uploads: &U, names: &Names) -> Result<State, AllocError>
    requires { (base : Number) × bases.IsBase (U.contents uploads.now) base names.now }
    ensures { IfOk result (λ state. state ≡ bases.resolved (U.contents uploads.now) names.now) }
{
    let changes = changes_of(alloc, uploads, names)?;
    let mut state = State::new(alloc);
    state.set_cells(changes.as_slice(), Side::After)?;
    Ok(state)
}
