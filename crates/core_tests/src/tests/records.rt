//! The record of a change, and what its cells had before it, written into a state.
ghost use Rattle.std.specs.Prelude.{◌≡◌, ◌++◌, [], ◌∷◌, true, Option, IfOk, IfSome};
ghost use Rattle.host_names.specs.declared.digests.Digest.{Digest};
ghost use Rattle.site_state.specs.Changes.{AreOfKindOn, writes};
ghost use Rattle.site_state.specs.Files.{IsByPath};
ghost use Rattle.site_state.specs.States.{with_cells};
ghost use Rattle.site_state.specs.declared.changes.Side.TheVariants.{Before};

use super::fixtures::{assert_holds, assert_text};
use super::histories::{Host, no_entries, open};
use blob_store::{Blobs, MemShelf};
use host_names::{Cell, Digest, FilePath, SiteName};
use site_change::{Command, Touched};
use site_state::{Change, Listing, PathMap, Side, State, Value};
use std::alloc::{AllocError, Global};
use std::process::Abort;
use std::test::Fail;

/// The SHA-1 of "H".
const H: &str = "7cf184f4c67ad58283ecb19349720b0cae756829";
/// The SHA-1 of "A".
const A: &str = "6dcd4ce23d88e2ee9568ba546c007c63d9131c1b";

/// Whether a path comes after those of a list.
fn is_after(files: &[(FilePath, Option<Digest>)], path: &FilePath) -> bool
    ensures { result ≡ true → IsByPath files.now → (listed : Option Digest) →
        IsByPath (files.now ++ (path.now, listed) ∷ []) }
{
    let count = files.len();
    if count == 0 {
        return true;
    }
    files[count - 1].0.cmp(path).is_lt()
}

/// Adds a file, whose path has to come after those that are there.
fn push_file(
    files: &mut Vec<(FilePath, Option<Digest>)>,
    path: FilePath,
    digest: &str,
) -> Result<(), Fail>
    requires { IsByPath files.old.items }
    ensures { IsByPath files.new.items }
{
    let listed = Some(Digest::of_hex(digest)?);
    if !is_after(files.as_slice(), &path) {
        return Err(Fail::from("the paths have to rise"));
    }
    Ok(files.push((path, listed))?)
}

fn path(alloc: Global, text: &str) -> Result<FilePath, Fail> {
    Ok(FilePath::read(alloc, text)?)
}

/// Opens a deploy of "H" at /a.txt and "A" at /b.txt.
fn open_two(alloc: Global, host: &mut Host) -> Result<u64, Fail> {
    let mut files = no_entries(alloc);
    push_file(&mut files, path(alloc, "/a.txt")?, H)?;
    push_file(&mut files, path(alloc, "/b.txt")?, A)?;
    let files = Listing::new(false, PathMap::from_sorted(alloc, files)?)?;
    let site = SiteName::new("one")?;
    let auto = false;
    Ok(host.commit(Command::Open { site, files, auto })?)
}

fn publish(host: &mut Host) -> Result<u64, Fail> {
    let site = SiteName::new("one")?;
    Ok(host.commit(Command::Publish { site, number: 1 })?)
}

/// A host with the files that the deploy lists.
fn host(alloc: Global) -> Result<Host, Fail> {
    let mut uploads = Blobs::new(alloc, MemShelf::new(alloc));
    uploads.upload(b"H")?;
    uploads.upload(b"A")?;
    Ok(Host::new(alloc, 4, uploads))
}

/// A value in a word or two: a file by its digest, a deploy by the number of its files.
fn shown(alloc: Global, value: &Option<Value>) -> Result<String, AllocError> {
    match value {
        None => format!(in alloc; "none"),
        Some(Value::Live(file)) => format!(in alloc; "{}", file.digest().to_hex()),
        Some(Value::Kept(tree)) => format!(in alloc; "{} files", tree.entries().len()),
        Some(Value::Alias(number)) => format!(in alloc; "{number}"),
        Some(Value::Draft(draft)) => format!(in alloc; "{} listed", draft.files.entries().len()),
    }
}

/// A change in a line.
fn line(alloc: Global, change: &Change) -> Result<String, AllocError> {
    let before = shown(alloc, &change.before)?;
    let after = shown(alloc, &change.after)?;
    format!(in alloc; "{}: {before} to {after}", change.cell)
}

/// Asserts what is recorded of a number: its changes, each in a line.
fn assert_changes(
    rt: &impl Abort,
    alloc: Global,
    host: &Host,
    number: u64,
    wanted: &[&str],
) -> Result<(), Fail> {
    let plan = host.record(number).ok_or("no record")?;
    assert_holds(rt, "its length", plan.changes.len() == wanted.len(), true);
    for (change, wanted) in plan.changes.iter().zip(wanted) {
        assert_text(rt, "a change", line(alloc, change)?.as_str(), wanted);
    }
    Ok(())
}

/// Asserts that a publish of deploy 1 touches that, kept and open, and each path, but no other deploy.
fn assert_touched(rt: &impl Abort, alloc: Global, touched: &Touched) -> Result<(), Fail> {
    let site = SiteName::new("one")?;
    let rows = [
        (Cell::Kept(site.copied(), 1), true),
        (Cell::Draft(site.copied(), 1), true),
        (Cell::Live(site.copied(), path(alloc, "/a.txt")?), true),
        (Cell::Live(site.copied(), path(alloc, "/other")?), true),
        (Cell::Kept(site.copied(), 2), false),
        (
            Cell::Live(SiteName::new("two")?, path(alloc, "/a.txt")?),
            false,
        ),
    ];
    for (cell, wanted) in &rows {
        assert_holds(rt, "a cell is touched", touched.contains(cell), *wanted);
    }
    Ok(())
}

/// The state with what the changes had before in their cells, written one by one; none where one may not be written.
fn written_one_by_one(state: &State, changes: &[Change]) -> Result<Option<State>, AllocError>
    ensures of_kind { IfOk result (λ copy. IfSome copy (λ _. AreOfKindOn Before changes.now)) }
    ensures written { IfOk result (λ copy. IfSome copy (λ copy. copy ≡ with_cells state.now (writes Before changes.now))) }
{
    let mut copy = state.copy()?;
    'changes: for change in changes {
        if !copy.may_write(&change.cell, &change.before) {
            return Ok(None);
        }
        copy.set_cell(change.cell.clone()?, change.before.clone()?)?;
    }
    Ok(Some(copy))
}

/// Asserts that a state has in the cells of the changes what another has.
fn assert_same(rt: &impl Abort, state: &State, other: &State, changes: &[Change]) {
    for change in changes {
        let is_same = state.value(&change.cell) == other.value(&change.cell);
        assert_holds(rt, "a cell has what it had", is_same, true);
    }
}

/// Asserts that the changes written back give an earlier state.
fn assert_written_back(
    rt: &impl Abort,
    state: &State,
    changes: &[Change],
    earlier: &State,
) -> Result<(), Fail> {
    let by_one = written_one_by_one(state, changes)?.ok_or("a change can't be written back")?;
    by_one.aliases_are_named();
    let mut at_once = state.copy()?;
    at_once.set_cells(changes, Side::Before)?;
    assert_same(rt, &at_once, earlier, changes);
    Ok(())
}

/// Asserts the record of a publish, and that it leads back to the state before.
fn assert_published(rt: &impl Abort, alloc: Global, host: &mut Host) -> Result<(), Fail> {
    open_two(alloc, host)?;
    let earlier = host.state().copy()?;
    publish(host)?;
    let live = [
        "live /a.txt: none to 7cf184f4c67ad58283ecb19349720b0cae756829",
        "live /b.txt: none to 6dcd4ce23d88e2ee9568ba546c007c63d9131c1b",
        "kept 1: none to 2 files",
        "draft 1: 2 listed to none",
    ];
    assert_changes(rt, alloc, host, 2, &live)?;
    let plan = host.record(2).ok_or("no record")?;
    assert_touched(rt, alloc, &plan.touched)?;
    assert_written_back(rt, host.state(), plan.changes.as_slice(), &earlier)
}

/// Asserts of which numbers there is a record, after the undo of one.
fn assert_undone(rt: &impl Abort, alloc: Global, host: &mut Host) -> Result<(), Fail> {
    open(alloc, host)?;
    assert_holds(rt, "the record of 3", host.record(3).is_some(), true);
    host.undo(&SiteName::new("one")?, 3)?;
    for number in 0..6 {
        let wanted = number == 1 || number == 2;
        assert_holds(rt, "a record", host.record(number).is_some(), wanted);
    }
    Ok(())
}

#[test]
fn a_change_that_lives_has_a_record(rt: HostRuntime) -> Result<(), Fail> {
    let mut host = host(rt.alloc())?;
    assert_published(&rt, rt.alloc(), &mut host)?;
    assert_undone(&rt, rt.alloc(), &mut host)
}
