//! Renaming a folder: what it changes and touches.
ghost use Rattle.std.specs.Prelude.{◌≡◌, ◌++◌, ◌||◌, [], false, IfOk, OnOk, None, Some, option_map, option_to_list};
ghost use Rattle.std.specs.List.{AllByRecursion, list_any};
ghost use Rattle.host_names.specs.Cells.{text_of};
ghost use Rattle.host_names.specs.Folders.{moved};
ghost use Rattle.site_state.specs.States.{as_file, entries_below, is_live_below};
ghost use Rattle.site_change.specs.Changes as changes;
ghost use Rattle.site_change.specs.Changes.{folder_renamed};
ghost use Rattle.site_change.specs.Decisions.{IsDecision};
ghost use Rattle.site_change.specs.Differences.{AreMovable, AreTogether, IsBelowPath};
ghost use Rattle.site_change.specs.Plans.{IsDifference};

use crate::live::live_changes;
use crate::plans::Plan;
use crate::refusals::{ChangeError, ChangeRefusal};
use crate::touched::{Touched, TouchedCells};
use host_names::{Cell, FilePath, SiteName};
use persistent_maps::Range;
use site_state::{Change, File, State, Value};
use std::alloc::{AllocError, Global};

/// The greatest length of a path, in bytes.
const LONGEST_PATH: usize = 1024;

/// A cell with what is in it.
type Entry = (Cell, Value);

/// A path with the file that is to be there.
type Listed = (FilePath, File);

/// Whether there are no files.
fn are_none(files: Range<'_, Cell, Value>) -> bool
    ensures { result ≡ changes.are_none files.entry }
{
    files.split_first().is_none()
}

/// Whether the path of a file in the new folder is too long.
fn is_too_long(source: &FilePath, target: &FilePath, file: &Entry) -> bool
    requires { IsBelowPath source.now file.now.0 }
    ensures { result ≡ changes.is_too_long source.now target.now file.now }
{
    match &file.0 {
        Cell::Live(_, path) => path.moved_len(source, target) > LONGEST_PATH,
        Cell::Kept(..) | Cell::Alias(..) | Cell::Draft(..) => unreachable!(),
    }
}

/// Whether that of one of the files is.
fn has_too_long(source: &FilePath, target: &FilePath, files: Range<'_, Cell, Value>) -> bool
    requires { AllByRecursion (λ e. IsBelowPath source.now e.0) files }
    ensures { result ≡ list_any (changes.is_too_long source.now target.now) files.entry }
{
    let mut left = files;
    'files: while let Some((file, rest)) = left.split_first() {
        if is_too_long(source, target, file) {
            return true;
        }
        left = rest;
    }
    false
}

/// A file at its path in the new folder.
fn moved_file(
    alloc: Global,
    source: &FilePath,
    target: &FilePath,
    file: &Entry,
) -> Result<Option<Listed>, AllocError>
    requires below { IsBelowPath source.now file.now.0 }
    requires short { changes.is_too_long source.now target.now file.now ≡ false }
    ensures { IfOk result (λ listed. listed
        ≡ option_map (λ bytes. (moved source.now target.now (text_of file.now.0), bytes)) (as_file (Some file.now.1))) }
{
    let (Cell::Live(_, path), Value::Live(held)) = file else {
        return Ok(None);
    };
    let path = path.moved(alloc, source, target)?;
    Ok(Some((path, held.clone()?)))
}

/// Appends a file, if there is one.
fn push_file(files: &mut Vec<Listed>, file: Option<Listed>) -> Result<(), AllocError>
    ensures { OnOk result (files.new.items ≡ files.old.items ++ option_to_list file) }
{
    match file {
        Some(file) => Ok(files.push(file)?),
        None => Ok(()),
    }
}

/// The files below one folder, each at its path in the other.
fn moved_files(
    alloc: Global,
    source: &FilePath,
    target: &FilePath,
    files: Range<'_, Cell, Value>,
) -> Result<Vec<Listed>, AllocError>
    requires { AreMovable source.now target.now files }
    ensures { IfOk result (λ moved. moved.items ≡ changes.moved_files source.now target.now files.entry) }
{
    let mut moved = Vec::new(alloc);
    let mut left = files;
    'files: while let Some((file, rest)) = left.split_first() {
        push_file(&mut moved, moved_file(alloc, source, target, file)?)?;
        left = rest;
    }
    Ok(moved)
}

/// The first reason to refuse the renaming of a folder.
fn folder_refusal(
    state: &State,
    site: &SiteName,
    source: &FilePath,
    target: &FilePath,
) -> Option<ChangeRefusal>
    ensures { result ≡ changes.folder_refusal source.now target.now
        (entries_below state.now site.now source.now) (entries_below state.now site.now target.now) }
{
    if source == target {
        return Some(ChangeRefusal::SamePath);
    }
    if target.is_below(source) || source.is_below(target) {
        return Some(ChangeRefusal::NestedFolder);
    }
    if are_none(state.below(site, source)) {
        return Some(ChangeRefusal::NoSuchFile);
    }
    if has_too_long(source, target, state.below(site, source)) {
        return Some(ChangeRefusal::PathTooLong);
    }
    if !are_none(state.below(site, target)) {
        return Some(ChangeRefusal::PathTaken);
    }
    None
}

/// What changes if each file below the one folder comes to be below the other. Both are in the order of paths, and gone through once; no
/// other file of the site is looked at.
fn folder_changes(
    alloc: Global,
    state: &State,
    site: &SiteName,
    source: &FilePath,
    target: &FilePath,
) -> Result<Vec<Change>, AllocError>
    requires uploaded { AreTogether state.now [] }
    requires accepted { changes.folder_refusal source.now target.now
        (entries_below state.now site.now source.now) (entries_below state.now site.now target.now) ≡ None }
    ensures { IfOk result (λ changes. IsDifference state.now
        (folder_renamed site.now source.now target.now state.now (entries_below state.now site.now source.now))
        changes.items) }
{
    let files = moved_files(alloc, source, target, state.below(site, source))?;
    let changes = live_changes(alloc, site, state.below(site, source), files.as_slice())?;
    Ok(changes)
}

/// What renaming a folder changes and touches.
pub(crate) fn rename_folder(
    alloc: Global,
    state: &State,
    site: &SiteName,
    source: &FilePath,
    target: &FilePath,
) -> Result<Plan, ChangeError>
    requires { AreTogether state.now [] }
    ensures { IsDecision (changes.folder_refusal source.now target.now
        (entries_below state.now site.now source.now) (entries_below state.now site.now target.now))
        site.now (λ c. is_live_below site.now source.now c || is_live_below site.now target.now c) state.now
        (folder_renamed site.now source.now target.now state.now (entries_below state.now site.now source.now))
        result }
{
    if let Some(reason) = folder_refusal(state, site, source, target) {
        return Err(ChangeError::Refused(reason));
    }
    let changes = folder_changes(alloc, state, site, source, target)?;
    let touched = TouchedCells::Folders(source.clone()?, target.clone()?);
    Ok(Plan::new(changes, Touched::new(site, touched)))
}
