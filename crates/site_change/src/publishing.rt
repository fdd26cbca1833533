//! Publishing an open deploy: what it changes and touches.
ghost use Rattle.std.specs.Prelude.{◌≡◌, ◌||◌, IfOk, Some, None, option_map};
ghost use Rattle.byte_view.specs.Contents.{AreDigested};
ghost use Rattle.host_names.specs.declared.cells.Cell.TheVariants as cell;
ghost use Rattle.site_state.specs.Files.{IsByPath};
ghost use Rattle.site_state.specs.Missing.{if_lacking, least_missing_of};
ghost use Rattle.site_state.specs.States.{draft_at, kept_at};
ghost use Rattle.site_state.specs.declared.values.Value.TheVariants as value;
ghost use Rattle.site_change.specs.declared.commands.Command.TheVariants as command_of;
ghost use Rattle.site_change.specs.Changes as changes;
ghost use Rattle.site_change.specs.Changes.{publish_refusal, publish_touches, published, restore_refusal, restored, same_cell, touches, tree_of, with_patch, with_published, with_served};
ghost use Rattle.site_change.specs.Refusals.{IsRefusedBy};
ghost use Rattle.site_change.specs.Decisions.{IsDecision};
ghost use Rattle.site_change.specs.Differences.{AreListedChanges, AreTogether};
ghost use Rattle.site_change.specs.Plans.{IsDifference};
ghost use Rattle.site_change.specs.TouchedCells.{AreTouched, is_of_deploy};
ghost use Rattle.site_change.specs.Uploaded.{AreUploaded};

use crate::live::live_changes;
use crate::plans::{Plan, push_change};
use crate::refusals::{ChangeError, ChangeRefusal};
use crate::touched::{Touched, TouchedCells};
use crate::trees::{file_at, tree_of};
use crate::uploads::uploads_are_digested;
use byte_view::Uploads;
use host_names::{Cell, CellRef, Digest, FilePath, SiteName};
use site_state::{Change, Draft, Listing, State, Tree, Value, least_missing};
use std::alloc::{AllocError, Global};

/// What changes if a site comes to serve the files of this tree, and no others, as the deploy with this number.
fn tree_changes(
    alloc: Global,
    state: &State,
    site: &SiteName,
    number: u64,
    tree: Tree,
) -> Result<Vec<Change>, AllocError>
    requires { AreTogether state.now tree }
    ensures { IfOk result (λ changes. IsDifference state.now
        (with_published site.now number tree state.now) changes.items) }
{
    let mut changes = live_changes(alloc, site, state.live(site), tree.entries())?;
    let kept = Cell::Kept(site.copied(), number);
    push_change(&mut changes, state, kept, Some(Value::Kept(tree)))?;
    push_change(
        &mut changes,
        state,
        Cell::Draft(site.copied(), number),
        None,
    )?;
    Ok(changes)
}

/// What changes if these files are published, of which none is missing.
fn full_changes<U: Uploads>(
    alloc: Global,
    state: &State,
    uploads: &U,
    site: &SiteName,
    number: u64,
    files: &Listing,
) -> Result<Vec<Change>, AllocError>
    requires known { AreUploaded (U.contents uploads.now) state.now }
    requires digested { AreDigested (U.contents uploads.now) }
    requires complete { least_missing_of (U.contents uploads.now) files.now.1 ≡ None }
    ensures { IfOk result (λ changes. IsDifference state.now
        (with_published site.now number (tree_of (U.contents uploads.now) files.now.1) state.now)
        changes.items) }
{
    let tree = tree_of(alloc, uploads, files)?;
    tree_changes(alloc, state, site, number, tree)
}

/// The uploaded file as the value of its cell; nothing where a removal is listed.
fn served<U: Uploads>(uploads: &U, listed: &Option<Digest>) -> Result<Option<Value>, AllocError>
    requires { if_lacking (U.contents uploads.now) listed.now ≡ None }
    ensures { IfOk result (λ v. v ≡ option_map value.Live (changes.file_at (U.contents uploads.now) listed.now)) }
{
    match file_at(uploads, listed)? {
        Some(file) => Ok(Some(Value::Live(file))),
        None => Ok(None),
    }
}

/// What changes at the paths that a patch lists, of which none is missing.
fn listed_changes<U: Uploads>(
    alloc: Global,
    state: &State,
    uploads: &U,
    site: &SiteName,
    entries: &[(FilePath, Option<Digest>)],
) -> Result<Vec<Change>, AllocError>
    requires known { AreUploaded (U.contents uploads.now) state.now }
    requires digested { AreDigested (U.contents uploads.now) }
    requires sorted { IsByPath entries.now }
    requires complete { least_missing_of (U.contents uploads.now) entries.now ≡ None }
    ensures { IfOk result (λ changes. AreListedChanges site.now (U.contents uploads.now) entries.now state.now changes.items) }
{
    let mut changes = Vec::new(alloc);
    for (path, listed) in entries {
        let live = CellRef::Live(site, path).to_cell()?;
        push_change(&mut changes, state, live, served(uploads, listed)?)?;
    }
    Ok(changes)
}

/// What changes if a patch is published, of which no file is missing.
fn patch_changes<U: Uploads>(
    alloc: Global,
    state: &State,
    uploads: &U,
    site: &SiteName,
    number: u64,
    files: &Listing,
) -> Result<Vec<Change>, AllocError>
    requires known { AreUploaded (U.contents uploads.now) state.now }
    requires digested { AreDigested (U.contents uploads.now) }
    requires complete { least_missing_of (U.contents uploads.now) files.now.1 ≡ None }
    ensures { IfOk result (λ changes. IsDifference state.now
        (with_patch site.now number (U.contents uploads.now) files.now.1 state.now)
        changes.items) }
{
    let mut changes = listed_changes(alloc, state, uploads, site, files.entries())?;
    push_change(
        &mut changes,
        state,
        Cell::Draft(site.copied(), number),
        None,
    )?;
    Ok(changes)
}

/// What publishing this draft changes, or why it is refused.
fn open_changes<U: Uploads>(
    alloc: Global,
    state: &State,
    uploads: &U,
    site: &SiteName,
    number: u64,
    draft: &Draft,
) -> Result<Vec<Change>, ChangeError>
    requires { AreUploaded (U.contents uploads.now) state.now }
    ensures refused { IsRefusedBy (publish_refusal (U.contents uploads.now) (Some draft.now)) result }
    ensures changes { IfOk result (λ changes. IsDifference state.now
        (published site.now number (U.contents uploads.now) state.now (Some draft.now))
        changes.items) }
{
    if let Some(digest) = least_missing(draft, uploads) {
        return Err(ChangeError::Refused(ChangeRefusal::NotComplete(digest)));
    }
    uploads_are_digested(uploads);
    if draft.files.is_patch() {
        Ok(patch_changes(alloc, state, uploads, site, number, &draft.files)?)
    } else {
        Ok(full_changes(alloc, state, uploads, site, number, &draft.files)?)
    }
}

/// What publishing this draft touches.
fn touched_by_publishing(site: &SiteName, number: u64, draft: &Draft) -> Result<Touched, AllocError>
    ensures { IfOk result (AreTouched site.now
        (λ c. same_cell c (cell.Draft site.now number) || publish_touches site.now number (Some draft.now) c)) }
{
    if draft.files.is_patch() {
        let files = draft.files.clone()?;
        Ok(Touched::new(site, TouchedCells::Patch(number, files)))
    } else {
        Ok(Touched::new(site, TouchedCells::Deploy(number)))
    }
}

/// What publishing this draft changes and touches.
fn publish_open<U: Uploads>(
    alloc: Global,
    state: &State,
    uploads: &U,
    site: &SiteName,
    number: u64,
    draft: &Draft,
) -> Result<Plan, ChangeError>
    requires { AreUploaded (U.contents uploads.now) state.now }
    ensures { IsDecision (publish_refusal (U.contents uploads.now) (Some draft.now))
        site.now (λ c. same_cell c (cell.Draft site.now number) || publish_touches site.now number (Some draft.now) c) state.now
        (published site.now number (U.contents uploads.now) state.now (Some draft.now))
        result }
{
    let changes = open_changes(alloc, state, uploads, site, number, draft)?;
    let touched = touched_by_publishing(site, number, draft)?;
    Ok(Plan::new(changes, touched))
}

/// What publishing an open deploy changes and touches.
pub(crate) fn publish<U: Uploads>(
    alloc: Global,
    state: &State,
    uploads: &U,
    site: &SiteName,
    number: u64,
) -> Result<Plan, ChangeError>
    requires { AreUploaded (U.contents uploads.now) state.now }
    ensures { IsDecision (publish_refusal (U.contents uploads.now) (draft_at state.now site.now number))
        site.now (touches (command_of.Publish site.now number) 0 state.now) state.now
        (published site.now number (U.contents uploads.now) state.now (draft_at state.now site.now number))
        result }
{
    match state.draft(site, number) {
        Some(draft) => publish_open(alloc, state, uploads, site, number, draft),
        None => Err(ChangeError::Refused(ChangeRefusal::NoSuchDraft)),
    }
}

/// What serving the files of a kept deploy again changes and touches.
fn serve_kept(
    alloc: Global,
    state: &State,
    site: &SiteName,
    number: u64,
    tree: &Tree,
) -> Result<Plan, AllocError>
    requires { AreTogether state.now tree.now }
    ensures changes { IfOk result (λ plan. IsDifference state.now (with_served site.now tree.now state.now) plan.changes.items) }
    ensures touched { IfOk result (λ plan. AreTouched site.now (is_of_deploy site.now number) plan.touched) }
{
    let changes = live_changes(alloc, site, state.live(site), tree.entries())?;
    let touched = Touched::new(site, TouchedCells::Deploy(number));
    Ok(Plan::new(changes, touched))
}

/// What restoring this draft touches: what publishing it does, and the kept deploy with its number, which must not be there.
fn touched_by_restoring(site: &SiteName, number: u64, draft: &Draft) -> Result<Touched, AllocError>
    ensures { IfOk result (AreTouched site.now
        (λ c. same_cell c (cell.Draft site.now number)
        || (same_cell c (cell.Kept site.now number) || publish_touches site.now number (Some draft.now) c))) }
{
    if draft.files.is_patch() {
        let files = draft.files.clone()?;
        Ok(Touched::new(site, TouchedCells::PatchAndKept(number, files)))
    } else {
        Ok(Touched::new(site, TouchedCells::Deploy(number)))
    }
}

/// What restoring this draft changes and touches.
fn restore_open<U: Uploads>(
    alloc: Global,
    state: &State,
    uploads: &U,
    site: &SiteName,
    number: u64,
    draft: &Draft,
) -> Result<Plan, ChangeError>
    requires { AreUploaded (U.contents uploads.now) state.now }
    ensures { IsDecision (publish_refusal (U.contents uploads.now) (Some draft.now))
        site.now
        (λ c. same_cell c (cell.Draft site.now number)
        || (same_cell c (cell.Kept site.now number) || publish_touches site.now number (Some draft.now) c))
        state.now
        (published site.now number (U.contents uploads.now) state.now (Some draft.now))
        result }
{
    let changes = open_changes(alloc, state, uploads, site, number, draft)?;
    let touched = touched_by_restoring(site, number, draft)?;
    Ok(Plan::new(changes, touched))
}

/// What restoring a deploy changes and touches.
pub(crate) fn restore<U: Uploads>(
    alloc: Global,
    state: &State,
    uploads: &U,
    site: &SiteName,
    number: u64,
) -> Result<Plan, ChangeError>
    requires { AreUploaded (U.contents uploads.now) state.now }
    ensures { IsDecision (restore_refusal (U.contents uploads.now) (kept_at state.now site.now number) (draft_at state.now site.now number))
        site.now (touches (command_of.Restore site.now number) 0 state.now) state.now
        (restored site.now number (U.contents uploads.now) state.now (kept_at state.now site.now number) (draft_at state.now site.now number))
        result }
{
    if let Some(tree) = state.kept(site, number) {
        return Ok(serve_kept(alloc, state, site, number, tree)?);
    }
    match state.draft(site, number) {
        Some(draft) => restore_open(alloc, state, uploads, site, number, draft),
        None => Err(ChangeError::Refused(ChangeRefusal::NoSuchDeploy)),
    }
}
