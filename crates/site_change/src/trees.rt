//! The files of a deploy, from what was uploaded.
ghost use Rattle.std.specs.Prelude.{◌≡◌, ◌++◌, IfOk, OnOk, Some, None, option_map, option_to_list, true};
ghost use Rattle.std.specs.FinMap as map;
ghost use Rattle.site_state.specs.Missing.{if_lacking, least_missing_of};
ghost use Rattle.site_change.specs.Changes as changes;

use byte_view::Uploads;
use host_names::{Digest, FilePath};
use site_state::{File, Listing, PathMap, Tree};
use std::alloc::{AllocError, Global};
use std::sync::Arc;

/// The uploaded file of a digest.
fn file_of<U: Uploads>(uploads: &U, digest: &Digest) -> Result<File, AllocError>
    requires { map.contains_key (U.contents uploads.now) digest.now ≡ true }
    ensures { IfOk result (λ file. map.get (U.contents uploads.now) digest.now ≡ Some file) }
{
    match uploads.find(digest) {
        Some(info) => Ok(File::new(Arc::try_clone(info)?)),
        None => unreachable!(),
    }
}

/// The uploaded file that is listed; none if a removal is listed.
pub(crate) fn file_at<U: Uploads>(
    uploads: &U,
    listed: &Option<Digest>,
) -> Result<Option<File>, AllocError>
    requires { if_lacking (U.contents uploads.now) listed.now ≡ None }
    ensures { IfOk result (λ file. file ≡ changes.file_at (U.contents uploads.now) listed.now) }
{
    match listed {
        Some(digest) => Ok(Some(file_of(uploads, digest)?)),
        None => Ok(None),
    }
}

/// Appends a file at a path, if there is one.
fn push_file(
    entries: &mut Vec<(FilePath, File)>,
    path: &FilePath,
    file: Option<File>,
) -> Result<(), AllocError>
    ensures { OnOk result (entries.new.items
        ≡ entries.old.items ++ option_to_list (option_map (λ bytes. (path.now, bytes)) file)) }
{
    match file {
        Some(file) => Ok(entries.push((path.clone()?, file))?),
        None => Ok(()),
    }
}

/// The files of a listing, of which none is missing.
pub fn tree_of<U: Uploads>(alloc: Global, uploads: &U, files: &Listing) -> Result<Tree, AllocError>
    requires { least_missing_of (U.contents uploads.now) files.now.1 ≡ None }
    ensures { IfOk result (λ tree. tree ≡ changes.tree_of (U.contents uploads.now) files.now.1) }
{
    let entries = files.entries();
    let mut tree = Vec::with_capacity(alloc, entries.len())?;
    for (path, listed) in entries {
        push_file(&mut tree, path, file_at(uploads, listed)?)?;
    }
    PathMap::from_sorted(alloc, tree)
}
