//! Files by their numbers: each has a path, and 64 bytes of its own.
ghost use Rattle.std.specs.Prelude.{◌≡◌, true, Option, [], ◌∷◌, ◌++◌};
ghost use Rattle.host_names.specs.declared.digests.Digest.{Digest};
ghost use Rattle.site_state.specs.Files.{IsByPath};

use anyhow::{Result, anyhow};
use host_names::{Digest, FilePath};
use site_state::{Listing, PathMap};
use std::alloc::{AllocError, Global};
use std::ops::Range;

/// The path of a file. Paths rise with the numbers, up to 99,999,999.
pub(crate) fn path(alloc: Global, number: u64) -> Result<FilePath> {
    let text = format!(in alloc; "/{number:08}")?;
    Ok(FilePath::read(alloc, text.as_str())?)
}

/// The bytes of a file.
pub(crate) fn content(alloc: Global, number: u64) -> Result<Vec<u8>, AllocError> {
    let text = format!(in alloc; "{number:064}")?;
    Ok(text.into_bytes())
}

/// Whose content each file of a listing has.
#[derive(Clone, Copy)]
pub(crate) enum Contents {
    /// Its own.
    Own,
    /// That of the first file, 0.
    First,
}

fn listed(alloc: Global, number: u64, contents: Contents) -> Result<Option<Digest>, AllocError> {
    let number = match contents {
        Contents::Own => number,
        Contents::First => 0,
    };
    let bytes = content(alloc, number)?;
    Ok(Some(Digest::of_bytes(bytes.as_slice())))
}

/// Whether a path comes after those of a list.
fn is_after(entries: &[(FilePath, Option<Digest>)], path: &FilePath) -> bool
    ensures { result ≡ true → IsByPath entries.now → (listed : Option Digest) →
        IsByPath (entries.now ++ (path.now, listed) ∷ []) }
{
    let count = entries.len();
    if count == 0 {
        return true;
    }
    entries[count - 1].0.cmp(path).is_lt()
}

fn no_entries(alloc: Global) -> Vec<(FilePath, Option<Digest>)>
    ensures { IsByPath result.items }
{
    Vec::new(alloc)
}

/// Adds a path, which has to come after those that are there.
fn push_path(
    entries: &mut Vec<(FilePath, Option<Digest>)>,
    path: FilePath,
    listed: Option<Digest>,
) -> Result<()>
    requires { IsByPath entries.old.items }
    ensures { IsByPath entries.new.items }
{
    if !is_after(entries.as_slice(), &path) {
        return Err(anyhow!("the paths have to rise"));
    }
    Ok(entries.push((path, listed))?)
}

/// What a deploy, or a patch, lists that has these files.
pub(crate) fn listing(
    alloc: Global,
    is_patch: bool,
    files: Range<u64>,
    contents: Contents,
) -> Result<Listing> {
    let mut entries = no_entries(alloc);
    for number in files {
        let listed = listed(alloc, number, contents)?;
        push_path(&mut entries, path(alloc, number)?, listed)?;
    }
    let paths = PathMap::from_sorted(alloc, entries)?;
    Ok(Listing::new(is_patch, paths)?)
}

/// What a patch lists that adds one file, which has this digest, at the path of a number.
pub(crate) fn one_file(alloc: Global, number: u64, digest: Digest) -> Result<Listing> {
    let mut entries = no_entries(alloc);
    push_path(&mut entries, path(alloc, number)?, Some(digest))?;
    let paths = PathMap::from_sorted(alloc, entries)?;
    Ok(Listing::new(true, paths)?)
}
