//! What the body of the opening of a deploy says: the files, whether the deploy stays open, and whether it is a patch.
ghost use Rattle.std.specs.Prelude.{◌≡◌, ◌≢◌, true, false, Ok, Err, Option, Some, None, IsPermutation, IsTrue, IfSome, IfOk, IfErr, OnOk, option_map, option_and_then};
ghost use Rattle.std.specs.BTreeMap.{BTreeMap};
ghost use Rattle.std.specs.FinMap as map;
ghost use Rattle.serde_json.specs.Find.{get, as_object};
ghost use Rattle.serde_json.specs.View.{view, members_view};
ghost use Rattle.host_names.specs.Path.{is_path, with_slash};
ghost use Rattle.site_state.specs.Files.{IsByPath};
ghost use Rattle.host_api.specs.Bodies as spec;

use crate::refusals::Refusal;
use host_names::{Digest, FilePath};
use serde_json::{Map, Value};
use site_state::{Listing, NotAPatch, PathMap};
use std::alloc::{AllocError, Global};
use std::collections::BTreeMap;

/// What a body of the right form has.
#[derive(Drop)]
pub(crate) struct Form<'a> {
    pub(crate) files: &'a Map<String, Value>,
    pub(crate) draft: bool,
    pub(crate) patch: bool,
}

// A flag, which is off where it is absent.
fn flag(body: &Value, name: &str) -> Option<bool>
    ensures { result ≡ spec.flag_of (get name.now (view body.now)) }
{
    match body.get(name) {
        None => Some(false),
        Some(value) => value.as_bool(),
    }
}

/// The parts of a body, if it has the right form.
pub(crate) fn form_of(body: &Value) -> Option<Form<'_>>
    ensures { option_map
        (λ form. record { files = members_view form.files.now.entries; draft = form.draft; patch = form.patch }) result
        ≡ option_and_then spec.form_of (as_object (view body.now)) }
{
    let files = body.get("files")?.as_object()?;
    let draft = flag(body, "draft")?;
    let patch = flag(body, "patch")?;
    Some(Form {
        files,
        draft,
        patch,
    })
}

// The digest that a member spells.
fn digest_in(value: &Value) -> Result<Digest, Refusal>
    ensures { result ≡ spec.digest_in (view value.now) }
{
    let Value::String(text) = value else {
        return Err(Refusal::BadBody);
    };
    match Digest::of_hex(text.as_str()) {
        Ok(digest) => Ok(digest),
        Err(_) => Err(Refusal::BadDigest),
    }
}

// What a member lists: in a patch `null` lists a removal.
fn listed_in(is_patch: bool, value: &Value) -> Result<Option<Digest>, Refusal>
    ensures { result ≡ spec.listed_in is_patch (view value.now) }
{
    if is_patch && matches!(value, Value::Null) {
        return Ok(None);
    }
    Ok(Some(digest_in(value)?))
}

/// The path that a text writes, with or without its slash.
pub(crate) fn path_of(alloc: Global, key: &str) -> Result<FilePath, Refusal>
    ensures kept { IfOk result (λ path. path ≡ with_slash key.now) }
    ensures lawful { IfOk result (λ path. is_path (with_slash key.now) ≡ true) }
    ensures refused { IfErr result (λ refusal. refusal ≢ Refusal.OutOfMemory →
        (is_path (with_slash key.now) ≡ false) × (refusal ≡ Refusal.BadPath)) }
{
    Ok(FilePath::read(alloc, key)?)
}

// Adds what a member lists. A path that is listed already is refused.
#[tactic(auto, using(crate::proofs::ListedFiles::listed_twice, crate::proofs::ListedFiles::listed_badly, crate::proofs::ListedFiles::listed_once))]
fn list_one(
    alloc: Global,
    files: &mut BTreeMap<FilePath, Option<Digest>>,
    is_patch: bool,
    key: &str,
    value: &Value,
) -> Result<(), Refusal>
    ensures ok { OnOk result
        (spec.with_one is_patch (spec.files_in files.old.entries) (with_slash key.now) (view value.now)
        ≡ Ok (spec.files_in files.new.entries)) }
    ensures refused { IfErr result (λ refusal. refusal ≢ Refusal.OutOfMemory →
        spec.with_one is_patch (spec.files_in files.old.entries) (with_slash key.now) (view value.now) ≡ Err refusal) }
{
    let path = path_of(alloc, key)?;
    if files.contains_key(&path) {
        return Err(Refusal::BadBody);
    }
    let listed = listed_in(is_patch, value)?;
    files
        .insert(path, listed)
        .map_err(|_| Refusal::OutOfMemory)?;
    Ok(())
}

// Sorts files by path, and answers whether each path is there once.
fn sort_by_path(files: &mut Vec<(FilePath, Option<Digest>)>) -> bool
    ensures same { IsPermutation files.old.items files.new.items }
    ensures sorted { IsTrue result → IsByPath files.new.items }
{
    files.sort_unstable_by(|one, other| one.0.cmp(&other.0));
    files.is_sorted_by(|one, other| one.0 < other.0)
}

// The files that the members list, by path, by one pass over them and one sort. None where a member is refused: this
// doesn't tell which is the first.
fn files_at_once(
    alloc: Global,
    is_patch: bool,
    members: &Map<String, Value>,
) -> Option<Vec<(FilePath, Option<Digest>)>>
    ensures listed { IfSome result (λ files.
        spec.with_all is_patch map.empty (members_view members.now.entries)
        ≡ Ok (spec.files_in files.items)) }
    ensures sorted { IfSome result (λ files. IsByPath files.items) }
{
    let mut files = Vec::with_capacity(alloc, members.len()).ok()?;
    'members: for (key, value) in members {
        let path = path_of(alloc, key.as_str()).ok()?;
        let listed = listed_in(is_patch, value).ok()?;
        files.push((path, listed)).ok()?;
    }
    if sort_by_path(&mut files) {
        Some(files)
    } else {
        None
    }
}

// The files that the members list, one after another, up to the first that is refused.
fn files_in_turn(
    alloc: Global,
    is_patch: bool,
    members: &Map<String, Value>,
) -> Result<BTreeMap<FilePath, Option<Digest>>, Refusal>
    ensures ok { IfOk result (λ files.
        spec.with_all is_patch map.empty (members_view members.now.entries)
        ≡ Ok (spec.files_in files.entries)) }
    ensures refused { IfErr result (λ refusal. refusal ≢ Refusal.OutOfMemory →
        spec.with_all is_patch map.empty (members_view members.now.entries) ≡ Err refusal) }
{
    let mut files = BTreeMap::new(alloc);
    for (key, value) in members {
        list_one(alloc, &mut files, is_patch, key.as_str(), value)?;
    }
    Ok(files)
}

// The files of a map, by path.
fn entries_of(
    alloc: Global,
    files: BTreeMap<FilePath, Option<Digest>>,
) -> Result<Vec<(FilePath, Option<Digest>)>, AllocError>
    ensures pairs { IfOk result (λ entries. entries.items ≡ files.entries) }
    ensures sorted { IfOk result (λ entries. IsByPath files.entries) }
{
    files.into_iter().collect(alloc)
}

// The files that the members list, by path, or the first reason against one.
fn files_of(
    alloc: Global,
    is_patch: bool,
    members: &Map<String, Value>,
) -> Result<Vec<(FilePath, Option<Digest>)>, Refusal>
    ensures ok { IfOk result (λ files.
        spec.with_all is_patch map.empty (members_view members.now.entries)
        ≡ Ok (spec.files_in files.items)) }
    ensures sorted { IfOk result (λ files. IsByPath files.items) }
    ensures refused { IfErr result (λ refusal. refusal ≢ Refusal.OutOfMemory →
        spec.with_all is_patch map.empty (members_view members.now.entries) ≡ Err refusal) }
{
    if let Some(files) = files_at_once(alloc, is_patch, members) {
        return Ok(files);
    }
    let files = files_in_turn(alloc, is_patch, members)?;
    Ok(entries_of(alloc, files)?)
}

/// The listing that the members are.
#[tactic(auto, using(crate::proofs::ListedFiles::entries_files_in))]
pub(crate) fn listed(
    alloc: Global,
    is_patch: bool,
    members: &Map<String, Value>,
) -> Result<Listing, Refusal>
    ensures kind { IfOk result (λ listing. listing.0 ≡ is_patch) }
    ensures ok { IfOk result (λ listing.
        spec.with_all is_patch map.empty (members_view members.now.entries) ≡ Ok (spec.files_in listing.1)) }
    ensures sorted { IfOk result (λ listing. map.entries (spec.files_in listing.1) ≡ listing.1) }
    ensures refused { IfErr result (λ refusal. refusal ≢ Refusal.OutOfMemory →
        spec.with_all is_patch map.empty (members_view members.now.entries) ≡ Err refusal) }
{
    let files = files_of(alloc, is_patch, members)?;
    let Ok(paths) = PathMap::from_sorted(alloc, files) else {
        return Err(Refusal::OutOfMemory);
    };
    match Listing::new(is_patch, paths) {
        Ok(listing) => Ok(listing),
        Err(NotAPatch) => unreachable!(),
    }
}
