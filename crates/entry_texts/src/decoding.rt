//! Entries, read from their texts.
ghost use Rattle.std.specs.Prelude.{◌≡◌, ◌∷◌, ℕ, List, IfOk, IfErr, IsErrOf, IsSome, MatchResult};
ghost use Rattle.site_state.specs.Files.{IsByPath};
ghost use Rattle.site_change.specs.declared.entries.Entry as entries;
ghost use Rattle.entry_texts.specs.Reading;
ghost use Rattle.entry_texts.specs.Reading.{Finds, Gives};
ghost use Rattle.entry_texts.specs.Spells.{Spells, TakesMemory};
ghost use Rattle.entry_texts.specs.Versions.{SpellsIn};
ghost use Rattle.entry_texts.specs.declared.versions.Version.TheVariants.{First};

use crate::decode_faults::DecodeFault;
use crate::fields::{
    alias_at, count_at, flags_at, path_at, site_at, whole_alias, whole_number, whole_path,
};
use crate::listings::whole_files;
use crate::versions::Version;
use host_names::{Digest, FilePath, SiteName};
use site_change::{Command, Entry};
use site_state::{Listing, PathMap};
use std::alloc::Global;

/// The entry of a kind that has a site and a number alone, if the kind is such a one.
#[tactic(auto, unfolding(crate::specs::Reading::of_kind))]
fn of_kind(kind: u8, site: SiteName, number: u64) -> Option<Entry>
    ensures { Finds (λ entry. entry) result (Reading.of_kind kind site number) }
{
    match kind {
        0 => Some(Entry::Undo {
            site,
            change: number,
        }),
        2 => Some(Entry::Change(Command::Publish { site, number })),
        3 => Some(Entry::Change(Command::Cancel { site, number })),
        8 => Some(Entry::Change(Command::Restore { site, number })),
        9 => Some(Entry::Change(Command::RemoveDeploy { site, number })),
        _ => None,
    }
}

#[tactic(auto, unfolding(crate::specs::Reading::numbered_entry))]
fn numbered_entry(kind: u8, bytes: &[u8]) -> Option<Entry>
    ensures { Finds (λ entry. entry) result (Reading.numbered_entry kind bytes.now) }
{
    let (site, rest) = site_at(bytes)?;
    let number = whole_number(rest)?;
    of_kind(kind, site, number)
}

#[tactic(auto, unfolding(crate::specs::Reading::moved))]
fn moved_alias(bytes: &[u8]) -> Option<Entry>
    ensures { Finds (λ entry. entry) result (Reading.moved bytes.now) }
{
    let (site, rest) = site_at(bytes)?;
    let (name, rest) = alias_at(rest)?;
    let number = whole_number(rest)?;
    Some(Entry::Change(Command::MoveAlias { site, name, number }))
}

#[tactic(auto, unfolding(crate::specs::Reading::unaliased))]
fn removed_alias(bytes: &[u8]) -> Option<Entry>
    ensures { Finds (λ entry. entry) result (Reading.unaliased bytes.now) }
{
    let (site, rest) = site_at(bytes)?;
    let name = whole_alias(rest)?;
    Some(Entry::Change(Command::RemoveAlias { site, name }))
}

/// An entry of a kind without paths.
#[tactic(auto, unfolding(crate::specs::Reading::plain_entry))]
fn plain_entry(kind: u8, bytes: &[u8]) -> Option<Entry>
    ensures { Finds (λ entry. entry) result (Reading.plain_entry kind bytes.now) }
{
    match kind {
        4 => moved_alias(bytes),
        5 => removed_alias(bytes),
        _ => numbered_entry(kind, bytes),
    }
}

/// The site and the two paths of a renaming.
#[tactic(auto, unfolding(crate::specs::Reading::paths_at, crate::specs::Reading::after_path))]
fn paths_at(alloc: Global, bytes: &[u8]) -> Result<(SiteName, (FilePath, FilePath)), DecodeFault>
    ensures value { Gives (λ x. x) result (Reading.paths_at bytes.now) }
    ensures memory { IsErrOf result DecodeFault.OutOfMemory → IsSome (Reading.after_path bytes.now) }
{
    let Some((site, rest)) = site_at(bytes) else {
        return Err(DecodeFault::BadEntry);
    };
    let (source, rest) = path_at(alloc, rest)?;
    let target = whole_path(alloc, rest)?;
    Ok((site, (source, target)))
}

#[tactic(auto, unfolding(crate::specs::Reading::folder_renamed))]
fn folder_renaming(alloc: Global, bytes: &[u8]) -> Result<Entry, DecodeFault>
    ensures value { Gives (λ entry. entry) result (Reading.folder_renamed bytes.now) }
    ensures memory { IsErrOf result DecodeFault.OutOfMemory → IsSome (Reading.after_path bytes.now) }
{
    let (site, (source, target)) = paths_at(alloc, bytes)?;
    Ok(Entry::Change(Command::RenameFolder {
        site,
        source,
        target,
    }))
}

#[tactic(auto, unfolding(crate::specs::Reading::renamed))]
fn renaming(alloc: Global, bytes: &[u8]) -> Result<Entry, DecodeFault>
    ensures value { Gives (λ entry. entry) result (Reading.renamed bytes.now) }
    ensures memory { IsErrOf result DecodeFault.OutOfMemory → IsSome (Reading.after_path bytes.now) }
{
    let (site, (source, target)) = paths_at(alloc, bytes)?;
    Ok(Entry::Change(Command::Rename {
        site,
        source,
        target,
    }))
}

#[tactic(auto, unfolding(crate::specs::Reading::removed, crate::specs::Reading::after_path))]
fn removal(alloc: Global, bytes: &[u8]) -> Result<Entry, DecodeFault>
    ensures value { Gives (λ entry. entry) result (Reading.removed bytes.now) }
    ensures memory { IsErrOf result DecodeFault.OutOfMemory → IsSome (Reading.after_path bytes.now) }
{
    let Some((site, rest)) = site_at(bytes) else {
        return Err(DecodeFault::BadEntry);
    };
    let path = whole_path(alloc, rest)?;
    Ok(Entry::Change(Command::Remove { site, path }))
}

/// The listing of these paths, which are sorted.
fn listing_of(
    alloc: Global,
    is_patch: bool,
    files: Vec<(FilePath, Option<Digest>)>,
) -> Result<Listing, DecodeFault>
    requires sorted { IsByPath files.items }
    ensures { Gives (λ listing. listing) result (Reading.listing_of is_patch files.items) }
{
    let paths = PathMap::from_sorted(alloc, files)?;
    match Listing::new(is_patch, paths) {
        Ok(listing) => Ok(listing),
        Err(_) => Err(DecodeFault::BadEntry),
    }
}

#[tactic(auto, unfolding(crate::specs::Reading::listing_at, crate::specs::Reading::listing_front))]
fn listing_at(alloc: Global, bytes: &[u8]) -> Result<(Listing, bool), DecodeFault>
    ensures value { Gives (λ x. x) result (Reading.listing_at bytes.now) }
    ensures memory { IsErrOf result DecodeFault.OutOfMemory → IsSome (Reading.listing_front bytes.now) }
{
    let Some(((is_patch, auto), rest)) = flags_at(bytes) else {
        return Err(DecodeFault::BadEntry);
    };
    let Some((count, rest)) = count_at(rest) else {
        return Err(DecodeFault::BadEntry);
    };
    let files = whole_files(alloc, count, rest)?;
    Ok((listing_of(alloc, is_patch, files)?, auto))
}

#[tactic(auto, unfolding(crate::specs::Reading::opened, crate::specs::Reading::after_flags))]
fn opening(alloc: Global, bytes: &[u8]) -> Result<Entry, DecodeFault>
    ensures value { Gives (λ entry. entry) result (Reading.opened bytes.now) }
    ensures memory { IsErrOf result DecodeFault.OutOfMemory → IsSome (Reading.after_flags bytes.now) }
{
    let Some((site, rest)) = site_at(bytes) else {
        return Err(DecodeFault::BadEntry);
    };
    let (files, auto) = listing_at(alloc, rest)?;
    Ok(Entry::Change(Command::Open { site, files, auto }))
}

/// An entry of a kind without paths, which takes no memory.
fn without_paths(kind: u8, bytes: &[u8]) -> Result<Entry, DecodeFault>
    ensures value { Gives (λ entry. entry) result (Reading.plain_entry kind bytes.now) }
    ensures bad { IfErr result (λ fault. fault ≡ DecodeFault.BadEntry) }
{
    match plain_entry(kind, bytes) {
        Some(entry) => Ok(entry),
        None => Err(DecodeFault::BadEntry),
    }
}

#[tactic(auto, unfolding(crate::specs::Reading::entry_of, crate::specs::Reading::before_memory))]
fn entry_of(alloc: Global, bytes: &[u8]) -> Result<Entry, DecodeFault>
    ensures value { Gives (λ entry. entry) result (Reading.entry_of bytes.now) }
    ensures memory { IsErrOf result DecodeFault.OutOfMemory → IsSome (Reading.before_memory bytes.now) }
{
    match bytes {
        [] => Err(DecodeFault::BadEntry),
        [1, rest @ ..] => opening(alloc, rest),
        [6, rest @ ..] => renaming(alloc, rest),
        [7, rest @ ..] => removal(alloc, rest),
        [10, rest @ ..] => folder_renaming(alloc, rest),
        [kind, rest @ ..] => without_paths(*kind, rest),
    }
}

/// The entry that all these bytes spell. Only paths and the list of an opening take memory. If memory runs out while an entry with paths is
/// read, that is answered, even if the bytes after them would make the text malformed.
pub fn decode(alloc: Global, bytes: &[u8]) -> Result<Entry, DecodeFault>
    ensures spelled { IfOk result (λ entry. Spells bytes.now entry) }
    ensures found { (entry : entries.Entry) → Spells bytes.now entry → MatchResult result (λ read. read ≡ entry) (λ fault. fault ≡ DecodeFault.OutOfMemory) }
    ensures bad { IsErrOf result DecodeFault.BadEntry → (entry : entries.Entry) → Spells bytes.now entry → ⊥ }
    ensures memory { IsErrOf result DecodeFault.OutOfMemory → TakesMemory bytes.now }
{
    entry_of(alloc, bytes)
}

/// The entry that these bytes spell in a file of a version, as `decode` reads it. In a file of the first version no folder is renamed.
pub fn decode_in(alloc: Global, version: Version, bytes: &[u8]) -> Result<Entry, DecodeFault>
    ensures spelled { IfOk result (λ entry. SpellsIn version bytes.now entry) }
    ensures found { (entry : entries.Entry) → SpellsIn version bytes.now entry → MatchResult result (λ read. read ≡ entry) (λ fault. fault ≡ DecodeFault.OutOfMemory) }
    ensures bad { IsErrOf result DecodeFault.BadEntry → (entry : entries.Entry) → SpellsIn version bytes.now entry → ⊥ }
    ensures memory { IsErrOf result DecodeFault.OutOfMemory → TakesMemory bytes.now }
    ensures old { version ≡ First → (rest : List ℕ) → bytes.now ≡ 10 ∷ rest → IsErrOf result DecodeFault.BadEntry }
{
    match (version, bytes) {
        (Version::First, [10, ..]) => Err(DecodeFault::BadEntry),
        _ => decode(alloc, bytes),
    }
}
