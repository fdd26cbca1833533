//! Entries by their numbers.
ghost use Rattle.std.specs.Prelude.{◌≡◌, ◌≤◌, IfOk, length};
ghost use Rattle.entry_texts.specs.Spells.{IsCommandInRange, IsInRange, IsNumber};

use anyhow::Result;
use host_names::{AliasName, Digest, FilePath, SiteName};
use site_change::{Command, Entry};
use site_state::{Listing, PathMap};
use std::alloc::{AllocError, Global};

/// A number that an entry may have.
fn in_range(number: u64) -> u64
    ensures { IsNumber result }
{
    number % 1_000_000 + 1
}

/// An entry that cancels the deploy after that of this number, of the site `one`.
pub(crate) fn cancelling(number: u64) -> Result<Entry>
    ensures { IfOk result (λ entry. IsInRange entry) }
{
    let site = SiteName::new("one")?;
    let number = in_range(number);
    Ok(Entry::Change(Command::Cancel { site, number }))
}

/// The path of a number, with a letter before it.
fn path(alloc: Global, letter: &str, number: u64) -> Result<FilePath> {
    let text = format!(in alloc; "/{letter}/{number}.txt")?;
    Ok(FilePath::read(alloc, text.as_str())?)
}

/// A listing of one file, or in a patch of its removal.
fn listing(alloc: Global, number: u64) -> Result<Listing>
    ensures { IfOk result (λ listing. length listing.1 ≤ 10000) }
{
    let is_patch = number % 4 == 1;
    let listed = if is_patch {
        None
    } else {
        Some(Digest::of_bytes(path(alloc, "c", number)?.as_str().as_bytes()))
    };
    let paths = one_path(alloc, path(alloc, "a", number)?, listed)?;
    Ok(Listing::new(is_patch, paths)?)
}

fn one_path(
    alloc: Global,
    path: FilePath,
    listed: Option<Digest>,
) -> Result<PathMap<Option<Digest>>, AllocError>
    ensures { IfOk result (λ paths. length paths ≡ 1) }
{
    PathMap::from_sorted(alloc, vec![in alloc; (path, listed)]?)
}

/// A change that names a deploy alone, of this kind.
fn command_on_deploy(site: SiteName, kind: u64, number: u64) -> Command
    requires { IsNumber number }
    ensures { IsCommandInRange result }
{
    match kind {
        2 => Command::Publish { site, number },
        3 => Command::Cancel { site, number },
        8 => Command::Restore { site, number },
        _ => Command::RemoveDeploy { site, number },
    }
}

/// How many kinds of entries there are.
const KINDS: u64 = 11;

/// The change of a number, of the kind that is its remainder.
fn command(alloc: Global, site: SiteName, number: u64) -> Result<Command>
    ensures { IfOk result (λ command. IsCommandInRange command) }
{
    let name = AliasName::new("next")?;
    match number % KINDS {
        1 => {
            let files = listing(alloc, number)?;
            let auto = number % 3 == 0;
            Ok(Command::Open { site, files, auto })
        }
        4 => Ok(Command::MoveAlias {
            site,
            name,
            number: in_range(number),
        }),
        5 => Ok(Command::RemoveAlias { site, name }),
        6 => Ok(Command::Rename {
            site,
            source: path(alloc, "a", number)?,
            target: path(alloc, "b", number)?,
        }),
        7 => Ok(Command::Remove {
            site,
            path: path(alloc, "a", number)?,
        }),
        10 => Ok(Command::RenameFolder {
            site,
            source: path(alloc, "a", number)?,
            target: path(alloc, "b", number)?,
        }),
        kind => Ok(command_on_deploy(site, kind, in_range(number))),
    }
}

/// The entry of a number, from 1 on: of the kind that is its remainder by 11, an undo where that is 0, in the site `site-` and the number.
pub(crate) fn numbered(alloc: Global, number: u64) -> Result<Entry>
    ensures { IfOk result (λ entry. IsInRange entry) }
{
    let name = format!(in alloc; "site-{number}")?;
    let site = SiteName::new(name.as_str())?;
    if number % KINDS == 0 {
        return Ok(Entry::Undo {
            site,
            change: in_range(number),
        });
    }
    Ok(Entry::Change(command(alloc, site, number)?))
}

/// Adds a path of so many bytes, which has its number at its end, and a digest.
fn push_path(
    text: &mut Vec<u8>,
    alloc: Global,
    number: u32,
    bytes: usize,
) -> Result<(), AllocError> {
    let end = format!(in alloc; "{number:05}")?;
    text.extend_from_slice(&(bytes.min(65_535) as u16).to_be_bytes())?;
    text.push(b'/')?;
    text.resize(text.len().saturating_add(bytes).saturating_sub(6), b'a')?;
    text.extend_from_slice(end.as_bytes())?;
    text.push(1)?;
    text.extend_from_slice(&[255; 20])
}

/// The text of an opening of so many paths of so many bytes each.
pub(crate) fn opening_text(alloc: Global, paths: u32, bytes: usize) -> Result<Vec<u8>, AllocError> {
    let mut text = Vec::from_slice(alloc, b"\x01\x03one\x00")?;
    text.extend_from_slice(&paths.to_be_bytes())?;
    for number in 0..paths {
        push_path(&mut text, alloc, number, bytes)?;
    }
    Ok(text)
}
