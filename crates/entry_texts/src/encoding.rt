//! Entries, written as texts.
ghost use Rattle.std.specs.Prelude.{◌≡◌, ◌∷◌, ◌++◌, ◌≤◌, [], length, IfOk, OnOk, IsTrue, take};
ghost use Rattle.std.specs.Int.{w32, to_be_bytes};
ghost use Rattle.std.specs.List.{flat_map, AllByRecursion};
ghost use Rattle.entry_texts.specs.Spells.{Spells, IsName, IsPath, IsListed, IsListing, IsInRange, IsCommandInRange, IsCommand, IsWritable};
ghost use Rattle.entry_texts.specs.Spells.{name_text, path_text, number_text, digest_text, listed_text, listing_text, command_text, entry_text};

use host_names::{AliasName, Digest, FilePath, Name, SiteName};
use site_change::{Command, Entry};
use site_state::Listing;
use std::alloc::{AllocError, Global};

fn put_name(out: &mut Vec<u8>, name: &Name) -> Result<(), AllocError>
    ensures lawful { OnOk result (IsName name.now) }
    ensures bytes { OnOk result (out.new.items ≡ out.old.items ++ name_text name.now) }
{
    let text = name.as_str();
    out.push(text.len() as u8)?;
    out.extend_from_slice(text.as_bytes())?;
    Ok(())
}

fn put_path(out: &mut Vec<u8>, path: &FilePath) -> Result<(), AllocError>
    ensures lawful { OnOk result (IsPath path.now) }
    ensures bytes { OnOk result (out.new.items ≡ out.old.items ++ path_text path.now) }
{
    let text = path.as_str();
    out.extend_from_slice(&(text.len() as u16).to_be_bytes())?;
    out.extend_from_slice(text.as_bytes())?;
    Ok(())
}

fn put_number(out: &mut Vec<u8>, number: u64) -> Result<(), AllocError>
    ensures { OnOk result (out.new.items ≡ out.old.items ++ number_text number) }
{
    out.extend_from_slice(&number.to_be_bytes())?;
    Ok(())
}

fn put_digest(out: &mut Vec<u8>, digest: &Digest) -> Result<(), AllocError>
    ensures lawful { OnOk result (length digest.now.0 ≡ 20) }
    ensures bytes { OnOk result (out.new.items ≡ out.old.items ++ digest.now.0) }
{
    let bytes = digest.0;
    out.extend_from_slice(&bytes)?;
    Ok(())
}

fn put_listed(out: &mut Vec<u8>, listed: &(FilePath, Option<Digest>)) -> Result<(), AllocError>
    ensures lawful { OnOk result (IsListed listed.now) }
    ensures bytes { OnOk result (out.new.items ≡ out.old.items ++ listed_text listed.now) }
{
    put_path(out, &listed.0)?;
    match &listed.1 {
        Some(digest) => {
            out.push(1)?;
            put_digest(out, digest)
        }
        None => Ok(out.push(0)?),
    }
}

fn put_files(out: &mut Vec<u8>, files: &[(FilePath, Option<Digest>)]) -> Result<(), AllocError>
    ensures lawful { OnOk result (AllByRecursion IsListed files.now) }
    ensures bytes { OnOk result (out.new.items ≡ out.old.items ++ flat_map listed_text files.now) }
{
    for listed in files {
        put_listed(out, listed)?;
    }
    Ok(())
}

/// The flags of an opening: 1 for a patch, plus 2 for a deploy that publishes itself.
fn flags(is_patch: bool, auto: bool) -> u8
    ensures { result ≡ Rattle.entry_texts.specs.Spells.flags is_patch auto }
{
    match (is_patch, auto) {
        (false, false) => 0,
        (true, false) => 1,
        (false, true) => 2,
        (true, true) => 3,
    }
}

fn put_listing(out: &mut Vec<u8>, files: &Listing, auto: bool) -> Result<(), AllocError>
    requires few { length files.now.1 ≤ 10000 }
    ensures lawful { OnOk result (IsListing files.now) }
    ensures bytes { OnOk result (out.new.items ≡ out.old.items ++ listing_text files.now auto) }
{
    let entries = files.entries();
    out.push(flags(files.is_patch(), auto))?;
    out.extend_from_slice(&(entries.len() as u32).to_be_bytes())?;
    put_files(out, entries)
}

/// The kind of an entry, and its site.
fn put_start(out: &mut Vec<u8>, kind: u8, site: &SiteName) -> Result<(), AllocError>
    ensures lawful { OnOk result (IsName site.now.0) }
    ensures bytes { OnOk result (out.new.items ≡ out.old.items ++ (kind ∷ name_text site.now.0)) }
{
    out.push(kind)?;
    put_name(out, &site.0)
}

/// An entry that has a site and a number alone.
fn put_numbered(out: &mut Vec<u8>, kind: u8, site: &SiteName, number: u64) -> Result<(), AllocError>
    ensures lawful { OnOk result (IsName site.now.0) }
    ensures bytes { OnOk result (out.new.items ≡ out.old.items ++ (kind ∷ (name_text site.now.0 ++ number_text number))) }
{
    put_start(out, kind, site)?;
    put_number(out, number)
}

fn put_opening(
    out: &mut Vec<u8>,
    site: &SiteName,
    files: &Listing,
    auto: bool,
) -> Result<(), AllocError>
    requires few { length files.now.1 ≤ 10000 }
    ensures lawful { OnOk result (IsName site.now.0 × IsListing files.now) }
    ensures bytes { OnOk result (out.new.items ≡ out.old.items ++ (1 ∷ (name_text site.now.0 ++ listing_text files.now auto))) }
{
    put_start(out, 1, site)?;
    put_listing(out, files, auto)
}

fn put_moved_alias(
    out: &mut Vec<u8>,
    site: &SiteName,
    name: &AliasName,
    number: u64,
) -> Result<(), AllocError>
    ensures lawful { OnOk result (IsName site.now.0 × IsName name.now.0) }
    ensures bytes { OnOk result (out.new.items ≡ out.old.items ++ (4 ∷ (name_text site.now.0 ++ (name_text name.now.0 ++ number_text number)))) }
{
    put_start(out, 4, site)?;
    put_name(out, &name.0)?;
    put_number(out, number)
}

fn put_removed_alias(out: &mut Vec<u8>, site: &SiteName, name: &AliasName) -> Result<(), AllocError>
    ensures lawful { OnOk result (IsName site.now.0 × IsName name.now.0) }
    ensures bytes { OnOk result (out.new.items ≡ out.old.items ++ (5 ∷ (name_text site.now.0 ++ name_text name.now.0))) }
{
    put_start(out, 5, site)?;
    put_name(out, &name.0)
}

/// A renaming of this kind, of a file or of a folder.
fn put_renaming(
    out: &mut Vec<u8>,
    kind: u8,
    site: &SiteName,
    source: &FilePath,
    target: &FilePath,
) -> Result<(), AllocError>
    ensures lawful { OnOk result (IsName site.now.0 × (IsPath source.now × IsPath target.now)) }
    ensures bytes { OnOk result (out.new.items ≡ out.old.items ++ (kind ∷ (name_text site.now.0 ++ (path_text source.now ++ path_text target.now)))) }
{
    put_start(out, kind, site)?;
    put_path(out, source)?;
    put_path(out, target)
}

fn put_removal(out: &mut Vec<u8>, site: &SiteName, path: &FilePath) -> Result<(), AllocError>
    ensures lawful { OnOk result (IsName site.now.0 × IsPath path.now) }
    ensures bytes { OnOk result (out.new.items ≡ out.old.items ++ (7 ∷ (name_text site.now.0 ++ path_text path.now))) }
{
    put_start(out, 7, site)?;
    put_path(out, path)
}

fn put_command(out: &mut Vec<u8>, command: &Command) -> Result<(), AllocError>
    requires { IsCommandInRange command.now }
    ensures lawful { OnOk result (IsCommand command.now) }
    ensures bytes { OnOk result (out.new.items ≡ out.old.items ++ command_text command.now) }
{
    match command {
        Command::Open { site, files, auto } => put_opening(out, site, files, *auto),
        Command::Publish { site, number } => put_numbered(out, 2, site, *number),
        Command::Cancel { site, number } => put_numbered(out, 3, site, *number),
        Command::MoveAlias { site, name, number } => put_moved_alias(out, site, name, *number),
        Command::RemoveAlias { site, name } => put_removed_alias(out, site, name),
        Command::Rename {
            site,
            source,
            target,
        } => put_renaming(out, 6, site, source, target),
        Command::RenameFolder {
            site,
            source,
            target,
        } => put_renaming(out, 10, site, source, target),
        Command::Remove { site, path } => put_removal(out, site, path),
        Command::Restore { site, number } => put_numbered(out, 8, site, *number),
        Command::RemoveDeploy { site, number } => put_numbered(out, 9, site, *number),
    }
}

fn put_entry(out: &mut Vec<u8>, entry: &Entry) -> Result<(), AllocError>
    requires { IsInRange entry.now }
    ensures lawful { OnOk result (IsWritable entry.now) }
    ensures bytes { OnOk result (out.new.items ≡ out.old.items ++ entry_text entry.now) }
{
    match entry {
        Entry::Change(command) => put_command(out, command),
        Entry::Undo { site, change } => put_numbered(out, 0, site, *change),
    }
}

/// The text of an entry whose numbers are from 1 to 1,000,000 and which lists at most 10,000 paths. It has at most 10,470,070 bytes.
pub fn encode(alloc: Global, entry: &Entry) -> Result<Vec<u8>, AllocError>
    requires { IsInRange entry.now }
    ensures spelled { IfOk result (λ text. Spells text.items entry.now) }
    ensures bounded { IfOk result (λ text. length text.items ≤ 10470070) }
{
    let mut text = Vec::new(alloc);
    put_entry(&mut text, entry)?;
    Ok(text)
}
