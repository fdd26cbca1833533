//! Hosts that measurements are made on, and what is put to them.
ghost use Rattle.std.specs.Prelude.{◌≡◌};

use crate::calls::files::{Contents, content, listing, one_file, path};
use anyhow::{Error, Result, anyhow};
use blob_store::MemShelf;
use host_answers::House;
use host_api::Refusal;
use host_disk::MemDisk;
use host_names::{AliasName, Digest, FilePath, SiteName};
use host_server::Server;
use site_change::{Command, Entry, MOST_FILES};
use site_state::Listing;
use std::alloc::Global;
use std::ops::Range;

/// A file that is to be uploaded to a deploy.
#[derive(Drop)]
pub(crate) struct Upload {
    pub(crate) deploy: u64,
    pub(crate) path: FilePath,
    pub(crate) bytes: Vec<u8>,
}

/// What a refusal ends a measurement with; none expects one.
fn unexpected(refusal: Refusal) -> Error {
    anyhow!("the host refused it: {}", refusal.name())
}

/// Makes a command the next entry, and answers its number.
fn change(server: &mut Server<MemShelf, MemDisk>, command: Command) -> Result<u64> {
    server.commit(command).map_err(|why| unexpected(why.into()))
}

/// Uploads the bytes as the file at a path of a deploy.
fn upload_one(
    server: &mut Server<MemShelf, MemDisk>,
    deploy: u64,
    path: &FilePath,
    bytes: &[u8],
) -> Result<()> {
    let site = SiteName::new("one")?;
    let _ = server
        .upload(&site, deploy, path, bytes)
        .map_err(unexpected)?;
    Ok(())
}

/// Whether the deploy that an entry opened lacks nothing. It lists what is lacking, as the reply to an opening does.
fn lacks_nothing(alloc: Global, server: &Server<MemShelf, MemDisk>, number: u64) -> Result<bool> {
    match server.log().entry(number) {
        Some(Entry::Change(Command::Open { files, .. })) => {
            Ok(server.missing(alloc, files)?.as_slice().is_empty())
        }
        _ => Err(anyhow!("an opening opened nothing")),
    }
}

/// Opens a deploy of what is listed, and publishes it if it lacks nothing. It answers the deploy's number.
fn open_listing(
    alloc: Global,
    server: &mut Server<MemShelf, MemDisk>,
    files: Listing,
) -> Result<u64> {
    let opening = Command::Open {
        site: SiteName::new("one")?,
        files,
        auto: true,
    };
    let number = change(server, opening)?;
    if lacks_nothing(alloc, server, number)? {
        let site = SiteName::new("one")?;
        let _ = change(server, Command::Publish { site, number })?;
    }
    Ok(number)
}

/// Opens a deploy that adds these files to the site, and answers its number.
pub(crate) fn open(
    alloc: Global,
    server: &mut Server<MemShelf, MemDisk>,
    files: Range<u64>,
    contents: Contents,
) -> Result<u64> {
    open_listing(alloc, server, listing(alloc, true, files, contents)?)
}

/// Keeps a deploy of one file, which is uploaded, and answers its number.
pub(crate) fn keep(
    alloc: Global,
    server: &mut Server<MemShelf, MemDisk>,
    file: u64,
) -> Result<u64> {
    let end = file.saturating_add(1);
    let deploy = open_listing(
        alloc,
        server,
        listing(alloc, false, file..end, Contents::Own)?,
    )?;
    let mut planned = Vec::new(alloc);
    plan(alloc, &mut planned, deploy, file..end)?;
    upload_all(server, planned)?;
    Ok(deploy)
}

/// Makes the site serve a file of these bytes as well, at the path of a number.
pub(crate) fn add_file(
    alloc: Global,
    server: &mut Server<MemShelf, MemDisk>,
    number: u64,
    bytes: Vec<u8>,
) -> Result<()> {
    let listing = one_file(alloc, number, Digest::of_bytes(bytes.as_slice()))?;
    let deploy = open_listing(alloc, server, listing)?;
    upload_one(server, deploy, &path(alloc, number)?, bytes.as_slice())
}

/// Makes the site serve a file of these bytes, the first.
pub(crate) fn serve_file(
    alloc: Global,
    server: &mut Server<MemShelf, MemDisk>,
    bytes: Vec<u8>,
) -> Result<()> {
    add_file(alloc, server, 0, bytes)
}

/// Moves an alias of the site to a deploy.
pub(crate) fn move_alias(server: &mut Server<MemShelf, MemDisk>, number: u64) -> Result<()> {
    let site = SiteName::new("one")?;
    let name = AliasName::new("next")?;
    let _ = change(server, Command::MoveAlias { site, name, number })?;
    Ok(())
}

/// Adds the uploads of these files to a deploy.
pub(crate) fn plan(
    alloc: Global,
    planned: &mut Vec<Upload>,
    deploy: u64,
    files: Range<u64>,
) -> Result<()> {
    for number in files {
        planned.push(Upload {
            deploy,
            path: path(alloc, number)?,
            bytes: content(alloc, number)?,
        })?;
    }
    Ok(())
}

/// Uploads each of these, in their order.
pub(crate) fn upload_all(
    server: &mut Server<MemShelf, MemDisk>,
    uploads: Vec<Upload>,
) -> Result<()> {
    for planned in uploads {
        let Upload {
            deploy,
            path,
            bytes,
        } = planned;
        upload_one(server, deploy, &path, bytes.as_slice())?;
    }
    Ok(())
}

/// Opens a deploy of these files, and uploads all of them.
pub(crate) fn fill(
    alloc: Global,
    server: &mut Server<MemShelf, MemDisk>,
    files: Range<u64>,
) -> Result<()> {
    let deploy = open(alloc, server, files.start..files.end, Contents::Own)?;
    let mut planned = Vec::new(alloc);
    plan(alloc, &mut planned, deploy, files)?;
    upload_all(server, planned)
}

/// Makes the site serve so many files, all of one content, which is uploaded.
pub(crate) fn serve(
    alloc: Global,
    server: &mut Server<MemShelf, MemDisk>,
    count: u64,
) -> Result<()> {
    fill(alloc, server, 0..1)?;
    for first in (0..count).step_by(MOST_FILES) {
        let end = count.min(first.saturating_add(MOST_FILES as u64));
        let _ = open(alloc, server, first..end, Contents::First)?;
    }
    Ok(())
}

/// Renames the first file of the site, or renames it back.
pub(crate) fn rename(
    alloc: Global,
    server: &mut Server<MemShelf, MemDisk>,
    back: bool,
) -> Result<()> {
    let here = path(alloc, 0)?;
    let there = FilePath::read(alloc, "/renamed")?;
    let (source, target) = if back { (there, here) } else { (here, there) };
    let site = SiteName::new("one")?;
    let _ = change(
        server,
        Command::Rename {
            site,
            source,
            target,
        },
    )?;
    Ok(())
}
