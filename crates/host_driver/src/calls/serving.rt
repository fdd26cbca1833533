//! Measurements of a server: each puts files to it, and then takes the time of some calls.
ghost use Rattle.std.specs.Prelude.{◌≡◌};

use crate::calls::connections::{REQUESTS, TURNS, time_first_gets, time_gets, time_ranges};
use crate::calls::files::Contents;
use crate::calls::hosts::{
    Upload, add_file, fill, keep, move_alias, open, plan, rename, serve, serve_file, upload_all,
};
use crate::contents::random;
use crate::numbers::each;
use anyhow::Result;
use blob_store::MemShelf;
use host_disk::MemDisk;
use host_server::Server;
use std::alloc::Global;
use std::time::{Duration, Instant};

/// How many connections of GETs are timed in a site.
const CONNECTIONS: u64 = 1_000;

/// How many bytes a file of that site has.
const SMALL_FILE: u64 = 64;

/// How many connections of GETs of a file that is in the cache are timed.
const CACHED_CONNECTIONS: u64 = 5;

/// How many bytes the files have together that are read once: as many as the cache has room for, so that it and the shelf
/// take about 128 MiB.
const UNCACHED_BYTES: u64 = 67_108_864;

/// How many connections for ranges are timed, and of how large a file.
const RANGE_CONNECTIONS: u64 = 20;

const RANGE_FILE: usize = 5 * 65_536;

/// How many renamings are timed in a site.
const RENAMINGS: u64 = 400;

/// How many files the deploys have together to which uploads are timed.
const FILES: u64 = 10_000;

/// What is measured on a server, which has no entries at first.
#[derive(Clone, Copy)]
pub(crate) enum OfServer {
    Get,
    Cached,
    Uncached,
    Ranges,
    Rename,
    Put,
    Deploy,
    History,
    Moves,
}

impl OfServer {
    /// What this name stands for.
    pub(crate) fn named(name: &str) -> Option<OfServer> {
        match name {
            "get" => Some(OfServer::Get),
            "cached" => Some(OfServer::Cached),
            "uncached" => Some(OfServer::Uncached),
            "ranges" => Some(OfServer::Ranges),
            "rename" => Some(OfServer::Rename),
            "put" => Some(OfServer::Put),
            "deploy" => Some(OfServer::Deploy),
            "history" => Some(OfServer::History),
            "moves" => Some(OfServer::Moves),
            _ => None,
        }
    }

    /// Makes the measurement with so many files or changes, and answers its number.
    pub(crate) fn run(
        self,
        rt: &HostRuntime,
        server: &mut Server<MemShelf, MemDisk>,
        count: u64,
    ) -> Result<u128> {
        match self {
            OfServer::Get => gets(rt, server, count),
            OfServer::Cached => cached(rt, server, count),
            OfServer::Uncached => uncached(rt, server, count),
            OfServer::Ranges => ranges(rt, server, count),
            OfServer::Rename => renamings(rt, server, count, RENAMINGS),
            OfServer::Put => puts(rt, server, count),
            OfServer::Deploy => deploy(rt, server, count),
            OfServer::History => renamings(rt, server, 1, count),
            OfServer::Moves => moves(rt, server, count),
        }
    }
}

/// The time of one GET of a file in a site that serves so many.
fn gets(rt: &HostRuntime, server: &mut Server<MemShelf, MemDisk>, files: u64) -> Result<u128> {
    serve(rt.alloc(), server, files)?;
    let took = time_gets(rt, server, SMALL_FILE, CONNECTIONS)?;
    Ok(each(took, CONNECTIONS.saturating_mul(REQUESTS)))
}

/// Makes the site serve so many files of so many bytes, each of other bytes. None was read yet, so none of their chunks is in the
/// cache.
fn serve_unread(
    alloc: Global,
    server: &mut Server<MemShelf, MemDisk>,
    files: u64,
    bytes: u64,
) -> Result<()> {
    for number in 0..files {
        let content = random(alloc, bytes as usize, number.saturating_add(1))?;
        add_file(alloc, server, number, content)?;
    }
    Ok(())
}

/// The time of one GET of a file out of the cache, where the first GET puts it.
fn cached(rt: &HostRuntime, server: &mut Server<MemShelf, MemDisk>, bytes: u64) -> Result<u128> {
    serve_unread(rt.alloc(), server, 1, bytes)?;
    let _ = time_first_gets(rt, server, 1, bytes)?;
    let took = time_gets(rt, server, bytes, CACHED_CONNECTIONS)?;
    Ok(each(took, CACHED_CONNECTIONS.saturating_mul(REQUESTS)))
}

/// The time of one GET of a file whose chunks all come from the shelf.
fn uncached(rt: &HostRuntime, server: &mut Server<MemShelf, MemDisk>, bytes: u64) -> Result<u128> {
    let fitting = UNCACHED_BYTES.checked_div(bytes).unwrap_or(0);
    let files = fitting.max(1).min(REQUESTS);
    serve_unread(rt.alloc(), server, files, bytes)?;
    let took = time_first_gets(rt, server, files, bytes)?;
    Ok(each(took, files))
}

/// The time of the four ranges once, where each request asks for so many of them.
fn ranges(rt: &HostRuntime, server: &mut Server<MemShelf, MemDisk>, of_each: u64) -> Result<u128> {
    serve_file(rt.alloc(), server, random(rt.alloc(), RANGE_FILE, 1)?)?;
    let took = time_ranges(rt, server, of_each as usize, RANGE_CONNECTIONS)?;
    Ok(each(took, RANGE_CONNECTIONS.saturating_mul(TURNS)))
}

/// The time of so many renamings.
fn time_renamings(
    rt: &HostRuntime,
    server: &mut Server<MemShelf, MemDisk>,
    times: u64,
) -> Result<Duration> {
    let begun = Instant::now(rt)?;
    for turn in 0..times {
        rename(rt.alloc(), server, turn % 2 == 1)?;
    }
    Ok(begun.elapsed(rt)?)
}

/// The time of one of so many renamings in a site that serves so many files.
fn renamings(
    rt: &HostRuntime,
    server: &mut Server<MemShelf, MemDisk>,
    files: u64,
    times: u64,
) -> Result<u128> {
    serve(rt.alloc(), server, files)?;
    Ok(each(time_renamings(rt, server, times)?, times))
}

/// The time of one of so many moves of an alias between two deploys.
fn moves(rt: &HostRuntime, server: &mut Server<MemShelf, MemDisk>, times: u64) -> Result<u128> {
    let first = keep(rt.alloc(), server, 0)?;
    let second = keep(rt.alloc(), server, 1)?;
    let begun = Instant::now(rt)?;
    for turn in 0..times {
        let number = if turn % 2 == 0 { first } else { second };
        move_alias(server, number)?;
    }
    Ok(each(begun.elapsed(rt)?, times))
}

/// Opens deploys of so many files each, and gives the uploads to them but for the last of each, which would publish it.
fn plan_all(
    alloc: Global,
    server: &mut Server<MemShelf, MemDisk>,
    files: u64,
) -> Result<Vec<Upload>> {
    let mut planned = Vec::new(alloc);
    for first in (0..FILES).step_by(files.max(1) as usize) {
        let end = first.saturating_add(files);
        let deploy = open(alloc, server, first..end, Contents::Own)?;
        plan(alloc, &mut planned, deploy, first..end.saturating_sub(1))?;
    }
    Ok(planned)
}

/// The time of these uploads.
fn time_uploads(
    rt: &HostRuntime,
    server: &mut Server<MemShelf, MemDisk>,
    planned: Vec<Upload>,
) -> Result<Duration> {
    let begun = Instant::now(rt)?;
    upload_all(server, planned)?;
    Ok(begun.elapsed(rt)?)
}

/// The time of one of the uploads to open deploys of so many files, which stay open.
fn puts(rt: &HostRuntime, server: &mut Server<MemShelf, MemDisk>, files: u64) -> Result<u128> {
    let planned = plan_all(rt.alloc(), server, files)?;
    let calls = planned.len() as u64;
    Ok(each(time_uploads(rt, server, planned)?, calls))
}

/// The time of a deploy of so many files, from before its opening to its publishing.
fn deploy(rt: &HostRuntime, server: &mut Server<MemShelf, MemDisk>, files: u64) -> Result<u128> {
    let begun = Instant::now(rt)?;
    fill(rt.alloc(), server, 0..files)?;
    Ok(begun.elapsed(rt)?.as_nanos())
}
