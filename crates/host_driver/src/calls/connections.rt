//! Connections over memory: their replies are counted, and kept nowhere.
ghost use Rattle.std.specs.Prelude.{◌≡◌, None};

use anyhow::{Result, anyhow};
use blob_store::MemShelf;
use host_connection::serve_connection;
use host_disk::MemDisk;
use host_server::Server;
use http_wire::{Pair, Sink, WriteFailed};
use std::alloc::{AllocError, Global};
use std::time::{Duration, Instant};

/// How many requests a connection has, at most.
pub(crate) const REQUESTS: u64 = 100;

/// A GET of the first file of the site, but for the empty line at its end.
const GET: &str = "GET /s/one/00000000 HTTP/1.1\r\nHost: localhost\r\n";

/// Four stretches of 16 KiB, each in a piece of its own of a file of 320 KiB.
const PLACES: [&str; 4] = [
    "16384-32767",
    "98304-114687",
    "180224-196607",
    "262144-278527",
];

/// How many bytes these have together.
const PLACES_SIZE: u64 = 65_536;

/// How often a connection asks for all of these.
pub(crate) const TURNS: u64 = 25;

/// How many bytes were written. They are kept nowhere, so a write never fails.
#[derive(Debug, Drop)]
struct Counting(u64);

impl Sink for Counting {
    ghost held = { λ _. None };

    ghost may_fail = { ⊥ };

    fn write_some(&mut self, bytes: &[u8]) -> Result<usize, WriteFailed> {
        self.0 = self.0.saturating_add(bytes.len() as u64);
        Ok(bytes.len())
    }
}

/// The requests of a connection: as many GETs as it may have.
fn gets(alloc: Global) -> Result<String, AllocError> {
    let mut requests = String::new(alloc);
    for _ in 0..REQUESTS {
        requests.push_str(GET)?;
        requests.push_str("\r\n")?;
    }
    Ok(requests)
}

/// The requests of a connection: a GET of each of the first files of the site.
fn gets_in_turn(alloc: Global, files: u64) -> Result<String, AllocError> {
    let mut requests = String::new(alloc);
    for number in 0..files {
        let line = format!(in alloc; "GET /s/one/{number:08} HTTP/1.1\r\n")?;
        requests.push_str(line.as_str())?;
        requests.push_str("Host: localhost\r\n\r\n")?;
    }
    Ok(requests)
}

/// Adds a GET of these stretches of the file.
fn push_range_get(requests: &mut String, places: &[&str]) -> Result<(), AllocError> {
    requests.push_str(GET)?;
    let mut before = "Range: bytes=";
    for place in places {
        requests.push_str(before)?;
        requests.push_str(place)?;
        before = ",";
    }
    requests.push_str("\r\n\r\n")
}

/// The requests of a connection for the four stretches, each of which asks for so many of them.
fn range_gets(alloc: Global, each: usize) -> Result<String, AllocError> {
    let mut requests = String::new(alloc);
    for _ in 0..TURNS {
        for places in PLACES.chunks(each.max(1)) {
            push_range_get(&mut requests, places)?;
        }
    }
    Ok(requests)
}

/// Answers the requests of a connection, by so many bytes at least.
fn read_all(
    alloc: Global,
    server: &mut Server<MemShelf, MemDisk>,
    requests: &str,
    least: u64,
) -> Result<()> {
    let mut duplex = Pair {
        source: requests.as_bytes(),
        sink: Counting(0),
    };
    serve_connection(alloc, &mut duplex, server)?;
    if duplex.sink.0 < least {
        return Err(anyhow!("a file was not served"));
    }
    Ok(())
}

/// The time of so many connections of these requests, each of which is answered by so many bytes at least.
fn time_requests(
    rt: &HostRuntime,
    server: &mut Server<MemShelf, MemDisk>,
    requests: &str,
    least: u64,
    times: u64,
) -> Result<Duration> {
    let begun = Instant::now(rt)?;
    for _ in 0..times {
        read_all(rt.alloc(), server, requests, least)?;
    }
    Ok(begun.elapsed(rt)?)
}

/// The time of so many connections of GETs of the first file, which has so many bytes. A reply has at least these.
pub(crate) fn time_gets(
    rt: &HostRuntime,
    server: &mut Server<MemShelf, MemDisk>,
    bytes: u64,
    times: u64,
) -> Result<Duration> {
    let requests = gets(rt.alloc())?;
    let least = REQUESTS.saturating_mul(bytes);
    time_requests(rt, server, requests.as_str(), least, times)
}

/// The time of one connection that reads each of the first files once, which have so many bytes each.
pub(crate) fn time_first_gets(
    rt: &HostRuntime,
    server: &mut Server<MemShelf, MemDisk>,
    files: u64,
    bytes: u64,
) -> Result<Duration> {
    let requests = gets_in_turn(rt.alloc(), files)?;
    let least = files.saturating_mul(bytes);
    time_requests(rt, server, requests.as_str(), least, 1)
}

/// The time of so many connections for the four stretches, of which each request asks for so many.
pub(crate) fn time_ranges(
    rt: &HostRuntime,
    server: &mut Server<MemShelf, MemDisk>,
    each: usize,
    times: u64,
) -> Result<Duration> {
    let requests = range_gets(rt.alloc(), each)?;
    let least = TURNS.saturating_mul(PLACES_SIZE);
    time_requests(rt, server, requests.as_str(), least, times)
}
