//! Measures calls of a ring, of flights and of a cache, as bench/groupcache.go measures groupcache's, reads through nodes, and
//! looks at a list: a run makes one measurement, and prints the nanoseconds of all its calls and the sum of their answers.

ghost use Rattle.std.specs.Prelude.{◌≡◌};

mod caches;
mod chunks;
mod costs;
mod flights;
mod looks;
mod loopback;
mod peer_reads;
mod reads;
mod rings;
mod thread_reads;

use anyhow::{Result, anyhow};
use host_names::Digest;
use looks::OfLooks;
use std::alloc::{AllocError, Global};
use std::io::Print;
use std::net::{Net, TcpListener, TcpStream};
use std::sync::Wait;
use std::thread::Threads;
use std::time::{Clock, Duration};
use thread_reads::NoLook;

/// How many keys are asked for in turn.
const KEYS: u32 = 1024;

/// What can be measured, a line each.
const LIST: &str = "list             prints this
desk STAGE DIR   plays what it reads, a line each, at a desk over the store in a folder: in steps, in threads, or while a look or a read waits
hit ROUNDS       so many look-ups of each of 1024 chunks that a cache has
owner ROUNDS     the owners of 1024 keys in a ring of 8 peers, so many times
run ROUNDS       as many flights, which nobody joins
hot ROUNDS       so many reads of each of 1024 chunks of 64 KiB that a node has in its cache
share ROUNDS     as many times a second owner of each of 1024 chunks, which a read makes at least
threads THREADS  200 reads of each of 64 such chunks by each of so many threads, which copy them
looks THREADS    the same with a look at a list before each read, which finds nothing new
look COUNT       so many such looks
own COUNT        so many further owners of what such a look shows, the least that a look does
fill PORT        a read of each of 3000 such chunks by 8 threads, through the first of three nodes, which are at PORT and the next two
far PORT         5000 reads of each of 64 such chunks that the first of these nodes keeps and another owns
digest COUNT     so many digests of such a chunk
connect COUNT    so many connections over loopback, one after another";

/// What some calls took, and the sum of their answers.
#[derive(Drop)]
struct Measured {
    took: Duration,
    sum: u64,
}

/// The keys: the digests of the first numbers in decimal.
fn keys(alloc: Global) -> Result<Vec<Digest>, AllocError> {
    let mut keys = Vec::new(alloc);
    for number in 0..KEYS {
        let text = format!(in alloc; "{number}")?;
        keys.push(Digest::of_bytes(text.as_bytes()))?;
    }
    Ok(keys)
}

/// Makes the measurement of this name: over so many rounds of these keys or of chunks, so many calls, or by so many threads.
fn measure<R: Net<Listener = TcpListener, Stream = TcpStream> + Threads + Wait + Clock + Sync>(
    rt: &R,
    alloc: Global,
    keys: &[Digest],
    name: &str,
    count: u64,
) -> Result<Measured> {
    match name {
        "hit" => caches::time_hits(rt, alloc, count),
        "owner" => rings::time_owners(rt, alloc, keys, count),
        "run" => flights::time_runs(rt, alloc, keys, count),
        "hot" => reads::time_reads(rt, alloc, count),
        "share" => reads::time_shares(rt, alloc, count),
        "threads" => thread_reads::time_threads(rt, alloc, count, &NoLook),
        "looks" => looks::time(rt, alloc, OfLooks::Reads, count),
        "look" => looks::time(rt, alloc, OfLooks::Look, count),
        "own" => looks::time(rt, alloc, OfLooks::Own, count),
        "fill" => peer_reads::time_fill(rt, alloc, count),
        "far" => peer_reads::time_hits(rt, alloc, count),
        "digest" => costs::time_digests(rt, alloc, count),
        "connect" => costs::time_connections(rt, count),
        _ => Err(anyhow!("no such measurement")),
    }
}

fn say<R: Print>(rt: &R, measured: &Measured) -> Result<()> {
    Ok(println!(rt; "{} {}", measured.took.as_nanos(), measured.sum)?)
}

/// Prints what this measurement gives.
fn measure_and_say<
    R: Net<Listener = TcpListener, Stream = TcpStream> + Threads + Wait + Clock + Print + Sync,
>(rt: &R, alloc: Global, name: &str, count: &str) -> Result<()> {
    let count = count.parse::<u64>().ok().ok_or(anyhow!("no such number"))?;
    let keys = keys(alloc)?;
    say(rt, &measure(rt, alloc, keys.as_slice(), name, count)?)
}

/// Prints what these words ask for: a measurement, or the list.
pub(crate) fn answer<
    R: Net<Listener = TcpListener, Stream = TcpStream> + Threads + Wait + Clock + Print + Sync,
>(rt: &R, alloc: Global, words: &[String]) -> Result<()> {
    match words {
        [word] if word.as_str() == "list" => Ok(println!(rt; "{LIST}")?),
        [name, count] => measure_and_say(rt, alloc, name.as_str(), count.as_str()),
        _ => Err(anyhow!("a measurement and its number are wanted, or list")),
    }
}
