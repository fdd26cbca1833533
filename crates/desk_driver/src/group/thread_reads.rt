//! Reads of chunks by threads that share a node.
use crate::group::Measured;
use crate::group::chunks::{CHUNK, ChunkMaker, assert_loaded_once, names};
use anyhow::{Result, anyhow};
use chunk_group::{Counter, Group};
use host_names::Digest;
use peer_link::NoLink;
use peer_ring::{DigestHash, Ring};
use std::alloc::{AllocError, Global};
use std::sync::Wait;
use std::sync::atomic::{AtomicU64, Ordering};
use std::thread;
use std::thread::Threads;
use std::time::{Clock, Instant};

/// How many chunks are read in turn.
const CHUNKS: usize = 64;

/// How often each thread reads all of them.
const ROUNDS: u64 = 200;

type Node<'a> = Group<DigestHash, ChunkMaker<'a>, NoLink, Counter>;

/// What a thread does before each read.
pub(crate) trait Looker: Send + Drop {
    /// The same for another thread.
    fn again(&self) -> Result<Self>;

    /// Looks.
    fn look(&mut self) -> Result<()>;
}

/// Nothing is done before a read.
#[derive(Clone, Copy, Drop)]
pub(crate) struct NoLook;

impl Looker for NoLook {
    fn again(&self) -> Result<NoLook> {
        Ok(NoLook)
    }

    fn look(&mut self) -> Result<()> {
        Ok(())
    }
}

/// How many bytes the threads have copied, and how many threads failed.
#[derive(Drop)]
struct Tally {
    copied: AtomicU64,
    failed: AtomicU64,
}

/// A node that is alone in its ring, and has room for all chunks.
fn lone_node<'a>(alloc: Global, source: ChunkMaker<'a>) -> Result<Node<'a>> {
    let ring = Ring::new(alloc, &["node0"], &DigestHash)?;
    let limit = CHUNKS * (CHUNK + 40);
    Ok(Group::new(alloc, limit, ring, 0, source, NoLink, Counter::new())?)
}

/// Reads the chunks of these names, with a look before each, copies each into the buffer, and counts the bytes.
fn copy_all<R: Wait, V: Looker>(
    rt: &R,
    node: &Node<'_>,
    names: &[Digest],
    looker: &mut V,
    buffer: &mut Vec<u8>,
) -> Result<u64> {
    let mut copied = 0u64;
    for name in names {
        looker.look()?;
        let chunk = node.get(rt, name)?;
        buffer.clear();
        buffer.extend_from_slice(chunk.view().bytes())?;
        copied = copied.wrapping_add(buffer.len() as u64);
    }
    Ok(copied)
}

/// All reads of one thread, into a buffer of its own.
fn copy_rounds<R: Wait, V: Looker>(
    rt: &R,
    alloc: Global,
    node: &Node<'_>,
    names: &[Digest],
    looker: &mut V,
) -> Result<u64> {
    let mut buffer = Vec::with_capacity(alloc, CHUNK)?;
    let mut copied = 0u64;
    for _ in 0..ROUNDS {
        copied = copied.wrapping_add(copy_all(rt, node, names, looker, &mut buffer)?);
    }
    Ok(copied)
}

/// What a thread does.
fn read_and_tell<R: Wait, V: Looker>(
    rt: &R,
    alloc: Global,
    node: &Node<'_>,
    names: &[Digest],
    looker: V,
    tally: &Tally,
) {
    let mut looker = looker;
    match copy_rounds(rt, alloc, node, names, &mut looker) {
        Ok(copied) => tally.copied.fetch_add(copied, Ordering::SeqCst),
        Err(_) => tally.failed.fetch_add(1, Ordering::SeqCst),
    };
}

/// Threads that read, one for each looker. A looker for which no thread can be made is used in this one.
fn run_threads<R: Threads + Wait + Sync, V: Looker>(
    rt: &R,
    alloc: Global,
    node: &Node<'_>,
    names: &[Digest],
    lookers: Vec<V>,
    tally: &Tally,
) -> Result<(), AllocError> {
    thread::map_vec(
        rt,
        lookers,
        &|looker: V| read_and_tell(rt, alloc, node, names, looker, tally),
    )?;
    Ok(())
}

impl Tally {
    fn new() -> Tally {
        Tally {
            copied: AtomicU64::new(0),
            failed: AtomicU64::new(0),
        }
    }
}

/// A looker for each of so many threads.
fn lookers_of<V: Looker>(alloc: Global, looker: &V, threads: u64) -> Result<Vec<V>> {
    let mut lookers = Vec::new(alloc);
    for _ in 0..threads {
        lookers.push(looker.again()?)?;
    }
    Ok(lookers)
}

/// The time of the reads by these lookers, a thread for each, through a node that has all chunks.
fn time_all<R: Threads + Wait + Clock + Sync, V: Looker>(
    rt: &R,
    alloc: Global,
    node: &Node<'_>,
    names: &[Digest],
    lookers: Vec<V>,
) -> Result<Measured> {
    let tally = Tally::new();
    let begun = Instant::now(rt)?;
    run_threads(rt, alloc, node, names, lookers, &tally)?;
    let took = begun.elapsed(rt)?;
    if tally.failed.load(Ordering::SeqCst) > 0 {
        return Err(anyhow!("a thread failed"));
    }
    Ok(Measured {
        took,
        sum: tally.copied.load(Ordering::SeqCst),
    })
}

/// The same through a node over this source, by which each chunk is read once before.
fn time_node<R: Threads + Wait + Clock + Sync, V: Looker>(
    rt: &R,
    alloc: Global,
    source: ChunkMaker<'_>,
    names: &[Digest],
    lookers: Vec<V>,
) -> Result<Measured> {
    let node = lone_node(alloc, source)?;
    let _ = copy_all(rt, &node, names, &mut NoLook, &mut Vec::new(alloc))?;
    time_all(rt, alloc, &node, names, lookers)
}

/// The time of the reads of so many threads, of chunks that were each read once before. Before each read a thread does what its looker does.
pub(crate) fn time_threads<R: Threads + Wait + Clock + Sync, V: Looker>(
    rt: &R,
    alloc: Global,
    threads: u64,
    looker: &V,
) -> Result<Measured> {
    let names = names(alloc, CHUNKS)?;
    let loads = AtomicU64::new(0);
    let source = ChunkMaker::new(alloc, names.as_slice(), &loads);
    let lookers = lookers_of(alloc, looker, threads)?;
    let measured = time_node(rt, alloc, source, names.as_slice(), lookers)?;
    assert_loaded_once(&loads, CHUNKS)?;
    Ok(measured)
}
