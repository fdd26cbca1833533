//! Many reads of many chunks through a node that threads share.
ghost use Rattle.std.specs.Prelude.{⊤};

use super::fixtures::{Gift, Giver, chunk_of, is_chunk_of, names, number_of};
use super::gates::assert_count;
use super::node_fixtures::first_node;
use byte_view::Chunk;
use chunk_group::{Counter, Group, Outcome, Source};
use chunk_reads::ReadFault;
use host_names::Digest;
use peer_link::{NoLink, PeerLink};
use peer_ring::DigestHash;
use std::alloc::{AllocError, Global};
use std::process::Abort;
use std::sync::Wait;
use std::sync::atomic::{AtomicU64, Ordering};
use std::test::Fail;
use std::thread;
use std::thread::Threads;

/// How many chunks the threads read in turn, all in one order, so that they often come to one at a time.
const CHUNKS: usize = 1000;

/// How many chunks they read that are drawn.
const DRAWN_CHUNKS: usize = 64;

/// How many reads of those each of them makes.
const READS: usize = 2000;

/// What a source has and has done. It may fail at one in four calls.
#[derive(Drop)]
struct Stock {
    names: Vec<Digest>,
    fails: bool,
    loading: Vec<AtomicU64>,
    failed: Vec<AtomicU64>,
    loads: AtomicU64,
    overlaps: AtomicU64,
    wrong: AtomicU64,
    faults: AtomicU64,
    refused: AtomicU64,
}

fn counts(alloc: Global, count: usize) -> Result<Vec<AtomicU64>, AllocError> {
    let mut counts = Vec::new(alloc);
    for _ in 0..count {
        counts.push(AtomicU64::new(0))?;
    }
    Ok(counts)
}

/// Adds to a count, and answers what it was.
fn add(counts: &[AtomicU64], number: usize, by: u64) -> u64 {
    match counts.get(number) {
        Some(count) => count.fetch_add(by, Ordering::SeqCst),
        None => 0,
    }
}

/// The next of numbers that look as if drawn.
fn drawn(state: u32) -> u32 {
    state.wrapping_mul(1_664_525).wrapping_add(1_013_904_223)
}

/// The fault at each load of a chunk that fails.
fn fault_of(number: usize) -> ReadFault {
    match number % 3 {
        0 => ReadFault::Missing,
        1 => ReadFault::Damaged,
        _ => ReadFault::Device,
    }
}

impl Stock {
    fn new(alloc: Global, count: usize, fails: bool) -> Result<Stock, AllocError> {
        Ok(Stock {
            names: names(alloc, count)?,
            fails,
            loading: counts(alloc, count)?,
            failed: counts(alloc, count)?,
            loads: AtomicU64::new(0),
            overlaps: AtomicU64::new(0),
            wrong: AtomicU64::new(0),
            faults: AtomicU64::new(0),
            refused: AtomicU64::new(0),
        })
    }

    /// What a call of the source gives. The chunk of a name that is damaged is another one.
    fn give(&self, alloc: Global, number: usize) -> Result<Chunk, ReadFault> {
        let call = self.loads.fetch_add(1, Ordering::SeqCst);
        if !self.fails || (drawn((call % 1000) as u32) >> 16) % 4 > 0 {
            return chunk_of(alloc, number);
        }
        add(self.failed.as_slice(), number, 1);
        match fault_of(number) {
            ReadFault::Damaged => chunk_of(alloc, number.wrapping_add(1)),
            fault => Err(fault),
        }
    }

    /// Counts a read that was not answered as it may be.
    fn note(&self, alloc: Global, given: &Outcome, number: usize) {
        let is_right = match given {
            Err(ReadFault::OutOfMemory) => {
                self.refused.fetch_add(1, Ordering::SeqCst);
                true
            }
            Err(fault) => {
                self.faults.fetch_add(1, Ordering::SeqCst);
                *fault == fault_of(number) && add(self.failed.as_slice(), number, 0) > 0
            }
            Ok(_) => is_chunk_of(alloc, given, number).unwrap_or(true),
        };
        if !is_right {
            self.wrong.fetch_add(1, Ordering::SeqCst);
        }
    }

    /// That each read was answered as it may be, and no two loads of one key overlapped.
    fn assert_right(&self, rt: &impl Abort) -> Result<(), Fail> {
        if self.refused.load(Ordering::SeqCst) > 0 {
            return Err(Fail::from("OutOfMemory"));
        }
        assert_count(rt, &self.wrong, 0, "answers that are wrong");
        assert_count(rt, &self.overlaps, 0, "loads of one key at a time");
        Ok(())
    }
}

#[derive(Clone, Copy)]
struct StockSource<'a> {
    alloc: Global,
    stock: &'a Stock,
}

impl Source for StockSource<'_> {
    ghost allows = { λ _ _. ⊤ };

    ghost loaded = { λ _ _ _ _. Unit {0} };

    fn load(&mut self, key: &Digest) -> Result<Chunk, ReadFault> {
        let number = number_of(self.stock.names.as_slice(), key).ok_or(ReadFault::Missing)?;
        if add(self.stock.loading.as_slice(), number, 1) > 0 {
            self.stock.overlaps.fetch_add(1, Ordering::SeqCst);
        }
        if self.stock.fails {
            thread::yield_now();
        }
        let given = self.stock.give(self.alloc, number);
        add(self.stock.loading.as_slice(), number, u64::MAX);
        given
    }
}

type StockNode<'a, L> = Group<DigestHash, StockSource<'a>, L, Counter>;

/// Reads the chunk of a number.
fn visit<R: Wait, L: PeerLink + Copy + Drop>(
    rt: &R,
    node: &StockNode<'_, L>,
    source: StockSource<'_>,
    number: usize,
) {
    if let Some(name) = source.stock.names.get(number) {
        let given = node.get(rt, name);
        source.stock.note(source.alloc, &given, number);
    }
}

/// Reads each chunk once, in order; or where the source may fail, chunks that are drawn from a seed.
fn visit_some<R: Wait, L: PeerLink + Copy + Drop>(
    rt: &R,
    node: &StockNode<'_, L>,
    source: StockSource<'_>,
    seed: u32,
) {
    if !source.stock.fails {
        for number in 0..CHUNKS {
            visit(rt, node, source, number);
        }
        return;
    }
    let mut state = seed;
    for _ in 0..READS {
        state = drawn(state);
        visit(rt, node, source, (state >> 16) as usize % DRAWN_CHUNKS);
    }
}

/// Eight threads that read. One that can't be made counts as refused.
fn visit_all<R: Threads + Wait + Sync, L: PeerLink + Copy + Drop + Sync>(
    rt: &R,
    node: &StockNode<'_, L>,
    source: StockSource<'_>,
) {
    thread::scope(thread::scope_env(), rt, |scope| {
        for seed in 0..8u32 {
            if scope
                .spawn(move || visit_some(rt, node, source, seed))
                .is_err()
            {
                source.stock.refused.fetch_add(1, Ordering::SeqCst);
            }
        }
    });
}

/// Eight threads that read through a node that is alone, and has room for all chunks.
fn visit_alone<R: Threads + Wait + Sync>(rt: &R, source: StockSource<'_>) -> Result<(), Fail> {
    let node = first_node(source.alloc, 1_000_000, &["node0"], source, NoLink)?;
    visit_all(rt, &node, source);
    Ok(())
}

/// Asserts that each chunk of a source that doesn't fail is loaded once.
fn assert_loaded_once<R: Threads + Wait + Abort + Sync>(
    rt: &R,
    source: StockSource<'_>,
) -> Result<(), Fail> {
    visit_alone(rt, source)?;
    source.stock.assert_right(rt)?;
    assert_count(rt, &source.stock.loads, CHUNKS as u64, "loads");
    assert_count(rt, &source.stock.faults, 0, "faults");
    Ok(())
}

#[test]
fn a_chunk_that_is_kept_is_loaded_once(rt: HostRuntime) -> Result<(), Fail> {
    let alloc = rt.alloc();
    let stock = Stock::new(alloc, CHUNKS, false)?;
    let source = StockSource {
        alloc,
        stock: &stock,
    };
    assert_loaded_once(&rt, source)
}

/// What the peer gives, in turn.
const FETCHES: [Gift; 4] = [Gift::Right, Gift::Other, Gift::Short, Gift::Nothing];

/// Eight threads that read through a node that has a peer, and room for few chunks.
fn visit_with_peer<R: Threads + Wait + Sync>(rt: &R, source: StockSource<'_>) -> Result<(), Fail> {
    let alloc = source.alloc;
    let calls = AtomicU64::new(0);
    let link = Giver::new(alloc, source.stock.names.as_slice(), &FETCHES, &calls);
    let node = first_node(alloc, 2000, &["node0", "node1"], source, link)?;
    visit_all(rt, &node, source);
    Ok(())
}

/// Asserts that reads through a node that has a peer, over a source that fails, are right or fail as that did.
fn assert_right_or_failed<R: Threads + Wait + Abort + Sync>(
    rt: &R,
    source: StockSource<'_>,
) -> Result<(), Fail> {
    visit_with_peer(rt, source)?;
    source.stock.assert_right(rt)?;
    assert!(rt; source.stock.faults.load(Ordering::SeqCst) > 0);
    Ok(())
}

#[test]
fn each_read_is_right_or_fails_as_the_source_did(rt: HostRuntime) -> Result<(), Fail> {
    let alloc = rt.alloc();
    let stock = Stock::new(alloc, DRAWN_CHUNKS, true)?;
    let source = StockSource {
        alloc,
        stock: &stock,
    };
    assert_right_or_failed(&rt, source)
}
