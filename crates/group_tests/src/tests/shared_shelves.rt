//! Nodes over one shelf, each read through by a thread of its own.

use super::fixtures::{bytes_of, is_chunk_of, names};
use super::gates::assert_count;
use super::node_fixtures::first_node;
use blob_store::{
    AbsenceReceipt, BlobIndex, Files, LockedAccess, MemShelf, PutReceipt, ShelfAccess,
};
use chunk_group::{Counter, Group, SharedSource, Source};
use chunk_reads::ReadFault;
use host_names::Digest;
use peer_link::NoLink;
use peer_ring::DigestHash;
use std::alloc::Global;
use std::process::Abort;
use std::sync::atomic::{AtomicU64, Ordering};
use std::sync::{Mutex, Wait};
use std::test::Fail;
use std::thread;
use std::thread::Threads;

/// How many chunks the shelf has. Reads are of one more.
const CHUNKS: usize = 8;

type ShelfNode<S> = Group<DigestHash, S, NoLink, Counter>;

/// A shelf with these chunks, each of which is a file.
fn files(alloc: Global) -> Result<Files<MemShelf>, Fail> {
    let mut files = Files::new(alloc, MemShelf::new(alloc));
    let known = BlobIndex::new(alloc);
    for number in 0..CHUNKS {
        let bytes = bytes_of(alloc, number)?;
        files.put(&known, Digest::of_bytes(bytes.as_slice()), bytes.as_slice())?;
    }
    Ok(files)
}

fn node<S: Source + Copy>(alloc: Global, source: S) -> Result<ShelfNode<S>, Fail> {
    first_node(alloc, 10_000, &["node0"], source, NoLink)
}

/// Reads each chunk twice, and counts the right answers.
fn visit<R: Wait, S: Source + Copy>(
    rt: &R,
    alloc: Global,
    node: &ShelfNode<S>,
    names: &[Digest],
    right: &AtomicU64,
) {
    for (number, name) in names.iter().enumerate() {
        for _ in 0..2 {
            let given = node.get(rt, name);
            let is_right = match &given {
                Err(fault) => number == CHUNKS && *fault == ReadFault::Missing,
                Ok(_) => number < CHUNKS && is_chunk_of(alloc, &given, number).unwrap_or(false),
            };
            if is_right {
                right.fetch_add(1, Ordering::SeqCst);
            }
        }
    }
}

/// A thread for each node. One that can't be made counts nothing.
fn visit_both<R: Threads + Wait + Sync, S: Source + Copy + Send + Sync>(
    rt: &R,
    alloc: Global,
    nodes: (&ShelfNode<S>, &ShelfNode<S>),
    names: &[Digest],
    right: &AtomicU64,
) {
    let (first, second) = nodes;
    thread::scope(thread::scope_env(), rt, |scope| {
        let _ = scope.spawn(move || visit(rt, alloc, first, names, right));
        let _ = scope.spawn(move || visit(rt, alloc, second, names, right));
    });
}

/// Reads through this node, and through another over the same shelf.
fn visit_beside<R: Threads + Wait + Sync, S: Source + Copy + Send + Sync>(
    rt: &R,
    alloc: Global,
    source: S,
    first: &ShelfNode<S>,
    names: &[Digest],
    right: &AtomicU64,
) -> Result<(), Fail> {
    let second = node(alloc, source)?;
    visit_both(rt, alloc, (first, &second), names, right);
    Ok(())
}

/// Reads through two nodes over this shelf.
fn visit_shelf<R: Threads + Wait + Sync, S: Source + Copy + Send + Sync>(
    rt: &R,
    alloc: Global,
    source: S,
    names: &[Digest],
    right: &AtomicU64,
) -> Result<(), Fail> {
    let first = node(alloc, source)?;
    visit_beside(rt, alloc, source, &first, names, right)
}

fn assert_shared<
    R: Threads + Wait + Abort + Sync,
    Q: ShelfAccess<MemShelf, U, N> + Sync,
    U: PutReceipt + Drop + Send + Sync,
    N: AbsenceReceipt + Drop + Send + Sync,
>(rt: &R, alloc: Global, files: &Mutex<Files<MemShelf>>, access: &Q) -> Result<(), Fail> {
    let names = names(alloc, CHUNKS + 1)?;
    let right = AtomicU64::new(0);
    let source = SharedSource::new(rt, files, access);
    visit_shelf(rt, alloc, source, names.as_slice(), &right)?;
    assert_count(rt, &right, 36, "right answers");
    Ok(())
}

#[test]
fn nodes_that_share_a_shelf_read_it_by_turns(rt: HostRuntime) -> Result<(), Fail> {
    let files = Mutex::new(files(rt.alloc())?);
    assert_shared(&rt, rt.alloc(), &files, &LockedAccess)
}
