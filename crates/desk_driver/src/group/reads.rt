//! Reads of chunks through a node that has them in its cache.
use crate::group::Measured;
use crate::group::chunks::{CHUNK, ChunkMaker, assert_loaded_once, chunk_of, names};
use anyhow::Result;
use byte_view::Chunk;
use chunk_group::{Counter, SoloGroup};
use host_names::Digest;
use peer_link::NoLink;
use peer_ring::{DigestHash, Ring};
use std::alloc::Global;
use std::sync::Arc;
use std::sync::atomic::AtomicU64;
use std::time::{Clock, Instant};

/// How many chunks are read in turn.
const CHUNKS: usize = 1024;

type Node<'a> = SoloGroup<DigestHash, ChunkMaker<'a>, NoLink, Counter>;

/// A node that is alone in its ring, and has room for all chunks.
fn lone_node<'a>(alloc: Global, source: ChunkMaker<'a>) -> Result<Node<'a>> {
    let ring = Ring::new(alloc, &["node0"], &DigestHash)?;
    let limit = CHUNKS * (CHUNK + 40);
    Ok(SoloGroup::new(alloc, limit, ring, 0, source, NoLink, Counter::new())?)
}

/// Reads the chunks of these names, and counts their bytes.
fn read_all(node: &mut Node<'_>, names: &[Digest]) -> Result<u64> {
    let mut sum = 0u64;
    for name in names {
        let chunk = node.get(name)?;
        sum = sum.wrapping_add(chunk.view().len() as u64);
    }
    Ok(sum)
}

/// The time of so many reads of all these chunks.
fn time_rounds<R: Clock>(
    rt: &R,
    node: &mut Node<'_>,
    names: &[Digest],
    rounds: u64,
) -> Result<Measured> {
    let mut sum = 0u64;
    let begun = Instant::now(rt)?;
    for _ in 0..rounds {
        sum = sum.wrapping_add(read_all(node, names)?);
    }
    Ok(Measured {
        took: begun.elapsed(rt)?,
        sum,
    })
}

/// The same through a node over this source, by which each chunk is read once before.
fn time_node<R: Clock>(
    rt: &R,
    alloc: Global,
    source: ChunkMaker<'_>,
    names: &[Digest],
    rounds: u64,
) -> Result<Measured> {
    let mut node = lone_node(alloc, source)?;
    let _ = read_all(&mut node, names)?;
    time_rounds(rt, &mut node, names, rounds)
}

/// The time of reads of chunks that were each read once before.
pub(crate) fn time_reads<R: Clock>(rt: &R, alloc: Global, rounds: u64) -> Result<Measured> {
    let names = names(alloc, CHUNKS)?;
    let loads = AtomicU64::new(0);
    let source = ChunkMaker::new(alloc, names.as_slice(), &loads);
    let measured = time_node(rt, alloc, source, names.as_slice(), rounds)?;
    assert_loaded_once(&loads, CHUNKS)?;
    Ok(measured)
}

/// All chunks, each with one owner.
fn all_chunks(alloc: Global) -> Result<Vec<Arc<Chunk>>> {
    let mut chunks = Vec::new(alloc);
    for number in 0..CHUNKS {
        chunks.push(Arc::new(alloc, chunk_of(alloc, number)?)?)?;
    }
    Ok(chunks)
}

/// Gives each chunk a second owner for a moment, and counts their bytes.
fn share_all(chunks: &[Arc<Chunk>]) -> Result<u64> {
    let mut sum = 0u64;
    for chunk in chunks {
        let share = Arc::try_clone(chunk)?;
        sum = sum.wrapping_add(share.view().len() as u64);
    }
    Ok(sum)
}

/// The time of what a read of a chunk that is there does at least.
pub(crate) fn time_shares<R: Clock>(rt: &R, alloc: Global, rounds: u64) -> Result<Measured> {
    let chunks = all_chunks(alloc)?;
    let mut sum = 0u64;
    let begun = Instant::now(rt)?;
    for _ in 0..rounds {
        sum = sum.wrapping_add(share_all(chunks.as_slice())?);
    }
    Ok(Measured {
        took: begun.elapsed(rt)?,
        sum,
    })
}
