//! Look-ups of chunks that are there.
use crate::group::Measured;
use crate::group::chunks::{CHUNK, chunk_of};
use anyhow::{Result, anyhow};
use chunk_lru::{ChunkCache, Which};
use host_names::Digest;
use std::alloc::Global;
use std::sync::Arc;
use std::time::{Clock, Instant};

/// How many chunks a cache of 64 MiB has, of 64 KiB each.
const CHUNKS: usize = 1024;

/// Adds these chunks to a cache, all to main, and answers their names.
fn fill(alloc: Global, cache: &mut ChunkCache) -> Result<Vec<Digest>> {
    let mut names = Vec::new(alloc);
    for number in 0..CHUNKS {
        let chunk = chunk_of(alloc, number)?;
        names.push(chunk.name())?;
        cache.add(Which::Main, Arc::new(alloc, chunk)?)?;
    }
    Ok(names)
}

/// Looks all these names up, and counts the bytes of their chunks.
fn look_up(cache: &mut ChunkCache, names: &[Digest]) -> Result<u64> {
    let mut sum = 0u64;
    for name in names {
        let Some(chunk) = cache.get(name)? else {
            return Err(anyhow!("a chunk was evicted"));
        };
        sum = sum.wrapping_add(chunk.view().len() as u64);
    }
    Ok(sum)
}

/// The time of so many look-ups of all these names.
fn time_rounds<R: Clock>(
    rt: &R,
    cache: &mut ChunkCache,
    names: &[Digest],
    rounds: u64,
) -> Result<Measured> {
    let mut sum = 0u64;
    let begun = Instant::now(rt)?;
    for _ in 0..rounds {
        sum = sum.wrapping_add(look_up(cache, names)?);
    }
    Ok(Measured {
        took: begun.elapsed(rt)?,
        sum,
    })
}

pub(crate) fn time_hits<R: Clock>(rt: &R, alloc: Global, rounds: u64) -> Result<Measured> {
    let mut cache = ChunkCache::new(alloc, CHUNKS * (CHUNK + 40))?;
    let names = fill(alloc, &mut cache)?;
    time_rounds(rt, &mut cache, names.as_slice(), rounds)
}
