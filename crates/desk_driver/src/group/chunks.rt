//! Chunks by their numbers, and a source that makes them.
ghost use Rattle.std.specs.Prelude.{⊤};

use anyhow::anyhow;
use byte_view::Chunk;
use chunk_group::Source;
use chunk_reads::ReadFault;
use host_names::Digest;
use std::alloc::{AllocError, Global};
use std::sync::atomic::{AtomicU64, Ordering};

/// How many bytes each chunk has.
pub(crate) const CHUNK: usize = 65_536;

/// The bytes of the chunk of a number: its decimal text, and zeros after it.
fn bytes_of(alloc: Global, number: usize) -> Result<Vec<u8>, AllocError> {
    let text = format!(in alloc; "{number}")?;
    let mut bytes = Vec::from_slice(alloc, text.as_bytes())?;
    bytes.resize(CHUNK, 0)?;
    Ok(bytes)
}

/// The chunk of a number.
pub(crate) fn chunk_of(alloc: Global, number: usize) -> Result<Chunk, ReadFault> {
    let bytes = bytes_of(alloc, number).map_err(|_| ReadFault::OutOfMemory)?;
    let name = Digest::of_bytes(bytes.as_slice());
    Chunk::check(name, bytes).map_err(|_| ReadFault::Damaged)
}

/// The names of the chunks of the first numbers.
pub(crate) fn names(alloc: Global, count: usize) -> Result<Vec<Digest>, AllocError> {
    let mut names = Vec::new(alloc);
    for number in 0..count {
        names.push(Digest::of_bytes(bytes_of(alloc, number)?.as_slice()))?;
    }
    Ok(names)
}

/// The number of the chunk of a name.
fn number_of(names: &[Digest], name: &Digest) -> Option<usize> {
    names.iter().position(|other| *other == *name)
}

/// Makes the chunks of these names, and counts how often it was asked for one.
#[derive(Clone, Copy)]
pub(crate) struct ChunkMaker<'a> {
    alloc: Global,
    names: &'a [Digest],
    loads: &'a AtomicU64,
}

impl<'a> ChunkMaker<'a> {
    pub(crate) fn new(alloc: Global, names: &'a [Digest], loads: &'a AtomicU64) -> ChunkMaker<'a> {
        ChunkMaker {
            alloc,
            names,
            loads,
        }
    }
}

impl Source for ChunkMaker<'_> {
    ghost allows = { λ _ _. ⊤ };

    ghost loaded = { λ _ _ _ _. Unit {0} };

    fn load(&mut self, key: &Digest) -> Result<Chunk, ReadFault> {
        self.loads.fetch_add(1, Ordering::SeqCst);
        let number = number_of(self.names, key).ok_or(ReadFault::Missing)?;
        let bytes = bytes_of(self.alloc, number).map_err(|_| ReadFault::OutOfMemory)?;
        Chunk::check(*key, bytes).map_err(|_| ReadFault::Damaged)
    }
}

/// Fails where a source was asked for more chunks than there are.
pub(crate) fn assert_loaded_once(loads: &AtomicU64, chunks: usize) -> anyhow::Result<()> {
    if loads.load(Ordering::SeqCst) != chunks as u64 {
        return Err(anyhow!("a chunk was loaded while reads were timed"));
    }
    Ok(())
}
