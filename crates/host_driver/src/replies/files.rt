//! Files in pieces, each of which is held whole.
ghost use Rattle.std.specs.Prelude.{◌≡◌, map, true};
ghost use Rattle.host_names.specs.Digests.{digest_of};

use anyhow::{Result, anyhow};
use byte_view::{BlobInfo, Chunk, Hold, PIECE_SIZE};
use host_names::Digest;
use std::alloc::{AllocError, Global};
use std::sync::Arc;

/// So many bytes, about, full of how a boundary begins.
pub(crate) fn beginnings(alloc: Global, bytes: usize) -> Result<Vec<u8>, AllocError> {
    let mut file = Vec::with_capacity(alloc, bytes)?;
    for _ in 0..bytes.div_ceil(4) {
        file.extend_from_slice(b"fh0-")?;
    }
    Ok(file)
}

/// Whether chunks have these names.
fn have_names(chunks: &[Arc<Chunk>], names: &[Digest]) -> bool
    ensures { result ≡ true → map digest_of (map (λ chunk. chunk.value) chunks.now) ≡ names.now }
{
    match chunks.split_first() {
        None => names.is_empty(),
        Some((chunk, other_chunks)) => match names.split_first() {
            None => false,
            Some((name, other_names)) => {
                chunk.name() == *name && have_names(other_chunks, other_names)
            }
        },
    }
}

/// The pieces of a file.
fn chunks_of(alloc: Global, file: &[u8]) -> Result<Vec<Arc<Chunk>>> {
    let mut chunks = Vec::new(alloc);
    for piece in file.chunks(PIECE_SIZE) {
        let bytes = Vec::from_slice(alloc, piece)?;
        let chunk = Chunk::check(Digest::of_bytes(piece), bytes).map_err(|_| anyhow!(
            "a piece has another name"
        ))?;
        chunks.push(Arc::new(alloc, chunk)?)?;
    }
    Ok(chunks)
}

/// All of a file, which has a byte.
pub(crate) fn held(alloc: Global, file: &[u8]) -> Result<Hold> {
    let info = BlobInfo::of(alloc, file)?;
    let last = info
        .len()
        .checked_sub(1)
        .ok_or(anyhow!("an empty file is never held"))?;
    let chunks = chunks_of(alloc, file)?;
    let range = info.piece_range(0, last);
    if !have_names(chunks.as_slice(), &info.names()[range.start..range.end]) {
        return Err(anyhow!("the chunks have other names"));
    }
    let held = Hold::new(Arc::new(alloc, info)?, 0, last, chunks);
    held.map_err(|_| anyhow!("a chunk has another length"))
}
