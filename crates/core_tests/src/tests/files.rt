//! Files in pieces, and holds of their stretches.
ghost use Rattle.std.specs.Prelude.{◌≡◌, All, IfOk, map, true};
ghost use Rattle.host_names.specs.Digests.{digest_of};
ghost use Rattle.range_reply.specs.Bodies.{stretch_of};

use byte_view::{BlobInfo, Chunk, Hold, PIECE_SIZE};
use host_names::Digest;
use std::alloc::Global;
use std::sync::Arc;
use std::test::Fail;

/// What is kept of a file, and its chunks.
#[derive(Drop)]
pub(crate) struct CutFile {
    pub(crate) info: Arc<BlobInfo>,
    pub(crate) chunks: Vec<Arc<Chunk>>,
}

/// A file in pieces.
pub(crate) fn cut(alloc: Global, file: &[u8]) -> Result<CutFile, Fail> {
    let mut chunks = Vec::new(alloc);
    for piece in file.chunks(PIECE_SIZE) {
        let chunk = Chunk::check(Digest::of_bytes(piece), Vec::from_slice(alloc, piece)?)?;
        chunks.push(Arc::new(alloc, chunk)?)?;
    }
    let info = Arc::new(alloc, BlobInfo::of(alloc, file)?)?;
    Ok(CutFile { info, chunks })
}

/// Whether chunks have these names.
fn have_names(chunks: &[Arc<Chunk>], names: &[Digest]) -> bool
    ensures { result ≡ true → map digest_of (map (λ chunk. chunk.value) chunks.now) ≡ names.now }
{
    match chunks.split_first() {
        None => names.is_empty(),
        Some((chunk, other_chunks)) => match names.split_first() {
            None => false,
            Some((name, other_names)) => {
                chunk.name() == *name && have_names(other_chunks, other_names)
            }
        },
    }
}

/// The same chunks once more.
fn copies(alloc: Global, chunks: &[Arc<Chunk>]) -> Result<Vec<Arc<Chunk>>, Fail> {
    let mut copies = Vec::new(alloc);
    for chunk in chunks {
        copies.push(Arc::try_clone(chunk)?)?;
    }
    Ok(copies)
}

/// A stretch of a file, from its first to its last byte.
fn hold(alloc: Global, cut: &CutFile, first: usize, last: usize) -> Result<Hold, Fail>
    ensures file { IfOk result (λ hold. hold.file ≡ cut.now.info.value) }
    ensures stretch { IfOk result (λ hold. stretch_of hold ≡ (first, last)) }
{
    if first > last || last >= cut.info.len() {
        return Err(Fail::from("the file has no such stretch"));
    }
    let range = cut.info.piece_range(first, last);
    let names = &cut.info.names()[range.start..range.end];
    let met = cut.chunks.get(range.start..range.end);
    let chunks = copies(alloc, met.ok_or("a file has all its chunks")?)?;
    if !have_names(chunks.as_slice(), names) {
        return Err(Fail::from("the chunks have other names"));
    }
    Ok(Hold::new(Arc::try_clone(&cut.info)?, first, last, chunks)?)
}

/// These stretches of a file, in their order.
pub(crate) fn holds(
    alloc: Global,
    cut: &CutFile,
    stretches: &[(u64, u64)],
) -> Result<Vec<Hold>, Fail>
    ensures file { IfOk result (λ holds. All (λ h. h.file ≡ cut.now.info.value) holds.items) }
    ensures stretches { IfOk result (λ holds. map stretch_of holds.items ≡ stretches.now) }
{
    let mut holds = Vec::new(alloc);
    for stretch in stretches {
        let (first, last) = *stretch;
        holds.push(hold(alloc, cut, first as usize, last as usize)?)?;
    }
    Ok(holds)
}
