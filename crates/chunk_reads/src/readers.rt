//! Stretches of files whose chunks are read one after another.
ghost use Rattle.std.specs.Prelude.{◌≡◌, ◌<◌, ◌≤◌, Err, IfErr, IfOk, MatchResult, Ok, length, map};
ghost use Rattle.host_names.specs.Digests.{digest_of};
ghost use Rattle.chunk_reads.specs.Reading.{AreNotRead, IsNextChunk, IsNoNextChunk, IsNotHeld, ReadsInTurn};

use crate::faults::ReadFault;
use byte_view::{BlobInfo, Chunk, Hold};
use host_names::Digest;
use std::alloc::Global;
use std::sync::Arc;

/// Reads chunks by their names.
pub trait ChunkReader {
    ghost use Rattle.std.specs.Prelude.{List, Result, ℕ};
    ghost use Rattle.host_names.specs.declared.digests.Digest.{Digest};
    ghost use Rattle.chunk_reads.specs.declared.faults.ReadFault.{ReadFault};

    /// What a read of a name, with its answer, leads from and to.
    ghost reads: { Self → Digest → Result (List ℕ) ReadFault → Self → Type 0 };

    /// A share of the chunk of a name.
    fn read(&mut self, name: &Digest) -> Result<Arc<Chunk>, ReadFault>
        ensures named { IfOk result (λ chunk. digest_of chunk.value ≡ name.now) }
        ensures read { MatchResult result (λ chunk. reads self.old name.now (Ok chunk.value) self.new) (λ fault. reads self.old name.now (Err fault) self.new) };
}

/// Reads the chunk of a name, and appends it to those before it.
fn push_chunk<N: ChunkReader>(
    reader: &mut N,
    name: Digest,
    chunks: &mut Vec<Arc<Chunk>>,
) -> Result<(), ReadFault>
    ensures read { IfOk result (λ _. IsNextChunk N.reads reader.old name (map (λ chunk. chunk.value) chunks.old.items) (map (λ chunk. chunk.value) chunks.new.items) reader.new) }
    ensures fault { IfErr result (λ fault. IsNoNextChunk N.reads reader.old name fault reader.new) }
{
    let chunk = reader.read(&name)?;
    chunks.push(chunk).map_err(|_| ReadFault::OutOfMemory)
}

/// The chunks of these names.
fn read_chunks<N: ChunkReader>(
    alloc: Global,
    reader: &mut N,
    names: &[Digest],
) -> Result<Vec<Arc<Chunk>>, ReadFault>
    ensures named { IfOk result (λ chunks. map digest_of (map (λ chunk. chunk.value) chunks.items) ≡ names.now) }
    ensures read { IfOk result (λ chunks. ReadsInTurn N.reads reader.old (map (λ chunk. chunk.value) chunks.items) reader.new) }
    ensures fault { IfErr result (λ fault. AreNotRead N.reads reader.old names.now fault reader.new) }
{
    let mut chunks = Vec::new(alloc);
    for name in names {
        push_chunk(reader, *name, &mut chunks)?;
    }
    Ok(chunks)
}

/// A stretch of a file, from its first to its last byte, both included, with the chunks that it meets. Each chunk is read once, and has the
/// name and the length of its piece.
///
/// A chunk of another length counts as damaged. Chunks with the names of the pieces have their lengths, unless two byte strings share a
/// digest: so no chunk has to be believed, and no proof has to assume that digests differ.
pub fn hold_stretch<N: ChunkReader>(
    alloc: Global,
    reader: &mut N,
    info: Arc<BlobInfo>,
    first: usize,
    last: usize,
) -> Result<Hold, ReadFault>
    requires ordered { first ≤ last }
    requires within { last < length info.value }
    ensures stretch { IfOk result (λ hold. (hold.file ≡ info.value) × (hold.first ≡ first) × (hold.last ≡ last)) }
    ensures read { IfOk result (λ hold. ReadsInTurn N.reads reader.old hold.chunks reader.new) }
    ensures fault { IfErr result (λ fault. IsNotHeld N.reads reader.old info.value first last fault reader.new) }
{
    let range = info.piece_range(first, last);
    let names = &info.names()[range];
    let chunks = read_chunks(alloc, reader, names)?;
    Hold::new(info, first, last, chunks).map_err(|_| ReadFault::Damaged)
}
