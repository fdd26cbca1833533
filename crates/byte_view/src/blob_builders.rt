//! Files that are read one chunk after another.
ghost use Rattle.std.specs.Prelude.{◌≡◌, ◌↔◌, ◌+◌, ◌%◌, ◌<◌, ◌≤◌, [], ◌++◌, IfErr, IsTrue, OnErr, OnOk};
ghost use Rattle.byte_view.specs.Cuts.{Follows};
ghost use Rattle.byte_view.specs.declared.blob_builders.JoinFault.TheVariants.{Misfit, OutOfMemory};

use crate::blob_infos::{BlobInfo, PIECE_SIZE};
use crate::chunks::Chunk;
use boxcar::tag::{Names, Tag};
use host_names::Digest;
use sha1::Sha1;
use std::alloc::Global;
use std::marker::Model;
use thiserror::Error;

/// The most bytes that a file has.
pub const MAX_SIZE: usize = 16_777_216;

/// Why a chunk can't be added.
#[derive(Clone, Copy, Debug, PartialEq, Eq, Error)]
pub enum JoinFault {
    /// The chunk is not the next piece of a file that has the pieces before it and at most `MAX_SIZE` bytes.
    #[error("a chunk is not the next piece of a file")]
    Misfit,
    #[error("out of memory")]
    OutOfMemory,
}

/// Tells clauses the bytes so far and those of the next chunk, joined. No code runs for it.
struct AndBytes;

impl<'a> Names<(&'a Tag, &'a [u8])> for AndBytes {
    ghost use Rattle.std.specs.Prelude.{◌++◌};

    ghost numbers = { λ both. both.0.now.numbers ++ both.1.now };
}

/// The front of a file that has been read, piece by piece. It keeps the pieces' names alone. Contracts see the bytes so far.
#[derive(Drop)]
pub struct BlobBuilder {
    hasher: Sha1,
    size: usize,
    names: Vec<Digest>,
    contents: Tag,
}

impl Model for BlobBuilder {
    ghost use Rattle.std.specs.Prelude.{◌≡◌, ◌≤◌, List, ℕ, length};
    ghost use Rattle.sha1.specs.Sha1.{Holds};
    ghost use Rattle.byte_view.specs.Cuts.{names_of};

    ghost Value = { List ℕ };

    ghost view = { λ j. j.contents.numbers };

    ghost invariant = { λ j. Holds j.hasher j.contents.numbers × (j.size ≡ length j.contents.numbers) × (j.size ≤ 16777216) × (j.names.items ≡ names_of j.contents.numbers) };
}

/// Whether a chunk of `length` bytes can follow the first `size` bytes of a file.
fn follows(size: usize, length: usize) -> bool
    requires { size ≤ 16777216 }
    ensures { IsTrue result ↔ ((size % 65536 ≡ 0) × (0 < length) × (length ≤ 65536) × (size + length ≤ 16777216)) }
{
    size % PIECE_SIZE == 0 && length > 0 && length <= PIECE_SIZE && size + length <= MAX_SIZE
}

impl BlobBuilder {
    /// A builder that has no pieces yet.
    pub fn new(alloc: Global) -> BlobBuilder
        ensures { result ≡ [] }
    {
        BlobBuilder {
            hasher: Sha1::new(),
            size: 0,
            names: Vec::new(alloc),
            contents: Tag::empty(),
        }
    }

    /// Adds a chunk, if it can be the file's next piece. After a fault the builder has the pieces that it had.
    pub fn add(&mut self, chunk: &Chunk) -> Result<(), JoinFault>
        ensures joined { OnOk result (self.new ≡ self.old ++ chunk.now) }
        ensures fits { OnOk result (Follows self.old chunk.now) }
        ensures misfit { IfErr result (λ fault. fault ≡ Misfit → ¬ (Follows self.old chunk.now)) }
        ensures memory { IfErr result (λ fault. fault ≡ OutOfMemory → Follows self.old chunk.now) }
        ensures kept { OnErr result (self.new ≡ self.old) }
    {
        let bytes = chunk.view().bytes();
        if !follows(self.size, bytes.len()) {
            return Err(JoinFault::Misfit);
        }
        self.names
            .push(chunk.name())
            .map_err(|_| JoinFault::OutOfMemory)?;
        self.hasher.update(bytes);
        self.size += bytes.len();
        self.contents = Tag::of::<(&Tag, &[u8]), AndBytes>(&(&self.contents, bytes));
        Ok(())
    }

    /// Describes the file of these pieces.
    pub fn finish(self) -> BlobInfo
        ensures { result ≡ self }
    {
        BlobInfo {
            digest: Digest(self.hasher.finalize()),
            size: self.size,
            names: self.names,
            contents: self.contents,
        }
    }
}
