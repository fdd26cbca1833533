//! Descriptions of files: their digests, sizes and pieces.
ghost use Rattle.std.specs.Prelude.{◌≡◌, ◌≢◌, ◌+◌, ◌<◌, ◌≤◌, [], IfOk, OnErr, length, map, slice_range};
ghost use Rattle.host_names.specs.Digests.{digest_of};
ghost use Rattle.byte_view.specs.Cuts.{names_of, pieces_met, place_of};

use boxcar::tag::{Names, Tag};
use host_names::Digest;
use std::alloc::{AllocError, Global};
use std::marker::Model;
use std::ops::Range;

/// The bytes of each piece of a file but the last, which has the rest.
pub const PIECE_SIZE: usize = 65_536;

/// Tells clauses the bytes of a slice. No code runs for it.
struct AllBytes;

impl<'a> Names<&'a [u8]> for AllBytes {
    ghost numbers = { λ bytes. bytes.now };
}

/// A file's digest, its size, and the names of its pieces. It doesn't hold the file's bytes, though contracts see them: `contents` is
/// there for clauses alone and takes no room.
#[derive(Drop)]
pub struct BlobInfo {
    pub(crate) digest: Digest,
    pub(crate) size: usize,
    pub(crate) names: Vec<Digest>,
    pub(crate) contents: Tag,
}

impl Model for BlobInfo {
    ghost use Rattle.std.specs.Prelude.{◌≡◌, List, ℕ, length};
    ghost use Rattle.host_names.specs.Digests.{digest_of};
    ghost use Rattle.byte_view.specs.Cuts.{names_of};

    ghost Value = { List ℕ };

    ghost view = { λ info. info.contents.numbers };

    ghost invariant = { λ info. (info.digest ≡ digest_of info.contents.numbers) × (info.size ≡ length info.contents.numbers) × (info.names.items ≡ names_of info.contents.numbers) };
}

/// The names of a file's pieces.
fn names_in(alloc: Global, bytes: &[u8]) -> Result<Vec<Digest>, AllocError>
    ensures names { IfOk result (λ names. names.items ≡ names_of bytes.now) }
    ensures memory { OnErr result (bytes.now ≢ []) }
{
    let mut names = Vec::with_capacity(alloc, bytes.len().div_ceil(PIECE_SIZE))?;
    for piece in bytes.chunks(PIECE_SIZE) {
        names.push(Digest::of_bytes(piece))?;
    }
    Ok(names)
}

impl BlobInfo {
    /// Describes the file of these bytes. The empty file needs no memory; by design, any other needs it for the names of its pieces
    /// alone.
    pub fn of(alloc: Global, bytes: &[u8]) -> Result<BlobInfo, AllocError>
        ensures info { IfOk result (λ info. info ≡ bytes.now) }
        ensures memory { OnErr result (bytes.now ≢ []) }
    {
        BlobInfo::digested(alloc, Digest::of_bytes(bytes), bytes)
    }

    /// Describes the file of these bytes, whose digest the caller knows.
    pub fn digested(alloc: Global, digest: Digest, bytes: &[u8]) -> Result<BlobInfo, AllocError>
        requires { digest ≡ digest_of bytes.now }
        ensures info { IfOk result (λ info. info ≡ bytes.now) }
        ensures memory { OnErr result (bytes.now ≢ []) }
    {
        let names = names_in(alloc, bytes)?;
        Ok(BlobInfo {
            digest,
            size: bytes.len(),
            names,
            contents: Tag::of::<&[u8], AllBytes>(&bytes),
        })
    }

    /// The digest of the file.
    pub fn digest(&self) -> Digest
        ensures { result ≡ digest_of self.now }
    {
        self.digest
    }

    /// The file's size in bytes.
    pub fn len(&self) -> usize
        ensures { result ≡ length self.now }
    {
        self.size
    }

    /// The names of the file's pieces, in order.
    pub fn names(&self) -> &[Digest]
        ensures { result.now ≡ names_of self.now }
    {
        self.names.as_slice()
    }

    /// The places of the pieces that a stretch meets: of each piece with a byte from `first` to `last`.
    pub fn piece_range(&self, first: usize, last: usize) -> Range<usize>
        requires ordered { first ≤ last }
        requires within { last < length self.now }
        ensures start { result.start ≡ place_of first }
        ensures end { result.end ≡ place_of last + 1 }
        ensures within { result.end ≤ length (names_of self.now) }
        ensures names { slice_range (names_of self.now) result.start result.end ≡ map digest_of (pieces_met self.now first last) }
    {
        first / PIECE_SIZE..last / PIECE_SIZE + 1
    }
}
