//! Chunks: bytes with their digest as their name.
ghost use Rattle.std.specs.Prelude.{◌≡◌, ◌↔◌, IfErr, IfOk, IsOk, IsTrue};
ghost use Rattle.host_names.specs.Digests.{digest_of};
ghost use Rattle.byte_view.specs.Marks.{HasMark};
ghost use Rattle.byte_view.specs.Views.{bytes_of};

use crate::marks::{mark, occurs};
use crate::views::View;
use host_names::Digest;
use std::marker::Model;
use thiserror::Error;

/// The digest of the bytes is not the name that was asked for.
#[derive(Debug, Drop, Error)]
#[error("the bytes have another name")]
pub struct WrongName {
    pub bytes: Vec<u8>,
}

/// Bytes, such as a piece of a file, and their name: their SHA-1 digest (FIPS 180-4). Contracts see the bytes.
#[derive(Debug, Drop)]
pub struct Chunk {
    name: Digest,
    bytes: Vec<u8>,
    has_mark: bool,
}

impl Model for Chunk {
    ghost use Rattle.std.specs.Prelude.{◌≡◌, ◌↔◌, IsTrue, List, ℕ};
    ghost use Rattle.host_names.specs.Digests.{digest_of};
    ghost use Rattle.byte_view.specs.Marks.{HasMark};

    ghost Value = { List ℕ };

    ghost view = { λ chunk. chunk.bytes.items };

    ghost invariant = { λ chunk. (chunk.name ≡ digest_of chunk.bytes.items) × (IsTrue chunk.has_mark ↔ HasMark chunk.bytes.items) };
}

impl Chunk {
    /// Makes a chunk of these bytes, if `name` is their digest. Otherwise it hands the bytes back.
    pub fn check(name: Digest, bytes: Vec<u8>) -> Result<Chunk, WrongName>
        ensures named { IsOk result ↔ (digest_of bytes.items ≡ name) }
        ensures kept { IfOk result (λ chunk. chunk ≡ bytes.items) }
        ensures handed_back { IfErr result (λ wrong. wrong.bytes ≡ bytes) }
    {
        if Digest::of_bytes(bytes.as_slice()) != name {
            return Err(WrongName { bytes });
        }
        let has_mark = occurs(mark(), bytes.as_slice());
        Ok(Chunk {
            name,
            bytes,
            has_mark,
        })
    }

    /// The chunk's name.
    pub fn name(&self) -> Digest
        ensures { result ≡ digest_of self.now }
    {
        self.name
    }

    /// Whether the bytes have the mark.
    pub fn has_mark(&self) -> bool
        ensures { IsTrue result ↔ HasMark self.now }
    {
        self.has_mark
    }

    /// The chunk's bytes.
    pub fn view(&self) -> View<'_>
        ensures { bytes_of result ≡ self.now }
    {
        View::new(self.bytes.as_slice())
    }
}
