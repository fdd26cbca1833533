//! A sorted map in chunks of blocks.
ghost use Rattle.std.specs.Prelude.{◌≡◌, [], IfOk, OnErr, OnOk, filter, option_copied};
ghost use Rattle.std.specs.FinMap.{find};
ghost use Rattle.std.specs.List.Sorted.{IsStrictlySortedBy};
ghost use Rattle.std.specs.Map.{keys_of};
ghost use Rattle.shared_blocks.specs.Copies.{AreSame};
ghost use Rattle.persistent_maps.specs.Edits.{edited, edited_by};

use crate::chunks::Chunk;
use crate::probes::Probe;
use crate::ranges::{Range, pairs_in};
use crate::searches::find_in_chunks;
use crate::spans::Span;
use crate::writes::write_edits;
use std::alloc::{AllocError, Global};
use std::marker::Model;

/// Values by key. Copies share each chunk into which neither writes, and in the other chunks each such block. Contracts see the list of the
/// pairs, whose keys strictly rise.
#[derive(Drop)]
pub struct SharedMap<K: Ord, V> {
    chunks: Vec<Chunk<K, V>>,
}

impl<K: Ord, V> Model for SharedMap<K, V> {
    ghost use Rattle.std.specs.Prelude.{List};
    ghost use Rattle.shared_blocks.specs.Blocks.{joined};
    ghost use Rattle.persistent_maps.specs.Maps.{AreBlocks};

    ghost Value = { List (K × V) };

    ghost view = { λ m. joined m.chunks.items };

    ghost invariant = { λ m. AreBlocks K.cmp m.chunks.items };
}

impl<K: Ord + Drop, V: Drop> SharedMap<K, V> {
    /// A map without pairs, which takes no memory.
    pub fn new(alloc: Global) -> SharedMap<K, V>
        ensures { result ≡ [] }
    {
        SharedMap {
            chunks: Vec::new(alloc),
        }
    }

    /// What is at a key. Takes no memory. The work is three binary searches.
    pub fn find<P: Probe<K>>(&self, probe: &P) -> Option<&V>
        ensures { option_copied result ≡ find K.cmp (P.sought probe.now) self.now }
    {
        find_in_chunks(self.chunks.as_slice(), probe)
    }

    /// The pairs whose keys are in a span, by key. Takes no memory.
    pub fn range<S: Span<K>>(&self, span: &S) -> Range<'_, K, V>
        ensures { result ≡ filter (λ e. S.within span.now e.0) self.now }
    {
        pairs_in(self.chunks.as_slice(), span)
    }

    /// Writes edits, whose keys strictly rise: at each key this value, or none. Either all are written, or, on an error, none. The work is
    /// linear in the blocks into which an edit falls, with a count for each other block of their chunks, and a count for each chunk between
    /// the first and the last of these. A block that a copy shares can't be written in place, so a removal takes memory, too.
    pub fn write_all(&mut self, edits: Vec<(K, Option<V>)>) -> Result<(), AllocError>
    where
        K: Clone,
        V: Clone,
        requires keys { AreSame K.is_clone }
        requires values { AreSame V.is_clone }
        requires rising { IsStrictlySortedBy K.cmp (keys_of edits.items) }
        ensures ok { OnOk result (self.new ≡ edited_by K.cmp self.old edits.items) }
        ensures err { OnErr result (self.new ≡ self.old) }
    {
        write_edits(&mut self.chunks, edits)
    }

    /// Writes a value at a key, or none. On an error nothing changes.
    pub fn write(&mut self, key: K, value: Option<V>) -> Result<(), AllocError>
    where
        K: Clone,
        V: Clone,
        requires keys { AreSame K.is_clone }
        requires values { AreSame V.is_clone }
        ensures ok { OnOk result (self.new ≡ edited K.cmp self.old key value) }
        ensures err { OnErr result (self.new ≡ self.old) }
    {
        let mut edits = Vec::new(*self.chunks.allocator());
        edits.push((key, value))?;
        self.write_all(edits)
    }

    /// A copy, which shares all chunks. The work is a count for each chunk.
    pub fn copy(&self) -> Result<SharedMap<K, V>, AllocError>
        ensures { IfOk result (λ copy. copy ≡ self.now) }
    {
        Ok(SharedMap {
            chunks: self.chunks.clone()?,
        })
    }
}
