//! The pairs of a map whose keys are side by side.
ghost use Rattle.std.specs.Prelude.{◌≡◌, ◌∷◌, ◌++◌, [], All, false, filter, length, MatchOption, true};
ghost use Rattle.std.specs.List.Sorted.{IsStrictlySortedBy};
ghost use Rattle.std.specs.Map.{keys_of};
ghost use Rattle.shared_blocks.specs.Blocks.{joined};
ghost use Rattle.persistent_maps.specs.Maps.{AreBlocks, HaveItems, starts};
ghost use Rattle.std.specs.Iterator.{at_most};

use crate::block_ranges::{self, BlockRange, all_pairs, no_range};
use crate::chunks::Chunk;
use crate::spans::Span;
use std::iter::Iterator;
use std::marker::Model;

/// Pairs of a map, one after another. Contracts see the list of those that are left.
#[derive(Drop)]
pub struct Range<'a, K, V> {
    front: BlockRange<'a, K, V>,
    middle: &'a [Chunk<K, V>],
    last: BlockRange<'a, K, V>,
}

impl<'a, K, V> Model for Range<'a, K, V> {
    ghost use Rattle.std.specs.Prelude.{List, ◌++◌};
    ghost use Rattle.shared_blocks.specs.Blocks.{joined};
    ghost use Rattle.persistent_maps.specs.Maps.{HaveItems};

    ghost Value = { List (K × V) };

    ghost view = { λ r. r.front ++ (joined r.middle.now ++ r.last) };

    ghost invariant = { λ r. HaveItems r.middle.now };
}

/// The first pair of these, and the others.
fn split_rest<'a, K: Drop, V: Drop>(
    chunks: &'a [Chunk<K, V>],
    last: BlockRange<'a, K, V>,
) -> Option<(&'a (K, V), Range<'a, K, V>)>
    requires { HaveItems chunks.now }
    ensures { MatchOption result (joined chunks.now ++ last.entry ≡ []) (λ split. joined chunks.now ++ last.entry ≡ split.0.now ∷ split.1) }
{
    match chunks.split_first() {
        Some((chunk, middle)) => match all_pairs(chunk.as_slice()).split_first() {
            Some((pair, front)) => Some((
                pair,
                Range {
                    front,
                    middle,
                    last,
                },
            )),
            None => unreachable!(),
        },
        None => {
            let (pair, front) = last.split_first()?;
            let last = no_range();
            Some((
                pair,
                Range {
                    front,
                    middle: chunks,
                    last,
                },
            ))
        }
    }
}

/// Whether the first key of a chunk comes before a span.
fn starts_before<K: Ord + Drop, V: Drop, S: Span<K>>(chunk: &Chunk<K, V>, span: &S) -> bool
    ensures { result ≡ starts (S.before span.now) chunk.now }
{
    match chunk.as_slice().first() {
        Some(block) => block_ranges::starts_before(block, span),
        None => false,
    }
}

/// Whether the first key of a chunk is in a span.
fn starts_within<K: Ord + Drop, V: Drop, S: Span<K>>(chunk: &Chunk<K, V>, span: &S) -> bool
    ensures { result ≡ starts (S.within span.now) chunk.now }
{
    match chunk.as_slice().first() {
        Some(block) => block_ranges::starts_within(block, span),
        None => false,
    }
}

/// Those of the pairs of a chunk whose keys are in a span.
fn pairs_of<'a, K: Ord + Drop, V: Drop, S: Span<K>>(
    chunk: &'a Chunk<K, V>,
    span: &S,
) -> BlockRange<'a, K, V>
    requires { IsStrictlySortedBy K.cmp (keys_of chunk.now) }
    ensures { result ≡ filter (λ e. S.within span.now e.0) chunk.now }
{
    block_ranges::pairs_in(chunk.as_slice(), span)
}

/// Those of the pairs of some chunks whose keys are in a span, if each chunk starts before the span: they are in the last chunk.
fn front_within<'a, K: Ord + Drop, V: Drop, S: Span<K>>(
    chunks: &'a [Chunk<K, V>],
    span: &S,
) -> BlockRange<'a, K, V>
    requires sound { AreBlocks K.cmp chunks.now }
    requires before { All (λ c. starts (S.before span.now) c ≡ true) chunks.now }
    ensures { result ≡ filter (λ e. S.within span.now e.0) (joined chunks.now) }
{
    let Some(chunk) = chunks.last() else {
        return no_range();
    };
    pairs_of(chunk, span)
}

/// Those of the pairs of some chunks whose keys are in a span, if no chunk starts before the span: whole chunks, and then pairs of one
/// chunk.
fn rest_within<'a, K: Ord + Drop, V: Drop, S: Span<K>>(
    chunks: &'a [Chunk<K, V>],
    span: &S,
) -> (&'a [Chunk<K, V>], BlockRange<'a, K, V>)
    requires sound { AreBlocks K.cmp chunks.now }
    requires late { All (λ c. starts (S.before span.now) c ≡ false) chunks.now }
    ensures pairs { joined result.0.now ++ result.1 ≡ filter (λ e. S.within span.now e.0) (joined chunks.now) }
    ensures filled { HaveItems result.0.now }
{
    let count = chunks.partition_point(|chunk| starts_within(chunk, span));
    let reached = &chunks[..count];
    match reached.split_last() {
        Some((chunk, middle)) => (middle, pairs_of(chunk, span)),
        None => (reached, no_range()),
    }
}

/// The pairs of a map whose keys are in a span.
pub(crate) fn pairs_in<'a, K: Ord + Drop, V: Drop, S: Span<K>>(
    chunks: &'a [Chunk<K, V>],
    span: &S,
) -> Range<'a, K, V>
    requires { AreBlocks K.cmp chunks.now }
    ensures { result ≡ filter (λ e. S.within span.now e.0) (joined chunks.now) }
{
    let past = chunks.partition_point(|chunk| starts_before(chunk, span));
    let (before, after) = chunks.split_at(past);
    let front = front_within(before, span);
    let (middle, last) = rest_within(after, span);
    Range {
        front,
        middle,
        last,
    }
}

impl<'a, K: Drop, V: Drop> Range<'a, K, V> {
    /// The first pair, and the others.
    pub fn split_first(&self) -> Option<(&'a (K, V), Range<'a, K, V>)>
        ensures { MatchOption result (self.now ≡ []) (λ split. self.now ≡ split.0.now ∷ split.1) }
    {
        match self.front.split_first() {
            Some((pair, front)) => {
                let rest = Range {
                    front,
                    middle: self.middle,
                    last: self.last.again(),
                };
                Some((pair, rest))
            }
            None => split_rest(self.middle, self.last.again()),
        }
    }
}

impl<'a, K: Drop, V: Drop> Iterator for Range<'a, K, V> {
    type Item = &'a (K, V);

    ghost next_gives = { λ old pair new. MatchOption pair ((old ≡ []) × (new ≡ [])) (λ p. old ≡ p.now ∷ new) };

    ghost remaining = { λ pairs. at_most (length pairs) };

    fn next(&mut self) -> Option<&'a (K, V)> {
        let (pair, rest) = self.split_first()?;
        *self = rest;
        Some(pair)
    }
}
