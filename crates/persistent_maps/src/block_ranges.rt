//! The pairs of some blocks whose keys are side by side.
ghost use Rattle.std.specs.Prelude.{◌≡◌, ◌∷◌, ◌++◌, [], All, false, filter, MatchOption, true};
ghost use Rattle.std.specs.List.Sorted.{IsStrictlySortedBy};
ghost use Rattle.std.specs.Map.{keys_of};
ghost use Rattle.shared_blocks.specs.Blocks.{joined};
ghost use Rattle.persistent_maps.specs.Maps.{AreBlocks, HaveItems, starts};

use crate::spans::Span;
use shared_blocks::Block;
use std::marker::Model;

/// Pairs of some blocks, one after another. Contracts see the list of those that are left.
#[derive(Drop)]
pub(crate) struct BlockRange<'a, K, V> {
    front: &'a [(K, V)],
    middle: &'a [Block<(K, V)>],
    last: &'a [(K, V)],
}

impl<'a, K, V> Model for BlockRange<'a, K, V> {
    ghost use Rattle.std.specs.Prelude.{List, ◌++◌};
    ghost use Rattle.shared_blocks.specs.Blocks.{joined};
    ghost use Rattle.persistent_maps.specs.Maps.{HaveItems};

    ghost Value = { List (K × V) };

    ghost view = { λ r. r.front.now ++ (joined r.middle.now ++ r.last.now) };

    ghost invariant = { λ r. HaveItems r.middle.now };
}

/// No pairs.
fn no_pairs<'a, T>() -> &'a [T]
    ensures { result.now ≡ [] }
{
    &[]
}

/// The first pair of these, and the others.
fn split_rest<'a, K: Drop, V: Drop>(
    blocks: &'a [Block<(K, V)>],
    last: &'a [(K, V)],
) -> Option<(&'a (K, V), BlockRange<'a, K, V>)>
    requires { HaveItems blocks.now }
    ensures { MatchOption result (joined blocks.now ++ last.now ≡ []) (λ split. joined blocks.now ++ last.now ≡ split.0.now ∷ split.1) }
{
    match blocks.split_first() {
        Some((block, middle)) => match block.as_slice().split_first() {
            Some((pair, front)) => Some((
                pair,
                BlockRange {
                    front,
                    middle,
                    last,
                },
            )),
            None => unreachable!(),
        },
        None => {
            let (pair, front) = last.split_first()?;
            let last = no_pairs();
            Some((
                pair,
                BlockRange {
                    front,
                    middle: blocks,
                    last,
                },
            ))
        }
    }
}

/// Whether the first key of a block comes before a span.
pub(crate) fn starts_before<K: Ord + Drop, V: Drop, S: Span<K>>(
    block: &Block<(K, V)>,
    span: &S,
) -> bool
    ensures { result ≡ starts (S.before span.now) block.now }
{
    match block.as_slice().first() {
        Some(pair) => span.is_before(&pair.0),
        None => false,
    }
}

/// Whether the first key of a block is in a span.
pub(crate) fn starts_within<K: Ord + Drop, V: Drop, S: Span<K>>(
    block: &Block<(K, V)>,
    span: &S,
) -> bool
    ensures { result ≡ starts (S.within span.now) block.now }
{
    match block.as_slice().first() {
        Some(pair) => span.is_within(&pair.0),
        None => false,
    }
}

/// Those of some pairs whose keys are in a span.
fn pairs_within<'a, K: Ord + Drop, V: Drop, S: Span<K>>(
    pairs: &'a [(K, V)],
    span: &S,
) -> &'a [(K, V)]
    requires { IsStrictlySortedBy K.cmp (keys_of pairs.now) }
    ensures { result.now ≡ filter (λ e. S.within span.now e.0) pairs.now }
{
    let start = pairs.partition_point(|pair| span.is_before(&pair.0));
    let rest = &pairs[start..];
    let count = rest.partition_point(|pair| span.is_within(&pair.0));
    &rest[..count]
}

/// Those of the pairs of some blocks whose keys are in a span, if each block starts before the span: they are in the last block.
fn front_within<'a, K: Ord + Drop, V: Drop, S: Span<K>>(
    blocks: &'a [Block<(K, V)>],
    span: &S,
) -> &'a [(K, V)]
    requires sound { AreBlocks K.cmp blocks.now }
    requires before { All (λ b. starts (S.before span.now) b ≡ true) blocks.now }
    ensures { result.now ≡ filter (λ e. S.within span.now e.0) (joined blocks.now) }
{
    match blocks.last() {
        Some(block) => pairs_within(block.as_slice(), span),
        None => no_pairs(),
    }
}

/// Those of the pairs of some blocks whose keys are in a span, if no block starts before the span: whole blocks, and then pairs of one
/// block.
fn rest_within<'a, K: Ord + Drop, V: Drop, S: Span<K>>(
    blocks: &'a [Block<(K, V)>],
    span: &S,
) -> (&'a [Block<(K, V)>], &'a [(K, V)])
    requires sound { AreBlocks K.cmp blocks.now }
    requires late { All (λ b. starts (S.before span.now) b ≡ false) blocks.now }
    ensures pairs { joined result.0.now ++ result.1.now ≡ filter (λ e. S.within span.now e.0) (joined blocks.now) }
    ensures filled { HaveItems result.0.now }
{
    let count = blocks.partition_point(|block| starts_within(block, span));
    let reached = &blocks[..count];
    match reached.split_last() {
        Some((block, middle)) => (middle, pairs_within(block.as_slice(), span)),
        None => (reached, no_pairs()),
    }
}

/// Those of the pairs of some blocks whose keys are in a span.
pub(crate) fn pairs_in<'a, K: Ord + Drop, V: Drop, S: Span<K>>(
    blocks: &'a [Block<(K, V)>],
    span: &S,
) -> BlockRange<'a, K, V>
    requires { AreBlocks K.cmp blocks.now }
    ensures { result ≡ filter (λ e. S.within span.now e.0) (joined blocks.now) }
{
    let past = blocks.partition_point(|block| starts_before(block, span));
    let (before, after) = blocks.split_at(past);
    let front = front_within(before, span);
    let (middle, last) = rest_within(after, span);
    BlockRange {
        front,
        middle,
        last,
    }
}

impl<'a, K: Drop, V: Drop> BlockRange<'a, K, V> {
    /// The same pairs.
    pub(crate) fn again(&self) -> BlockRange<'a, K, V>
        ensures { result ≡ self.now }
    {
        BlockRange {
            front: self.front,
            middle: self.middle,
            last: self.last,
        }
    }

    /// The first pair, and the others.
    pub(crate) fn split_first(&self) -> Option<(&'a (K, V), BlockRange<'a, K, V>)>
        ensures { MatchOption result (self.now ≡ []) (λ split. self.now ≡ split.0.now ∷ split.1) }
    {
        match self.front.split_first() {
            Some((pair, front)) => {
                let rest = BlockRange {
                    front,
                    middle: self.middle,
                    last: self.last,
                };
                Some((pair, rest))
            }
            None => split_rest(self.middle, self.last),
        }
    }
}

/// All pairs of some blocks.
pub(crate) fn all_pairs<'a, K: Drop, V: Drop>(blocks: &'a [Block<(K, V)>]) -> BlockRange<'a, K, V>
    requires { HaveItems blocks.now }
    ensures { result ≡ joined blocks.now }
{
    BlockRange {
        front: no_pairs(),
        middle: blocks,
        last: no_pairs(),
    }
}

/// No pairs of any blocks.
pub(crate) fn no_range<'a, K: Drop, V: Drop>() -> BlockRange<'a, K, V>
    ensures { result ≡ [] }
{
    all_pairs(no_pairs())
}
