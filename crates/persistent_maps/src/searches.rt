//! Looking up keys among pairs that rise by key.
ghost use Rattle.std.specs.Prelude.{◌≡◌, option_copied, IfOk, IfErr};
ghost use Rattle.std.specs.FinMap.{find};
ghost use Rattle.std.specs.List.Sorted.{IsStrictlySortedBy};
ghost use Rattle.std.specs.Map.{keys_of};
ghost use Rattle.shared_blocks.specs.Blocks.{joined};
ghost use Rattle.persistent_maps.specs.Maps;
ghost use Rattle.persistent_maps.specs.Maps.{AreBlocks};
ghost use Rattle.persistent_maps.specs.Places.{IsPlace, IsGap};

use crate::chunks::Chunk;
use crate::probes::Probe;
use shared_blocks::Block;

/// Whether a block's first key is at most that of a probe.
fn starts_by<K: Ord + Drop, V: Drop, P: Probe<K>>(block: &Block<(K, V)>, probe: &P) -> bool
    ensures { result ≡ Maps.starts_by K.cmp (P.sought probe.now) block.now }
{
    match block.as_slice().first() {
        Some(pair) => probe.compare(&pair.0).is_le(),
        None => false,
    }
}

/// Where a key is among pairs, or where it would go.
fn search<K: Ord + Drop, V: Drop, P: Probe<K>>(pairs: &[(K, V)], probe: &P) -> Result<usize, usize>
    requires { IsStrictlySortedBy K.cmp (keys_of pairs.now) }
    ensures found { IfOk result (λ place. IsPlace K.cmp (P.sought probe.now) pairs.now place) }
    ensures absent { IfErr result (λ place. IsGap K.cmp (P.sought probe.now) pairs.now place) }
{
    pairs.binary_search_by(|pair| probe.compare(&pair.0))
}

/// What is at a key among pairs.
fn find_in<'a, K: Ord + Drop, V: Drop, P: Probe<K>>(pairs: &'a [(K, V)], probe: &P) -> Option<&'a V>
    requires { IsStrictlySortedBy K.cmp (keys_of pairs.now) }
    ensures { option_copied result ≡ find K.cmp (P.sought probe.now) pairs.now }
{
    match search(pairs, probe) {
        Ok(place) => Some(&pairs[place].1),
        Err(_) => None,
    }
}

/// What is at a key among the pairs of some blocks.
pub(crate) fn find_in_blocks<'a, K: Ord + Drop, V: Drop, P: Probe<K>>(
    blocks: &'a [Block<(K, V)>],
    probe: &P,
) -> Option<&'a V>
    requires { AreBlocks K.cmp blocks.now }
    ensures { option_copied result ≡ find K.cmp (P.sought probe.now) (joined blocks.now) }
{
    let past = blocks.partition_point(|block| starts_by(block, probe));
    if past == 0 {
        return None;
    }
    find_in(blocks[past - 1].as_slice(), probe)
}

/// Whether a chunk's first key is at most that of a probe.
fn chunk_starts_by<K: Ord + Drop, V: Drop, P: Probe<K>>(chunk: &Chunk<K, V>, probe: &P) -> bool
    ensures { result ≡ Maps.starts_by K.cmp (P.sought probe.now) chunk.now }
{
    match chunk.as_slice().first() {
        Some(block) => starts_by(block, probe),
        None => false,
    }
}

/// What is at a key among the pairs of some chunks.
pub(crate) fn find_in_chunks<'a, K: Ord + Drop, V: Drop, P: Probe<K>>(
    chunks: &'a [Chunk<K, V>],
    probe: &P,
) -> Option<&'a V>
    requires { AreBlocks K.cmp chunks.now }
    ensures { option_copied result ≡ find K.cmp (P.sought probe.now) (joined chunks.now) }
{
    let past = chunks.partition_point(|chunk| chunk_starts_by(chunk, probe));
    if past == 0 {
        return None;
    }
    find_in_blocks(chunks[past - 1].as_slice(), probe)
}
