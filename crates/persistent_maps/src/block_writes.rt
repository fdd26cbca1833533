//! Writing edits over blocks.
ghost use Rattle.std.specs.Prelude.{◌≡◌, ◌≢◌, ◌++◌, [], IfOk, OnOk, option_copied};
ghost use Rattle.std.specs.List.Sorted.{IsStrictlySortedBy};
ghost use Rattle.std.specs.Map.{keys_of};
ghost use Rattle.shared_blocks.specs.Blocks.{joined};
ghost use Rattle.shared_blocks.specs.Copies.{AreSame};
ghost use Rattle.persistent_maps.specs.Edits.{edited_by};
ghost use Rattle.persistent_maps.specs.Maps as spec;
ghost use Rattle.persistent_maps.specs.Maps.{AreBlocks, HaveItems};
ghost use Rattle.persistent_maps.specs.Merge.{below, not_below};

use crate::merge::{Edit, begins_below, merge_block};
use crate::pieces::{Cut, push_items};
use shared_blocks::Block;
use std::alloc::{AllocError, Global};
use std::collections::VecDeque;

/// The first key of some blocks.
pub(crate) fn first_key<K: Drop, V: Drop>(blocks: &[Block<(K, V)>]) -> Option<&K>
    ensures { option_copied result ≡ spec.first_key blocks.now }
{
    let pair = blocks.first()?.as_slice().first()?;
    Some(&pair.0)
}

/// How the pairs that a write makes of a block are cut: into full blocks if they go on after the block's last key, as they do when keys
/// come in their order.
pub(crate) fn cut_of<K: Ord + Drop, V: Drop>(block: &[(K, V)], merged: &[(K, V)]) -> Cut {
    match (block.last(), merged.last()) {
        (Some(before), Some(after)) if after.0.cmp(&before.0).is_le() => Cut::Even,
        _ => Cut::Full,
    }
}

/// Adds a block with the edits below the limit written over it. A block into which no edit falls is shared.
fn write_block<K: Ord + Clone + Drop, V: Clone + Drop>(
    written: &mut Vec<Block<(K, V)>>,
    block: &Block<(K, V)>,
    edits: &mut VecDeque<Edit<K, V>>,
    limit: Option<&K>,
) -> Result<(), AllocError>
    requires keys { AreSame K.is_clone }
    requires values { AreSame V.is_clone }
    requires filled { HaveItems written.old.items }
    requires has_items { block.now ≢ [] }
    requires block_rises { IsStrictlySortedBy K.cmp (keys_of block.now) }
    requires edits_rise { IsStrictlySortedBy K.cmp (keys_of edits.old.items) }
    ensures joined { OnOk result (joined written.new.items
        ≡ joined written.old.items ++ edited_by K.cmp block.now (below K.cmp (option_copied limit.entry) edits.old.items)) }
    ensures rest { OnOk result (edits.new.items ≡ not_below K.cmp (option_copied limit.entry) edits.old.items) }
    ensures filled { OnOk result (HaveItems written.new.items) }
{
    if !begins_below(edits, limit) {
        written.push(block.clone()?)?;
        return Ok(());
    }
    let merged = merge_block(*written.allocator(), block.as_slice(), edits, limit)?;
    let cut = cut_of(block.as_slice(), merged.as_slice());
    push_items(written, merged, cut)
}

/// Writes over each block the edits that are below the next one. If there is no block, all edits are left.
fn write_blocks<K: Ord + Clone + Drop, V: Clone + Drop>(
    written: &mut Vec<Block<(K, V)>>,
    blocks: &[Block<(K, V)>],
    edits: &mut VecDeque<Edit<K, V>>,
) -> Result<(), AllocError>
    requires keys { AreSame K.is_clone }
    requires values { AreSame V.is_clone }
    requires filled { HaveItems written.old.items }
    requires sound { AreBlocks K.cmp blocks.now }
    requires edits_rise { IsStrictlySortedBy K.cmp (keys_of edits.old.items) }
    ensures whole { OnOk result (joined written.new.items ++ edited_by K.cmp [] edits.new.items
        ≡ joined written.old.items ++ edited_by K.cmp (joined blocks.now) edits.old.items) }
    ensures edits_rise { OnOk result (IsStrictlySortedBy K.cmp (keys_of edits.new.items)) }
    ensures filled { OnOk result (HaveItems written.new.items) }
{
    let mut left = blocks;
    'written: while let Some((block, rest)) = left.split_first() {
        write_block(written, block, edits, first_key(rest))?;
        left = rest;
    }
    Ok(())
}

/// The pairs of a block with all of these edits written over them.
fn edited_block<K: Ord + Clone + Drop, V: Clone + Drop>(
    alloc: Global,
    block: &[(K, V)],
    edits: &mut VecDeque<Edit<K, V>>,
) -> Result<Vec<(K, V)>, AllocError>
    requires keys { AreSame K.is_clone }
    requires values { AreSame V.is_clone }
    requires block_rises { IsStrictlySortedBy K.cmp (keys_of block.now) }
    requires edits_rise { IsStrictlySortedBy K.cmp (keys_of edits.old.items) }
    ensures { IfOk result (λ merged. merged.items ≡ edited_by K.cmp block.now edits.old.items) }
{
    let no_blocks: Vec<Block<(K, V)>> = Vec::new(alloc);
    merge_block(alloc, block, edits, first_key(no_blocks.as_slice()))
}

/// The pairs that edits give by themselves, over no pairs.
fn merge_rest<K: Ord + Clone + Drop, V: Clone + Drop>(
    alloc: Global,
    edits: &mut VecDeque<Edit<K, V>>,
) -> Result<Vec<(K, V)>, AllocError>
    requires keys { AreSame K.is_clone }
    requires values { AreSame V.is_clone }
    requires edits_rise { IsStrictlySortedBy K.cmp (keys_of edits.old.items) }
    ensures { IfOk result (λ merged. merged.items ≡ edited_by K.cmp [] edits.old.items) }
{
    let no_pairs: Vec<(K, V)> = Vec::new(alloc);
    edited_block(alloc, no_pairs.as_slice(), edits)
}

/// The blocks with these edits written over them. If there are no blocks, new ones with what the edits give.
pub(crate) fn written_blocks<K: Ord + Clone + Drop, V: Clone + Drop>(
    alloc: Global,
    blocks: &[Block<(K, V)>],
    edits: VecDeque<Edit<K, V>>,
) -> Result<Vec<Block<(K, V)>>, AllocError>
    requires keys { AreSame K.is_clone }
    requires values { AreSame V.is_clone }
    requires sound { AreBlocks K.cmp blocks.now }
    requires edits_rise { IsStrictlySortedBy K.cmp (keys_of edits.items) }
    ensures joined { IfOk result (λ written. joined written.items ≡ edited_by K.cmp (joined blocks.now) edits.items) }
    ensures sound { IfOk result (λ written. AreBlocks K.cmp written.items) }
{
    let mut edits = edits;
    let mut written = Vec::with_capacity(alloc, blocks.len())?;
    write_blocks(&mut written, blocks, &mut edits)?;
    let added = merge_rest(alloc, &mut edits)?;
    push_items(&mut written, added, Cut::Full)?;
    Ok(written)
}
