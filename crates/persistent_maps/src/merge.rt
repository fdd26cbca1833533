//! A merge of a block's pairs with the edits that fall into it.
ghost use Rattle.std.specs.Prelude.{◌≡◌, ◌∷◌, [], ◌++◌, IfOk, OnOk, MatchOption, option_copied};
ghost use Rattle.std.specs.List.Sorted.{IsStrictlySortedBy};
ghost use Rattle.std.specs.Map.{keys_of};
ghost use Rattle.shared_blocks.specs.Copies.{AreSame};
ghost use Rattle.persistent_maps.specs.Edits.{edited_by, listed};
ghost use Rattle.persistent_maps.specs.Merge;
ghost use Rattle.persistent_maps.specs.Merge.{before_key, from_key, past_key, below, not_below};

use std::alloc::{AllocError, Global};
use std::collections::VecDeque;
use std::mem;

/// A pair's key, and the value that it is to have; none removes it.
pub(crate) type Edit<K, V> = (K, Option<V>);

/// Whether the first pair's key is before this one.
fn begins_before<K: Ord + Drop, X: Drop>(pairs: &VecDeque<(K, X)>, key: &K) -> bool
    ensures { result ≡ Merge.begins_before K.cmp key.now pairs.now.items }
{
    match pairs.front() {
        Some(pair) => pair.0.cmp(key).is_lt(),
        None => false,
    }
}

/// Whether the first pair's key is this one.
fn begins_at<K: Ord + Drop, X: Drop>(pairs: &VecDeque<(K, X)>, key: &K) -> bool
    ensures { result ≡ Merge.begins_at K.cmp key.now pairs.now.items }
{
    match pairs.front() {
        Some(pair) => pair.0.cmp(key).is_eq(),
        None => false,
    }
}

/// Whether there is a first edit, and it is below the limit, if there is a limit.
pub(crate) fn begins_below<K: Ord + Drop, X: Drop>(
    edits: &VecDeque<(K, X)>,
    limit: Option<&K>,
) -> bool
    ensures { result ≡ Merge.begins_below K.cmp (option_copied limit.entry) edits.now.items }
{
    match limit {
        Some(key) => begins_before(edits, key),
        None => !edits.is_empty(),
    }
}

/// Moves the pairs in front whose keys are before this one.
fn move_before<K: Ord + Drop, V: Drop>(
    pairs: &mut VecDeque<(K, V)>,
    key: &K,
    merged: &mut Vec<(K, V)>,
) -> Result<(), AllocError>
    ensures moved { OnOk result (merged.new.items ≡ merged.old.items ++ before_key K.cmp key.now pairs.old.items) }
    ensures rest { OnOk result (pairs.new.items ≡ from_key K.cmp key.now pairs.old.items) }
{
    while begins_before(pairs, key) {
        if let Some(pair) = pairs.pop_front() {
            merged.push(pair)?;
        }
    }
    Ok(())
}

/// Drops the first pair, if it has this key.
fn drop_at<K: Ord + Drop, V: Drop>(pairs: &mut VecDeque<(K, V)>, key: &K)
    ensures { pairs.new.items ≡ past_key K.cmp key.now pairs.old.items }
{
    if begins_at(pairs, key) {
        let _ = pairs.pop_front();
    }
}

/// Adds a key with its value, if it has one.
fn push_listed<K: Drop, V: Drop>(
    pairs: &mut Vec<(K, V)>,
    key: K,
    value: Option<V>,
) -> Result<(), AllocError>
    ensures { OnOk result (pairs.new.items ≡ pairs.old.items ++ listed key value) }
{
    if let Some(value) = value {
        pairs.push((key, value))?;
    }
    Ok(())
}

/// Takes the edits that are below the limit, and merges them with the pairs. The pairs that are left come after all of these.
fn merge_edits<K: Ord + Drop, V: Drop>(
    pairs: &mut VecDeque<(K, V)>,
    edits: &mut VecDeque<Edit<K, V>>,
    limit: Option<&K>,
    merged: &mut Vec<(K, V)>,
) -> Result<(), AllocError>
    requires pairs_rise { IsStrictlySortedBy K.cmp (keys_of pairs.old.items) }
    requires edits_rise { IsStrictlySortedBy K.cmp (keys_of edits.old.items) }
    ensures whole { OnOk result (merged.new.items ++ pairs.new.items
        ≡ merged.old.items ++ edited_by K.cmp pairs.old.items (below K.cmp (option_copied limit.entry) edits.old.items)) }
    ensures rest { OnOk result (edits.new.items ≡ not_below K.cmp (option_copied limit.entry) edits.old.items) }
{
    'edits: while begins_below(edits, limit) {
        if let Some((key, value)) = edits.pop_front() {
            move_before(pairs, &key, merged)?;
            drop_at(pairs, &key);
            push_listed(merged, key, value)?;
        }
    }
    Ok(())
}

/// Takes the edits that are below the limit, and writes them over a block's pairs.
pub(crate) fn merge_block<K: Ord + Clone + Drop, V: Clone + Drop>(
    alloc: Global,
    block: &[(K, V)],
    edits: &mut VecDeque<Edit<K, V>>,
    limit: Option<&K>,
) -> Result<Vec<(K, V)>, AllocError>
    requires keys { AreSame K.is_clone }
    requires values { AreSame V.is_clone }
    requires block_rises { IsStrictlySortedBy K.cmp (keys_of block.now) }
    requires edits_rise { IsStrictlySortedBy K.cmp (keys_of edits.old.items) }
    ensures merged { IfOk result (λ merged. merged.items ≡ edited_by K.cmp block.now (below K.cmp (option_copied limit.entry) edits.old.items)) }
    ensures rest { OnOk result (edits.new.items ≡ not_below K.cmp (option_copied limit.entry) edits.old.items) }
{
    let mut pairs = VecDeque::from_vec(block.to_vec(alloc)?);
    let mut merged = Vec::with_capacity(alloc, block.len())?;
    merge_edits(&mut pairs, edits, limit, &mut merged)?;
    for pair in pairs {
        merged.push(pair)?;
    }
    Ok(merged)
}

/// Takes the edits that are below the limit.
pub(crate) fn take_below<K: Ord + Drop, V: Drop>(
    edits: &mut VecDeque<Edit<K, V>>,
    limit: Option<&K>,
) -> Result<VecDeque<Edit<K, V>>, AllocError>
    ensures taken { IfOk result (λ taken. taken.items ≡ below K.cmp (option_copied limit.entry) edits.old.items) }
    ensures rest { OnOk result (edits.new.items ≡ not_below K.cmp (option_copied limit.entry) edits.old.items) }
{
    let alloc = *edits.allocator();
    match limit {
        Some(key) => {
            let mut taken = Vec::new(alloc);
            move_before(edits, key, &mut taken)?;
            Ok(VecDeque::from_vec(taken))
        }
        None => Ok(mem::replace(edits, VecDeque::new(alloc))),
    }
}
