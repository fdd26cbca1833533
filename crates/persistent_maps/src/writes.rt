//! Writing edits over the chunks of a map.
ghost use Rattle.std.specs.Prelude.{◌≡◌, ◌≢◌, ◌++◌, ◌<◌, ◌≤◌, [], true, get_or, length, take, drop, IfOk, IfSome, OnOk, OnErr, option_copied};
ghost use Rattle.std.specs.List.Sorted.{IsStrictlySortedBy};
ghost use Rattle.std.specs.Map.{keys_of};
ghost use Rattle.shared_blocks.specs.Blocks.{joined};
ghost use Rattle.shared_blocks.specs.Copies.{AreSame};
ghost use Rattle.persistent_maps.specs.Edits.{edited_by};
ghost use Rattle.persistent_maps.specs.Maps as spec;
ghost use Rattle.persistent_maps.specs.Maps.{AreBlocks, HaveItems};
ghost use Rattle.persistent_maps.specs.Merge.{below, not_below};

use crate::block_writes::{cut_of, first_key, written_blocks};
use crate::chunks::Chunk;
use crate::merge::{Edit, begins_below, take_below};
use crate::pieces::{Cut, push_items};
use shared_blocks::Block;
use std::alloc::{AllocError, Global};
use std::collections::VecDeque;

/// The handles of a chunk.
type Row<K, V> = Block<Block<(K, V)>>;

/// The first key of some chunks.
fn first_chunk_key<K: Drop, V: Drop>(chunks: &[Chunk<K, V>]) -> Option<&K>
    ensures { option_copied result ≡ spec.first_key chunks.now }
{
    first_key(chunks.first()?.as_slice())
}

/// How the blocks that a write makes of a chunk's are cut: into full chunks if the pairs go on after the chunk's last key.
fn cut_of_blocks<K: Ord + Drop, V: Drop>(
    chunk: &[Block<(K, V)>],
    written: &[Block<(K, V)>],
) -> Cut {
    match (chunk.last(), written.last()) {
        (Some(before), Some(after)) => cut_of(before.as_slice(), after.as_slice()),
        _ => Cut::Full,
    }
}

/// Adds rows of the blocks of a chunk with these edits written over them.
fn push_written<K: Ord + Clone + Drop, V: Clone + Drop>(
    rows: &mut Vec<Row<K, V>>,
    blocks: &[Block<(K, V)>],
    edits: VecDeque<Edit<K, V>>,
) -> Result<(), AllocError>
    requires keys { AreSame K.is_clone }
    requires values { AreSame V.is_clone }
    requires filled { HaveItems rows.old.items }
    requires blocks_filled { HaveItems (joined rows.old.items) }
    requires sound { AreBlocks K.cmp blocks.now }
    requires edits_rise { IsStrictlySortedBy K.cmp (keys_of edits.items) }
    ensures pairs { OnOk result (joined (joined rows.new.items) ≡ joined (joined rows.old.items) ++ edited_by K.cmp (joined blocks.now) edits.items) }
    ensures filled { OnOk result (HaveItems rows.new.items) }
    ensures blocks_filled { OnOk result (HaveItems (joined rows.new.items)) }
{
    let written = written_blocks(*rows.allocator(), blocks, edits)?;
    let cut = cut_of_blocks(blocks, written.as_slice());
    push_items(rows, written, cut)
}

/// Adds rows of the blocks of a chunk with the edits below the limit written over them. A chunk into which no edit falls is shared.
fn write_chunk<K: Ord + Clone + Drop, V: Clone + Drop>(
    rows: &mut Vec<Row<K, V>>,
    chunk: &Chunk<K, V>,
    edits: &mut VecDeque<Edit<K, V>>,
    limit: Option<&K>,
) -> Result<(), AllocError>
    requires keys { AreSame K.is_clone }
    requires values { AreSame V.is_clone }
    requires filled { HaveItems rows.old.items }
    requires blocks_filled { HaveItems (joined rows.old.items) }
    requires has_items { chunk.now ≢ [] }
    requires chunk_rises { IsStrictlySortedBy K.cmp (keys_of chunk.now) }
    requires edits_rise { IsStrictlySortedBy K.cmp (keys_of edits.old.items) }
    ensures pairs { OnOk result (joined (joined rows.new.items)
        ≡ joined (joined rows.old.items) ++ edited_by K.cmp chunk.now (below K.cmp (option_copied limit.entry) edits.old.items)) }
    ensures rest { OnOk result (edits.new.items ≡ not_below K.cmp (option_copied limit.entry) edits.old.items) }
    ensures filled { OnOk result (HaveItems rows.new.items) }
    ensures blocks_filled { OnOk result (HaveItems (joined rows.new.items)) }
{
    if !begins_below(edits, limit) {
        rows.push(chunk.share()?)?;
        return Ok(());
    }
    let own = take_below(edits, limit)?;
    push_written(rows, chunk.as_slice(), own)
}

/// Writes over each chunk the edits that are below the next one, as long as there are edits. Answers how many chunks these are.
fn write_chunks<K: Ord + Clone + Drop, V: Clone + Drop>(
    rows: &mut Vec<Row<K, V>>,
    chunks: &[Chunk<K, V>],
    edits: &mut VecDeque<Edit<K, V>>,
) -> Result<usize, AllocError>
    requires keys { AreSame K.is_clone }
    requires values { AreSame V.is_clone }
    requires filled { HaveItems rows.old.items }
    requires blocks_filled { HaveItems (joined rows.old.items) }
    requires sound { AreBlocks K.cmp chunks.now }
    requires edits_rise { IsStrictlySortedBy K.cmp (keys_of edits.old.items) }
    ensures within { IfOk result (λ count. count ≤ length chunks.now) }
    ensures whole { IfOk result (λ count. joined (joined rows.new.items) ++ (edited_by K.cmp [] edits.new.items ++ joined (drop count chunks.now))
        ≡ joined (joined rows.old.items) ++ edited_by K.cmp (joined chunks.now) edits.old.items) }
    ensures edits_rise { OnOk result (IsStrictlySortedBy K.cmp (keys_of edits.new.items)) }
    ensures filled { OnOk result (HaveItems rows.new.items) }
    ensures blocks_filled { OnOk result (HaveItems (joined rows.new.items)) }
{
    let mut count = 0;
    'written: while count < chunks.len() && !edits.is_empty() {
        let limit = first_chunk_key(&chunks[count + 1..]);
        write_chunk(rows, &chunks[count], edits, limit)?;
        count += 1;
    }
    Ok(count)
}

/// The chunks of these rows.
fn chunks_of<K: Drop, V: Drop>(
    alloc: Global,
    rows: Vec<Row<K, V>>,
) -> Result<Vec<Chunk<K, V>>, AllocError>
    requires filled { HaveItems rows.items }
    requires blocks_filled { HaveItems (joined rows.items) }
    ensures pairs { IfOk result (λ chunks. joined chunks.items ≡ joined (joined rows.items)) }
    ensures filled { IfOk result (λ chunks. HaveItems chunks.items) }
{
    let mut chunks = Vec::with_capacity(alloc, rows.len())?;
    for row in rows {
        chunks.push(Chunk::new(row))?;
    }
    Ok(chunks)
}

/// The first of some chunks, as far as edits fall into them, with these edits written over them; and how many chunks these are.
fn written<K: Ord + Clone + Drop, V: Clone + Drop>(
    alloc: Global,
    chunks: &[Chunk<K, V>],
    edits: Vec<Edit<K, V>>,
) -> Result<(Vec<Chunk<K, V>>, usize), AllocError>
    requires keys { AreSame K.is_clone }
    requires values { AreSame V.is_clone }
    requires sound { AreBlocks K.cmp chunks.now }
    requires edits_rise { IsStrictlySortedBy K.cmp (keys_of edits.items) }
    ensures within { IfOk result (λ w. w.1 ≤ length chunks.now) }
    ensures pairs { IfOk result (λ w. joined w.0.items ++ joined (drop w.1 chunks.now) ≡ edited_by K.cmp (joined chunks.now) edits.items) }
    ensures filled { IfOk result (λ w. HaveItems w.0.items) }
{
    let mut edits = VecDeque::from_vec(edits);
    let mut rows = Vec::new(alloc);
    let count = write_chunks(&mut rows, chunks, &mut edits)?;
    let no_blocks: Vec<Block<(K, V)>> = Vec::new(alloc);
    push_written(&mut rows, no_blocks.as_slice(), edits)?;
    Ok((chunks_of(alloc, rows)?, count))
}

/// Whether the first key of a chunk is at most this one.
fn starts_by<K: Ord + Drop, V: Drop>(chunk: &Chunk<K, V>, key: &K) -> bool
    ensures { result ≡ spec.starts_by K.cmp key.now chunk.now }
{
    match first_key(chunk.as_slice()) {
        Some(first) => first.cmp(key).is_le(),
        None => false,
    }
}

/// The place of the first chunk into which an edit falls. All edits are past the chunks before it.
fn first_place<K: Ord + Drop, V: Drop>(chunks: &[Chunk<K, V>], edits: &[Edit<K, V>]) -> usize
    requires sound { AreBlocks K.cmp chunks.now }
    requires edits_rise { IsStrictlySortedBy K.cmp (keys_of edits.now) }
    ensures within { result ≤ length chunks.now }
    ensures past { edited_by K.cmp (joined chunks.now) edits.now ≡ joined (take result chunks.now) ++ edited_by K.cmp (joined (drop result chunks.now)) edits.now }
{
    match edits.first() {
        Some(edit) => place_of(chunks, &edit.0),
        None => chunks.len(),
    }
}

/// The place of the chunk into which a key falls.
fn place_of<K: Ord + Drop, V: Drop>(chunks: &[Chunk<K, V>], key: &K) -> usize
    requires { AreBlocks K.cmp chunks.now }
    ensures within { result ≤ length chunks.now }
    ensures past { 0 < result → (result < length chunks.now) × (spec.starts_by K.cmp key.now (get_or chunks.now result []) ≡ true) }
{
    let past = chunks.partition_point(|chunk| starts_by(chunk, key));
    past.saturating_sub(1)
}

/// Puts these chunks in the place of those from one place to another. On an error nothing changes.
fn replace_chunks<K: Drop, V: Drop>(
    chunks: &mut Vec<Chunk<K, V>>,
    start: usize,
    end: usize,
    written: Vec<Chunk<K, V>>,
) -> Result<(), AllocError>
    requires { (start ≤ end) × (end ≤ length chunks.old.items) }
    ensures ok { OnOk result (chunks.new.items ≡ take start chunks.old.items ++ (written.items ++ drop end chunks.old.items)) }
    ensures err { OnErr result (chunks.new.items ≡ chunks.old.items) }
{
    chunks.splice(start..end, written)?;
    Ok(())
}

/// Writes edits over the chunks of a map: the chunks from the first to the last into which an edit falls are made anew, and put in the
/// place of the old ones. On an error nothing changes.
pub(crate) fn write_edits<K: Ord + Clone + Drop, V: Clone + Drop>(
    chunks: &mut Vec<Chunk<K, V>>,
    edits: Vec<Edit<K, V>>,
) -> Result<(), AllocError>
    requires keys { AreSame K.is_clone }
    requires values { AreSame V.is_clone }
    requires sound { AreBlocks K.cmp chunks.old.items }
    requires edits_rise { IsStrictlySortedBy K.cmp (keys_of edits.items) }
    ensures joined { OnOk result (joined chunks.new.items ≡ edited_by K.cmp (joined chunks.old.items) edits.items) }
    ensures sound { OnOk result (AreBlocks K.cmp chunks.new.items) }
    ensures err { OnErr result (chunks.new.items ≡ chunks.old.items) }
{
    let alloc = *chunks.allocator();
    let start = first_place(chunks.as_slice(), edits.as_slice());
    let (written, count) = written(alloc, &chunks[start..], edits)?;
    replace_chunks(chunks, start, start + count, written)?;
    Ok(())
}
