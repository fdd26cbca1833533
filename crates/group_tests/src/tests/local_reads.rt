//! What a node gives by itself.

use super::fixtures::{Gift, Giver, is_chunk_of, names};
use super::nodes_with_peers::{Asked, SharedNode, shared_node};
use chunk_reads::ReadFault;
use host_names::Digest;
use peer_link::LocalChunks;
use std::alloc::{AllocError, Global};
use std::process::Abort;
use std::sync::Wait;
use std::test::Fail;

/// How many chunks the source has. Their names are known of one more.
const CHUNKS: usize = 12;

/// How many of the chunks are given right, by the node alone or as others read.
fn count_right<R: Wait>(
    rt: &R,
    alloc: Global,
    node: &SharedNode<'_>,
    names: &[Digest],
    is_local: bool,
) -> Result<usize, AllocError> {
    let mut right: usize = 0;
    for (number, name) in names.iter().enumerate() {
        let given = if is_local {
            node.local(rt, name).ok_or(ReadFault::Missing)
        } else {
            node.get(rt, name)
        };
        if is_chunk_of(alloc, &given, number)? {
            right = right.saturating_add(1);
        }
    }
    Ok(right)
}

/// Asserts that the node gives all that the source has without a peer, keeps it in main, and gives nothing of a chunk that is missing.
fn assert_local<R: Abort + Wait>(
    rt: &R,
    alloc: Global,
    known: &[Digest],
    missing: &Digest,
) -> Result<(), Fail> {
    let asked = Asked::new();
    let source = Giver::new(alloc, known, &[], &asked.source);
    let link = Giver::new(alloc, known, &[], &asked.peers);
    let node = shared_node(alloc, 100_000, source, link)?;
    assert_eq!(rt; count_right(rt, alloc, &node, known, true)?, known.len());
    asked.assert(rt, 0, known.len() as u64);
    assert_eq!(rt; count_right(rt, alloc, &node, known, false)?, known.len());
    asked.assert(rt, 0, known.len() as u64);
    assert_eq!(rt;
        node.local(rt, missing).is_none(),
        true,
        "a chunk that is missing"
    );
    Ok(())
}

#[test]
fn a_node_gives_by_itself_what_its_source_has(rt: HostRuntime) -> Result<(), Fail> {
    let names = names(rt.alloc(), CHUNKS + 1)?;
    let (missing, known) = names.as_slice().split_last().ok_or("no name")?;
    assert_local(&rt, rt.alloc(), known, missing)
}

/// What a source may give at first. Then it gives the chunk.
const FAILURES: [[Gift; 2]; 3] = [
    [Gift::Nothing, Gift::Right],
    [Gift::Short, Gift::Right],
    [Gift::Other, Gift::Right],
];

/// Whether a node gives the chunk of a number by itself; none where it gives nothing.
pub(super) fn is_given<R: Wait>(
    rt: &R,
    alloc: Global,
    node: &SharedNode<'_>,
    names: &[Digest],
    number: usize,
) -> Result<Option<bool>, Fail> {
    let name = names.get(number).ok_or("no such chunk")?;
    let Some(chunk) = node.local(rt, name) else {
        return Ok(None);
    };
    Ok(Some(is_chunk_of(alloc, &Ok(chunk), number)?))
}

/// Asserts that a node gives nothing of a chunk where its source fails, and the chunk once that gives it.
fn assert_failure<R: Abort + Wait>(
    rt: &R,
    alloc: Global,
    names: &[Digest],
    gifts: &[Gift],
) -> Result<(), Fail> {
    let asked = Asked::new();
    let source = Giver::new(alloc, names, gifts, &asked.source);
    let link = Giver::new(alloc, names, &[], &asked.peers);
    let node = shared_node(alloc, 100_000, source, link)?;
    for (loads, wanted) in [(1, None), (2, Some(true)), (2, Some(true))] {
        assert_eq!(rt; is_given(rt, alloc, &node, names, 1)?, wanted);
        asked.assert(rt, 0, loads);
    }
    Ok(())
}

#[test]
fn a_node_whose_source_fails_gives_nothing_and_then_the_chunk(rt: HostRuntime) -> Result<(), Fail> {
    let names = names(rt.alloc(), CHUNKS)?;
    for gifts in &FAILURES {
        assert_failure(&rt, rt.alloc(), names.as_slice(), gifts)?;
    }
    Ok(())
}
