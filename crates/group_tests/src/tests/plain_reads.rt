//! Reads through a node with peers against those through a plain one.

use super::fixtures::{Giver, is_chunk_of, names};
use super::nodes_with_peers::{Asked, PEERS, Reads, Visitor, lone_node, shared_node};
use super::plain_nodes::{FETCHES, LOADS, PlainNode};
use chunk_group::Outcome;
use chunk_reads::ReadFault;
use host_names::Digest;
use peer_ring::{DigestHash, Ring};
use std::alloc::{AllocError, Global};
use std::process::Abort;
use std::sync::Wait;
use std::test::Fail;

/// Whether a read answers what it should: the chunk of a number, or a fault.
fn is_told(
    alloc: Global,
    given: &Outcome,
    number: usize,
    wanted: Option<ReadFault>,
) -> Result<bool, AllocError> {
    match (given, wanted) {
        (Err(ReadFault::OutOfMemory), _) => Err(AllocError),
        (Err(fault), Some(wanted)) => Ok(*fault == wanted),
        (given, None) => is_chunk_of(alloc, given, number),
        _ => Ok(false),
    }
}

/// Whether a read of the chunk of a number answers the same by both means.
fn is_same_read<N: Reads>(
    alloc: Global,
    node: &mut N,
    plain: &mut PlainNode,
    name: &Digest,
    number: usize,
    is_mine: bool,
) -> Result<bool, AllocError> {
    let wanted = plain.read(number, is_mine)?;
    is_told(alloc, &node.read(name), number, wanted)
}

/// Asserts that a read answers the same by both means.
fn assert_same_read<N: Reads>(
    rt: &impl Abort,
    alloc: Global,
    node: &mut N,
    plain: &mut PlainNode,
    ring: &Ring<DigestHash>,
    name: &Digest,
    number: usize,
    read: u32,
) -> Result<(), AllocError> {
    let is_mine = ring.owner(name.to_hex().as_bytes()) == 0;
    let is_same = is_same_read(alloc, node, plain, name, number, is_mine)?;
    assert_eq!(rt; is_same, true, "read {read}");
    Ok(())
}

/// Asserts that 5,000 generated reads answer the same by both means.
fn read_in_turn<N: Reads>(
    rt: &impl Abort,
    alloc: Global,
    node: &mut N,
    plain: &mut PlainNode,
    ring: &Ring<DigestHash>,
    names: &[Digest],
) -> Result<(), Fail> {
    let mut state: u32 = 1;
    for read in 0..5000u32 {
        state = state.wrapping_mul(1_664_525).wrapping_add(1_013_904_223);
        let number = (state >> 16) as usize % names.len().max(1);
        let name = names.get(number).ok_or("no such chunk")?;
        assert_same_read(rt, alloc, node, plain, ring, name, number, read)?;
    }
    Ok(())
}

/// The same, with the ring of the nodes.
fn read_both<N: Reads>(
    rt: &impl Abort,
    alloc: Global,
    node: &mut N,
    plain: &mut PlainNode,
    names: &[Digest],
) -> Result<(), Fail> {
    let ring = Ring::new(alloc, &PEERS, &DigestHash)?;
    read_in_turn(rt, alloc, node, plain, &ring, names)
}

/// Reads through a node of one thread, and through the plain one.
fn read_alone(
    rt: &impl Abort,
    alloc: Global,
    names: &[Digest],
    asked: &Asked,
    plain: &mut PlainNode,
) -> Result<(), Fail> {
    let source = Giver::new(alloc, names, &LOADS, &asked.source);
    let link = Giver::new(alloc, names, &FETCHES, &asked.peers);
    let mut node = lone_node(alloc, plain.limit, source, link)?;
    read_both(rt, alloc, &mut node, plain, names)
}

/// The same through a node that threads share.
fn read_shared<R: Abort + Wait>(
    rt: &R,
    alloc: Global,
    names: &[Digest],
    asked: &Asked,
    plain: &mut PlainNode,
) -> Result<(), Fail> {
    let source = Giver::new(alloc, names, &LOADS, &asked.source);
    let link = Giver::new(alloc, names, &FETCHES, &asked.peers);
    let node = shared_node(alloc, plain.limit, source, link)?;
    let mut visitor = Visitor { rt, node: &node };
    read_both(rt, alloc, &mut visitor, plain, names)
}

/// Asserts that the reads of these chunks under a limit answer the same by both means, and ask the peers and the source as often.
fn assert_same_alone(
    rt: &impl Abort,
    alloc: Global,
    names: &[Digest],
    limit: usize,
) -> Result<(), Fail> {
    let asked = Asked::new();
    let mut plain = PlainNode::new(alloc, limit);
    read_alone(rt, alloc, names, &asked, &mut plain)?;
    asked.assert(rt, plain.fetches, plain.loads);
    Ok(())
}

/// The same through a node that threads share.
fn assert_same_shared<R: Abort + Wait>(
    rt: &R,
    alloc: Global,
    names: &[Digest],
    limit: usize,
) -> Result<(), Fail> {
    let asked = Asked::new();
    let mut plain = PlainNode::new(alloc, limit);
    read_shared(rt, alloc, names, &asked, &mut plain)?;
    asked.assert(rt, plain.fetches, plain.loads);
    Ok(())
}

#[test]
fn ten_thousand_reads_on_one_thread_give_what_a_plain_node_gives(
    rt: HostRuntime,
) -> Result<(), Fail> {
    let names = names(rt.alloc(), 40)?;
    assert_same_alone(&rt, rt.alloc(), names.as_slice(), 900)?;
    assert_same_alone(&rt, rt.alloc(), names.as_slice(), 2500)
}

#[test]
fn ten_thousand_reads_of_a_shared_node_give_what_a_plain_node_gives(
    rt: HostRuntime,
) -> Result<(), Fail> {
    let names = names(rt.alloc(), 40)?;
    assert_same_shared(&rt, rt.alloc(), names.as_slice(), 900)?;
    assert_same_shared(&rt, rt.alloc(), names.as_slice(), 2500)
}
