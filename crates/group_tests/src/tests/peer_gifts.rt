//! Whom a node asks for a chunk that another node owns, by what its owner gives.

use super::fixtures::{Gift, Giver, is_chunk_of, names};
use super::nodes_with_peers::{Asked, Reads, Visitor, lone_node, number_of_others, shared_node};
use chunk_group::Outcome;
use chunk_reads::ReadFault;
use host_names::Digest;
use std::alloc::Global;
use std::process::Abort;
use std::sync::Wait;
use std::test::Fail;

/// Asserts that a read gave the chunk of a number.
fn assert_chunk(
    rt: &impl Abort,
    alloc: Global,
    given: &Outcome,
    number: usize,
) -> Result<(), Fail> {
    if let Err(ReadFault::OutOfMemory) = given {
        return Err(Fail::from("OutOfMemory"));
    }
    let is_right = is_chunk_of(alloc, given, number)?;
    assert_eq!(rt; is_right, true, "the chunk {number}");
    Ok(())
}

/// Asserts that a read gives the chunk of a number.
fn assert_read<N: Reads>(
    rt: &impl Abort,
    alloc: Global,
    node: &mut N,
    names: &[Digest],
    number: usize,
) -> Result<(), Fail> {
    let name = names.get(number).ok_or("no such chunk")?;
    assert_chunk(rt, alloc, &node.read(name), number)
}

/// What the peer that owns a chunk gives, and what the caches may count; how often peers and source were asked after one read of the chunk,
/// and after two.
struct Visit {
    gifts: [Gift; 1],
    limit: usize,
    once: (u64, u64),
    twice: (u64, u64),
}

/// The caches start with the coin at 0, so what the first of these gives is kept in hot; what the source gives after the lies is kept in main.
const VISITS: [Visit; 6] = [
    Visit {
        gifts: [Gift::Right],
        limit: 10_000,
        once: (1, 0),
        twice: (1, 0),
    },
    Visit {
        gifts: [Gift::Other],
        limit: 10_000,
        once: (1, 1),
        twice: (1, 1),
    },
    Visit {
        gifts: [Gift::Short],
        limit: 10_000,
        once: (1, 1),
        twice: (1, 1),
    },
    Visit {
        gifts: [Gift::Nothing],
        limit: 10_000,
        once: (1, 1),
        twice: (1, 1),
    },
    Visit {
        gifts: [Gift::Right],
        limit: 0,
        once: (1, 0),
        twice: (2, 0),
    },
    Visit {
        gifts: [Gift::Other],
        limit: 0,
        once: (1, 1),
        twice: (2, 2),
    },
];

/// Asserts that both reads of a visit give the chunk, and who was asked.
fn assert_visit<N: Reads>(
    rt: &impl Abort,
    alloc: Global,
    node: &mut N,
    names: &[Digest],
    number: usize,
    visit: &Visit,
    asked: &Asked,
) -> Result<(), Fail> {
    assert_read(rt, alloc, node, names, number)?;
    asked.assert(rt, visit.once.0, visit.once.1);
    assert_read(rt, alloc, node, names, number)?;
    asked.assert(rt, visit.twice.0, visit.twice.1);
    Ok(())
}

fn assert_lone_visit(
    rt: &impl Abort,
    alloc: Global,
    names: &[Digest],
    number: usize,
    visit: &Visit,
    asked: &Asked,
) -> Result<(), Fail> {
    let source = Giver::new(alloc, names, &[], &asked.source);
    let link = Giver::new(alloc, names, &visit.gifts, &asked.peers);
    let mut node = lone_node(alloc, visit.limit, source, link)?;
    assert_visit(rt, alloc, &mut node, names, number, visit, asked)
}

fn assert_shared_visit<R: Abort + Wait>(
    rt: &R,
    alloc: Global,
    names: &[Digest],
    number: usize,
    visit: &Visit,
    asked: &Asked,
) -> Result<(), Fail> {
    let source = Giver::new(alloc, names, &[], &asked.source);
    let link = Giver::new(alloc, names, &visit.gifts, &asked.peers);
    let node = shared_node(alloc, visit.limit, source, link)?;
    let mut visitor = Visitor { rt, node: &node };
    assert_visit(rt, alloc, &mut visitor, names, number, visit, asked)
}

/// Asserts a visit through a node of each kind.
fn assert_both<R: Abort + Wait>(
    rt: &R,
    alloc: Global,
    names: &[Digest],
    number: usize,
    visit: &Visit,
) -> Result<(), Fail> {
    assert_lone_visit(rt, alloc, names, number, visit, &Asked::new())?;
    assert_shared_visit(rt, alloc, names, number, visit, &Asked::new())
}

/// Asserts all visits of the first chunk that another node owns.
fn assert_visits<R: Abort + Wait>(rt: &R, alloc: Global, names: &[Digest]) -> Result<(), Fail> {
    let number = number_of_others(alloc, names)?;
    for visit in &VISITS {
        assert_both(rt, alloc, names, number, visit)?;
    }
    Ok(())
}

#[test]
fn the_owner_is_asked_and_else_the_source(rt: HostRuntime) -> Result<(), Fail> {
    let names = names(rt.alloc(), 40)?;
    assert_visits(&rt, rt.alloc(), names.as_slice())
}
