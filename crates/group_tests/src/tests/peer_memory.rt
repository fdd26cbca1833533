//! A fetch, a connection of a peer, and what a node gives by itself, where memory may run out once: what is given then, and that the same call
//! gives all when it is made again. scripts/fail-allocations refuses each allocation of these in turn.

use super::failing_streams::{MemoryLink, Turns, answer_of};
use super::fixtures::{Giver, bytes_of, names};
use super::local_reads::is_given;
use super::nodes_with_peers::{Asked, SharedNode, shared_node};
use super::peer_requests::{OneChunk, hello};
use super::refused_answers::{ANSWERS, Served, is_front, serve};
use super::refused_fetches::{Fetched, is_fetched};
use host_names::Digest;
use peer_link::{PeerLink, ServeFault};
use std::alloc::Global;
use std::process::Abort;
use std::sync::Wait;
use std::test::Fail;

/// Asserts that of two calls one gave all at least: memory runs out once.
fn assert_one(rt: &impl Abort, first: bool, second: bool) {
    assert_eq!(rt; first || second, true, "both gave less");
}

/// Whether a fetch gave these bytes. Else it has to have given none.
fn is_all_fetched(rt: &impl Abort, given: &Fetched, bytes: &[u8]) -> bool {
    let is_all = is_fetched(given, bytes);
    assert_eq!(rt; given.is_ok(), is_all, "other bytes");
    is_all
}

#[test]
fn a_fetch_without_memory_gives_nothing_and_then_the_chunk(rt: HostRuntime) -> Result<(), Fail> {
    let bytes = bytes_of(rt.alloc(), 7)?;
    let answer = answer_of(rt.alloc(), bytes.as_slice())?;
    let key = Digest::of_bytes(bytes.as_slice());
    let turns = Turns::all();
    let mut link = MemoryLink {
        alloc: rt.alloc(),
        answer: answer.as_slice(),
        turns: &turns,
    };
    let (first, second) = (link.fetch(1, &key), link.fetch(1, &key));
    let first = is_all_fetched(&rt, &first, bytes.as_slice());
    let second = is_all_fetched(&rt, &second, bytes.as_slice());
    assert_one(&rt, first, second);
    Ok(())
}

/// Whether a connection was answered all. Else it has to have told that there was no memory, after whole answers.
fn is_all_served(rt: &impl Abort, alloc: Global, served: &Served) -> Result<bool, Fail> {
    for count in 0..ANSWERS.len() {
        if is_front(alloc, served, count)? {
            assert_eq!(rt;
                served.ended,
                Err(ServeFault::OutOfMemory),
                "{count} answers"
            );
            return Ok(false);
        }
    }
    let is_all = is_front(alloc, served, ANSWERS.len())?;
    assert_eq!(rt; is_all, true, "no whole answers");
    Ok(served.ended.is_ok())
}

/// Asserts two connections.
fn assert_served<R: Abort + Wait>(rt: &R, alloc: Global, node: &OneChunk) -> Result<(), Fail> {
    let first = serve(rt, alloc, node, &Turns::all(), &Turns::all())?;
    let second = serve(rt, alloc, node, &Turns::all(), &Turns::all())?;
    let first = is_all_served(rt, alloc, &first)?;
    let second = is_all_served(rt, alloc, &second)?;
    assert_one(rt, first, second);
    Ok(())
}

#[test]
fn a_connection_of_a_peer_without_memory_tells_that_and_the_next_is_answered(
    rt: HostRuntime,
) -> Result<(), Fail> {
    let node = hello(rt.alloc())?;
    assert_served(&rt, rt.alloc(), &node)
}

/// Whether a node gave a chunk by itself. Else it has to have given nothing.
fn is_local<R: Abort + Wait>(
    rt: &R,
    alloc: Global,
    node: &SharedNode<'_>,
    names: &[Digest],
) -> Result<bool, Fail> {
    let given = is_given(rt, alloc, node, names, 1)?;
    assert_eq!(rt; given == Some(false), false, "another chunk");
    Ok(given.is_some())
}

/// Asserts two calls of a node that is new.
fn assert_local<R: Abort + Wait>(rt: &R, alloc: Global, names: &[Digest]) -> Result<(), Fail> {
    let asked = Asked::new();
    let source = Giver::new(alloc, names, &[], &asked.source);
    let link = Giver::new(alloc, names, &[], &asked.peers);
    let node = shared_node(alloc, 100_000, source, link)?;
    let first = is_local(rt, alloc, &node, names)?;
    let second = is_local(rt, alloc, &node, names)?;
    assert_one(rt, first, second);
    Ok(())
}

#[test]
fn a_node_without_memory_gives_nothing_and_then_the_chunk(rt: HostRuntime) -> Result<(), Fail> {
    let names = names(rt.alloc(), 8)?;
    assert_local(&rt, rt.alloc(), names.as_slice())
}
