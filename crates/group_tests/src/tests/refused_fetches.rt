//! Fetches one of whose reads or writes fails, each in turn: by themselves, and through a node.

use super::failing_streams::{MemoryLink, Turns, answer_of};
use super::fixtures::{Giver, bytes_of, is_chunk_of, names};
use super::gates::assert_count;
use super::node_fixtures::first_node;
use super::nodes_with_peers::{PEERS, number_of_others};
use host_names::Digest;
use peer_link::{PeerFault, PeerLink};
use std::alloc::Global;
use std::process::Abort;
use std::sync::Wait;
use std::sync::atomic::AtomicU64;
use std::test::Fail;

/// How many reads and writes a fetch makes at least, so that some are refused.
const FEWEST_CALLS: u64 = 8;

/// What a fetch gives.
pub(super) type Fetched = Result<Vec<u8>, PeerFault>;

/// Whether a fetch gave these bytes.
pub(super) fn is_fetched(given: &Fetched, bytes: &[u8]) -> bool {
    match given {
        Ok(given) => given.as_slice() == bytes,
        Err(_) => false,
    }
}

/// How many reads and writes a fetch makes that gives these bytes.
fn calls_of_fetch(
    rt: &impl Abort,
    alloc: Global,
    answer: &[u8],
    key: &Digest,
    bytes: &[u8],
) -> Result<u64, Fail> {
    let turns = Turns::all();
    let mut link = MemoryLink {
        alloc,
        answer,
        turns: &turns,
    };
    let given = link.fetch(1, key);
    assert_eq!(rt; is_fetched(&given, bytes), true, "where none is refused");
    assert_eq!(rt; turns.made() >= FEWEST_CALLS, true, "too few to be refused");
    Ok(turns.made())
}

/// Asserts that a fetch gives nothing where one of its calls is refused, and that the same fetch gives the bytes then.
fn assert_refused(
    rt: &impl Abort,
    alloc: Global,
    answer: &[u8],
    key: &Digest,
    bytes: &[u8],
    place: u64,
) {
    let turns = Turns::new(place);
    let mut link = MemoryLink {
        alloc,
        answer,
        turns: &turns,
    };
    assert_eq!(rt; link.fetch(1, key).err(), Some(PeerFault), "call {place}");
    assert_eq!(rt;
        turns.made(),
        place.saturating_add(1),
        "none is made after call {place}"
    );
    let again = link.fetch(1, key);
    assert_eq!(rt; is_fetched(&again, bytes), true, "after call {place}");
}

/// Asserts two reads of a chunk through a node for which one call of the first fetch is refused: both are right, the source is asked once, and
/// the peer isn't asked again.
fn assert_right<R: Abort + Wait>(
    rt: &R,
    alloc: Global,
    names: &[Digest],
    number: usize,
    answer: &[u8],
    place: u64,
) -> Result<(), Fail> {
    let (loads, turns) = (AtomicU64::new(0), Turns::new(place));
    let source = Giver::new(alloc, names, &[], &loads);
    let link = MemoryLink {
        alloc,
        answer,
        turns: &turns,
    };
    let node = first_node(alloc, 100_000, &PEERS, source, link)?;
    let name = names.get(number).ok_or("no such chunk")?;
    for _ in 0..2 {
        let is_right = is_chunk_of(alloc, &node.get(rt, name), number)?;
        assert_eq!(rt; is_right, true, "call {place}");
        assert_count(rt, &loads, 1, "loads from the source");
        assert_eq!(rt; turns.made(), place.saturating_add(1), "calls of the peer");
    }
    Ok(())
}

/// Refuses each call of a fetch of the chunk of a number, which another node owns.
fn refuse_each<R: Abort + Wait>(
    rt: &R,
    alloc: Global,
    names: &[Digest],
    number: usize,
) -> Result<(), Fail> {
    let bytes = bytes_of(alloc, number)?;
    let answer = answer_of(alloc, bytes.as_slice())?;
    let key = Digest::of_bytes(bytes.as_slice());
    let calls = calls_of_fetch(rt, alloc, answer.as_slice(), &key, bytes.as_slice())?;
    for place in 0..calls {
        assert_refused(rt, alloc, answer.as_slice(), &key, bytes.as_slice(), place);
        assert_right(rt, alloc, names, number, answer.as_slice(), place)?;
    }
    Ok(())
}

#[test]
fn a_fetch_whose_read_or_write_fails_gives_nothing_and_then_the_chunk(
    rt: HostRuntime,
) -> Result<(), Fail> {
    let names = names(rt.alloc(), 40)?;
    let number = number_of_others(rt.alloc(), names.as_slice())?;
    refuse_each(&rt, rt.alloc(), names.as_slice(), number)
}
