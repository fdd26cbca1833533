//! Connections of peers one of whose reads or writes fails, each in turn.

use super::failing_streams::{FailingReads, FailingWrites, Turns};
use super::peer_requests::{FOUND, NOT_FOUND, OneChunk, hello};
use http_wire::Pair;
use peer_link::{ServeFault, serve_peer};
use std::alloc::{AllocError, Global};
use std::process::Abort;
use std::sync::Wait;
use std::test::Fail;

/// Three requests, the second of which is for no chunk.
const SENT: &str = "\
GET /_groupcache/chunks/aaf4c61ddcc5e8a2dabede0f3b482cd9aea9434d HTTP/1.1\r\n\r\n\
GET / HTTP/1.1\r\n\r\n\
GET /_groupcache/chunks/aaf4c61ddcc5e8a2dabede0f3b482cd9aea9434d HTTP/1.1\r\n\r\n";

/// What they are answered.
pub(super) const ANSWERS: [&str; 3] = [FOUND, NOT_FOUND, FOUND];

/// How many reads, and how many writes, the connection makes at least, so that some are refused.
const FEWEST_CALLS: u64 = 8;

/// The first so many answers.
fn answers(alloc: Global, count: usize) -> Result<String, AllocError> {
    let mut text = String::new(alloc);
    for answer in ANSWERS.iter().take(count) {
        text.push_str(answer)?;
    }
    Ok(text)
}

/// How a connection ended, and what was written.
#[derive(Drop)]
pub(super) struct Served {
    pub(super) ended: Result<(), ServeFault>,
    written: Vec<u8>,
}

/// Answers the requests, where reads and writes take these turns.
pub(super) fn serve<R: Wait>(
    rt: &R,
    alloc: Global,
    node: &OneChunk,
    reads: &Turns,
    writes: &Turns,
) -> Result<Served, AllocError> {
    let mut duplex = Pair {
        source: FailingReads {
            input: SENT.as_bytes(),
            turns: reads,
        },
        sink: FailingWrites {
            output: Vec::with_capacity(alloc, 1024)?,
            turns: writes,
        },
    };
    let ended = serve_peer(rt, alloc, &mut duplex, node);
    let Pair { sink, .. } = duplex;
    let FailingWrites { output, .. } = sink;
    Ok(Served {
        ended,
        written: output,
    })
}

/// Asserts that all requests are answered, by so many reads and writes.
fn assert_answered<R: Abort + Wait>(
    rt: &R,
    alloc: Global,
    node: &OneChunk,
) -> Result<(u64, u64), Fail> {
    let (reads, writes) = (Turns::all(), Turns::all());
    let served = serve(rt, alloc, node, &reads, &writes)?;
    let wanted = answers(alloc, ANSWERS.len())?;
    assert_eq!(rt; served.ended, Ok(()));
    assert_eq!(rt; served.written.as_slice(), wanted.as_bytes());
    Ok((reads.made(), writes.made()))
}

/// Whether the first so many answers were written, and no more.
pub(super) fn is_front(alloc: Global, served: &Served, count: usize) -> Result<bool, AllocError> {
    let front = answers(alloc, count)?;
    Ok(served.written.as_slice() == front.as_bytes())
}

/// Whether whole answers were written.
fn is_whole(alloc: Global, served: &Served) -> Result<bool, AllocError> {
    for count in 0..=ANSWERS.len() {
        if is_front(alloc, served, count)? {
            return Ok(true);
        }
    }
    Ok(false)
}

/// Asserts what comes of the requests where a read is refused: whole answers went out, and the fault is told.
fn assert_read_refused<R: Abort + Wait>(
    rt: &R,
    alloc: Global,
    node: &OneChunk,
    place: u64,
) -> Result<(), Fail> {
    let (reads, writes) = (Turns::new(place), Turns::all());
    let served = serve(rt, alloc, node, &reads, &writes)?;
    assert_eq!(rt; served.ended, Err(ServeFault::ReadFault), "read {place}");
    let is_whole = is_whole(alloc, &served)?;
    assert_eq!(rt; is_whole, true, "read {place}");
    assert_eq!(rt; reads.made(), place.saturating_add(1), "reads");
    Ok(())
}

/// Asserts what comes of them where a write is refused: a front of the answers went out, and the fault is told.
fn assert_write_refused<R: Abort + Wait>(
    rt: &R,
    alloc: Global,
    node: &OneChunk,
    place: u64,
) -> Result<(), Fail> {
    let (reads, writes) = (Turns::all(), Turns::new(place));
    let served = serve(rt, alloc, node, &reads, &writes)?;
    let wanted = answers(alloc, ANSWERS.len())?;
    assert_eq!(rt; served.ended, Err(ServeFault::WriteFault), "write {place}");
    let is_cut = wanted.as_bytes().starts_with(served.written.as_slice());
    assert_eq!(rt; is_cut, true, "write {place}");
    assert_eq!(rt; writes.made(), place.saturating_add(1), "writes");
    Ok(())
}

/// Refuses each read and each write in turn, and asserts each time that the same requests are answered then.
fn refuse_each<R: Abort + Wait>(rt: &R, alloc: Global, node: &OneChunk) -> Result<(), Fail> {
    let (reads, writes) = assert_answered(rt, alloc, node)?;
    assert_eq!(rt;
        reads.min(writes) >= FEWEST_CALLS,
        true,
        "too few to be refused"
    );
    for place in 0..reads {
        assert_read_refused(rt, alloc, node, place)?;
        let _ = assert_answered(rt, alloc, node)?;
    }
    for place in 0..writes {
        assert_write_refused(rt, alloc, node, place)?;
        let _ = assert_answered(rt, alloc, node)?;
    }
    Ok(())
}

#[test]
fn a_connection_of_a_peer_whose_read_or_write_fails_tells_that_and_the_next_is_answered(
    rt: HostRuntime,
) -> Result<(), Fail> {
    let node = hello(rt.alloc())?;
    refuse_each(&rt, rt.alloc(), &node)
}
