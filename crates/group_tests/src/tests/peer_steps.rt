//! The requests of peers as a node answers them step by step, over a stream that has to wait again and again: the answers are those of `serve_peer`.
ghost use Rattle.std.specs.Prelude.{◌<◌, ◌≤◌, None, length, ⊤};
ghost use Rattle.http_wire.specs.Timing.{Moves};

use super::peer_requests::{ENDS, End, NOT_FOUND, OneChunk, hello, texts};
use http_wire::{Duplex, Halt, ReadFailed, WriteFailed};
use peer_link::{PeerConnection, PeerProgress, PeerStage, ServeFault};
use std::alloc::{AllocError, Global};
use std::marker::Model;
use std::process::Abort;
use std::sync::Wait;
use std::test::Fail;

/// How many bytes a call moves at most.
const PIECE: usize = 16;

/// How many steps a connection takes at most.
const MOST_STEPS: usize = 10_000;

/// A stream in memory that moves a few bytes at a call, and has to wait before each call.
#[derive(Drop)]
struct WaitingStream<'a> {
    input: &'a [u8],
    output: Vec<u8>,
    has_waited: bool,
}

impl<'a> Model for WaitingStream<'a> {
    ghost Value = { Unit {0} };

    ghost view = { λ _. tt };
}

impl Duplex for WaitingStream<'_> {
    ghost left = { λ _. None };

    ghost held = { λ _. None };

    ghost read_fails = { ⊤ };

    ghost write_fails = { ⊤ };

    ghost waits = { λ _. ⊤ };

    ghost saw = { λ _ event _. Moves ⊤ ⊤ event None None None None };

    fn read_some(&mut self, buf: &mut [u8]) -> Result<usize, Halt<ReadFailed>> {
        self.has_waited = !self.has_waited;
        if self.has_waited {
            return Err(Halt::WouldWait);
        }
        let count = self.input.len().min(buf.len()).min(PIECE);
        let (front, rest) = self.input.split_at(count);
        buf[..count].copy_from_slice(front);
        self.input = rest;
        Ok(count)
    }

    fn write_some(&mut self, bytes: &[u8]) -> Result<usize, Halt<WriteFailed>> {
        self.has_waited = !self.has_waited;
        if self.has_waited {
            return Err(Halt::WouldWait);
        }
        let count = bytes.len().min(PIECE);
        match self.output.extend_from_slice(&bytes[..count]) {
            Ok(()) => Ok(count),
            Err(_) => Err(Halt::Failed(WriteFailed)),
        }
    }

    ghost told = { λ _ _ _ seen. seen };
}

/// How a connection ends, if it does.
fn go_through<R: Wait>(
    rt: &R,
    connection: &mut PeerConnection,
    stream: &mut WaitingStream<'_>,
    node: &OneChunk,
) -> Option<Result<(), ServeFault>> {
    for _ in 0..MOST_STEPS {
        if let PeerProgress::Ended(ended) = connection.go_on(rt, stream, node) {
            return Some(ended);
        }
    }
    None
}

/// What a node writes, how it ends, and what its connection is doing then.
fn serve<R: Wait>(
    rt: &R,
    alloc: Global,
    node: &OneChunk,
    sent: &str,
) -> Result<(Vec<u8>, Option<Result<(), ServeFault>>, PeerStage), AllocError> {
    let mut stream = WaitingStream {
        input: sent.as_bytes(),
        output: Vec::new(alloc),
        has_waited: false,
    };
    let mut connection = PeerConnection::new(alloc)?;
    let ended = go_through(rt, &mut connection, &mut stream, node);
    Ok((stream.output, ended, connection.stage()))
}

fn assert_end<R: Abort + Wait>(
    rt: &R,
    alloc: Global,
    node: &OneChunk,
    end: &End,
) -> Result<(), Fail> {
    let (sent, wanted) = texts(alloc, end)?;
    let (written, ended, stage) = serve(rt, alloc, node, sent.as_str())?;
    assert_eq!(rt; ended, Some(end.2), "{}", end.0);
    assert_eq!(rt; stage, PeerStage::Ended, "{}", end.0);
    assert_eq!(rt; written.as_slice(), wanted.as_bytes(), "{}", end.0);
    Ok(())
}

#[test]
fn peers_are_answered_in_steps_until_one_sends_no_request(rt: HostRuntime) -> Result<(), Fail> {
    let node = hello(rt.alloc())?;
    for end in &ENDS {
        assert_end(&rt, rt.alloc(), &node, end)?;
    }
    Ok(())
}

fn assert_hundred<R: Abort + Wait>(rt: &R, alloc: Global, node: &OneChunk) -> Result<(), Fail> {
    let sent = "GET / HTTP/1.1\r\n\r\n".repeat(alloc, 101)?;
    let (written, ended, _) = serve(rt, alloc, node, sent.as_str())?;
    assert_eq!(rt; ended, Some(Ok(())));
    assert_eq!(rt; written.len(), 100 * NOT_FOUND.len());
    Ok(())
}

#[test]
fn a_connection_in_steps_has_a_hundred_requests(rt: HostRuntime) -> Result<(), Fail> {
    let node = hello(rt.alloc())?;
    assert_hundred(&rt, rt.alloc(), &node)
}
