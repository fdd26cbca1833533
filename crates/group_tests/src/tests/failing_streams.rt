//! Streams in memory one of whose calls fails, and a peer that is reached over such streams.
ghost use Rattle.std.specs.Prelude.{◌<◌, ◌≤◌, length, None, ⊤};

use host_names::Digest;
use http_wire::{Pair, ReadFailed, Sink, Source, WriteFailed};
use peer_link::{PeerFault, PeerLink, ask};
use std::alloc::{AllocError, Global};
use std::sync::atomic::{AtomicU64, Ordering};

/// How many bytes a call moves at most.
const PIECE: usize = 16;

/// Counts calls, of which that at a place fails, counted from 0.
#[derive(Drop)]
pub(super) struct Turns {
    made: AtomicU64,
    refused: u64,
}

impl Turns {
    pub(super) fn new(refused: u64) -> Turns {
        Turns {
            made: AtomicU64::new(0),
            refused,
        }
    }

    /// None of these calls fails.
    pub(super) fn all() -> Turns {
        Turns::new(u64::MAX)
    }

    /// How many calls were made.
    pub(super) fn made(&self) -> u64 {
        self.made.load(Ordering::SeqCst)
    }

    fn is_refused(&self) -> bool {
        self.made.fetch_add(1, Ordering::SeqCst) == self.refused
    }
}

/// Gives known bytes, a few at a call.
#[derive(Drop)]
pub(super) struct FailingReads<'a> {
    pub(super) input: &'a [u8],
    pub(super) turns: &'a Turns,
}

impl Source for FailingReads<'_> {
    ghost left = { λ _. None };

    ghost may_fail = { ⊤ };

    fn read_some(&mut self, buf: &mut [u8]) -> Result<usize, ReadFailed> {
        if self.turns.is_refused() {
            return Err(ReadFailed);
        }
        let count = self.input.len().min(buf.len()).min(PIECE);
        let (front, rest) = self.input.split_at(count);
        buf[..count].copy_from_slice(front);
        self.input = rest;
        Ok(count)
    }
}

/// Takes bytes, a few at a call. It has room for them, or fails.
#[derive(Drop)]
pub(super) struct FailingWrites<'a> {
    pub(super) output: Vec<u8>,
    pub(super) turns: &'a Turns,
}

impl Sink for FailingWrites<'_> {
    ghost held = { λ _. None };

    ghost may_fail = { ⊤ };

    fn write_some(&mut self, bytes: &[u8]) -> Result<usize, WriteFailed> {
        if self.turns.is_refused() {
            return Err(WriteFailed);
        }
        let count = bytes.len().min(PIECE);
        match self.output.extend_from_slice(&bytes[..count]) {
            Ok(()) => Ok(count),
            Err(_) => Err(WriteFailed),
        }
    }
}

/// A peer that gives each fetch one answer, over a stream of its own. The reads and writes of all fetches take their turns together.
#[derive(Clone, Copy)]
pub(super) struct MemoryLink<'a> {
    pub(super) alloc: Global,
    pub(super) answer: &'a [u8],
    pub(super) turns: &'a Turns,
}

impl PeerLink for MemoryLink<'_> {
    ghost fetched = { λ _ _ _ _ _. Unit {0} };

    fn fetch(&mut self, _peer: usize, key: &Digest) -> Result<Vec<u8>, PeerFault> {
        let mut duplex = Pair {
            source: FailingReads {
                input: self.answer,
                turns: self.turns,
            },
            sink: FailingWrites {
                output: Vec::new(self.alloc),
                turns: self.turns,
            },
        };
        ask(self.alloc, &mut duplex, key).map_err(|_| PeerFault)
    }
}

/// The answer that has these bytes.
pub(super) fn answer_of(alloc: Global, bytes: &[u8]) -> Result<Vec<u8>, AllocError> {
    let length = bytes.len();
    let head = format!(in alloc; "HTTP/1.1 200 OK\r\nContent-Length: {length}\r\n\r\n")?;
    let mut answer = Vec::from_slice(alloc, head.as_bytes())?;
    answer.extend_from_slice(bytes)?;
    Ok(answer)
}
