//! How a peer is asked for a chunk.
ghost use Rattle.std.specs.Prelude.{◌≡◌, ◌≤◌, IfErr, IfOk, IfSome, Ok, OnOk, vec_len};
ghost use Rattle.std.specs.Io.KnownBytes.{Appends};
ghost use Rattle.http_wire.specs.Answers.{IsAnswer, get_text};
ghost use Rattle.peer_link.specs.Asking.{GivesNone, told_by};
ghost use Rattle.peer_link.specs.Paths as spec;

use crate::paths::chunk_path;
use host_names::Digest;
use http_wire::{AnswerFault, Outgoing, Steady, read_answer, write_get};
use std::alloc::Global;
use thiserror::Error;

/// The most bytes of a peer's answer: those of the longest chunk.
pub const CHUNK_LIMIT: u64 = 65536;

/// Why a peer that was asked gave no bytes.
#[derive(Clone, Copy, Debug, PartialEq, Eq, Error)]
pub enum AskFault {
    /// It answered, and not by 200: it has no such chunk.
    #[error("the peer has no such chunk")]
    NoChunk,
    /// It couldn't be asked, or no whole answer came.
    #[error("the peer gave no answer")]
    NoAnswer,
    /// There is no memory to ask it or for what it gives.
    #[error("out of memory")]
    OutOfMemory,
}

// What an answer without a body tells.
fn without_body(fault: AnswerFault) -> AskFault
    ensures { result ≡ told_by fault }
{
    match fault {
        AnswerFault::NotOk => AskFault::NoChunk,
        AnswerFault::ReadFault | AnswerFault::BadHead | AnswerFault::TooLong => AskFault::NoAnswer,
        AnswerFault::OutOfMemory => AskFault::OutOfMemory,
    }
}

/// Asks the peer at the other end of a stream for a chunk, by one request, and answers the bytes that it sends, whatever they are: at most
/// as many as a chunk has.
pub fn ask<D: Steady>(alloc: Global, duplex: &mut D, key: &Digest) -> Result<Vec<u8>, AskFault>
    ensures asked { OnOk result
        (Appends (D.held duplex.old) (D.held duplex.new) (get_text (spec.chunk_path key.now))) }
    ensures answered { IfOk result (λ bytes.
        IfSome (D.left duplex.old) (IsAnswer D.read_fails (Ok bytes) CHUNK_LIMIT)) }
    ensures within { IfOk result (λ bytes. vec_len bytes ≤ CHUNK_LIMIT) }
    ensures fault { IfErr result (λ fault.
        IfSome (D.left duplex.old) (GivesNone D.read_fails D.write_fails fault CHUNK_LIMIT)) }
{
    let Ok(mut out) = Outgoing::new(alloc) else {
        return Err(AskFault::OutOfMemory);
    };
    let Ok(()) = write_get(duplex, &mut out, chunk_path(key).as_str()) else {
        return Err(AskFault::NoAnswer);
    };
    match read_answer(alloc, duplex, CHUNK_LIMIT) {
        Ok(bytes) => Ok(bytes),
        Err(fault) => Err(without_body(fault)),
    }
}
