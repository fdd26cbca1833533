//! How peers are answered over streams that never wait.
ghost use Rattle.std.specs.Prelude.{◌≡◌, IsErrOf, None, OnErr, OnOk, Option, Some, ℕ, List, []};
ghost use Rattle.std.specs.Io.KnownBytes.{Appends};
ghost use Rattle.peer_link.specs.Answers.{Answers, HasAnswered, answer_text};

use crate::answers::{LocalChunks, MOST_REQUESTS, chunk_for, head_of, is_last, request};
use crate::bodies::LentBody;
use crate::faults::ServeFault;
use http::StatusCode;
use http_wire::{Head, HeadFault, Outgoing, ReplyBody, Steady, Wire, WriteFault, write_reply};
use std::alloc::Global;
use std::sync::Wait;

// Answers with the bytes of a chunk, which aren't copied.
fn write_chunk<D: Steady>(
    duplex: &mut D,
    out: &mut Outgoing,
    bytes: &[u8],
) -> Result<(), WriteFault>
    ensures ok { OnOk result (Appends (D.held duplex.old) (D.held duplex.new) (answer_text (Some bytes.now))) }
    ensures cause { OnErr result D.write_fails }
{
    let body = LentBody::new(Some(bytes));
    write_reply(duplex, out, &head_of(StatusCode::OK), ReplyBody::Sent(body))
}

// Answers that there is no such chunk.
fn write_no_chunk<D: Steady>(duplex: &mut D, out: &mut Outgoing) -> Result<(), WriteFault>
    ensures ok { OnOk result (Appends (D.held duplex.old) (D.held duplex.new) (answer_text None)) }
    ensures cause { OnErr result D.write_fails }
{
    let body = LentBody::new(None);
    write_reply(
        duplex,
        out,
        &head_of(StatusCode::NOT_FOUND),
        ReplyBody::Sent(body),
    )
}

/// Answers one request of a peer from the chunks that a node has by itself: 200 with the bytes of the chunk, which aren't copied; or 404
/// without a body, for another method, for a path that isn't a chunk's, and for a chunk that the node doesn't have. Writing takes no
/// memory.
pub fn answer_peer<R: Wait, D: Steady, C: LocalChunks>(
    rt: &R,
    duplex: &mut D,
    out: &mut Outgoing,
    chunks: &C,
    head: &Head,
) -> Result<(), WriteFault>
    ensures ok { OnOk result ((answer : Option (List ℕ)) × Answers head.now answer
        × Appends (D.held duplex.old) (D.held duplex.new) (answer_text answer)) }
    ensures cause { OnErr result D.write_fails }
{
    match chunk_for(rt, chunks, head) {
        Some(chunk) => write_chunk(duplex, out, chunk.view().bytes()),
        None => write_no_chunk(duplex, out),
    }
}

// Reads the next head, and writes nothing.
fn read_head<D: Steady>(wire: &mut Wire, duplex: &mut D) -> Result<Head, HeadFault>
    ensures kept { Appends (D.held duplex.old) (D.held duplex.new) [] }
    ensures failed { IsErrOf result HeadFault.ReadFault → D.read_fails }
{
    wire.read_head(duplex)
}

/// Answers the requests of a peer, one after another and at most 100 of them, each as `answer_peer` does. It ends with the stream, after a
/// request that asks for that or has version HTTP/1.0, and at a head that is malformed or announces a body, which gets no answer.
///
/// It is handed no link: whatever a peer asks, no other peer is asked for it.
pub fn serve_peer<R: Wait, D: Steady, C: LocalChunks>(
    rt: &R,
    alloc: Global,
    duplex: &mut D,
    chunks: &C,
) -> Result<(), ServeFault>
    ensures whole { OnOk result (HasAnswered (D.held duplex.old) (D.held duplex.new)) }
    ensures read { IsErrOf result ServeFault.ReadFault → D.read_fails }
    ensures write { IsErrOf result ServeFault.WriteFault → D.write_fails }
{
    let mut wire = Wire::new(alloc)?;
    let mut out = Outgoing::new(alloc)?;
    'requests: for _ in 0..MOST_REQUESTS {
        let read = read_head(&mut wire, duplex);
        let Some(head) = request(read)? else {
            return Ok(());
        };
        let Ok(()) = answer_peer(rt, duplex, &mut out, chunks, &head) else {
            return Err(ServeFault::WriteFault);
        };
        if is_last(&head) {
            return Ok(());
        }
    }
    Ok(())
}
