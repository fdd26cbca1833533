//! What the connection of a peer is in the middle of.
ghost use Rattle.std.specs.Prelude.{IsErrOf, None, Some};
ghost use Rattle.http_wire.specs.Gathering.{IsCounted, SendsOn};
ghost use Rattle.peer_link.specs.Answers.{answer_text};
ghost use Rattle.peer_link.specs.Carrying.{text_of};

use crate::answers::head_of;
use crate::bodies::LentBody;
use crate::faults::ServeFault;
use byte_view::Chunk;
use http::StatusCode;
use http_wire::{Duplex, Halt, Outgoing, ReplyBody, WriteFailed, try_write_reply};
use std::sync::Arc;

/// An answer that is on its way.
#[derive(Drop)]
pub(crate) struct PeerAnswer {
    /// The chunk, if there is one.
    pub(crate) chunk: Option<Arc<Chunk>>,
    /// Whether the connection ends after it.
    pub(crate) close: bool,
}

/// What the connection of a peer is in the middle of.
#[derive(Drop)]
pub(crate) enum PeerPhase {
    /// A head, or nothing: of the next request so much came as the wire has.
    Head,
    Answer(PeerAnswer),
    Ended(Result<(), ServeFault>),
}

// Goes on with the answer that has the bytes of a chunk, which aren't copied.
fn send_chunk<D: Duplex>(
    duplex: &mut D,
    out: &mut Outgoing,
    bytes: &[u8],
) -> Result<(), Halt<WriteFailed>>
    requires { IsCounted out.old }
    ensures ran { SendsOn D.saw duplex.old duplex.new result (answer_text (Some bytes.now)) out.old out.new }
    ensures waits { IsErrOf result Halt.WouldWait → D.waits duplex.new }
{
    let body = LentBody::new(Some(bytes));
    try_write_reply(duplex, out, &head_of(StatusCode::OK), ReplyBody::Sent(body))
}

// Goes on with the answer that there is no such chunk.
fn send_no_chunk<D: Duplex>(duplex: &mut D, out: &mut Outgoing) -> Result<(), Halt<WriteFailed>>
    requires { IsCounted out.old }
    ensures ran { SendsOn D.saw duplex.old duplex.new result (answer_text None) out.old out.new }
    ensures waits { IsErrOf result Halt.WouldWait → D.waits duplex.new }
{
    let body = LentBody::new(None);
    try_write_reply(
        duplex,
        out,
        &head_of(StatusCode::NOT_FOUND),
        ReplyBody::Sent(body),
    )
}

impl PeerAnswer {
    // Goes on with it, after the bytes of it that were written, and with those that are gathered in `out`. It begins where `out` begins a text.
    pub(crate) fn go_on<D: Duplex>(
        &self,
        duplex: &mut D,
        out: &mut Outgoing,
    ) -> Result<(), Halt<WriteFailed>>
        requires { IsCounted out.old }
        ensures ran { SendsOn D.saw duplex.old duplex.new result (text_of self.now) out.old out.new }
        ensures waits { IsErrOf result Halt.WouldWait → D.waits duplex.new }
    {
        match &self.chunk {
            Some(chunk) => send_chunk(duplex, out, chunk.view().bytes()),
            None => send_no_chunk(duplex, out),
        }
    }
}
