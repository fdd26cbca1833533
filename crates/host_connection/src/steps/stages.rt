//! How far a connection has come.
ghost use Rattle.std.specs.Prelude.{◌≡◌, ◌↔◌, IsTrue};
ghost use Rattle.host_connection.specs.Carrying.{IsAsked};
ghost use Rattle.host_connection.specs.Stages.{head_stage, held_by, stage_of};

use super::Connection;
use crate::phases::Phase;
use host_replies::HeldFile;

/// How far a connection has come, in bytes.
#[derive(Clone, Copy, Debug, PartialEq, Eq)]
pub enum Stage {
    /// Before a request, of which nothing has come.
    Idle,
    /// In a head, of which this many bytes have come. Bytes that came after a whole head count too, until it is read.
    Head(usize),
    /// In the interim reply, of which this many bytes were written. A body of `size` bytes is read after it.
    Interim { sent: usize, size: usize },
    /// In a body of `size` bytes, of which this many were taken.
    Body { received: usize, size: usize },
    /// In a reply, of which this many bytes were written.
    Reply(u64),
    /// The connection ended.
    Ended,
}

// The stage of a connection that reads a head, of which this many bytes are there.
fn head_stage(buffered: usize) -> Stage
    ensures { result ≡ head_stage buffered }
{
    match buffered {
        0 => Stage::Idle,
        _ => Stage::Head(buffered),
    }
}

impl Connection {
    /// How far the connection has come in what it reads or writes. It takes no memory.
    pub fn stage(&self) -> Stage
        ensures { result ≡ stage_of self.now }
    {
        match &self.phase {
            Phase::Head => head_stage(self.wire.bytes().len()),
            Phase::Invite(invitation) => Stage::Interim {
                sent: invitation.at,
                size: invitation.size,
            },
            Phase::Body(part) => Stage::Body {
                received: part.body.len(),
                size: part.size,
            },
            Phase::Reply(_) => Stage::Reply(self.out.sent()),
            Phase::Ended(_) => Stage::Ended,
        }
    }

    /// Whether it has a whole request that isn't answered yet, as after a step that the service postponed.
    pub fn is_asked(&self) -> bool
        ensures { IsTrue result ↔ IsAsked self.now.phase }
    {
        match &self.phase {
            Phase::Body(part) => part.body.len() == part.size,
            _ => false,
        }
    }

    /// What the reply that is on its way holds of a file. It takes no memory.
    pub fn held_file(&self) -> Option<HeldFile>
        ensures { result ≡ held_by self.now.phase }
    {
        match &self.phase {
            Phase::Reply(sending) => sending.wording.held_file(),
            _ => None,
        }
    }
}
