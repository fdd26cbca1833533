//! What a step of a connection came to.
ghost use Rattle.std.specs.Prelude.{◌≡◌};
ghost use Rattle.worker_connections.specs.Steps as spec;

use connection_rules::{HeldReply, Stage};

/// What a socket is waited for.
#[derive(Clone, Copy, Debug, PartialEq, Eq)]
pub enum Interest {
    /// Bytes that came, or the end of them.
    Read,
    /// Room for bytes.
    Write,
    /// Either.
    Either,
}

/// What a connection holds between two steps, beside its buffers.
#[derive(Clone, Copy, Debug, PartialEq, Eq)]
pub enum Holding {
    Nothing,
    /// The bytes of a body, so many.
    Body(u64),
    /// A part of a file, for a reply that is on its way.
    Reply(HeldReply),
}

impl Holding {
    /// Whether it is a body.
    pub fn is_body(&self) -> bool
        ensures { result ≡ spec.is_body self.now }
    {
        matches!(self, Holding::Body(_))
    }
}

/// For what there is no room.
#[derive(Clone, Copy, Debug, PartialEq, Eq)]
pub enum Kind {
    Bodies,
    Replies,
}

/// What follows a step of a connection.
#[derive(Clone, Copy, Debug, PartialEq, Eq)]
pub enum Next {
    /// It waits.
    Waits(Interest),
    /// Its next step may wait, so another thread makes it.
    Leaves,
    /// It is over, but its client may have sent more than was read, or still send. If the socket were closed now, the system would reset the connection, and
    /// the client might lose the last replies. So first it is told that no more come, and what it sends is dropped (RFC 9112, section 9.6).
    Closes,
    /// It is over, and its socket can be closed.
    Ends,
}

/// What a step of a connection came to.
#[derive(Clone, Copy, Debug, PartialEq, Eq)]
pub struct Step {
    pub next: Next,
    /// What it is doing.
    pub stage: Stage,
    /// How many bytes were read.
    pub read: u64,
    /// How many bytes were written.
    pub written: u64,
    /// Whether a request was answered, though its reply may still be on its way.
    pub answers: bool,
    /// What the connection holds now.
    pub holds: Holding,
}

impl Step {
    /// How many bytes it moved.
    pub(crate) fn moved(&self) -> u64
        ensures { result ≡ spec.moved_by self.now }
    {
        self.read.saturating_add(self.written)
    }
}
