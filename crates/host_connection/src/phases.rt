//! What a connection is in the middle of.
ghost use Rattle.std.specs.Prelude.{◌≡◌, ◌<◌, ◌≤◌, true, length, vec_len};
ghost use Rattle.http_wire.specs.Expectations.{continue_text};
ghost use Rattle.host_connection.specs.Wordings.{size_kept, withholds};

use crate::connections::ConnectionFault;
use crate::wordings::Wording;
use http_wire::Head;

/// An interim reply that is on its way to a client, which sends a body of this size after it.
#[derive(Drop)]
pub struct Invitation {
    pub head: Head,
    pub size: usize,
    /// How much of the reply was written.
    pub at: usize,
    ghost within: { at < length continue_text },
}

/// The part that came of a body of this size.
#[derive(Drop)]
pub struct BodyPart {
    pub head: Head,
    pub size: usize,
    pub body: Vec<u8>,
    ghost within: { vec_len body ≤ size },
}

/// A reply that is on its way.
#[derive(Drop)]
pub struct Sending {
    pub wording: Wording,
    /// Whether the connection ends after it.
    pub close: bool,
    pub head_only: bool,
    ghost withheld: { withholds wording ≡ true → head_only ≡ true },
    ghost some: { 0 < size_kept wording },
}

/// What a connection is in the middle of.
#[derive(Drop)]
pub enum Phase {
    /// A head, or nothing: of the next request so much came as the wire has.
    Head,
    Invite(Invitation),
    Body(BodyPart),
    Reply(Sending),
    /// The connection ended.
    Ended(Result<(), ConnectionFault>),
}
