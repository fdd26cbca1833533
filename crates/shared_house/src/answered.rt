//! What is noted of a request that was answered.
ghost use Rattle.std.specs.Prelude.{◌≡◌, false};
ghost use Rattle.host_replies.specs.Replies.{closes};

use http::Version;
use http_wire::Head;

/// A request that was answered.
#[derive(Clone, Copy, Debug, PartialEq, Eq)]
pub struct Answered {
    /// Whether it asks for the end of its connection: then its client sends no other request (RFC 9112, section 9.6).
    pub asks_end: bool,
}

impl Answered {
    /// What is noted of the request with this head.
    pub fn of(head: &Head) -> Answered
        ensures { result.asks_end ≡ closes head.now false }
    {
        Answered {
            asks_end: head.version() == Version::HTTP_10 || head.asks_close(),
        }
    }
}
