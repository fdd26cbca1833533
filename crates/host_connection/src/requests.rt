//! A request, once it is read.
use crate::phases::BodyPart;
use crate::stops::announced;
use http::Version as HttpVersion;
use http_wire::Head;

/// A request, and whether it is the last that its connection answers.
#[derive(Drop)]
pub struct Request {
    pub head: Head,
    pub body: Vec<u8>,
    pub is_last: bool,
}

impl Request {
    ghost use Rattle.std.specs.Prelude.{◌≡◌, [], vec_len, IsTrue};
    ghost use Rattle.host_connection.specs.Again.{IsWhole};
    ghost use Rattle.host_replies.specs.Replies as replies;

    /// Whether the connection ends after the reply (RFC 9112, section 9.6).
    pub(crate) fn closes(&self) -> bool
        ensures { result ≡ replies.closes self.now.head self.now.is_last }
    {
        self.is_last || self.head.version() == HttpVersion::HTTP_10 || self.head.asks_close()
    }

    /// Whether its head is a whole request by itself, after which the connection goes on: another request with the same head may be answered without a look
    /// at anything else of it.
    pub fn is_whole_by_head(&self) -> bool
        ensures body { IsTrue result → self.now.body.items ≡ [] }
        ensures whole { IsTrue result → IsWhole self.now.head }
    {
        if !self.body.is_empty() || self.closes() || self.head.expects_continue() {
            return false;
        }
        match announced(&self.head) {
            Ok(size) => size == 0,
            Err(_) => false,
        }
    }

    /// Its body as it is read, once all of it came.
    pub(crate) fn into_part(self) -> BodyPart
        ensures head { result.head ≡ self.head }
        ensures size { result.size ≡ vec_len self.body }
        ensures body { result.body ≡ self.body }
    {
        let Request { head, body, .. } = self;
        let size = body.len();
        BodyPart { head, size, body }
    }
}
