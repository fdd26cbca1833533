//! The boundary: the text that separates the parts of a body.
ghost use Rattle.std.specs.Prelude.{◌≡◌, ◌≤◌, length};
ghost use Rattle.range_reply.specs.Multipart.{candidate, text_of};

use arrayvec::ArrayString;
use host_names::Digest;
use http_wire::decimal_text;

/// A text that may be the boundary of a `multipart/byteranges` body (RFC 2046, section 5.1.1). It may occur in the parts.
/// It has what its text is made from, so it is small and cheap to move.
#[derive(Clone, Copy, Debug)]
pub struct Boundary {
    digest: Digest,
    number: u8,
}

impl Boundary {
    /// Returns the candidate with this number for ranges of the file with this digest. Candidates 0 to 7 are tried.
    pub fn candidate(digest: Digest, number: u8) -> Boundary
        ensures { text_of result ≡ candidate digest number }
    {
        Boundary { digest, number }
    }

    /// Makes the text of the boundary.
    pub fn text(&self) -> ArrayString<64>
        ensures text { result.bytes ≡ text_of self.now }
        ensures short { length result.bytes ≤ 64 }
    {
        let mut text = ArrayString::new();
        text.push_str("fh");
        text.push_str(decimal_text(u64::from(self.number)).as_str());
        text.push_str("-");
        text.push_str(self.digest.to_hex().as_str());
        text
    }
}
