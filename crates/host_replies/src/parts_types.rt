//! The media type of several parts of a file.
ghost use Rattle.std.specs.Prelude.{◌≡◌, IsTrue};
ghost use Rattle.http_wire.specs.FieldTexts.{is_field_text};
ghost use Rattle.range_reply.specs.Multipart.{text_of};
ghost use Rattle.host_replies.specs.PartsTypes.{IsOfEight, parts_type};

use arrayvec::ArrayString;
use host_names::Digest;
use range_reply::Boundary;
use std::marker::Model;

/// The type of several parts of a file, which names the boundary between them (RFC 9110, section 14.6). Its text is made where it is sent.
#[derive(Drop)]
pub struct PartsType {
    boundary: Boundary,
}

impl Model for PartsType {
    ghost use Rattle.std.specs.Prelude.{ℕ, List, IsTrue};
    ghost use Rattle.http_wire.specs.FieldTexts.{is_field_text};
    ghost use Rattle.range_reply.specs.Multipart.{text_of};
    ghost use Rattle.host_replies.specs.PartsTypes.{parts_type};

    ghost Value = { List ℕ };

    ghost view = { λ parts. parts_type (text_of parts.boundary) };

    ghost invariant = { λ parts. IsTrue (is_field_text (parts_type (text_of parts.boundary))) };
}

impl PartsType {
    /// The type of parts with this boundary between them, which is one of the eight for the file with this digest.
    pub(crate) fn of(boundary: Boundary, digest: Digest) -> PartsType
        requires { IsOfEight digest (text_of boundary) }
        ensures { result ≡ parts_type (text_of boundary) }
    {
        // The boundary ends in these digits, which can be in the value of a field.
        let _digits = digest.to_hex();
        PartsType { boundary }
    }

    /// Makes its text.
    #[inline(never)]
    pub(crate) fn text(&self) -> ArrayString<96>
        ensures text { result.bytes ≡ self.now }
        ensures valid { IsTrue (is_field_text result.bytes) }
    {
        let mut text = ArrayString::new();
        text.push_str("multipart/byteranges; boundary=");
        text.push_str(self.boundary.text().as_str());
        text
    }
}
