//! The texts in a body of several ranges.
ghost use Rattle.std.specs.Prelude.{◌≡◌, ◌≤◌, length};
ghost use Rattle.range_reply.specs.Bodies as spec;
ghost use Rattle.range_reply.specs.Multipart as multipart;
ghost use Rattle.range_reply.specs.PartTexts.{boundary_line, range_line};

use crate::boundaries::Boundary;
use arrayvec::ArrayString;
use http_wire::{ContentRange, range_value};

/// Returns the text of a boundary, or an empty text if there is no boundary.
pub(crate) fn text_in(boundary: &Option<Boundary>) -> ArrayString<64>
    ensures text { result.bytes ≡ spec.text_in boundary.now }
    ensures short { length result.bytes ≤ 64 }
{
    match boundary {
        Some(boundary) => boundary.text(),
        None => ArrayString::new(),
    }
}

/// Returns what comes before the type in the head of a part: the boundary's line and the name of the field.
#[inline(never)]
pub(crate) fn line_before_type(boundary: &str) -> ArrayString<96>
    requires { length boundary.now ≤ 64 }
    ensures { result.bytes ≡ boundary_line boundary.now }
{
    let mut line = ArrayString::new();
    line.push_str("--");
    line.push_str(boundary);
    line.push_str("\r\nContent-Type: ");
    line
}

/// Returns what comes after the type in the head of a part: the first and last byte, the length of the file, and an empty line.
#[inline(never)]
pub(crate) fn line_behind_type(first: u64, last: u64, length: u64) -> ArrayString<96>
    ensures { result.bytes ≡ range_line (first, last) length }
{
    let range = range_value(ContentRange::Of {
        first,
        last,
        length,
    });
    let mut line = ArrayString::new();
    line.push_str("\r\nContent-Range: ");
    line.push_str(range.as_str());
    line.push_str("\r\n\r\n");
    line
}

/// Returns the last boundary's line.
#[inline(never)]
pub(crate) fn last_line(boundary: &str) -> ArrayString<96>
    requires { length boundary.now ≤ 64 }
    ensures { result.bytes ≡ multipart.last_line boundary.now }
{
    let mut line = ArrayString::new();
    line.push_str("--");
    line.push_str(boundary);
    line.push_str("--\r\n");
    line
}
