//! The condition under which ranges are served.
ghost use Rattle.std.specs.Prelude.{◌≡◌, ◌↔◌, IsTrue, map};
ghost use Rattle.range_reply.specs.Conditions as spec;
ghost use Rattle.range_reply.specs.Conditions.{allows_range, condition_of};
ghost use Rattle.range_reply.specs.Plans.{lets_ranges};

use arrayvec::ArrayString;
use host_names::Digest;

/// What the If-Range fields of a request say about a file (RFC 9110, section 13.1.5).
#[derive(Clone, Copy, Debug, PartialEq, Eq)]
pub enum IfRange {
    /// The request has no If-Range field.
    Absent,
    /// The client has a part of this file.
    True,
    /// The client has a part of another file, or the request does not have one field that is exactly the strong entity tag.
    False,
}

/// Returns the strong entity tag of the file with this digest, with its quotes (RFC 9110, section 8.8.3).
fn strong_tag(digest: Digest) -> ArrayString<42>
    ensures { result.bytes ≡ spec.strong_tag digest }
{
    let mut tag = ArrayString::new();
    tag.push_str("\"");
    tag.push_str(digest.to_hex().as_str());
    tag.push_str("\"");
    tag
}

impl IfRange {
    /// Returns what the values of all If-Range fields say about the file with this digest: `Absent` if there is no value, `True`
    /// if there is one value and it is exactly the strong entity tag, and `False` otherwise. A weak tag never counts as the
    /// strong one.
    pub fn of(values: &[&[u8]], digest: Digest) -> IfRange
        ensures condition { result ≡ condition_of digest (map (λ value. value.now) values.now) }
        ensures lets { lets_ranges result ≡ allows_range digest (map (λ value. value.now) values.now) }
    {
        match values {
            [] => IfRange::Absent,
            [value] if **value == *strong_tag(digest).as_bytes() => IfRange::True,
            _ => IfRange::False,
        }
    }

    /// Whether a range is served under this condition: it is, if the condition is absent or true.
    pub(crate) fn lets_ranges(self) -> bool
        ensures { result ≡ lets_ranges self }
    {
        match self {
            IfRange::Absent | IfRange::True => true,
            IfRange::False => false,
        }
    }
}
