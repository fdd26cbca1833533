//! Bytes that clauses name and that aren't kept.
ghost use Rattle.std.specs.Prelude.{◌≡◌};

use boxcar::tag::{Names, Tag};

/// Reads all bytes of a slice off it.
struct AllBytes;

impl<'a> Names<&'a [u8]> for AllBytes {
    ghost numbers = { λ bytes. bytes.now };
}

/// The tag of some bytes.
pub(crate) fn tag_of(bytes: &[u8]) -> Tag
    ensures { result.numbers ≡ bytes.now }
{
    Tag::of::<&[u8], AllBytes>(&bytes)
}
