//! The mark: a text with which the first boundary of each reply begins, and which hardly any chunk has.
ghost use Rattle.std.specs.Prelude.{◌≡◌, ◌↔◌, IsTrue};
ghost use Rattle.std.specs.Str.Iter.{HasSubslice};
ghost use Rattle.byte_view.specs.Marks.{mark as the_mark};

use memchr::memmem;

/// Whether bytes occur in a text. The call allocates nothing.
pub fn occurs(bytes: &[u8], text: &[u8]) -> bool
    ensures { IsTrue result ↔ HasSubslice text.now bytes.now }
{
    memmem::find(text, bytes).is_some()
}

/// The mark. Each chunk knows whether it has it, so who looks for a text with the mark looks into few chunks.
pub fn mark() -> &'static [u8]
    ensures { result.now ≡ the_mark }
{
    b"fh0-"
}
