//! Texts that can be entity tags.
ghost use Rattle.std.specs.Prelude.{◌≡◌, IsTrue};
ghost use Rattle.http_wire.specs.EntityTags.{is_entity_tag};

/// A strong entity tag, as the text between its quotes: each byte is 0x21, 0x23 to 0x7E, or 0x80 and above (`etagc`, RFC 9110,
/// section 8.8.3). So it holds no quote, no blank and no line break.
#[derive(Clone, Copy, Debug)]
pub struct EntityTag<'a> {
    text: &'a str,
    ghost valid: { IsTrue (is_entity_tag text.now) },
}

impl<'a> EntityTag<'a> {
    /// Returns the tag with `text` between its quotes.
    pub fn new(text: &'a str) -> EntityTag<'a>
        requires { IsTrue (is_entity_tag text.now) }
        ensures { result.text.now ≡ text.now }
    {
        EntityTag { text }
    }

    /// Returns the text of the tag, without the quotes.
    pub fn as_str(self) -> &'a str
        ensures { result.now ≡ self.entry.text.now }
    {
        self.text
    }
}
