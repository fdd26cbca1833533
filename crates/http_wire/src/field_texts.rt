//! Texts that can be field values.
ghost use Rattle.std.specs.Prelude.{◌≡◌, IsTrue};
ghost use Rattle.http_wire.specs.FieldTexts.{is_field_text};

/// A text that can be a field value: each byte is a visible ASCII character, a byte above ASCII, a space or a tab (RFC 9110, section 5.5).
/// So it holds no line break.
#[derive(Clone, Copy, Debug)]
pub struct FieldText<'a> {
    text: &'a str,
    ghost valid: { IsTrue (is_field_text text.now) },
}

impl<'a> FieldText<'a> {
    /// Returns `text` as a field value.
    pub fn new(text: &'a str) -> FieldText<'a>
        requires { IsTrue (is_field_text text.now) }
        ensures { result.text.now ≡ text.now }
    {
        FieldText { text }
    }

    /// Returns the text.
    pub fn as_str(self) -> &'a str
        ensures { result.now ≡ self.entry.text.now }
    {
        self.text
    }
}
