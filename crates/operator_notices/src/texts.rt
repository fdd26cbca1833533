//! The texts of notices.
ghost use Rattle.std.specs.Prelude.{◌≡◌};
ghost use Rattle.operator_notices.specs.Texts.{appended, notice_text};

use arrayvec::ArrayString;

/// How many bytes a text has at most.
const LONGEST: usize = 320;

/// What comes in place of a part that has no room.
const NO_ROOM: &str = "..";

/// The text of a notice, which takes no memory.
pub type Text = ArrayString<LONGEST>;

/// Appends a part. Where it has no room, two dots show that, if they have some.
fn append(text: &mut Text, part: &str)
    ensures { text.new.bytes ≡ appended text.old.bytes part.now }
{
    if text.try_push_str(part).is_err() {
        let _ = text.try_push_str(NO_ROOM);
    }
}

/// What happened, and then why, unless the second text is empty.
pub(crate) fn text_of(what: &str, why: &str) -> Text
    ensures { result.bytes ≡ notice_text what.now why.now }
{
    let mut text = Text::new();
    append(&mut text, what);
    if !why.is_empty() {
        append(&mut text, ": ");
        append(&mut text, why);
    }
    text
}
