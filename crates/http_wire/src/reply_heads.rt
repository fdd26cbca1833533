//! Puts the heads of replies.
ghost use Rattle.std.specs.Prelude.{◌≡◌, ℕ, ◌++◌, decimal, IsErrOf};
ghost use Rattle.std.specs.Option.{option_map};
ghost use Rattle.std.specs.List.{flat_map};
ghost use Rattle.httparse.specs.Ascii.{crlf_bytes};
ghost use Rattle.http_wire.specs.Replies.{ended_line, fields_of, head_text, line_of, range_text, status_line, text_of_line};
ghost use Rattle.http_wire.specs.Gathering.{Puts};
ghost use Rattle.http_wire.specs.Timing.{NoRead, Ran};

use crate::duplexes::Duplex;
use crate::halts::Halt;
use crate::replies::{ReplyHead, decimal_text, range_value};
use crate::sends::{Outgoing, put_pieces};
use crate::sinks::WriteFailed;
use http::StatusCode;

// A line of a head, which is absent if it has no value. The text after the value ends the line.
#[derive(Clone, Copy)]
struct Line<'a> {
    before: &'a str,
    value: Option<&'a str>,
    behind: &'a str,
}

impl<'a> Line<'a> {
    fn new(before: &'a str, value: Option<&'a str>, behind: &'a str) -> Line<'a>
        ensures { text_of_line result ≡ line_of before.now (option_map (λ v. v.now) value.entry) behind.now }
    {
        Line {
            before,
            value,
            behind,
        }
    }
}

// Returns the lines of the fields; the line of an absent field has no value.
fn field_lines<'a>(
    head: &'a ReplyHead<'a>,
    digits: &'a str,
    range: Option<&'a str>,
) -> [Line<'a>; 7]
    requires { option_map (λ v. v.now) range ≡ option_map range_text head.now.content_range }
    ensures { (size : ℕ) → digits.now ≡ decimal size
        → ended_line (status_line head.now.status) ++ (flat_map text_of_line result ++ crlf_bytes)
        ≡ head_text (fields_of head.now size) }
{
    let content_type = head.content_type.map(|text| text.as_str());
    let etag = head.etag.map(|text| text.as_str());
    let allow = head.allow.map(|text| text.as_str());
    let ranges: Option<&'a str> = head.accept_ranges.then_some("bytes");
    let connection: Option<&'a str> = head.close.then_some("close");
    [
        Line::new("Content-Type: ", content_type, "\r\n"),
        Line::new("Content-Length: ", Some(digits), "\r\n"),
        Line::new("ETag: \"", etag, "\"\r\n"),
        Line::new("Accept-Ranges: ", ranges, "\r\n"),
        Line::new("Content-Range: ", range, "\r\n"),
        Line::new("Allow: ", allow, "\r\n"),
        Line::new("Connection: ", connection, "\r\n"),
    ]
}

// Puts a line if it has a value.
fn put_line<D: Duplex>(
    duplex: &mut D,
    out: &mut Outgoing,
    line: &Line<'_>,
) -> Result<(), Halt<WriteFailed>>
    ensures ran { Ran D.saw NoRead duplex.old duplex.new (Puts result (text_of_line line.now) out.old out.new) }
    ensures waits { IsErrOf result Halt.WouldWait → D.waits duplex.new }
{
    let Some(value) = line.value else {
        return Ok(());
    };
    out.put_three(
        duplex,
        line.before.as_bytes(),
        value.as_bytes(),
        line.behind.as_bytes(),
    )
}

// Puts the lines in order.
fn put_lines<D: Duplex>(
    duplex: &mut D,
    out: &mut Outgoing,
    lines: &[Line<'_>],
) -> Result<(), Halt<WriteFailed>>
    ensures ran { Ran D.saw NoRead duplex.old duplex.new
        (Puts result (flat_map text_of_line lines.now) out.old out.new) }
    ensures waits { IsErrOf result Halt.WouldWait → D.waits duplex.new }
{
    for line in lines {
        put_line(duplex, out, line)?;
    }
    Ok(())
}

// Puts the status line, which is one piece in most replies.
fn put_status<D: Duplex>(
    duplex: &mut D,
    out: &mut Outgoing,
    status: StatusCode,
) -> Result<(), Halt<WriteFailed>>
    ensures ran { Ran D.saw NoRead duplex.old duplex.new
        (Puts result (ended_line (status_line status)) out.old out.new) }
    ensures waits { IsErrOf result Halt.WouldWait → D.waits duplex.new }
{
    match status.as_u16() {
        200 => return out.put(duplex, b"HTTP/1.1 200 OK\r\n"),
        206 => return out.put(duplex, b"HTTP/1.1 206 Partial Content\r\n"),
        _ => {}
    }
    let code = status.as_str();
    let phrase = status.canonical_reason().unwrap_or("");
    let pieces: [&[u8]; 5] = [
        b"HTTP/1.1 ",
        code.as_bytes(),
        b" ",
        phrase.as_bytes(),
        b"\r\n",
    ];
    put_pieces(duplex, out, &pieces)
}

// Puts a head whose numbers are already text.
fn put_texts<'a, D: Duplex>(
    duplex: &mut D,
    out: &mut Outgoing,
    head: &'a ReplyHead<'a>,
    digits: &'a str,
    range: Option<&'a str>,
) -> Result<(), Halt<WriteFailed>>
    requires { option_map (λ v. v.now) range ≡ option_map range_text head.now.content_range }
    ensures ran { (size : ℕ) → digits.now ≡ decimal size → Ran D.saw NoRead duplex.old duplex.new
        (Puts result (head_text (fields_of head.now size)) out.old out.new) }
    ensures waits { IsErrOf result Halt.WouldWait → D.waits duplex.new }
{
    let fields = field_lines(head, digits, range);
    put_status(duplex, out, head.status)?;
    put_lines(duplex, out, &fields)?;
    out.put(duplex, b"\r\n")
}

/// Puts the head for a body of `size` bytes.
pub fn put_head<D: Duplex>(
    duplex: &mut D,
    out: &mut Outgoing,
    head: &ReplyHead<'_>,
    size: u64,
) -> Result<(), Halt<WriteFailed>>
    ensures ran { Ran D.saw NoRead duplex.old duplex.new
        (Puts result (head_text (fields_of head.now size)) out.old out.new) }
    ensures waits { IsErrOf result Halt.WouldWait → D.waits duplex.new }
{
    let digits = decimal_text(size);
    let range = head.content_range.map(range_value);
    let range = range.as_ref().map(|text| text.as_str());
    put_texts(duplex, out, head, digits.as_str(), range)
}
