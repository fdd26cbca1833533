//! Writes replies.
ghost use Rattle.std.specs.Prelude.{◌≡◌, ◌≤◌, List, [], length, decimal, IfErr, IsErrOf, OnOk, OnErr};
ghost use Rattle.http_wire.specs.Expectations.{continue_text};
ghost use Rattle.http_wire.specs.Halting.{WritesFrom};
ghost use Rattle.http_wire.specs.Replies.{range_text, sent_of, sent_reply};
ghost use Rattle.std.specs.Io.KnownBytes.{Appends};
ghost use Rattle.http_wire.specs.Gathering.{IsCounted, Puts, SendsOn};
ghost use Rattle.http_wire.specs.Sending.{SentFront, WritesText};
ghost use Rattle.http_wire.specs.Timing.{Event, NoRead, Ran, Steps};

use crate::body_sends::put_parts;
use crate::duplexes::{Duplex, Steady};
use crate::entity_tags::EntityTag;
use crate::faults::WriteFault;
use crate::field_texts::FieldText;
use crate::halts::Halt;
use crate::reply_heads::put_head;
use crate::sends::Outgoing;
use crate::sinks::WriteFailed;
use arrayvec::ArrayString;
use byte_view::BodyParts;
use http::StatusCode;

/// The bytes of a file that a reply holds (RFC 9110, section 14.4).
#[derive(Clone, Copy, Debug, PartialEq, Eq)]
pub enum ContentRange {
    /// The bytes from position `first` to position `last`, in a file of `length` bytes.
    Of { first: u64, last: u64, length: u64 },
    /// No bytes of a file of `length` bytes.
    Unsatisfied { length: u64 },
}

/// The head of a reply. The fields that are present are written in this order.
#[derive(Clone, Copy, Debug)]
pub struct ReplyHead<'a> {
    /// The status code, which determines the reason phrase.
    pub status: StatusCode,
    pub content_type: Option<FieldText<'a>>,
    pub etag: Option<EntityTag<'a>>,
    /// Whether byte ranges are served.
    pub accept_ranges: bool,
    pub content_range: Option<ContentRange>,
    /// The methods that the target supports, separated by commas.
    pub allow: Option<FieldText<'a>>,
    /// Whether the connection closes after the reply.
    pub close: bool,
}

/// The body of a reply. The head gives its length.
#[derive(Debug, Drop)]
pub enum ReplyBody<P> {
    /// The parts of the body, in order. The head gives their total length in bytes.
    Sent(P),
    /// No bytes, as in the reply to HEAD. The head gives the number of bytes that a GET would be sent (RFC 9110, sections 8.6 and 9.3.2).
    Withheld(u64),
}

impl<P: BodyParts> ReplyBody<P> {
    ghost use Rattle.std.specs.Prelude.{◌≡◌};
    ghost use Rattle.http_wire.specs.Replies.{size_of};

    // Returns the length in bytes that the head gives.
    fn size(&self) -> u64
        ensures { result ≡ size_of P.texts self.now }
    {
        match self {
            ReplyBody::Sent(parts) => parts.length(),
            ReplyBody::Withheld(size) => *size,
        }
    }
}

/// Returns the decimal digits of a number, without leading zeros. Allocates nothing.
pub fn decimal_text(number: u64) -> ArrayString<20>
    ensures digits { result.bytes ≡ decimal number }
    ensures short { length result.bytes ≤ 20 }
{
    let mut digits = itoa::Buffer::new();
    ArrayString::from(digits.format(number)).unwrap()
}

/// Returns the value of a `Content-Range` field: `bytes 6-10/11`, or `bytes */11` if the range has no bytes (RFC 9110, section 14.4).
/// Allocates nothing.
pub fn range_value(range: ContentRange) -> ArrayString<72>
    ensures { result.bytes ≡ range_text range }
{
    let mut text = ArrayString::new();
    match range {
        ContentRange::Of {
            first,
            last,
            length,
        } => {
            text.push_str("bytes ");
            text.push_str(decimal_text(first).as_str());
            text.push_str("-");
            text.push_str(decimal_text(last).as_str());
            text.push_str("/");
            text.push_str(decimal_text(length).as_str());
        }
        ContentRange::Unsatisfied { length } => {
            text.push_str("bytes */");
            text.push_str(decimal_text(length).as_str());
        }
    }
    text
}

// Puts a body if it is sent.
fn put_body<D: Duplex, P: BodyParts<Item: Drop> + Drop>(
    duplex: &mut D,
    out: &mut Outgoing,
    body: ReplyBody<P>,
) -> Result<(), Halt<WriteFailed>>
    ensures ran { Ran D.saw NoRead duplex.old duplex.new (Puts result (sent_of P.texts body) out.old out.new) }
    ensures waits { IsErrOf result Halt.WouldWait → D.waits duplex.new }
{
    match body {
        ReplyBody::Sent(parts) => put_parts(duplex, out, parts),
        ReplyBody::Withheld(_) => Ok(()),
    }
}

// Puts the head and then the body, and writes both in full.
fn put_both<D: Duplex, P: BodyParts<Item: Drop> + Drop>(
    duplex: &mut D,
    out: &mut Outgoing,
    head: &ReplyHead<'_>,
    body: ReplyBody<P>,
) -> Result<(), Halt<WriteFailed>>
    ensures ran { Ran D.saw NoRead duplex.old duplex.new
        (Puts result (sent_reply P.texts head.now body) out.old out.new) }
    ensures empty { OnOk result (out.new.rest ≡ []) }
    ensures waits { IsErrOf result Halt.WouldWait → D.waits duplex.new }
{
    put_head(duplex, out, head, body.size())?;
    put_body(duplex, out, body)?;
    out.write(duplex, &[], &[], &[])
}

// Writes the head and then the body.
fn write_both<D: Steady, P: BodyParts<Item: Drop> + Drop>(
    duplex: &mut D,
    out: &mut Outgoing,
    head: &ReplyHead<'_>,
    body: ReplyBody<P>,
) -> Result<(), WriteFault>
    ensures { Ran D.saw NoRead duplex.old duplex.new (WritesText result (sent_reply P.texts head.now body)) }
{
    out.begin();
    match put_both(duplex, out, head, body) {
        Ok(()) => Ok(()),
        Err(Halt::Failed(_)) => Err(WriteFault(out.sent())),
        Err(Halt::WouldWait) => unreachable!(),
    }
}

/// Goes on writing a reply as `write_reply` does, on a stream that may have to wait. The call continues after the bytes of the reply
/// that are already written, with those that are gathered in `out`. If `out` begins a text, the call begins the reply.
pub fn try_write_reply<D: Duplex, P: BodyParts<Item: Drop> + Drop>(
    duplex: &mut D,
    out: &mut Outgoing,
    head: &ReplyHead<'_>,
    body: ReplyBody<P>,
) -> Result<(), Halt<WriteFailed>>
    requires { IsCounted out.old }
    ensures ran { SendsOn D.saw duplex.old duplex.new result (sent_reply P.texts head.now body) out.old out.new }
    ensures led { (events : List Event) × Steps D.saw duplex.old events duplex.new }
    ensures waits { IsErrOf result Halt.WouldWait → D.waits duplex.new }
{
    out.go_on();
    put_both(duplex, out, head, body)
}

/// Writes a reply: its head, and then its body if it is sent. Reads nothing. The head always has a Content-Length, so it does not suit
/// a reply of status 1xx or 204 (RFC 9110, section 8.6).
///
/// Large parts of the body are written from where they lie in memory; small parts are gathered first. A head and body of at most
/// 8,192 bytes together are one write. Allocates nothing. A write that fails or accepts no byte is a fault, and nothing is written
/// after it.
pub fn write_reply<D: Steady, P: BodyParts<Item: Drop> + Drop>(
    duplex: &mut D,
    out: &mut Outgoing,
    head: &ReplyHead<'_>,
    body: ReplyBody<P>,
) -> Result<(), WriteFault>
    ensures ok { OnOk result (Appends (D.held duplex.old) (D.held duplex.new) (sent_reply P.texts head.now body)) }

    // On a fault, the first `fault.0` bytes of the reply were written, but not the whole reply.
    ensures fault { IfErr result
        (λ fault. SentFront (D.held duplex.old) (D.held duplex.new) (sent_reply P.texts head.now body) fault.0) }
    ensures cause { OnErr result D.write_fails }
    ensures ran { Ran D.saw NoRead duplex.old duplex.new (WritesText result (sent_reply P.texts head.now body)) }
{
    write_both(duplex, out, head, body)
}

/// Goes on writing the interim reply, after which the client sends the body (RFC 9110, section 15.2.1), on a stream that may have to
/// wait. The call starts at byte `at` of the reply and moves `at` past the bytes that it writes. Allocates nothing, and fails as
/// `write_reply` does.
pub fn try_write_interim<D: Duplex>(duplex: &mut D, at: &mut usize) -> Result<(), Halt<WriteFailed>>
    requires { at.old ≤ length continue_text }
    ensures ran { Ran D.saw NoRead duplex.old duplex.new (WritesFrom result continue_text at.old at.new) }
    ensures waits { IsErrOf result Halt.WouldWait → D.waits duplex.new }
{
    let text = b"HTTP/1.1 100 Continue\r\n\r\n";
    'writes: while *at < text.len() {
        let count = duplex.write_some(&text[*at..])?;
        *at += count;
    }
    Ok(())
}
