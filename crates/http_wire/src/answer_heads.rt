//! Judges the heads of answers.
ghost use Rattle.std.specs.Prelude.{◌≡◌, ℕ, All, IfErr, IfNone, IfOk, IfSome, length, map, take};
ghost use Rattle.httparse.specs.Spans.{header_bytes, IsHeaderWithin, IsResponseWithin};
ghost use Rattle.http_wire.specs.Answers.{AnswerParts, HasOneLength, HeadAnswers, Tells};
ghost use Rattle.http_wire.specs.declared.answers.AnswerFault.TheVariants.{BadHead};

use crate::answers::AnswerFault;
use crate::fields::Values;
use crate::heads::FIELD_LIMIT;
use crate::lengths::read_length;
use httparse::Status;
use httparse::spans::{EMPTY_HEADER_SPAN, HeaderSpan, ResponseSpans, parse_response};

// Finds the spans of the head's parts, if the whole text is a head whose fields fit in `room`.
fn find_parts(text: &[u8], room: &mut [HeaderSpan]) -> Result<ResponseSpans, AnswerFault>
    requires { length room.old ≡ FIELD_LIMIT }
    ensures found { IfOk result (λ spans. Tells text.now
        (record { status = spans.code; fields = map (header_bytes text.now) (take spans.headers room.new) })) }
    ensures within { IfOk result (IsResponseWithin text.now room.new) }
    ensures fault { IfErr result
        (λ fault. (fault ≡ BadHead) × ((parts : AnswerParts) → ¬ (Tells text.now parts))) }
{
    match parse_response(text, room) {
        Ok(Status::Complete(spans)) if spans.len == text.len() => Ok(spans),
        _ => Err(AnswerFault::BadHead),
    }
}

// Returns the only length in the fields, unless they also have a transfer coding.
fn one_length(text: &[u8], fields: &[HeaderSpan]) -> Option<u64>
    requires { All (IsHeaderWithin (length text.now)) fields.now }
    ensures some { IfSome result (HasOneLength (map (header_bytes text.now) fields.now)) }
    ensures none { IfNone result ((n : ℕ) → ¬ (HasOneLength (map (header_bytes text.now) fields.now) n)) }
{
    if Values::new(text, fields, "transfer-encoding")
        .next()
        .is_some()
    {
        return None;
    }
    let mut lengths = Values::new(text, fields, "content-length");
    match (lengths.next(), lengths.next()) {
        (Some(value), None) => read_length(value),
        _ => None,
    }
}

/// Returns the size in bytes of the body to read after this head, or the first reason why no body is read. Allocates no memory.
pub fn judge(text: &[u8], limit: u64) -> Result<u64, AnswerFault>
    ensures { HeadAnswers result limit text.now }
{
    let mut room = [EMPTY_HEADER_SPAN; FIELD_LIMIT];
    let spans = find_parts(text, &mut room)?;
    if spans.code != 200 {
        return Err(AnswerFault::NotOk);
    }
    let Some(size) = one_length(text, &room[..spans.headers]) else {
        return Err(AnswerFault::BadHead);
    };
    if size <= limit {
        Ok(size)
    } else {
        Err(AnswerFault::TooLong)
    }
}
