//! The length of a request body.
ghost use Rattle.std.specs.Prelude.{ℕ, IfSome, IfNone};
ghost use Rattle.http_wire.specs.Fields.{WritesLength, IsBodyLength};

use crate::faults::LengthFault;
use crate::heads::Head;

/// Returns the number if `text` consists of decimal digits alone and the number fits in a `u64`.
pub fn read_length(text: &[u8]) -> Option<u64>
    ensures some { IfSome result (WritesLength text.now) }
    ensures none { IfNone result ((n : ℕ) → ¬ (WritesLength text.now n)) }
{
    if text.is_empty() {
        return None;
    }
    let mut value: u64 = 0;
    for byte in text {
        if !byte.is_ascii_digit() {
            return None;
        }
        value = value.checked_mul(10)?.checked_add(u64::from(*byte - b'0'))?;
    }
    Some(value)
}

/// Returns the length of the body that a head announces, or 0 if the head names no length. An error is the first reason why no body
/// is read. Allocates nothing.
pub fn check_body(head: &Head, limit: u64) -> Result<u64, LengthFault>
    ensures { IsBodyLength result head.now.fields limit }
{
    if head.values("transfer-encoding").next().is_some() {
        return Err(LengthFault::CodingRefused);
    }
    let mut lengths = head.values("content-length");
    let length = match (lengths.next(), lengths.next()) {
        (None, _) => 0,
        (Some(value), None) => read_length(value).ok_or(LengthFault::LengthBad)?,
        (Some(_), Some(_)) => return Err(LengthFault::LengthBad),
    };
    if length <= limit {
        Ok(length)
    } else {
        Err(LengthFault::BodyTooLarge)
    }
}
