//! Reads a value from its front, in one pass: each function gives what it read and what is left to be read.
ghost use Rattle.std.specs.Prelude.{◌≡◌, ◌+◌, ◌-◌, ◌*◌, ◌^◌, ◌<◌, ℕ, min, List, [], ◌∷◌, IfSome, IfNone, IsTrue, ◌↔◌, length};
ghost use Rattle.range_spec.specs.Reading.{AreBlanksBefore, BeginsNo, BeginsOther, EndsElement, IsBlankByte, IsDigit, IsDigitBefore, IsPositionBefore, IsReadTo, IsSeparator, IsSpecBefore, IsValueOf, SetAsksFor};

use crate::Spec;
use crate::blocks::{after_sixteen_separators, eight_digits, with_eight_digits};
use arrayvec::ArrayVec;

/// What follows the unit and the equals sign, where the unit is `bytes`.
pub(crate) fn range_set(value: &[u8]) -> Option<&[u8]>
    ensures found { IfSome result (λ set. IsValueOf value.now set.now) }
    ensures none { IfNone result ((set : List ℕ) → IsValueOf value.now set → ⊥) }
{
    let (unit, rest) = value.split_at_checked(5)?;
    if !unit.eq_ignore_ascii_case(b"bytes") {
        return None;
    }
    rest.strip_prefix(b"=")
}

/// The specs of a range-set, in order, if it is one and has 16 at most.
pub(crate) fn specs_of_set(set: &[u8]) -> Option<ArrayVec<Spec, 16>>
    ensures found { IfSome result (λ specs. IsReadTo set.now specs.items []) }
    ensures none { IfNone result ((specs : List Spec) → SetAsksFor set.now specs → 16 < length specs) }
{
    let mut specs = ArrayVec::new();
    let mut rest = after_separators(set);
    while !rest.is_empty() {
        let (spec, after) = leading_element(rest)?;
        specs.try_push(spec).ok()?;
        rest = after_separators(after);
    }
    Some(specs)
}

/// What follows the commas and blanks at the front.
fn after_separators(text: &[u8]) -> &[u8]
    ensures read { IsReadTo text.now [] result.now }
    ensures ended { BeginsNo IsSeparator result.now }
{
    let mut rest = text;
    while let Some(after) = after_sixteen_separators(rest) {
        rest = after;
    }
    while let Some((byte, after)) = rest.split_first()
        && is_separator(*byte)
    {
        rest = after;
    }
    rest
}

/// The spec of the element at the front, and what follows the element: nothing, or a comma.
fn leading_element(text: &[u8]) -> Option<(Spec, &[u8])>
    requires { BeginsOther IsSeparator text.now }
    ensures found { IfSome result (λ found. IsReadTo text.now (found.0 ∷ []) found.1.now) }
    ensures none { IfNone result ((specs : List Spec) → SetAsksFor text.now specs → ⊥) }
{
    let (spec, rest) = leading_spec(text)?;
    let rest = after_blanks(rest);
    if !ends_element(rest) {
        return None;
    }
    Some((spec, rest))
}

/// Whether an element ends here.
fn ends_element(text: &[u8]) -> bool
    ensures { IsTrue result ↔ EndsElement text.now }
{
    matches!(text, [] | [b',', ..])
}

/// What follows the blanks at the front.
fn after_blanks(text: &[u8]) -> &[u8]
    ensures blanks { AreBlanksBefore text.now result.now }
    ensures ended { BeginsNo IsBlankByte result.now }
{
    let mut rest = text;
    while let Some((byte, after)) = rest.split_first()
        && is_blank(*byte)
    {
        rest = after;
    }
    rest
}

/// Whether a byte may stand between two specs. It takes no branch, so that many bytes are looked at together.
pub(crate) fn is_separator(byte: u8) -> bool
    ensures { IsTrue result ↔ IsSeparator byte }
{
    (byte == b',') | (byte == b' ') | (byte == b'\t')
}

/// Whether a byte may stand around a spec.
fn is_blank(byte: u8) -> bool
    ensures { IsTrue result ↔ IsBlankByte byte }
{
    matches!(byte, b' ' | b'\t')
}

/// The spec at the front, and what follows it.
fn leading_spec(text: &[u8]) -> Option<(Spec, &[u8])>
    ensures found { IfSome result (λ found. IsSpecBefore text.now found.0 found.1.now) }
    ensures ended { IfSome result (λ found. BeginsNo IsDigit found.1.now) }
    ensures none { IfNone result ((spec : Spec) (rest : List ℕ) → IsSpecBefore text.now spec rest → ⊥) }
{
    let (first, rest) = leading_position(text);
    let (last, rest) = leading_position(rest.strip_prefix(b"-")?);
    match (first, last) {
        (Some(first), last) => Some((Spec::From(first, last), rest)),
        (None, Some(length)) => Some((Spec::Suffix(length), rest)),
        (None, None) => None,
    }
}

/// The position at the front, if there is one, and what follows it.
fn leading_position(text: &[u8]) -> (Option<u64>, &[u8])
    ensures read { IsPositionBefore text.now result.0 result.1.now }
    ensures ended { BeginsNo IsDigit result.1.now }
{
    let mut position = None;
    let mut rest = text;
    while let Some((value, after)) = eight_digits(rest) {
        position = Some(with_eight_digits(position.unwrap_or(0), value));
        rest = after;
    }
    while let Some((digit, after)) = leading_digit(rest) {
        position = Some(with_digit(position.unwrap_or(0), digit));
        rest = after;
    }
    (position, rest)
}

/// The position with one more digit. One above the greatest `u64` counts as that.
fn with_digit(position: u64, digit: u8) -> u64
    ensures { result ≡ min (position * 10 + digit) (2 ^ 64 - 1) }
{
    position.saturating_mul(10).saturating_add(u64::from(digit))
}

/// The value of the digit at the front, and what follows it.
fn leading_digit(text: &[u8]) -> Option<(u8, &[u8])>
    ensures found { IfSome result (λ found. IsDigitBefore text.now found.0 found.1.now) }
    ensures none { IfNone result (BeginsNo IsDigit text.now) }
{
    let (byte, rest) = text.split_first()?;
    byte.is_ascii_digit().then(|| (byte - b'0', rest))
}
