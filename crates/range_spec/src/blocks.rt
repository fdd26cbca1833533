//! Reads several bytes of one kind at once, so that long runs of them take little time.
ghost use Rattle.std.specs.Prelude.{◌≡◌, ◌+◌, ◌-◌, ◌*◌, ◌^◌, ◌<◌, ◌↔◌, min, All, IfSome, IsTrue, length};
ghost use Rattle.std.specs.Str.Parse.{digits_value};
ghost use Rattle.range_spec.specs.Reading.{AreDigitsBefore, AreSeparatorsBefore, IsDigit, IsSeparator};

use crate::reading::is_separator;

/// What follows the first 16 bytes, where each of them may stand between two specs.
pub(crate) fn after_sixteen_separators(text: &[u8]) -> Option<&[u8]>
    ensures found { IfSome result (λ rest. AreSeparatorsBefore text.now rest.now) }
    ensures shorter { IfSome result (λ rest. length rest.now < length text.now) }
{
    let (block, rest) = text.split_first_chunk::<16>()?;
    if !are_separators(block) {
        return None;
    }
    Some(rest)
}

/// Whether each byte may stand between two specs. It looks at all of them, at once.
fn are_separators(block: &[u8; 16]) -> bool
    ensures { IsTrue result ↔ All IsSeparator block.now }
{
    let mut all = true;
    for byte in block {
        all &= is_separator(*byte);
    }
    all
}

/// The value of the first eight bytes, where each of them is a digit, and what follows them.
pub(crate) fn eight_digits(text: &[u8]) -> Option<(u32, &[u8])>
    ensures found { IfSome result (λ found. AreDigitsBefore text.now found.0 found.1.now) }
    ensures shorter { IfSome result (λ found. length found.1.now < length text.now) }
{
    let (block, rest) = text.split_first_chunk::<8>()?;
    if !are_digits(block) {
        return None;
    }
    Some((value_of_digits(block), rest))
}

/// Whether each byte is a digit. It looks at all of them, at once.
fn are_digits(block: &[u8; 8]) -> bool
    ensures { IsTrue result ↔ All IsDigit block.now }
{
    let mut all = true;
    for byte in block {
        all &= byte.is_ascii_digit();
    }
    all
}

/// The value of eight digits.
fn value_of_digits(block: &[u8; 8]) -> u32
    requires { All IsDigit block.now }
    ensures { result ≡ digits_value 10 block.now }
{
    let mut value = 0;
    for byte in block {
        value = value * 10 + u32::from(byte - b'0');
    }
    value
}

/// The position with eight more digits. One above the greatest `u64` counts as that.
pub(crate) fn with_eight_digits(position: u64, value: u32) -> u64
    ensures { result ≡ min (position * 10 ^ 8 + value) (2 ^ 64 - 1) }
{
    position
        .saturating_mul(100_000_000)
        .saturating_add(u64::from(value))
}
