//! Values of Range.
ghost use Rattle.std.specs.Prelude.{◌≡◌};

use range_spec::{Asked, parse};
use std::alloc::{AllocError, Global};

/// How many bytes the values of 16 ranges have, each.
pub(crate) const SIXTEEN: usize = 6 + 16 * 18 - 1;

/// One value: this byte so often, and then an end.
fn one_value(
    alloc: Global,
    byte: u8,
    times: usize,
    end: &[u8],
) -> Result<Vec<Vec<u8>>, AllocError> {
    let mut value = Vec::from_slice(alloc, b"bytes=")?;
    for _ in 0..times {
        value.push(byte)?;
    }
    value.extend_from_slice(end)?;
    Ok(vec![in alloc; value]?)
}

/// One value of so many commas and a range.
pub(crate) fn commas(alloc: Global, bytes: usize) -> Result<Vec<Vec<u8>>, AllocError> {
    one_value(alloc, b',', bytes, b"0-0")
}

/// One value of a range whose first position has so many digits.
pub(crate) fn digits(alloc: Global, bytes: usize) -> Result<Vec<Vec<u8>>, AllocError> {
    one_value(alloc, b'7', bytes, b"-")
}

/// A value of 16 ranges, the first of which begins here.
fn sixteen(alloc: Global, begin: u64) -> Result<Vec<u8>, AllocError> {
    let mut value = String::from_str(alloc, "bytes=")?;
    for place in 0..16u64 {
        let first = begin.saturating_add(place.saturating_mul(1_000));
        let last = first.saturating_add(999);
        let comma = if place == 0 { "" } else { "," };
        write!(value, "{comma}{first:08}-{last:08}")?;
    }
    Ok(value.into_bytes())
}

/// Different values of 16 ranges, which have so many bytes together.
pub(crate) fn sixteens(alloc: Global, bytes: usize) -> Result<Vec<Vec<u8>>, AllocError> {
    let mut values = Vec::new(alloc);
    for number in 0..bytes.div_ceil(SIXTEEN) as u64 {
        values.push(sixteen(alloc, number % 65_536)?)?;
    }
    Ok(values)
}

/// How many ranges these values ask for.
pub(crate) fn count_asked(values: &[Vec<u8>]) -> usize {
    let mut count = 0usize;
    for value in values {
        if let Asked::Specs(specs) = parse(value.as_slice()) {
            count = count.saturating_add(specs.as_slice().len());
        }
    }
    count
}

/// How many bytes these values have.
pub(crate) fn count_bytes(values: &[Vec<u8>]) -> usize {
    let mut count = 0usize;
    for value in values {
        count = count.saturating_add(value.len());
    }
    count
}
