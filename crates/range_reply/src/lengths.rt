//! The length of a body of several ranges.
ghost use Rattle.std.specs.Prelude.{◌+◌, ◌++◌, All, length};
ghost use Rattle.std.specs.List.{flat_map};
ghost use Rattle.byte_view.specs.Cuts.{slice};
ghost use Rattle.range_spec.specs.Chosen.{LiesWithin};
ghost use Rattle.range_reply.specs.Multipart.{IsCount, last_line, part_text, text_of};

use crate::boundaries::Boundary;
use crate::texts::{last_line, line_before_type, line_behind_type};
use byte_view::BlobInfo;
use http_wire::FieldText;
use range_spec::Intervals;

/// Adds the lengths of these texts to the total, if the sum fits in a `u64`.
fn with_texts(mut total: u64, texts: &[&str]) -> Option<u64>
    ensures { IsCount result (total + length (flat_map (λ text. text.now) texts.now)) }
{
    for text in texts {
        total = total.checked_add(text.len() as u64)?;
    }
    Some(total)
}

/// Adds the length of a part to the total, if the sum fits in a `u64`.
fn with_part(
    total: u64,
    info: &BlobInfo,
    boundary: &Boundary,
    content_type: FieldText<'_>,
    interval: (u64, u64),
) -> Option<u64>
    requires { LiesWithin (length info.now) interval }
    ensures { IsCount result
        (total + length (part_text (text_of boundary.now) content_type.entry.text.now (length info.now)
        (interval, slice info.now interval.0 interval.1))) }
{
    let (first, last) = interval;
    let before = line_before_type(boundary.text().as_str());
    let behind = line_behind_type(first, last, info.len() as u64);
    let total = with_texts(
        total,
        &[before.as_str(), content_type.as_str(), behind.as_str()],
    )?;
    with_texts(total.checked_add(last - first + 1)?, &["\r\n"])
}

/// Adds the lengths of the parts for these intervals to the total, if the sum fits in a `u64`.
fn with_parts(
    mut total: u64,
    info: &BlobInfo,
    boundary: &Boundary,
    content_type: FieldText<'_>,
    intervals: &[(u64, u64)],
) -> Option<u64>
    requires { All (LiesWithin (length info.now)) intervals.now }
    ensures { IsCount result (total
        + length (flat_map (λ i. part_text (text_of boundary.now) content_type.entry.text.now (length info.now)
        (i, slice info.now i.0 i.1)) intervals.now)) }
{
    for interval in intervals {
        total = with_part(total, info, boundary, content_type, *interval)?;
    }
    Some(total)
}

/// Returns the number of bytes in the body that sends these intervals of a file in parts with this boundary, or `None` if the
/// number does not fit in a `u64`. Allocates nothing.
#[inline(never)]
pub(crate) fn multipart_length(
    info: &BlobInfo,
    boundary: &Boundary,
    content_type: FieldText<'_>,
    intervals: &Intervals,
) -> Option<u64>
    requires { All (LiesWithin (length info.now)) intervals.now }
    ensures { IsCount result
        (length (flat_map (λ i. part_text (text_of boundary.now) content_type.entry.text.now (length info.now)
        (i, slice info.now i.0 i.1)) intervals.now ++ last_line (text_of boundary.now))) }
{
    let parts = with_parts(0, info, boundary, content_type, intervals.as_slice())?;
    with_texts(parts, &[last_line(boundary.text().as_str()).as_str()])
}
