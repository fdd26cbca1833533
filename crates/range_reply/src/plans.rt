//! What is sent of a file.
ghost use Rattle.std.specs.Prelude.{◌≡◌, ◌≤◌, All, length, sum_by};
ghost use Rattle.range_spec.specs.Chosen.{LiesWithin, intervals_in, size_of};
ghost use Rattle.range_reply.specs.Plans as spec;
ghost use Rattle.range_reply.specs.Plans.{planned};

use crate::conditions::IfRange;
use byte_view::BlobInfo;
use range_spec::{Asked, Choice, select};

/// What is sent of a file: the whole file (status 200), one range or several (206), or none of what is asked for (416).
pub type ReplyPlan = Choice;

/// Returns what a Range field chooses of a file of `size` bytes.
fn choice_in(asked: &Asked, size: u64) -> Choice
    ensures choice { result ≡ spec.choice_in asked.now size }
    ensures within { All (LiesWithin size) (intervals_in result) }
    ensures fits { sum_by size_of (intervals_in result) ≤ size }
{
    match asked {
        Asked::Ignore => Choice::Whole,
        Asked::Specs(specs) => select(specs, size),
    }
}

/// Returns what is sent of a file if `asked` is asked for under this condition (RFC 9110, sections 13.1.5 and 14.2). If there is
/// no range, the condition is ignored. If the condition is false, the range is ignored. The intervals are in the order asked.
pub fn plan(info: &BlobInfo, asked: &Asked, condition: IfRange) -> ReplyPlan
    ensures plan { result ≡ planned asked.now condition (length info.now) }
    ensures within { All (LiesWithin (length info.now)) (intervals_in result) }
    ensures fits { sum_by size_of (intervals_in result) ≤ length info.now }
{
    if !condition.lets_ranges() {
        return Choice::Whole;
    }
    choice_in(asked, info.len() as u64)
}
