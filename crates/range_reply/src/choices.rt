//! Chooses the boundary for a body of several ranges.
ghost use Rattle.std.specs.Prelude.{IfNone, IfSome, MatchOption, map};
ghost use Rattle.range_reply.specs.Boundaries.{HasNoBoundary, IsBoundaryFor};
ghost use Rattle.range_reply.specs.Multipart.{text_of};
ghost use Rattle.range_reply.specs.Slices.{ArePure, all_meant, shown};

use crate::boundaries::Boundary;
use crate::searches::occurs_in_one;
use byte_view::Hold;
use host_names::Digest;

/// Returns the boundary for a body of what these holds show: the first of the eight candidates that does not occur in it, or
/// `None` if each candidate occurs in it. The candidates are made from `digest`, which should be the digest of the holds' file.
/// Allocates nothing.
#[inline(never)]
pub fn boundary(holds: &[Hold], digest: Digest) -> Option<Boundary>
    ensures first { IfSome result (λ found. IsBoundaryFor (map shown holds.now) digest (text_of found)) }
    ensures none { IfNone result (HasNoBoundary (map shown holds.now) digest) }
    ensures pure { ArePure holds.now → MatchOption result (HasNoBoundary (all_meant holds.now) digest) (λ found. IsBoundaryFor (all_meant holds.now) digest (text_of found)) }
{
    for number in 0..8 {
        let candidate = Boundary::candidate(digest, number);
        if !occurs_in_one(candidate.text().as_bytes(), holds) {
            return Some(candidate);
        }
    }
    None
}
