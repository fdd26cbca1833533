//! Holds the stretches of a file, one after another.
ghost use Rattle.std.specs.Prelude.{◌≡◌, ◌<◌, ◌∷◌, [], All, IfErr, IfOk, length};
ghost use Rattle.range_reply.specs.Bodies.{stretches, whole_of};
ghost use Rattle.range_spec.specs.Chosen.{LiesWithin, intervals_in};
ghost use Rattle.range_reply.specs.Holding.{AreHeld, AreNotHeld, IsHoldOf, IsNextFault, IsNextHold, IsNoHold, held_in};

use crate::holds::Holds;
use crate::plans::ReplyPlan;
use byte_view::{BlobInfo, Hold};
use chunk_reads::{Holder, ReadFault};
use range_spec::Choice;
use std::alloc::Global;
use std::sync::Arc;

/// Holds a stretch of a file.
fn hold_one<H: Holder>(
    holder: &mut H,
    info: &Arc<BlobInfo>,
    stretch: (u64, u64),
) -> Result<Hold, ReadFault>
    requires { LiesWithin (length info.now.value) stretch }
    ensures held { IfOk result (λ hold. IsHoldOf H.gave holder.old info.now.value stretch hold holder.new) }
    ensures fault { IfErr result (λ fault. IsNoHold H.failed holder.old info.now.value stretch fault holder.new) }
{
    let info = info.clone().map_err(|_| ReadFault::OutOfMemory)?;
    let hold = holder.hold(info, stretch.0 as usize, stretch.1 as usize)?;
    let _ = hold.stretch(); // for its clause `held`
    Ok(hold)
}

/// Holds a single stretch of a file, without a list.
fn hold_alone<H: Holder>(
    holder: &mut H,
    info: &Arc<BlobInfo>,
    stretch: (u64, u64),
) -> Result<Holds, ReadFault>
    requires { LiesWithin (length info.now.value) stretch }
    ensures held { IfOk result (λ holds. AreHeld H.gave holder.old info.now.value (stretch ∷ []) (held_in holds) holder.new) }
    ensures fault { IfErr result (λ fault. AreNotHeld H.gave H.failed holder.old info.now.value (stretch ∷ []) fault holder.new) }
{
    Ok(Holds::Alone(hold_one(holder, info, stretch)?))
}

/// Holds one more stretch of a file.
fn hold_next<H: Holder>(
    holder: &mut H,
    info: &Arc<BlobInfo>,
    stretch: (u64, u64),
    holds: &mut Vec<Hold>,
) -> Result<(), ReadFault>
    requires { LiesWithin (length info.now.value) stretch }
    ensures held { IfOk result (λ _. IsNextHold H.gave holder.old info.now.value stretch holds.old.items holds.new.items holder.new) }
    ensures fault { IfErr result (λ fault. IsNextFault H.gave H.failed holder.old info.now.value stretch fault holder.new) }
{
    let hold = hold_one(holder, info, stretch)?;
    holds.push(hold).map_err(|_| ReadFault::OutOfMemory)
}

/// Holds these stretches of a file, in order.
fn hold_each<H: Holder>(
    alloc: Global,
    holder: &mut H,
    info: &Arc<BlobInfo>,
    stretches: &[(u64, u64)],
) -> Result<Holds, ReadFault>
    requires { All (LiesWithin (length info.now.value)) stretches.now }
    ensures held { IfOk result (λ holds. AreHeld H.gave holder.old info.now.value stretches.now (held_in holds) holder.new) }
    ensures fault { IfErr result (λ fault. AreNotHeld H.gave H.failed holder.old info.now.value stretches.now fault holder.new) }
    ensures some { IfErr result (λ _. 0 < length stretches.now) }
{
    let mut holds = Vec::new(alloc);
    for stretch in stretches {
        hold_next(holder, info, *stretch, &mut holds)?;
    }
    Ok(Holds::Listed(holds))
}

/// Holds the whole file, if the file is not empty.
pub(crate) fn hold_whole<H: Holder>(
    alloc: Global,
    holder: &mut H,
    info: &Arc<BlobInfo>,
) -> Result<Holds, ReadFault>
    ensures held { IfOk result (λ holds. AreHeld H.gave holder.old info.now.value (whole_of (length info.now.value)) (held_in holds) holder.new) }
    ensures fault { IfErr result (λ fault. AreNotHeld H.gave H.failed holder.old info.now.value (whole_of (length info.now.value)) fault holder.new) }
    ensures some { IfErr result (λ _. 0 < length (whole_of (length info.now.value))) }
{
    match info.len() {
        0 => hold_each(alloc, holder, info, &[]),
        size => hold_alone(holder, info, (0, size as u64 - 1)),
    }
}

/// Holds the stretches that a plan sends of a file.
pub(crate) fn hold_for<H: Holder>(
    alloc: Global,
    holder: &mut H,
    info: &Arc<BlobInfo>,
    plan: &ReplyPlan,
) -> Result<Holds, ReadFault>
    requires { All (LiesWithin (length info.now.value)) (intervals_in plan.now) }
    ensures held { IfOk result (λ holds. AreHeld H.gave holder.old info.now.value (stretches (length info.now.value) plan.now) (held_in holds) holder.new) }
    ensures fault { IfErr result (λ fault. AreNotHeld H.gave H.failed holder.old info.now.value (stretches (length info.now.value) plan.now) fault holder.new) }
    ensures some { IfErr result (λ _. 0 < length (stretches (length info.now.value) plan.now)) }
{
    match plan {
        Choice::Whole => hold_whole(alloc, holder, info),
        Choice::One(first, last) => hold_alone(holder, info, (*first, *last)),
        Choice::Many(intervals) => hold_each(alloc, holder, info, intervals.as_slice()),
        Choice::None416 => hold_each(alloc, holder, info, &[]),
    }
}
