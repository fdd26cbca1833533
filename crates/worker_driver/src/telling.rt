//! What runs have come to, printed: so a reader sees that they aren't runs in which nothing happens.
use anyhow::Result;
use simulated_clients::Seen;
use std::io::Print;

/// Prints how often each thing was seen.
pub(crate) fn tell_seen(rt: &impl Print, seen: &Seen) -> Result<()> {
    let (turns, accepted, late) = (seen.turns, seen.accepted, seen.late);
    println!(rt; "  turns {turns}, accepted {accepted}, late {late}")?;
    let (placed, refused, given_up) = (seen.placed, seen.refused, seen.given_up);
    println!(rt; "  gone for a place {placed}, none for a place {refused}, asked for {given_up}")?;
    let (lacks, failed, drains) = (seen.lacks, seen.failed, seen.drains);
    println!(rt; "  without a descriptor {lacks}, calls failed {failed}, drained {drains}")?;
    let (waits, bodies, replies) = (seen.waits, seen.bodies, seen.replies);
    println!(rt; "  bodies that waited {waits}, gone {bodies}, replies gone {replies}")?;
    let inners = seen.inners;
    println!(rt; "  others went on in a turn {inners}")?;
    Ok(())
}
