//! A failing run, made shorter: events are left out as long as it fails.
use crate::runs::run;
use simulated_clients::{Fault, Plan};
use simulated_sockets::Event;
use std::alloc::{AllocError, Global};
use std::sync::Wait;

/// These events but for so many from a place on.
fn without(
    alloc: Global,
    events: &[Event],
    from: usize,
    count: usize,
) -> Result<Vec<Event>, AllocError> {
    let mut left = Vec::with_capacity(alloc, events.len())?;
    for at in 0..events.len() {
        if at < from || at >= from.saturating_add(count) {
            left.push(events[at])?;
        }
    }
    Ok(left)
}

/// The events of a failing run that are left where no stretch of this length can be left out, and what is seen by them.
fn without_stretches<R: Wait>(
    rt: &R,
    alloc: Global,
    plan: &Plan,
    failing: (Vec<Event>, Fault),
    length: usize,
) -> Result<(Vec<Event>, Fault), AllocError> {
    let (mut events, mut seen) = failing;
    let mut from = 0;
    for _ in 0..events.len() {
        if from >= events.len() {
            break;
        }
        let fewer = without(alloc, events.as_slice(), from, length)?;
        match run(rt, alloc, plan, fewer.as_slice())?.fault {
            Some(fault) => {
                events = fewer;
                seen = fault;
            }
            None => from = from.saturating_add(length),
        }
    }
    Ok((events, seen))
}

/// Leaves events out of a failing run: first long stretches, then shorter ones, then one at a time.
pub(crate) fn shorten<R: Wait>(
    rt: &R,
    alloc: Global,
    plan: &Plan,
    events: Vec<Event>,
    fault: Fault,
) -> Result<(Vec<Event>, Fault), AllocError> {
    let mut failing = (events, fault);
    for length in [256, 64, 16, 4, 1, 1] {
        failing = without_stretches(rt, alloc, plan, failing, length)?;
    }
    Ok(failing)
}
