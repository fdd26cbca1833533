//! Events that are drawn.
use simulated_clients::{Draws, Plan, Taste, draw_piece};
use simulated_sockets::Event;
use std::alloc::{AllocError, Global};

/// How many milliseconds pass at once.
const TIMES: [u64; 6] = [1, 10, 100, 500, 1_000, 1_000];

const LONG_TIMES: [u64; 8] = [100, 900, 1_000, 3_000, 4_900, 9_000, 20_000, 61_000];

/// The next event.
fn draw_event(draws: &mut Draws, plan: &Plan) -> Event {
    let caller = draws.below(64) as usize;
    let piece = draw_piece(draws, plan.taste);
    let kind = draws.below(100);
    // Only where clients stay and threads are slow do many bodies and replies come together.
    let is_large = plan.taste == Taste::Bodies || plan.taste == Taste::Replies;
    let goes = kind >= 44 && kind < 48 || kind >= 83 && kind < 90;
    if is_large && goes && draws.below(2) != 0 {
        return Event::Sends(caller, piece);
    }
    match kind {
        n if n < 8 => Event::Connects(draws.draw()),
        n if n < 30 => Event::Sends(caller, piece),
        n if n < 44 => Event::Takes(caller, piece),
        n if n < 46 => Event::Ends(caller),
        n if n < 48 => Event::Resets(caller),
        n if n < 57 => draw_time(draws, plan),
        n if n < 78 => Event::Turn(caller),
        n if n < 83 => Event::Wait(caller),
        n if n < 90 => Event::Slow(draws.below(8) == 0),
        n if n < 99 => Event::Settles,
        _ => draw_rare(draws),
    }
}

/// Time passes.
fn draw_time(draws: &mut Draws, plan: &Plan) -> Event {
    Event::Passes(if plan.is_slow {
        draws.one_of(&LONG_TIMES)
    } else {
        draws.one_of(&TIMES)
    })
}

/// One that comes seldom.
fn draw_rare(draws: &mut Draws) -> Event {
    match draws.below(8) {
        0 | 1 | 2 => Event::Descriptors(draws.below(12).saturating_add(1)),
        3 | 4 => Event::Descriptors(u64::MAX),
        5 if draws.below(2) == 0 => Event::Drains(draws.below(12_000)),
        _ => Event::GivesUp,
    }
}

/// So many events.
pub(crate) fn draw_events(
    alloc: Global,
    draws: &mut Draws,
    plan: &Plan,
    count: usize,
) -> Result<Vec<Event>, AllocError> {
    let mut events = Vec::with_capacity(alloc, count)?;
    for _ in 0..count {
        events.push(draw_event(draws, plan))?;
    }
    Ok(events)
}
