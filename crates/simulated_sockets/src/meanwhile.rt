//! What goes on in the middle of a worker's turn.
use crate::worlds::World;
use std::sync::Mutex;

/// Of how many looks at the clock one lets others go on.
const LOOKS: u64 = 48;

/// How many workers there are at most.
pub(crate) const WORKERS: u64 = 4;

/// Something that happens in the middle of a turn.
#[derive(Clone, Copy, Debug, PartialEq, Eq)]
pub enum Inner {
    /// A worker takes a turn, or waits and doesn't do yet what that told. The workers that may are numbered from 0 on.
    Turn(usize, bool),
    /// A thread that may wait makes a step, which fails or doesn't.
    Slow(bool),
    /// The node has so many milliseconds to come to its end.
    Drain(u64),
}

/// The workers and threads that may go on in the middle of a worker's turn, and the node.
pub trait Others {
    /// One of them does what is named, if it is there.
    fn happen(&self, inner: Inner);
}

impl World {
    /// What happens in the middle of a turn now, if anything does.
    fn draw_inner(&mut self) -> Option<Inner> {
        if self.is_quiet || self.is_over || self.inners == 0 || self.draws.below(LOOKS) != 0 {
            return None;
        }
        self.inners = self.inners.saturating_sub(1);
        self.seen.inners = self.seen.inners.saturating_add(1);
        let fails = self.draws.below(8) == 0;
        Some(match self.draws.below(16) {
            n if n < 11 => Inner::Turn(self.draws.below(WORKERS) as usize, !fails),
            15 if self.plan.seed % 8 == 0 && fails => Inner::Drain(self.draws.below(12_000)),
            _ => Inner::Slow(fails),
        })
    }
}

/// Others may go on now, before what comes next. The world isn't locked meanwhile.
pub(crate) fn let_others_go(world: &Mutex<World>, others: &impl Others) {
    let inner = match world.try_lock() {
        Some(mut world) => world.draw_inner(),
        None => None,
    };
    if let Some(inner) = inner {
        others.happen(inner);
    }
}
