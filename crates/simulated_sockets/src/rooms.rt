//! What docs/WIRE.md says of the memory that bodies and replies hold.
use crate::worlds::World;
use simulated_clients::{Caller, Doing, FILE, FILES, Fault};
use worker_connections::Holding;

/// How many bytes all bodies but the first hold at most, and how many a step takes at most.
const BODIES: u64 = 50_331_648;

const STEP: u64 = 262_144;

/// How many bytes of files the replies hold at most.
pub(crate) const REPLIES: u64 = 268_435_456;

/// Which body may always go on, as far as that can be told from outside.
#[derive(Clone, Copy, Debug, PartialEq, Eq)]
pub(crate) enum First {
    Nobody,
    Known(usize),
    /// Others took turns in the middle of the one in which it came to be so.
    Unsure,
}

/// What the bodies hold together, the most and the least that one may hold which isn't counted, and whether one waits and one goes on.
#[derive(Clone, Copy, Debug, PartialEq, Eq)]
struct Bodies {
    all: u64,
    most: u64,
    waits: bool,
    goes_on: bool,
}

impl World {
    /// Whether the body of this client may always go on.
    pub(crate) fn is_first(&self, caller: &Caller) -> bool {
        match self.first {
            First::Known(at) => self.caller(at) == Some(*caller),
            First::Nobody | First::Unsure => false,
        }
    }

    /// The body that may always go on was answered, or its connection has ended, if that is so: then the next that goes on is the one.
    pub(crate) fn release_first(&mut self) {
        if let First::Known(at) = self.first {
            if !self.callers.get(at).is_some_and(|caller| caller.has_body()) {
                self.first = First::Nobody;
            }
        }
    }

    /// A body takes a step: it may always go on if no other one may.
    pub(crate) fn appoint(&mut self, at: usize) {
        if self.first == First::Nobody {
            self.first = if self.had_inners() {
                First::Unsure
            } else {
                First::Known(at)
            };
        }
    }

    /// What the bodies hold.
    fn bodies(&self) -> Bodies {
        let mut bodies = Bodies {
            all: 0,
            most: 0,
            waits: false,
            goes_on: false,
        };
        for caller in &self.callers {
            if caller.has_body() {
                let waits = matches!(caller.doing, Doing::ForRoom(_));
                bodies.all = bodies.all.saturating_add(caller.held());
                bodies.most = bodies.most.max(caller.held());
                bodies.waits = bodies.waits || waits;
                bodies.goes_on = bodies.goes_on || !waits;
            }
        }
        bodies
    }

    /// How many bytes the bodies hold at least and at most that have to fit.
    fn others(&self, bodies: &Bodies) -> (u64, u64) {
        match self.first {
            First::Known(at) => {
                let held = self.caller(at).map_or(0, |caller| caller.held());
                let others = bodies.all.saturating_sub(held);
                (others, others)
            }
            First::Nobody | First::Unsure => (bodies.all.saturating_sub(bodies.most), bodies.all),
        }
    }

    /// Looks at what bodies and replies hold.
    pub(crate) fn judge_rooms(&mut self) {
        self.release_first();
        let bodies = self.bodies();
        if !bodies.waits && !bodies.goes_on {
            self.first = First::Nobody;
        }
        let (least, most) = self.others(&bodies);
        if bodies.waits && (!bodies.goes_on || self.first == First::Nobody) {
            self.blame(Fault::NoBodyGoesOn);
        }
        if bodies.waits && most.saturating_add(STEP) <= BODIES {
            self.blame(Fault::WaitsThoughThereIsRoom);
        }
        if least > BODIES {
            self.blame(Fault::BodiesHoldTooMuch);
        }
        if self.replies() > REPLIES && self.has_old_reply() {
            self.blame(Fault::RepliesHoldTooMuch);
        }
    }

    /// Whether a reply has lasted for so long that it may have to go.
    fn has_old_reply(&self) -> bool {
        let before = self.now.saturating_sub(self.look().saturating_mul(2));
        self.callers.iter().any(|caller| caller.is_begun()
            && self.gives_reply(caller)
            && caller.holds_since < before)
    }

    /// A worker takes a turn that is in the middle of no other's: so all that connections hold is counted.
    pub fn begin_turn(&mut self) {
        self.most_replies = 0;
    }

    /// How many bytes of files all replies hold.
    pub(crate) fn replies(&self) -> u64 {
        let mut all = 0_u64;
        for file in 0..FILES {
            let mut held = 0_u64;
            for caller in &self.callers {
                if let Holding::Reply(reply) = caller.holds {
                    if caller.is_begun() && reply.file == [file; 20] {
                        held = held.saturating_add(reply.length);
                    }
                }
            }
            all = all.saturating_add(held.min(FILE));
        }
        all
    }
}
