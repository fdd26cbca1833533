//! What follows for a connection from its last step: its time, and what it has to lose.
use crate::callers::{Caller, Doing};
use crate::laps::Lap;
use connection_rules::{Limits, Stage};
use worker_connections::{Holding, Interest, Next, Step};

/// What a connection has to lose that closes, the least of all, in the order of docs/WIRE.md.
pub(crate) const CLOSES: u64 = 0;

/// What one has that wasn't answered in a second.
pub(crate) const UNANSWERED: u64 = 1;

/// What a new one has of which there are too many.
pub(crate) const CROWDING: u64 = 2;

/// What one has that was answered and is idle.
pub const IDLE: u64 = 3;

/// What one has that is in the middle of its next request or of a reply.
pub(crate) const BUSY: u64 = 4;

/// What a new one has.
pub(crate) const NEW: u64 = 5;

/// What one has of which a thread has a request.
pub(crate) const AT_WORK: u64 = 6;

impl Caller {
    /// A step of it ended now, in which a head, a body or a reply began, or none did.
    pub fn note(&mut self, step: &Step, begins: bool, now: u64) {
        let moved = step.read.saturating_add(step.written);
        let lost = self.loses();
        self.note_time(step, begins, moved, now);
        self.flow.add(moved, now);
        if moved > 0 {
            self.active = now;
        }
        self.is_answered = self.is_answered || step.answers;
        if begins {
            self.holds_since = now;
        }
        self.holds = step.holds;
        self.doing = match step.next {
            Next::Waits(interest) => Doing::Waits(interest),
            Next::Leaves => Doing::Away,
            Next::Closes => Doing::Closes,
            Next::Ends => Doing::Over,
        };
        if step.next == Next::Closes {
            self.stage = Stage::Closing;
            self.lap = Lap::new(now);
        }
        if moved > 0 || self.loses() != lost {
            self.ranked = now;
        }
    }

    /// Its time begins anew where a head, a body or a reply begins, or it waits for the next request; and with each piece of a body or of a reply. But requests
    /// that came together share one time for their replies: nothing was read between these.
    fn note_time(&mut self, step: &Step, begins: bool, moved: u64, now: u64) {
        let are_replies = self.stage == Stage::Reply && step.stage == Stage::Reply;
        let is_shared = are_replies && step.read == 0;
        let has_pieces = step.stage == Stage::Body || step.stage == Stage::Reply;
        self.lap.note(moved, begins && !is_shared, has_pieces, now);
        self.stage = step.stage;
    }

    /// Its body waited for room, and goes on now.
    pub(crate) fn go_on(&mut self, interest: Interest, now: u64) {
        self.doing = Doing::Waits(interest);
        self.lap = Lap::new(now);
    }

    /// How long its stage may last, if its time runs.
    fn limit(&self, limits: &Limits) -> Option<u64> {
        match self.doing {
            Doing::ForRoom(_) | Doing::Away | Doing::Made(_) => None,
            Doing::Closes => Some(limits.closing),
            Doing::Waits(_) | Doing::Over => Some(match self.stage {
                Stage::Idle => limits.idle,
                Stage::Head => limits.head,
                Stage::Body => limits.transfer,
                Stage::Reply => limits.reply,
                Stage::Closing => limits.closing,
            }),
        }
    }

    /// Whether its stage has lasted for so long beyond its limit.
    pub fn is_late_by(&self, more: u64, limits: &Limits, now: u64) -> bool {
        match self.limit(limits) {
            Some(limit) => now.saturating_sub(self.lap.since) >= limit.saturating_add(more),
            None => false,
        }
    }

    /// Whether it is between two requests, or before the first.
    pub fn is_idle(&self) -> bool {
        self.stage == Stage::Idle && matches!(self.doing, Doing::Waits(_))
    }

    /// Whether a thread that may wait has it, or its worker hasn't taken note that it is back.
    pub fn is_away(&self) -> bool {
        matches!(self.doing, Doing::Away | Doing::Made(_))
    }

    /// What it has to lose if it isn't new: if a place is needed, one with the least goes.
    pub fn loses(&self) -> u64 {
        if self.doing == Doing::Closes {
            CLOSES
        } else if self.is_away() {
            AT_WORK
        } else if !self.is_answered {
            UNANSWERED
        } else if self.stage == Stage::Idle {
            IDLE
        } else {
            BUSY
        }
    }

    /// Whether it has a body that counts. What a thread has of one that is gone does until it is back.
    pub fn has_body(&self) -> bool {
        let counts = self.is_begun() || self.doing == Doing::Away;
        counts && self.holds.is_body()
    }

    /// How many bytes of a body it holds.
    pub fn held(&self) -> u64 {
        match self.holds {
            Holding::Body(held) => held,
            Holding::Nothing | Holding::Reply(_) => 0,
        }
    }
}
