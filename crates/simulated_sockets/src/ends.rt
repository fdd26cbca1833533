//! What docs/WIRE.md says of the end of a connection: whether it may, and whether another one goes first.
use crate::rooms::REPLIES;
use crate::worlds::World;
use simulated_clients::{Caller, Doing};

/// How many milliseconds may pass between a worker's last turn and the rest of all, at most.
pub(crate) const LAST_TURNS: u64 = 200;

impl World {
    /// Within how many milliseconds each worker looks through its connections: its last look was within a second of its last wait, which lasts a second at most.
    pub(crate) fn look(&self) -> u64 {
        self.limits
            .sweep
            .saturating_mul(2)
            .saturating_add(LAST_TURNS)
    }

    /// Whether a connection may end, whatever others do.
    fn may_end(&self, caller: &Caller) -> bool {
        let has_no_time = match self.drained_by {
            Some(by) => self.now >= by || caller.is_idle(),
            None => false,
        };
        let is_at_end = caller.is_reset || caller.is_ended && caller.incoming == 0;
        let is_closed = caller.doing == Doing::Closes && is_at_end;
        has_no_time || is_closed || caller.is_failed || caller.is_over()
    }

    /// Looks at the end of a connection, or of a client without one.
    pub(crate) fn judge_end(&mut self, at: usize) {
        let Some(caller) = self.caller(at) else {
            return;
        };
        if self.is_over || self.may_end(&caller) {
            return;
        }
        if !caller.is_begun() {
            self.judge_refusal(&caller);
        } else if caller.is_late_by(0, &self.limits, self.now) {
            self.seen.late = self.seen.late.saturating_add(1);
        } else if self.gives_reply(&caller) && self.replies().max(self.most_replies) > REPLIES {
            self.judge_room(&caller);
            self.seen.replies = self.seen.replies.saturating_add(1);
        } else if self.gives_body(&caller) && self.bodies_to_go > 0 {
            self.judge_room(&caller);
            self.take_body();
            self.seen.bodies = self.seen.bodies.saturating_add(1);
        } else {
            self.judge_place(&caller);
            self.seen.placed = self.seen.placed.saturating_add(1);
        }
    }

    /// The workers have looked through their connections, and are at rest: what was asked for was given, or nobody had it.
    pub fn settle(&mut self) {
        self.settled = self.now;
        self.wanted = 0;
        self.given = 0;
        if self.bodies_to_go > 0 {
            self.bodies_to_go = 0;
            self.wanted_room = 0;
        }
        self.note_rooms();
    }
}
