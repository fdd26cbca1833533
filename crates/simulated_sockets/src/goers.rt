//! What docs/WIRE.md says of a connection that goes to give room to bodies or to replies.
use crate::worlds::World;
use simulated_clients::{Caller, Doing, Fault};
use worker_connections::Holding;

/// For how many milliseconds a word of a worker is known to be no older than what is counted of a connection.
const FRESH: u64 = 1_000;

impl World {
    /// A body has gone to give room, unless it went for a place.
    pub(crate) fn take_body(&mut self) {
        self.given_room = self.now;
        if !self.wants_place() {
            self.bodies_to_go = self.bodies_to_go.saturating_sub(1);
        }
    }

    /// Whether a connection may go to give room to bodies: it has lasted as long as one may wait. One
    /// that waits may be the one, unless nothing of it has come.
    pub(crate) fn gives_body(&self, caller: &Caller) -> bool {
        let is_old = self.now.saturating_sub(caller.holds_since) >= self.limits.wait;
        let waits_empty = matches!(caller.doing, Doing::ForRoom(_)) && caller.held() == 0;
        caller.holds.is_body() && is_old && !waits_empty && !caller.is_away()
    }

    /// Whether a connection may go to give room to replies.
    pub(crate) fn gives_reply(&self, caller: &Caller) -> bool {
        matches!(caller.holds, Holding::Reply(_)) && !caller.is_away()
    }

    /// Looks at a connection that goes to give room: none that may go moved less of late.
    pub(crate) fn judge_room(&mut self, caller: &Caller) {
        if self.wants_place() || self.now.saturating_sub(self.settled) > FRESH {
            return;
        }
        let least = caller.flow.least(self.now);
        let mut moved_less = false;
        for other in &self.callers {
            moved_less = moved_less
                || self.gives_as_well(other, caller) && self.goes_first(other, least);
        }
        if moved_less {
            self.blame(Fault::AnotherMovedLess);
        }
    }

    /// Whether a connection moved less than so many bytes of late, or as many at most if it is the one that may always go on.
    fn goes_first(&self, caller: &Caller, least: u64) -> bool {
        let most = caller.flow.most(self.now);
        most < least || most == least && self.is_first(caller)
    }

    /// Whether a body has waited for room for so long that another one goes.
    fn waits_long(&self, at: usize) -> bool {
        match self.caller(at) {
            Some(caller) => match caller.doing {
                Doing::ForRoom(since) => caller.is_begun()
                    && self.now.saturating_sub(since) >= self.limits.wait,
                _ => false,
            },
            None => false,
        }
    }

    /// Whether a connection could go for another, and its worker has said so by now.
    fn gives_as_well(&self, one: &Caller, other: &Caller) -> bool {
        let look = self.look().saturating_mul(2);
        let body = self.limits.wait.saturating_add(look);
        let held_for = self.now.saturating_sub(one.holds_since);
        let as_body = other.holds.is_body()
            && self.gives_body(one)
            && one.held() > 0
            && held_for > body;
        let as_reply = !other.holds.is_body() && self.gives_reply(one) && held_for > look;
        one.is_begun() && (as_body || as_reply)
    }

    /// A body has waited for so long that one may go to give room, and none was to go for as long.
    pub(crate) fn note_rooms(&mut self) {
        let (now, wait) = (self.now, self.limits.wait);
        let waits = (0..self.callers.len()).any(|at| self.waits_long(at));
        if waits && now.saturating_sub(self.wanted_room) >= wait {
            self.wanted_room = now;
            self.bodies_to_go = self.bodies_to_go.saturating_add(1);
        }
    }

    /// Whether a body waited long before the last rest, and one that may go was there as long.
    fn wants_body(&self) -> bool {
        let then = self.settled;
        let long = self.limits.wait.saturating_add(self.look());
        let since = then.saturating_sub(long);
        let waits = self.callers.iter().any(|caller| match caller.doing {
            Doing::ForRoom(begun) => caller.is_begun() && begun < since,
            _ => false,
        });
        let may_go = self.callers.iter().any(|caller| caller.is_begun()
            && self.gives_body(caller)
            && caller.held() > 0
            && caller.holds_since < since);
        waits && may_go && self.given_room < since
    }

    /// Looks at bodies that wait for room: once one has waited for so long, another one goes.
    pub(crate) fn judge_waiters(&mut self) {
        let is_later = self.now.saturating_sub(self.settled) > self.look();
        if is_later && self.wants_body() {
            self.blame(Fault::NobodyGivesRoom);
        }
    }
}
