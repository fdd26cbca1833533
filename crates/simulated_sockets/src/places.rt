//! What docs/WIRE.md says of a connection that goes for a place or a descriptor, and of a client for which none goes.
use crate::worlds::World;
use simulated_clients::{Caller, Fault, IDLE};

impl World {
    /// Whether a place or a descriptor is wanted for which no connection has gone: whatever goes now may go for that.
    pub(crate) fn wants_place(&self) -> bool {
        self.given < self.wanted
    }

    /// Looks at a client that is cut before it has a connection: one that isn't served, or for which no place could be had.
    pub(crate) fn judge_refusal(&mut self, caller: &Caller) {
        if caller.is_refused || self.drains() {
            return;
        }
        self.seen.refused = self.seen.refused.saturating_add(1);
        if self.open() <= self.plan.places {
            self.blame(Fault::CutBeforeItsTime);
        }
        let mut may_go = false;
        for other in &self.callers {
            may_go = may_go || self.is_known_before(other, caller);
        }
        if may_go {
            self.blame(Fault::CutThoughOneMayGo);
        }
    }

    /// Since when each worker has looked through its connections.
    fn looked(&self) -> u64 {
        self.settled.saturating_sub(self.look())
    }

    /// Whether a worker has said by now what a connection has to lose: that has been so for as long as may pass until then, so it isn't new.
    fn is_known(&self, caller: &Caller) -> bool {
        let is_old = caller.ranked < self.looked();
        caller.is_begun() && is_old
    }

    /// Whether a connection may go for this newcomer: it has been known for as long, or its worker said so as it came, before the newcomer did, and nothing has
    /// changed since.
    fn is_known_before(&self, caller: &Caller, newcomer: &Caller) -> bool {
        let is_same = caller.ranked == caller.began && caller.watch.is_some();
        let is_first = caller.begun < newcomer.order;
        let is_there = self.is_known(caller) || caller.is_begun() && is_same && is_first;
        is_there && !caller.may_move(self.looked())
    }

    /// Looks at a connection that goes for a place or a descriptor.
    pub(crate) fn judge_place(&mut self, caller: &Caller) {
        if !self.wants_place() {
            let is_wanted = self.wanted > 0;
            self.blame(if is_wanted {
                Fault::MoreGoThanAreWanted
            } else {
                Fault::CutBeforeItsTime
            });
        }
        self.given = self.given.saturating_add(1);
        if caller.does_move(self.now) {
            self.blame(Fault::ReplyMoves);
        }
        let mut has_less = caller.loses() >= IDLE && caller.is_crowded(&self.callers, self.now);
        for other in &self.callers {
            has_less = has_less || self.goes_before(other, caller);
        }
        if has_less {
            self.blame(Fault::AnotherHasLessToLose);
        }
    }

    /// Whether one connection has less to lose than another, as its worker has known for so long that it said so.
    fn goes_before(&self, one: &Caller, other: &Caller) -> bool {
        if !self.is_known(one) || one.may_move(self.looked()) {
            return false;
        }
        let (loses, other_loses) = (one.loses(), other.least_lost(&self.callers, self.now));
        let has_as_much = loses == other_loses && self.is_known(other);
        loses < other_loses || has_as_much && one.counts_less(other, self.now)
    }
}
