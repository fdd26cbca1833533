//! What docs/WIRE.md says of the connections of a node, looked at from outside.
use crate::worlds::{Ear, World};
use simulated_clients::{Caller, Doing, Fault, Whereabouts};

impl World {
    /// Whether the node drains.
    pub(crate) fn drains(&self) -> bool {
        self.drained_by.is_some()
    }

    /// Looks at all connections while the workers are at rest.
    pub fn judge_rest(&mut self) {
        for at in 0..self.callers.len() {
            if let Some(caller) = self.caller(at) {
                if let Some(fault) = self.fault_of(&caller) {
                    self.blame(fault);
                }
            }
        }
        if self.open() > self.plan.places {
            self.blame(Fault::TooManyPlaces);
        }
        self.judge_ears();
        self.judge_rooms();
        self.judge_waiters();
    }

    /// Whether clients that come are accepted.
    fn may_come(&self) -> bool {
        self.accepted < self.plan.clients && !self.drains() && self.descriptors > 0
    }

    /// Whether a set waits for clients, or refused to of late.
    fn is_heard(&self, ear: &Ear) -> bool {
        let refused = match ear.unheard {
            Some(then) => self.now.saturating_sub(then) <= self.look(),
            None => false,
        };
        ear.listens || refused
    }

    /// Looks at the sets: each waits for clients, unless none is to come.
    fn judge_ears(&mut self) {
        if self.may_come() && !self.ears.iter().all(|ear| self.is_heard(ear)) {
            self.blame(Fault::NotAccepted);
        }
    }

    /// What is wrong with a client while the workers are at rest.
    fn fault_of(&self, caller: &Caller) -> Option<Fault> {
        match caller.whereabouts {
            Whereabouts::Gone => return None,
            Whereabouts::Accepted => return Some(Fault::NewcomerWaits),
            Whereabouts::Comes => {
                let is_heard = self.ears.iter().any(|ear| ear.listens);
                return if self.may_come() && is_heard {
                    Some(Fault::NotAccepted)
                } else {
                    None
                };
            }
            Whereabouts::Begun => {}
        }
        if caller.is_over() || matches!(caller.doing, Doing::Made(_)) {
            return Some(Fault::NotHeard);
        }
        if caller.watch.map(|watch| watch.interest) != caller.wants() {
            return Some(Fault::NotWaitedFor);
        }
        if caller.doing == Doing::Closes && !caller.is_shut {
            return Some(Fault::InputIsReadFirst);
        }
        if caller.is_late_by(self.look(), &self.limits, self.now) {
            return Some(Fault::StaysTooLong);
        }
        if self.drains() && caller.is_idle() {
            return Some(Fault::IdleStays);
        }
        None
    }
}
