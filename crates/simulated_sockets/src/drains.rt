//! When a simulated node ends.
use crate::worlds::World;
use simulated_clients::{Fault, Whereabouts};

impl World {
    /// How many clients that were accepted have gone.
    fn gone(&self) -> u64 {
        let mut gone = 0_u64;
        for caller in &self.callers {
            if caller.whereabouts == Whereabouts::Gone {
                gone = gone.saturating_add(1);
            }
        }
        gone
    }

    /// Whether all clients have come and gone.
    fn are_gone(&self) -> bool {
        self.accepted >= self.plan.clients && self.gone() >= self.plan.clients
    }

    /// Whether the node may be over: all clients have come and gone, or it has drained.
    fn may_be_over(&self) -> bool {
        match self.drained_by {
            Some(by) => self.now >= by || self.open() == 0,
            None => self.are_gone(),
        }
    }

    /// Whether it has to be, a few turns later at most.
    pub fn must_be_over(&self) -> bool {
        let is_drained = match self.drained_by {
            Some(by) => self.now >= by.saturating_add(self.look()) || self.open() == 0,
            None => false,
        };
        is_drained || self.are_gone()
    }

    /// The node is over: so it has to be.
    pub fn end_all(&mut self) {
        if !self.may_be_over() {
            self.blame(Fault::EndsTooEarly);
        }
        self.is_over = true;
    }

    /// A connection is asked for, since a file finds no descriptor.
    pub fn want_descriptor(&mut self) {
        self.wanted = self.wanted.saturating_add(1);
        self.seen.given_up = self.seen.given_up.saturating_add(1);
    }

    /// The node begins to drain, unless it drains already: the program asks it once, and a second signal ends it. Answers until when.
    pub fn drain(&mut self, milliseconds: u64) -> Option<u64> {
        if self.drained_by.is_some() {
            return None;
        }
        let by = self.now.saturating_add(milliseconds);
        self.seen.drains = self.seen.drains.saturating_add(1);
        self.drained_by = Some(by);
        Some(by)
    }
}
