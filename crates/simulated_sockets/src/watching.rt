//! What the set of a worker does with the sockets of clients, and what is seen by it.
use crate::worlds::World;
use simulated_clients::{Bytes, Caller, Doing, Fault, Moved, Watch, Whereabouts};

impl World {
    /// A set waits for clients from now on, or no longer. If it refuses to wait, that is noted.
    pub(crate) fn hear(&mut self, set: usize, listens: bool) -> bool {
        let (refuses, now) = (listens && self.fails(), self.now);
        match self.ears.get_mut(set) {
            Some(ear) if refuses => {
                ear.unheard = Some(now);
                false
            }
            // The system adds only what isn't there, and removes only what is.
            Some(ear) if ear.listens != listens => {
                ear.listens = listens;
                true
            }
            _ => false,
        }
    }

    /// Whether the socket of a client is in a set.
    fn is_watched(&self, at: usize) -> bool {
        match self.callers.get(at) {
            Some(caller) => caller.watch.is_some(),
            None => false,
        }
    }

    /// Whether a call fails without which the connection of a client can't go on: so it has to end.
    fn breaks(&mut self, at: usize) -> bool {
        let fails = self.fails();
        if fails {
            if let Some(caller) = self.callers.get_mut(at) {
                caller.is_failed = true;
            }
        }
        fails
    }

    /// A set waits for a socket from now on. Answers whether it does.
    pub(crate) fn add(&mut self, at: usize, watch: Watch) -> bool {
        let now = self.now;
        if self.is_watched(at) || self.breaks(at) {
            return false;
        }
        let is_taken = self
            .callers
            .iter()
            .any(|caller| caller.is_open() && caller.has_place(&watch));
        if is_taken {
            self.blame(Fault::PlaceIsTaken);
        }
        if let Some(caller) = self.callers.get_mut(at) {
            caller.heed(watch.interest, now);
            caller.watch = Some(watch);
            caller.worker = Some(watch.set);
        }
        self.release_first();
        // One a place, and one newcomer a worker.
        let most = self.plan.places.saturating_add(self.plan.workers as u64);
        if self.open() > most {
            self.blame(Fault::TooManyPlaces);
        }
        true
    }

    /// It waits for something else of a socket. Answers whether it does.
    pub(crate) fn change(&mut self, at: usize, watch: Watch) -> bool {
        if !self.is_watched(at) || self.breaks(at) {
            return false;
        }
        if let Some(caller) = self.callers.get_mut(at) {
            caller.watch = Some(watch);
        }
        true
    }

    /// It waits for a socket no longer: another thread gets its connection now, or its body waits for room. Answers whether that was done.
    pub(crate) fn remove(&mut self, at: usize) -> bool {
        let (now, breaks) = (self.now, !self.is_watched(at) || self.breaks(at));
        let Some(caller) = self.callers.get_mut(at) else {
            return false;
        };
        match caller.doing {
            Doing::Away => self.errands = self.errands.saturating_add(1),
            Doing::Waits(_) if caller.holds.is_body() => {
                caller.doing = Doing::ForRoom(now);
                self.seen.waits = self.seen.waits.saturating_add(1);
            }
            _ => self.blame(Fault::NotWaitedFor),
        }
        if !breaks {
            if let Some(caller) = self.callers.get_mut(at) {
                caller.watch = None;
            }
        }
        !breaks
    }

    /// Reads what a client sends that is over.
    pub(crate) fn drop_input(&mut self, at: usize, most: u64) -> Moved {
        let now = self.now;
        let moved = self.read(at, most);
        let Some(caller) = self.callers.get_mut(at) else {
            return Moved::Failed;
        };
        let is_shut = caller.is_shut && caller.doing == Doing::Closes;
        let is_told = caller.is_told;
        if let Moved::Bytes(count) = moved {
            if count > 0 {
                caller.active = now;
                caller.ranked = now;
            }
        }
        if !is_shut {
            self.blame(Fault::InputIsReadFirst);
        } else if !is_told {
            self.blame(Fault::StepOutOfTurn);
        }
        moved
    }

    /// Closes the node's side of a client's socket. Answers whether that was done.
    pub(crate) fn shut_down(&mut self, at: usize) -> bool {
        if self.breaks(at) {
            return false;
        }
        match self.callers.get_mut(at) {
            Some(caller) => {
                caller.is_shut = !caller.is_reset;
                caller.is_shut
            }
            None => false,
        }
    }

    /// Closes a client's socket.
    pub(crate) fn close(&mut self, at: usize) {
        self.judge_end(at);
        if let Some(caller) = self.callers.get_mut(at) {
            caller.whereabouts = Whereabouts::Gone;
            caller.watch = None;
        }
        self.release_first();
    }
}
