//! What the sets of a simulated node tell its workers.
use crate::worlds::World;
use socket_sets::{Ready, Told};

impl World {
    /// A set tells its worker that a wait was ended, or of a client.
    fn tell_others(&self, set: usize, ready: &mut Ready) {
        let Some(ear) = self.ears.get(set) else {
            return;
        };
        if ear.is_woken {
            ready.add(Told::Woken);
        }
        if ear.listens && self.first_to_come().is_some() {
            ready.add(Told::Client);
        }
    }

    /// A set tells its worker of sockets, of this one first.
    fn tell_sockets(&mut self, set: usize, first: usize, ready: &mut Ready) {
        let count = self.callers.len();
        let mut told = 0_usize;
        for offset in 0..count {
            let at = first.saturating_add(offset).checked_rem(count).unwrap_or(0);
            if told >= self.plan.told {
                return;
            }
            if let Some(caller) = self.callers.get_mut(at) {
                if let Some(place) = caller.told_by(set) {
                    ready.add(Told::Socket(place));
                    caller.is_told = true;
                    told = told.saturating_add(1);
                }
            }
        }
    }

    /// What a set tells its worker, in a drawn order.
    pub(crate) fn ready(&mut self, set: usize) -> Ready {
        self.seen.turns = self.seen.turns.saturating_add(1);
        self.stir();
        for caller in &mut self.callers {
            if caller.is_watched_by(set) {
                caller.is_told = false;
            }
        }
        let mut ready = Ready::new();
        let first = self.draws.below(self.callers.len() as u64) as usize;
        let are_sockets_first = self.draws.below(2) == 0;
        if are_sockets_first {
            self.tell_sockets(set, first, &mut ready);
        }
        self.tell_others(set, &mut ready);
        if !are_sockets_first {
            self.tell_sockets(set, first, &mut ready);
        }
        if let Some(ear) = self.ears.get_mut(set) {
            ear.has_told = ready.len() > 0;
        }
        ready
    }

    /// Whether a set has something to tell.
    fn is_ready(&self, set: usize) -> bool {
        let Some(ear) = self.ears.get(set) else {
            return false;
        };
        ear.is_woken
            || ear.listens && self.first_to_come().is_some()
            || self
                .callers
                .iter()
                .any(|caller| caller.told_by(set).is_some())
    }

    /// Whether a worker may take a turn: its set has something to tell, it has waited for as long as it waits at most, or its last turn came when the time of a
    /// drain was over: before it waits again, it looks whether the node is over.
    pub fn may_turn(&self, set: usize) -> bool {
        let is_awake = match self.ears.get(set) {
            Some(ear) => {
                ear.has_told
                    || ear.turned >= self.drained_by.unwrap_or(u64::MAX)
                    || self.now.saturating_sub(ear.turned) >= self.limits.sweep
            }
            None => false,
        };
        is_awake || self.is_ready(set)
    }

    /// A worker takes a turn now.
    pub fn note_turn(&mut self, set: usize) {
        if let Some(ear) = self.ears.get_mut(set) {
            ear.turned = self.now;
        }
    }
}
