//! What the set of a worker waits for of a client's socket.
use crate::callers::{Caller, Doing};
use worker_connections::{Interest, Next};

/// Which set waits for a socket, under which place, and for what.
#[derive(Clone, Copy, Debug, PartialEq, Eq)]
pub struct Watch {
    pub set: usize,
    pub place: usize,
    pub interest: Interest,
}

impl Caller {
    /// Whether a set waits for its socket.
    pub fn is_watched_by(&self, set: usize) -> bool {
        match self.watch {
            Some(watch) => watch.set == set,
            None => false,
        }
    }

    /// Whether it has this place in this set.
    pub fn has_place(&self, other: &Watch) -> bool {
        match self.watch {
            Some(watch) => watch.set == other.set && watch.place == other.place,
            None => false,
        }
    }

    /// Its place, if this set tells of it.
    pub fn told_by(&self, set: usize) -> Option<usize> {
        let watch = self.watch?;
        if watch.set == set && self.is_open() && self.is_ready(watch.interest) {
            Some(watch.place)
        } else {
            None
        }
    }

    /// It is waited for now: what a thread made of it is noted, and a body that waited for room goes on.
    pub fn heed(&mut self, interest: Interest, now: u64) {
        match self.doing {
            Doing::Made(step) => self.note(&step, step.answers, now),
            Doing::ForRoom(_) => {
                self.go_on(interest, now);
                self.is_told = true;
            }
            _ => {}
        }
    }

    /// What it is waited for, as its last step said.
    pub fn wants(&self) -> Option<Interest> {
        match self.doing {
            Doing::Waits(interest) => Some(interest),
            Doing::Closes => Some(Interest::Read),
            Doing::ForRoom(_) | Doing::Away | Doing::Made(_) | Doing::Over => None,
        }
    }

    /// Whether its last step ends it: also the one that a thread made, of which its worker hasn't taken note.
    pub fn is_over(&self) -> bool {
        match self.doing {
            Doing::Made(step) => step.next == Next::Ends || step.next == Next::Leaves,
            Doing::Over => true,
            _ => false,
        }
    }
}
