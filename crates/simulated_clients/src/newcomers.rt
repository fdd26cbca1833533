//! What docs/WIRE.md says of connections that are new, and of replies that move, where a place is needed.
use crate::callers::Caller;
use crate::standing::{BUSY, CLOSES, CROWDING, NEW, UNANSWERED};
use connection_rules::Stage;

/// How many milliseconds may pass in the middle of a turn, in which others take theirs, between what a worker does and the time that it notes.
const MOMENT: u64 = 60;

/// With so many bytes that moved in 10 seconds a reply goes for no place.
const MOVES: u64 = 262_144;

/// For how many milliseconds a connection is new.
const YOUNG: u64 = 1_000;

impl Caller {
    /// Whether it is a reply that moved so much that it goes for no place.
    pub fn does_move(&self, now: u64) -> bool {
        self.stage == Stage::Reply && self.flow.least(now) >= MOVES
    }

    /// Whether it is one that may have moved so much when its worker looked at it last.
    pub fn may_move(&self, now: u64) -> bool {
        self.stage == Stage::Reply && self.flow.most(now) >= MOVES
    }

    /// Whether it came less than so many milliseconds ago, and none of its requests was answered or is with a thread.
    fn is_new(&self, young: u64, now: u64) -> bool {
        self.loses() == UNANSWERED && now.saturating_sub(self.began) < young
    }

    /// Whether more than a quarter of the connections of its worker came less than so many milliseconds ago, and weren't answered.
    fn is_crowded_by(&self, all: &[Caller], young: u64, now: u64) -> bool {
        let (mut count, mut new) = (0_u64, 0_u64);
        for other in all {
            if other.is_begun() && other.worker == self.worker {
                count = count.saturating_add(1);
                new = new.saturating_add(if other.is_new(young, now) { 1 } else { 0 });
            }
        }
        new.saturating_mul(4) > count
    }

    /// Whether new ones surely have more than a quarter of the places of its worker.
    pub fn is_crowded(&self, all: &[Caller], now: u64) -> bool {
        self.is_crowded_by(all, YOUNG, now)
    }

    /// The least that it has to lose if it goes now, as its worker saw a moment ago.
    pub fn least_lost(&self, all: &[Caller], now: u64) -> u64 {
        let longer = YOUNG.saturating_add(MOMENT);
        if self.loses() == CLOSES || !self.is_new(longer, now) {
            return self.loses();
        }
        if !self.is_new(YOUNG, now) {
            return UNANSWERED;
        }
        if self.is_crowded_by(all, longer, now) {
            CROWDING
        } else {
            NEW
        }
    }

    /// Whether less counts for it than for another that has as much to lose: bytes that moved of late, or the time at which they did last.
    pub fn counts_less(&self, other: &Caller, now: u64) -> bool {
        if self.loses() == BUSY {
            return self.flow.most(now) < other.flow.least(now);
        }
        self.active.saturating_add(MOMENT) < other.active
    }
}
