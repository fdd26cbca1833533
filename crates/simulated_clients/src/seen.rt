//! What a run has come to: so a reader sees that it isn't a run in which nothing happens.

/// How often something was seen.
#[derive(Clone, Copy, Debug, PartialEq, Eq)]
pub struct Seen {
    pub turns: u64,
    pub accepted: u64,
    /// Connections that went for a place or a descriptor, and clients for which none could go.
    pub placed: u64,
    pub refused: u64,
    /// Accepts for which there was no descriptor.
    pub lacks: u64,
    pub late: u64,
    /// Bodies that came to wait for room, and connections that went to give room to bodies and to replies.
    pub waits: u64,
    pub bodies: u64,
    pub replies: u64,
    pub drains: u64,
    /// Connections that the overseeing thread asked for, calls of the system that failed, and how often others went on in the middle of a turn.
    pub given_up: u64,
    pub failed: u64,
    pub inners: u64,
}

impl Seen {
    /// Nothing was.
    pub fn new() -> Seen {
        Seen {
            turns: 0,
            accepted: 0,
            placed: 0,
            refused: 0,
            lacks: 0,
            late: 0,
            waits: 0,
            bodies: 0,
            replies: 0,
            drains: 0,
            given_up: 0,
            failed: 0,
            inners: 0,
        }
    }

    /// What was seen in two runs.
    pub fn and(&self, other: &Seen) -> Seen {
        Seen {
            turns: self.turns.saturating_add(other.turns),
            accepted: self.accepted.saturating_add(other.accepted),
            placed: self.placed.saturating_add(other.placed),
            refused: self.refused.saturating_add(other.refused),
            lacks: self.lacks.saturating_add(other.lacks),
            late: self.late.saturating_add(other.late),
            waits: self.waits.saturating_add(other.waits),
            bodies: self.bodies.saturating_add(other.bodies),
            replies: self.replies.saturating_add(other.replies),
            drains: self.drains.saturating_add(other.drains),
            given_up: self.given_up.saturating_add(other.given_up),
            failed: self.failed.saturating_add(other.failed),
            inners: self.inners.saturating_add(other.inners),
        }
    }
}
