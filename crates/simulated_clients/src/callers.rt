//! A client of a simulated node: its socket, and what follows for its connection from docs/WIRE.md.
use crate::flows::Flow;
use crate::laps::Lap;
use crate::watches::Watch;
use connection_rules::Stage;
use worker_connections::{Holding, Interest, Step};

/// How many bytes the system holds for a client that takes nothing yet.
const ROOM: u64 = 65_536;

/// How far a client has come.
#[derive(Clone, Copy, Debug, PartialEq, Eq)]
pub enum Whereabouts {
    /// It waits to be accepted.
    Comes,
    /// It was accepted, and its connection hasn't begun.
    Accepted,
    /// Its connection goes on.
    Begun,
    /// Its socket is closed.
    Gone,
}

/// What its connection is doing, as its last step said.
#[derive(Clone, Copy, Debug, PartialEq, Eq)]
pub enum Doing {
    Waits(Interest),
    /// Its body waits for room, since this time.
    ForRoom(u64),
    /// A thread that may wait has it.
    Away,
    /// That thread has made this step, and its worker hasn't taken note.
    Made(Step),
    /// It is over, and what its client still sends is dropped.
    Closes,
    /// Its step ended it.
    Over,
}

/// What a call of a socket came to.
#[derive(Clone, Copy, Debug, PartialEq, Eq)]
pub enum Moved {
    Bytes(u64),
    WouldWait,
    Failed,
}

/// A client.
#[derive(Clone, Copy, Debug, PartialEq, Eq)]
pub struct Caller {
    /// What it asks for is drawn from this.
    pub seed: u64,
    pub whereabouts: Whereabouts,
    /// How many clients had been accepted or had begun when it was accepted, and when it began.
    pub order: u64,
    pub begun: u64,
    /// What it has sent that wasn't read, and how many bytes it would take.
    pub incoming: u64,
    pub room: u64,
    pub is_ended: bool,
    pub is_reset: bool,
    /// Whether the node has closed its side, or refused it, and whether a call of the system failed without which it can't go on.
    pub is_shut: bool,
    pub is_refused: bool,
    pub is_failed: bool,
    pub watch: Option<Watch>,
    /// The set of its worker, which it keeps.
    pub worker: Option<usize>,
    /// Whether its worker was told of it, or of room for its body, and has made no step since.
    pub is_told: bool,
    pub doing: Doing,
    pub stage: Stage,
    /// The time of its stage.
    pub lap: Lap,
    pub is_answered: bool,
    /// When it began, when bytes moved last, and when anything changed by which it is ranked.
    pub began: u64,
    pub active: u64,
    pub ranked: u64,
    pub flow: Flow,
    pub holds: Holding,
    /// Since when it holds that.
    pub holds_since: u64,
}

impl Caller {
    /// One that comes, and hasn't sent anything.
    pub fn new(seed: u64) -> Caller {
        Caller {
            seed,
            whereabouts: Whereabouts::Comes,
            order: 0,
            begun: 0,
            incoming: 0,
            room: ROOM,
            is_ended: false,
            is_reset: false,
            is_shut: false,
            is_refused: false,
            is_failed: false,
            watch: None,
            worker: None,
            is_told: false,
            doing: Doing::Waits(Interest::Read),
            stage: Stage::Idle,
            lap: Lap::new(0),
            is_answered: false,
            began: 0,
            active: 0,
            ranked: 0,
            flow: Flow::new(),
            holds: Holding::Nothing,
            holds_since: 0,
        }
    }

    /// Its connection begins now.
    pub fn begin(&mut self, now: u64) {
        self.whereabouts = Whereabouts::Begun;
        self.lap = Lap::new(now);
        self.began = now;
        self.active = now;
        self.ranked = now;
    }

    /// Reads at most so many bytes of what it sent.
    pub fn read(&mut self, most: u64) -> Moved {
        if self.is_reset {
            return Moved::Failed;
        }
        if self.incoming == 0 && !self.is_ended {
            return Moved::WouldWait;
        }
        let count = self.incoming.min(most);
        self.incoming = self.incoming.saturating_sub(count);
        Moved::Bytes(count)
    }

    /// Writes at most so many bytes to it.
    pub fn write(&mut self, most: u64) -> Moved {
        if self.is_reset {
            return Moved::Failed;
        }
        if self.room == 0 {
            return Moved::WouldWait;
        }
        let count = self.room.min(most);
        self.room = self.room.saturating_sub(count);
        Moved::Bytes(count)
    }

    /// Whether a set that waits for this of its socket is told.
    pub fn is_ready(&self, interest: Interest) -> bool {
        let reads = self.incoming > 0 || self.is_ended;
        let writes = self.room > 0;
        self.is_reset
            || match interest {
                Interest::Read => reads,
                Interest::Write => writes,
                Interest::Either => reads || writes,
            }
    }

    /// Whether it can still do something.
    pub fn is_there(&self) -> bool {
        self.whereabouts != Whereabouts::Gone && !self.is_reset
    }

    /// Whether its connection is there.
    pub fn is_begun(&self) -> bool {
        self.whereabouts == Whereabouts::Begun
    }

    /// Whether it has a socket of the node.
    pub fn is_open(&self) -> bool {
        self.is_begun() || self.whereabouts == Whereabouts::Accepted
    }
}
