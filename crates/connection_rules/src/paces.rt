//! When a connection is late.
ghost use Rattle.std.specs.Prelude.{◌≡◌};
ghost use Rattle.connection_rules.specs.Paces as spec;

use crate::limits::Limits;

/// How many bytes of a body or of a reply have to move in time.
const LEAST: u64 = 61_440;

/// What a connection is doing.
#[derive(Clone, Copy, Debug, PartialEq, Eq)]
pub enum Stage {
    /// Nothing of the next request has come.
    Idle,
    Head,
    Body,
    Reply,
    /// It is over, and what its client still sends is dropped.
    Closing,
}

/// What a connection does, since when, and how many bytes have moved since then. Times are milliseconds of one clock.
#[derive(Clone, Copy, Debug, PartialEq, Eq)]
pub struct Pace {
    pub stage: Stage,
    pub since: u64,
    pub moved: u64,
}

impl Pace {
    /// The pace of a connection that begins now.
    pub fn new(now: u64) -> Pace
        ensures { result ≡ spec.begun now }
    {
        Pace {
            stage: Stage::Idle,
            since: now,
            moved: 0,
        }
    }

    /// Whether a step that left the connection in this stage began it anew: another head, body or reply than before. A reply is written, and all else is
    /// read; so a step that ends in a reply and has read began that reply, and one that ends elsewhere and has written ended a reply.
    fn begins(&self, stage: Stage, read: u64, written: u64) -> bool
        ensures { result ≡ spec.begins self.now stage read written }
    {
        let other = if stage == Stage::Reply { read } else { written };
        stage != self.stage || other > 0
    }

    /// What the connection does after a step that left it in this stage, read and wrote so many bytes, and ended now.
    pub fn step(&mut self, stage: Stage, read: u64, written: u64, now: u64)
        ensures { self.new ≡ spec.stepped self.old stage read written now }
    {
        let moved = self.moved.saturating_add(read).saturating_add(written);
        let is_transfer = matches!(stage, Stage::Body | Stage::Reply);
        if self.begins(stage, read, written) || is_transfer && moved >= LEAST {
            *self = Pace {
                stage,
                since: now,
                moved: 0,
            };
        } else {
            self.moved = moved;
        }
    }

    /// Begins the time of its stage anew.
    pub fn begin_again(&mut self, now: u64)
        ensures { self.new ≡ record { stage = self.old.stage; since = now; moved = 0 } }
    {
        self.since = now;
        self.moved = 0;
    }

    /// How long the stage may last.
    fn limit(&self, limits: &Limits) -> u64
        ensures { result ≡ spec.limit_of limits.now self.now.stage }
    {
        match self.stage {
            Stage::Idle => limits.idle,
            Stage::Head => limits.head,
            Stage::Body => limits.transfer,
            Stage::Reply => limits.reply,
            Stage::Closing => limits.closing,
        }
    }

    /// How long it has left; nothing where it is late.
    pub fn left(&self, limits: &Limits, now: u64) -> u64
        ensures { result ≡ spec.left_of limits.now self.now now }
    {
        self.limit(limits)
            .saturating_sub(now.saturating_sub(self.since))
    }

    /// Whether it is late: its stage has lasted as long as it may.
    pub fn is_late(&self, limits: &Limits, now: u64) -> bool
        ensures { result ≡ spec.is_late limits.now self.now now }
    {
        self.left(limits, now) == 0
    }
}
