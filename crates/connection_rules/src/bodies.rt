//! How many bytes the bodies of a node hold.
ghost use Rattle.std.specs.Prelude.{◌≡◌, ◌≤◌, None};
ghost use Rattle.connection_rules.specs.Holding as spec;

use std::marker::Model;

/// How many bytes all bodies but the first hold at most: 48 MiB. With the first one, which has at most 16 MiB, that is 64 MiB.
const OTHERS: u64 = 50_331_648;

/// How many bytes a step of a connection takes at most.
const STEP: u64 = 262_144;

/// How many bytes the bodies of a node hold that weren't answered yet. Each is known by the number of its connection. One of them, the first, may always go on, so that it comes to its end whatever the
/// others hold. Each other may only if there is room for what its step may take, and that room is kept for it until the step has ended.
#[derive(Drop)]
pub struct Bodies {
    /// What the others hold, with what is kept for their steps.
    others: u64,
    /// The number of the first one's connection.
    first: Option<u64>,
}

impl Model for Bodies {
    ghost use Rattle.std.specs.Prelude.{◌≤◌};
    ghost use Rattle.connection_rules.specs.Holding.{HeldBodies};

    ghost Value = { HeldBodies };

    ghost view = { λ bodies. record { others = bodies.others; first = bodies.first } };

    ghost invariant = { λ bodies. bodies.others ≤ 50331648 };
}

impl Bodies {
    /// There are none.
    pub fn new() -> Bodies
        ensures { result ≡ spec.no_bodies }
    {
        Bodies {
            others: 0,
            first: None,
        }
    }

    // The body of a connection, which holds so much, is the first where none is.
    fn appoint(&mut self, number: u64, held: u64)
        ensures { self.new ≡ spec.with_first number held self.old }
    {
        if self.first.is_none() {
            self.others = self.others.saturating_sub(held);
            self.first = Some(number);
        }
    }

    /// The number of the first one's connection, if one is the first.
    pub fn first(&self) -> Option<u64>
        ensures { result ≡ self.now.first }
    {
        self.first
    }

    /// How many bodies may take a step now, at least one.
    pub fn steps(&self) -> u64
        ensures { 1 ≤ result }
    {
        (OTHERS.saturating_sub(self.others) / STEP).max(1)
    }

    /// Whether the body of a connection, which holds so much, may take a step. If it may, the room for that is kept.
    pub fn reserve(&mut self, number: u64, held: u64) -> bool
        ensures room { result ≡ spec.has_room number (spec.with_first number held self.old) }
        ensures kept { self.new ≡ spec.reserved number (spec.with_first number held self.old) }
    {
        self.appoint(number, held);
        if self.first == Some(number) {
            return true;
        }
        if self.others + STEP > OTHERS {
            return false;
        }
        self.others += STEP;
        true
    }

    /// The body of a connection has taken a step for which room was kept: it held so much before, and now it holds so much.
    pub fn settle(&mut self, number: u64, held: u64, after: u64)
        ensures { self.new ≡ spec.settled number held after self.old }
    {
        if self.first == Some(number) {
            return;
        }
        let kept = held.saturating_add(STEP);
        self.others = self
            .others
            .saturating_sub(kept)
            .saturating_add(after.min(kept))
            .min(OTHERS);
    }

    /// The body of a connection, which held so much, was answered, or its connection ended.
    pub fn leave(&mut self, number: u64, held: u64)
        ensures { self.new ≡ spec.without number held self.old }
    {
        if self.first == Some(number) {
            self.first = None;
        } else {
            self.others = self.others.saturating_sub(held);
        }
    }
}
