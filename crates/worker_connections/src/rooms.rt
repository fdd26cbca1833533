//! How much the connections of a node hold together.
ghost use Rattle.std.specs.Prelude.{◌≡◌, ◌≤◌};
ghost use Rattle.connection_rules.specs.Holding as rooms;
ghost use Rattle.worker_connections.specs.Shares as spec;

use crate::steps::Holding;
use connection_rules::{Bodies, Replies};
use std::alloc::{AllocError, Global};
use std::marker::Model;

/// What the bodies and the replies of a node hold. Contracts see the bodies.
#[derive(Drop)]
pub struct Rooms {
    bodies: Bodies,
    replies: Replies,
}

impl Model for Rooms {
    ghost use Rattle.connection_rules.specs.Holding.{HeldBodies};

    ghost Value = { HeldBodies };

    ghost view = { λ r. r.bodies };
}

impl Rooms {
    /// They hold nothing.
    pub fn new(alloc: Global) -> Rooms
        ensures { result ≡ rooms.no_bodies }
    {
        Rooms {
            bodies: Bodies::new(),
            replies: Replies::new(alloc),
        }
    }

    /// The number of the connection whose body is the first, if one is.
    pub fn first_body(&self) -> Option<u64>
        ensures { result ≡ self.now.first }
    {
        self.bodies.first()
    }

    /// How many bodies may take a step now, at least one.
    pub fn steps(&self) -> u64
        ensures { 1 ≤ result }
    {
        self.bodies.steps()
    }

    /// Whether the body of a connection, which holds so much, may take a step. If it may, the room for that is kept.
    pub fn reserve(&mut self, number: u64, held: u64) -> bool
        ensures room { result ≡ rooms.has_room number (rooms.with_first number held self.old) }
        ensures kept { self.new ≡ rooms.reserved number (rooms.with_first number held self.old) }
    {
        self.bodies.reserve(number, held)
    }

    /// A connection held this, and now holds that: after a step for which room was kept, or after anything else. Without memory for a reply that is new it
    /// isn't counted, and what was held before isn't either.
    pub fn recount(
        &mut self,
        number: u64,
        held: Holding,
        holds: Holding,
        is_kept: bool,
    ) -> Result<(), AllocError>
        ensures { self.new ≡ spec.recounted number is_kept held holds self.old }
    {
        self.recount_body(number, held, holds, is_kept);
        self.recount_reply(held, holds)
    }

    fn recount_body(&mut self, number: u64, held: Holding, holds: Holding, is_kept: bool)
        ensures { self.new ≡ spec.recounted number is_kept held holds self.old }
    {
        let Holding::Body(before) = held else {
            return;
        };
        if !is_kept {
            self.bodies.leave(number, before);
            return;
        }
        if let Holding::Body(after) = holds {
            if before <= after {
                self.bodies.settle(number, before, after);
                return;
            }
        }
        self.bodies.settle(number, before, 0);
        self.bodies.leave(number, 0);
    }

    fn recount_reply(&mut self, held: Holding, holds: Holding) -> Result<(), AllocError>
        ensures { self.new ≡ self.old }
    {
        if held == holds {
            return Ok(());
        }
        if let Holding::Reply(reply) = held {
            self.replies.remove(&reply);
        }
        if let Holding::Reply(reply) = holds {
            self.replies.add(&reply)?;
        }
        Ok(())
    }

    /// Whether the replies hold more than they may.
    pub fn are_replies_too_many(&self) -> bool {
        self.replies.are_too_many()
    }
}
