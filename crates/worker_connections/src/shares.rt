//! What the workers of a node share.
ghost use Rattle.std.specs.Prelude.{◌≡◌, ◌-◌, ◌+◌, ◌<◌, ◌≤◌, ◌^◌, ◌↔◌, IsTrue, if◌then◌else◌, length, nat_lt};
ghost use Rattle.connection_rules.specs.Holding.{has_room, reserved, with_first};
ghost use Rattle.connection_rules.specs.Least.{least_of};
ghost use Rattle.worker_connections.specs.Shares as spec;

use crate::rooms::Rooms;
use crate::share_looks::{fewest, least_said, taken};
use crate::steps::Holding;
use std::alloc::{AllocError, Global};
use std::marker::Model;

/// For what a connection has to go.
#[derive(Clone, Copy, Debug, PartialEq, Eq)]
pub enum Want {
    /// A place, or a descriptor.
    Place,
    /// Room for bodies.
    Body,
    /// Room for replies.
    Reply,
}

/// What is known of a worker: how many places its connections have, and the number of the one that is to go first for each want, as the worker last said.
#[derive(Clone, Copy, Debug, PartialEq, Eq)]
pub struct Share {
    pub taken: u64,
    pub place: Option<u64>,
    pub body: Option<u64>,
    pub reply: Option<u64>,
    /// Whether bodies of its connections wait for room.
    pub waits: bool,
}

impl Share {
    /// What it said for this want. It may be that it has nothing to say, or has said nothing yet.
    pub(crate) fn said(&self, want: Want) -> Option<u64>
        ensures { result ≡ spec.said want self.now }
    {
        match want {
            Want::Place => self.place,
            Want::Body => self.body,
            Want::Reply => self.reply,
        }
    }
}

/// What the workers of a node share: its places, the clients that are still to come and those that are there, and what its connections hold.
#[derive(Drop)]
pub struct Shares {
    places: u64,
    workers: Vec<Share>,
    to_come: u64,
    present: u64,
    rooms: Rooms,
}

impl Model for Shares {
    ghost use Rattle.worker_connections.specs.Shares.{Shared, AreShared};

    ghost Value = { Shared };

    ghost view = { λ s. record {
      places = s.places;
      workers = s.workers.items;
      to_come = s.to_come;
      present = s.present;
      bodies = s.rooms;
    } };

    ghost invariant = { λ s. AreShared s.places s.workers.items s.to_come s.present };
}

/// A worker gets one more place.
fn give_one(workers: &mut Vec<Share>, at: usize)
    requires { spec.taken workers.old.items < 2 ^ 64 - 1 }
    ensures { workers.new.items ≡ spec.with_share at spec.one_more workers.old.items }
{
    if at < workers.len() {
        let mut share = workers[at];
        share.taken += 1;
        workers[at] = share;
    }
}

/// A worker gives a place back.
fn give_back(workers: &mut Vec<Share>, at: usize)
    ensures { workers.new.items ≡ spec.with_share at spec.one_back workers.old.items }
{
    if at < workers.len() {
        let mut share = workers[at];
        share.taken = share.taken.saturating_sub(1);
        workers[at] = share;
    }
}

/// A worker says which numbers those have that are to go first.
fn say(
    workers: &mut Vec<Share>,
    at: usize,
    place: Option<u64>,
    body: Option<u64>,
    reply: Option<u64>,
)
    ensures { workers.new.items ≡ spec.with_share at (spec.says place body reply) workers.old.items }
{
    if at < workers.len() {
        let mut share = workers[at];
        share.place = place;
        share.body = body;
        share.reply = reply;
        workers[at] = share;
    }
}

/// Bodies of a worker wait for room, or none does.
fn wait(workers: &mut Vec<Share>, at: usize, waits: bool)
    ensures { workers.new.items ≡ spec.with_share at (spec.waiting waits) workers.old.items }
{
    if at < workers.len() {
        let mut share = workers[at];
        share.waits = waits;
        workers[at] = share;
    }
}

impl Shares {
    /// None has come yet, of so many clients, to a node with so many workers and places.
    pub fn new(
        alloc: Global,
        workers: usize,
        places: u64,
        clients: u64,
    ) -> Result<Shares, AllocError> {
        let mut shares = Vec::new(alloc);
        'workers: for _ in 0..workers {
            shares.push(Share {
                taken: 0,
                place: None,
                body: None,
                reply: None,
                waits: false,
            })?;
        }
        Ok(Shares {
            places,
            workers: shares,
            to_come: clients,
            present: 0,
            rooms: Rooms::new(alloc),
        })
    }

    /// Lets one more client in, if one is still to come. Answers whether one was.
    pub fn let_in(&mut self) -> bool
        ensures one { result ≡ nat_lt 0 self.old.to_come }
        ensures counted { self.new ≡ (if nat_lt 0 self.old.to_come
            then record self.old { to_come = self.old.to_come - 1; present = self.old.present + 1 } else self.old) }
    {
        if self.to_come == 0 {
            return false;
        }
        self.to_come -= 1;
        self.present += 1;
        true
    }

    /// The client that was let in didn't come.
    pub fn let_out(&mut self)
        ensures { self.new ≡ (if nat_lt 0 self.old.present
            then record self.old { to_come = self.old.to_come + 1; present = self.old.present - 1 } else self.old) }
    {
        if self.present > 0 {
            self.to_come += 1;
            self.present -= 1;
        }
    }

    /// A client has gone.
    pub fn leave(&mut self)
        ensures { self.new ≡ record self.old { present = self.old.present - 1 } }
    {
        self.present = self.present.saturating_sub(1);
    }

    /// How many clients are there.
    pub fn present(&self) -> u64
        ensures { result ≡ self.now.present }
    {
        self.present
    }

    /// Whether all clients have come and gone.
    pub fn are_gone(&self) -> bool
        ensures { IsTrue result ↔ ((self.now.to_come ≡ 0) × (self.now.present ≡ 0)) }
    {
        self.to_come == 0 && self.present == 0
    }

    /// Gives a place, if one is free: to the worker whose connections have the fewest. Answers which it is.
    pub fn give_place(&mut self) -> Option<usize>
        ensures worker { result ≡ spec.place_of self.old }
        ensures given { self.new ≡ spec.with_given (spec.place_of self.old) self.old }
    {
        if taken(&self.workers) >= self.places as u128 {
            return None;
        }
        let (at, _) = fewest(&self.workers)?;
        give_one(&mut self.workers, at);
        Some(at)
    }

    /// Takes back a place of a worker's connections.
    pub fn give_back(&mut self, at: usize)
        ensures { self.new ≡ record self.old { workers = spec.with_share at spec.one_back self.old.workers } }
    {
        give_back(&mut self.workers, at);
    }

    /// A worker says which numbers those of its connections have that are to go first.
    pub fn say(&mut self, at: usize, place: Option<u64>, body: Option<u64>, reply: Option<u64>)
        ensures { self.new ≡ record self.old {
          workers = spec.with_share at (spec.says place body reply) self.old.workers;
        } }
    {
        say(&mut self.workers, at, place, body, reply);
    }

    /// Bodies of a worker's connections wait for room, or none does.
    pub fn wait(&mut self, at: usize, waits: bool)
        ensures { self.new ≡ record self.old { workers = spec.with_share at (spec.waiting waits) self.old.workers } }
    {
        wait(&mut self.workers, at, waits);
    }

    /// Whether bodies of a worker's connections wait for room.
    pub fn waits(&self, at: usize) -> bool {
        at < self.workers.len() && self.workers[at].waits
    }

    /// The worker that said the least number for a want, with that number.
    pub fn least_said(&self, want: Want) -> Option<(usize, u64)>
        ensures { result ≡ least_of (spec.said_from want 0 self.now.workers) }
    {
        least_said(&self.workers, want)
    }

    /// Whether clients are still to come.
    pub fn may_come(&self) -> bool
        ensures { result ≡ nat_lt 0 self.now.to_come }
    {
        self.to_come > 0
    }

    /// The number of the connection whose body is the first, if one is.
    pub fn first_body(&self) -> Option<u64>
        ensures { result ≡ self.now.bodies.first }
    {
        self.rooms.first_body()
    }

    /// How many bodies may take a step now, at least one.
    pub fn steps(&self) -> u64
        ensures { 1 ≤ result }
    {
        self.rooms.steps()
    }

    /// Whether the body of a connection, which holds so much, may take a step. If it may, the room for that is kept.
    pub fn reserve(&mut self, number: u64, held: u64) -> bool
        ensures room { result ≡ has_room number (with_first number held self.old.bodies) }
        ensures kept { self.new
            ≡ record self.old { bodies = reserved number (with_first number held self.old.bodies) } }
    {
        self.rooms.reserve(number, held)
    }

    /// A connection held this, and now holds that: after a step for which room was kept, or after anything else. Without memory for a reply that is new it
    /// isn't counted, and what was held before isn't either.
    pub fn recount(
        &mut self,
        number: u64,
        held: Holding,
        holds: Holding,
        is_kept: bool,
    ) -> Result<(), AllocError>
        ensures { self.new ≡ record self.old { bodies = spec.recounted number is_kept held holds self.old.bodies } }
    {
        self.rooms.recount(number, held, holds, is_kept)
    }

    /// Whether the replies hold more than they may.
    pub fn are_replies_too_many(&self) -> bool {
        self.rooms.are_replies_too_many()
    }
}
