//! What a worker looks for among its connections.
ghost use Rattle.std.specs.Prelude.{◌≡◌};
ghost use Rattle.connection_rules.specs.Least.{least_of};
ghost use Rattle.worker_connections.specs.Clients as client;
ghost use Rattle.worker_connections.specs.Places as spec;

use crate::changes::Name;
use crate::clients::Turn;
use crate::numbers::{Due, ForRoom, Slow, ToGo, count_new, first_from, least};
use crate::places::Places;
use crate::steps::Kind;
use connection_rules::{Limits, are_crowding};

impl Places {
    /// What is to be done in the turn of the connection of this name.
    pub fn turn(&self, name: Name) -> Turn
        ensures { result ≡ spec.turn_of (spec.named name self.now.places) }
    {
        match self.find(name) {
            Some(client) => client.turn(),
            None => Turn::Nothing,
        }
    }

    /// The first place from one on whose connection has to end now: it is late, or idle while the node drains.
    pub fn first_due(&self, from: usize, limits: &Limits, now: u64) -> Option<usize>
        ensures { spec.IsFirstFrom (client.due_number self.now.drains limits.now now) from self.now.places result }
    {
        let due = Due {
            drains: self.drains(),
            limits: *limits,
            now,
        };
        first_from(self.all(), &due, from)
    }

    /// The first place from one on whose connection's body waits for room.
    pub fn first_waiting(&self, from: usize) -> Option<usize>
        ensures { spec.IsFirstFrom client.waits_since from self.now.places result }
    {
        first_from(self.all(), &ForRoom, from)
    }

    /// The place of the body that has waited for room longest, and since when.
    pub fn longest_waiting(&self) -> Option<(usize, u64)>
        ensures { result ≡ least_of (spec.numbers_from client.waits_since 0 self.now.places) }
    {
        least(self.all(), &ForRoom)
    }

    /// The place of the connection that goes first if a place is needed, and its number among those that may. New ones crowd the others if they are more than a
    /// quarter of the connections.
    pub fn first_to_go(&self, limits: &Limits, now: u64) -> Option<(usize, u64)>
        ensures { result ≡ least_of (spec.numbers_from
            (client.rank_of (spec.do_crowd limits.now now self.now.places) limits.now now) 0 self.now.places) }
    {
        let go = ToGo {
            crowds: are_crowding(count_new(self.all(), limits, now), self.present()),
            limits: *limits,
            now,
        };
        least(self.all(), &go)
    }

    /// The place of the connection that goes first if room of a kind is needed, and its number among those that may: the one that moved least of late, and of
    /// several that moved as little the one of this number, whose body is the first.
    pub fn slowest(
        &self,
        kind: Kind,
        first: Option<u64>,
        limits: &Limits,
        now: u64,
    ) -> Option<(usize, u64)>
        ensures { result
            ≡ least_of (spec.numbers_from (client.slowness kind first limits.now now) 0 self.now.places) }
    {
        let slow = Slow {
            kind,
            first,
            limits: *limits,
            now,
        };
        least(self.all(), &slow)
    }
}
