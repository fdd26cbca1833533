//! What is looked for among the connections of a worker.
ghost use Rattle.std.specs.Prelude.{◌≡◌, ◌≤◌, ℕ, List, Option, if◌then◌else◌, option_map};
ghost use Rattle.connection_rules.specs.Least.{least_of};
ghost use Rattle.worker_connections.specs.Places.{IsFirstFrom, count_new, is_new_in, number_in, numbers_from};
ghost use Rattle.worker_connections.specs.Clients as spec;

use crate::clients::{Client, State};
use crate::steps::Kind;
use connection_rules::{Least, Limits};

/// The numbers of some connections: of those that are looked for.
pub(crate) trait Numbers {
    ghost use Rattle.std.specs.Prelude.{◌≡◌, ℕ, Option};
    ghost use Rattle.worker_connections.specs.declared.clients.Client.{Client};

    ghost number_of: { Self → Client → Option ℕ };

    /// The number of a connection, if it is one of them.
    fn number(&self, client: &Client) -> Option<u64>
        ensures { result ≡ number_of self.now client.now };
}

/// Those that go if a place is needed.
#[derive(Drop)]
pub(crate) struct ToGo {
    /// Whether new ones crowd the others.
    pub(crate) crowds: bool,
    pub(crate) limits: Limits,
    pub(crate) now: u64,
}

impl Numbers for ToGo {
    ghost use Rattle.worker_connections.specs.Clients as spec;

    ghost number_of = { λ go client. spec.rank_of go.crowds go.limits go.now client };

    fn number(&self, client: &Client) -> Option<u64> {
        if client.is_live() {
            client.stake(&self.limits, self.now).number(self.crowds)
        } else {
            None
        }
    }
}

/// Those whose bodies wait for room.
#[derive(Drop)]
pub(crate) struct ForRoom;

impl Numbers for ForRoom {
    ghost use Rattle.worker_connections.specs.Clients as spec;

    ghost number_of = { λ _ client. spec.waits_since client };

    fn number(&self, client: &Client) -> Option<u64> {
        match client.state {
            State::ForRoom(since) => Some(since),
            _ => None,
        }
    }
}

/// Those that may have to go to give room.
#[derive(Drop)]
pub(crate) struct Slow {
    pub(crate) kind: Kind,
    /// The number of the connection whose body is the first.
    pub(crate) first: Option<u64>,
    pub(crate) limits: Limits,
    pub(crate) now: u64,
}

impl Numbers for Slow {
    ghost use Rattle.worker_connections.specs.Clients as spec;

    ghost number_of = { λ slow client. spec.slowness slow.kind slow.first slow.limits slow.now client };

    fn number(&self, client: &Client) -> Option<u64> {
        client.slowness(self.kind, self.first, &self.limits, self.now)
    }
}

/// Those that have to end now.
#[derive(Drop)]
pub(crate) struct Due {
    pub(crate) drains: bool,
    pub(crate) limits: Limits,
    pub(crate) now: u64,
}

impl Numbers for Due {
    ghost use Rattle.worker_connections.specs.Clients as spec;

    ghost number_of = { λ due client. spec.due_number due.drains due.limits due.now client };

    fn number(&self, client: &Client) -> Option<u64> {
        if client.is_due(self.drains, &self.limits, self.now) {
            Some(client.number)
        } else {
            None
        }
    }
}

/// The number of what is in a place, if it is one of those that are looked for.
fn number_in<N: Numbers>(numbers: &N, place: &Option<Client>) -> Option<u64>
    ensures { result ≡ number_in (N.number_of numbers.now) place.now }
{
    match place {
        Some(client) => numbers.number(client),
        None => None,
    }
}

/// 1 if the connection in a place is new, else 0.
fn new_in(place: &Option<Client>, limits: &Limits, now: u64) -> u64
    ensures { result ≡ (if is_new_in limits.now now place.now then 1 else 0) }
{
    match place {
        Some(client) if client.is_live() && client.stake(limits, now).is_new() => 1,
        _ => 0,
    }
}

/// How many connections are new.
pub(crate) fn count_new(places: &[Option<Client>], limits: &Limits, now: u64) -> u64
    ensures { result ≡ count_new limits.now now places.now }
{
    let mut count = 0;
    'counts: for at in 0..places.len() {
        count += new_in(&places[at], limits, now);
    }
    count
}

/// The place of the one with the least number, and that number; the first of those with the same.
pub(crate) fn least<N: Numbers>(places: &[Option<Client>], numbers: &N) -> Option<(usize, u64)>
    ensures { result ≡ least_of (numbers_from (N.number_of numbers.now) 0 places.now) }
{
    let mut least = Least::new();
    'looks: for at in 0..places.len() {
        if let Some(number) = number_in(numbers, &places[at]) {
            least.look(at, number);
        }
    }
    least.found()
}

/// The first place from one on of which it is one that is looked for.
pub(crate) fn first_from<N: Numbers>(
    places: &[Option<Client>],
    numbers: &N,
    from: usize,
) -> Option<usize>
    ensures { IsFirstFrom (N.number_of numbers.now) from places.now result }
{
    'looks: for at in from..places.len() {
        if number_in(numbers, &places[at]).is_some() {
            return Some(at);
        }
    }
    None
}
