//! Flights.
ghost use Rattle.std.specs.Prelude.{◌≡◌};
ghost use Rattle.world_node.specs.Nodes.{ended, flight_changed, is_open_of, open_flight, settled};

use crate::outcomes::Outcome;
use host_names::Digest;

/// A flight. Its number is its place in the list of all that ever began at the node.
///
/// A node keeps this list in place of a `FlightTable`: a lead can't be dropped, so a world with an open flight could not be dropped either.
/// That the table does the same is a law (`flights_go_as_in_a_table`).
#[derive(Drop)]
pub struct Flight {
    pub key: Digest,
    /// What it came to, once that was set.
    pub outcome: Option<Outcome>,
    /// Whether it has not ended yet.
    pub is_open: bool,
}

impl Flight {
    /// Whether it is open and of this key.
    fn is_open_of(&self, key: &Digest) -> bool
        ensures { result ≡ is_open_of key.now self.now }
    {
        self.is_open && *key == self.key
    }

    /// It comes to this, unless it has come to something already.
    fn settle(&mut self, outcome: Outcome)
        ensures { self.new ≡ settled outcome self.old }
    {
        if self.outcome.is_none() {
            self.outcome = Some(outcome);
        }
    }
}

/// The flight with this number ends, if there is one.
pub(crate) fn end(flights: &mut Vec<Flight>, number: usize)
    ensures { flights.new.items ≡ flight_changed number ended flights.old.items }
{
    if number < flights.len() {
        let flight = &mut flights[number];
        flight.is_open = false;
    }
}

/// The flight with this number comes to this, if there is one that has come to nothing yet.
pub(crate) fn settle(flights: &mut Vec<Flight>, number: usize, outcome: Outcome)
    ensures { flights.new.items ≡ flight_changed number (settled outcome) flights.old.items }
{
    if number < flights.len() {
        let flight = &mut flights[number];
        flight.settle(outcome);
    }
}

/// The number of the open flight of a key.
pub(crate) fn find_open(flights: &[Flight], key: &Digest) -> Option<usize>
    ensures { result ≡ open_flight key.now flights.now }
{
    for (number, flight) in flights.iter().enumerate() {
        if flight.is_open_of(key) {
            return Some(number);
        }
    }
    None
}
