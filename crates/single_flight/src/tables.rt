//! The flights that are open.
ghost use Rattle.std.specs.Prelude.{◌≡◌, ◌+◌, IfOk, OnErr};
ghost use Rattle.std.specs.FinMap as map;
ghost use Rattle.single_flight.specs.Flights.{Begins, seen};
ghost use Rattle.single_flight.specs.Open.{no_flights};

use host_names::Digest;
use std::alloc::{AllocError, Global};
use std::collections::BTreeMap;
use std::marker::Model;
use std::sync::{Arc, OnceLock};

/// A load of a key that callers share: its number in its table, and the cell in which its outcome is set, once.
///
/// Key and number are next to the cell, where nobody can change them. So a table can't hand out an ended flight as a new one, nor the
/// flight of another key, and a joiner has the number of the flight that is open. No clause could say that `OnceLock::new` makes a new
/// cell.
#[derive(Drop)]
pub struct Flight<T> {
    key: Digest,
    number: u64,
    outcome: OnceLock<T>,
}

impl<T> Flight<T> {
    /// No outcome is set yet.
    fn new(key: Digest, number: u64) -> Flight<T>
        ensures key { result.key ≡ key }
        ensures number { result.number ≡ number }
    {
        Flight {
            key,
            number,
            outcome: OnceLock::new(),
        }
    }

    /// How many flights its table had begun before it. No other flight of the table has this number.
    pub fn number(&self) -> u64
        ensures { result ≡ self.now.number }
    {
        self.number
    }

    /// The cell in which the outcome is set, and waited for.
    pub fn outcome(&self) -> &OnceLock<T>
        ensures { result.now ≡ self.now.outcome }
    {
        &self.outcome
    }
}

/// The lead of a flight. It can't be dropped: its owner has to give it back by `FlightTable::finish`, and so gives it back once. The owner
/// also has to set the outcome: a flight whose outcome is never set keeps its joiners waiting.
pub struct Lead<T> {
    flight: Arc<Flight<T>>,
}

/// How a caller takes part in a flight.
pub enum Begun<T> {
    /// The caller has begun a flight, and leads it.
    Lead(Lead<T>),
    /// The caller joins this flight, which was open.
    Join(Arc<Flight<T>>),
}

/// The open flights, at most one of each key. The table numbers its flights from 0 on, in the order in which they begin, so the later of
/// two has the greater number. Contracts see the number and the outcome's cell of each open flight, under its key, and how many flights
/// have begun. Each flight is of the key that it is kept under.
#[derive(Drop)]
pub struct FlightTable<T> {
    alloc: Global,
    flights: BTreeMap<Digest, Arc<Flight<T>>>,
    begun: u64,
}

impl<T> Model for FlightTable<T> {
    ghost use Rattle.single_flight.specs.Open.{OpenFlights, AreOfTheirKeys, coded_flights, opened};

    ghost Value = { OpenFlights };

    ghost coded = { coded_flights };

    ghost use Rattle.single_flight.specs.Flights.{seen};

    ghost view = { λ t. record { flights = opened (λ flight. seen flight.value) t.flights.entries; begun = t.begun } };

    ghost invariant = { λ t. AreOfTheirKeys (λ flight. flight.value.key) t.flights.entries };
}

impl<T> Lead<T> {
    /// The flight that is led.
    pub fn flight(&self) -> &Arc<Flight<T>>
        ensures { result.now ≡ self.now.flight }
    {
        &self.flight
    }
}

impl<T: Drop> FlightTable<T> {
    /// No flight has begun yet.
    pub fn new(alloc: Global) -> FlightTable<T>
        ensures { result ≡ no_flights }
    {
        FlightTable {
            alloc,
            flights: BTreeMap::new(alloc),
            begun: 0,
        }
    }

    /// Opens a flight of a key that has none.
    fn open(&mut self, key: Digest) -> Result<Lead<T>, AllocError>
        ensures key { IfOk result (λ lead. lead.flight.value.key ≡ key) }
        ensures number { IfOk result (λ lead. lead.flight.value.number ≡ self.old.begun) }
        ensures opened { IfOk result (λ lead. self.new ≡ record { flights = map.insert self.old.flights key (seen lead.flight.value); begun = self.old.begun + 1 }) }
        ensures err { OnErr result (self.new ≡ self.old) }
    {
        let begun = self.begun.checked_add(1).ok_or(AllocError)?;
        let flight = Arc::new(self.alloc, Flight::new(key, self.begun))?;
        let kept = Arc::try_clone(&flight)?;
        self.flights.insert(key, kept)?;
        self.begun = begun;
        Ok(Lead { flight })
    }

    /// Joins the flight of a key, or begins one if none is open. The cell for its outcome is made here, so its leader never lacks memory to
    /// set that. If memory runs out, nothing changes. Numbers are 64 bits wide and none is given twice, so a table that has begun 2^64 - 1
    /// flights answers as if memory had run out; no run gets there.
    pub fn begin(&mut self, key: &Digest) -> Result<Begun<T>, AllocError>
        ensures ok { IfOk result (λ begun. Begins self.old key.now begun self.new) }
        ensures err { OnErr result (self.new ≡ self.old) }
    {
        match self.flights.get(key) {
            Some(flight) => Ok(Begun::Join(Arc::try_clone(flight)?)),
            None => Ok(Begun::Lead(self.open(*key)?)),
        }
    }

    /// Ends the flight of the lead's key in this table, and hands out the lead's flight. The flight's number isn't given again. Nothing is
    /// asked of the lead: that it is of this very table can't be known once the table is behind a lock.
    pub fn finish(&mut self, lead: Lead<T>) -> Arc<Flight<T>>
        ensures ended { self.new ≡ record self.old { flights = map.remove self.old.flights lead.flight.value.key } }
        ensures flight { result ≡ lead.flight }
    {
        let Lead { flight } = lead;
        self.flights.remove(&flight.key);
        flight
    }
}
