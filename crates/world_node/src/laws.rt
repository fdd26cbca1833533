//! Laws over all steps of a node, each the contract of a function that does nothing.
ghost use Rattle.std.specs.Prelude.{◌≡◌, ℕ, List, [], ◌∷◌, ◌++◌, None, Some, length, slice_get, true};
ghost use Rattle.host_names.specs.declared.digests.Digest.{Digest};
ghost use Rattle.single_flight.specs.Calls.{Does, Finished, Joined, Led};
ghost use Rattle.world_node.specs.Lawful.{OpenOnce, ReadersAgree};
ghost use Rattle.world_node.specs.Nodes.{NodeStep, after_all, ended, flight_changed, fresh, open_flight, start};
ghost use Rattle.world_node.specs.Tables.{AreOfATable, numbered, table_of};
ghost use Rattle.world_node.specs.declared.flights.Flight.{Flight};

/// After every list of steps at most one flight of each key is open.
pub fn one_flight_of_a_key_is_open()
    ensures { (limit readers : ℕ) (steps : List NodeStep)
        → OpenOnce (after_all steps (start limit readers)).flights }
{}

/// After every list of steps, whoever led or joined a flight and got something got what that flight came to; and each chunk that was got
/// has the name that was wanted, whatever peers and sources answered.
pub fn a_joiner_gets_what_its_leader_gets()
    ensures { (limit readers : ℕ) (steps : List NodeStep) → ReadersAgree (after_all steps (start limit readers)) }
{}

/// A node begins, joins and ends flights as a `FlightTable` does that has begun the same ones, whatever cells it has for their outcomes. If
/// no flight of a key is open, one is led, with the next number; otherwise the open one is joined; and a flight that ends is open no more.
/// So after every list of steps the flights are those of a table after some calls.
pub fn flights_go_as_in_a_table()
    ensures led { (cells : ℕ → ℕ) (flights : List Flight) (key : Digest) → open_flight key flights ≡ None
        → Does (table_of cells flights) (Led key (numbered cells (length flights)))
        (table_of cells (flights ++ fresh key ∷ [])) }
    ensures joined { (cells : ℕ → ℕ) (flights : List Flight) (key : Digest) (n : ℕ)
        → open_flight key flights ≡ Some n
        → Does (table_of cells flights) (Joined key (numbered cells n)) (table_of cells flights) }
    ensures finished { (cells : ℕ → ℕ) (flights : List Flight) (n : ℕ) (flight : Flight) → OpenOnce flights
        → slice_get flights n ≡ Some flight → flight.is_open ≡ true
        → Does (table_of cells flights) (Finished flight.key) (table_of cells (flight_changed n ended flights)) }
    ensures all { (cells : ℕ → ℕ) (limit readers : ℕ) (steps : List NodeStep)
        → AreOfATable cells (after_all steps (start limit readers)).flights }
{}
