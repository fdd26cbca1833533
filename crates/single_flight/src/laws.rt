//! Laws of flights, each the contract of a function that does nothing.
ghost use Rattle.std.specs.Prelude.{◌≡◌, ◌≢◌, ◌↔◌, ◌<◌, ◌++◌, ◌∷◌, List, Some};
ghost use Rattle.std.specs.FinMap as map;
ghost use Rattle.host_names.specs.declared.digests.Digest.{Digest};
ghost use Rattle.single_flight.specs.Open.{OpenFlight, OpenFlights, no_flights};
ghost use Rattle.single_flight.specs.Calls.{Call, Does, DoInTurn, IsInFlight, Joined, Led};
ghost use Rattle.single_flight.specs.Flights.{Begins, seen};
ghost use Rattle.single_flight.specs.declared.tables.Begun.TheVariants.{Join, Lead};

/// After any calls of a table, a flight is open if and only if it was led and no later call finished it.
pub fn flights_are_open_from_their_leads_on()
    ensures { (calls : List Call) (new : OpenFlights) → DoInTurn no_flights calls new → (key : Digest) (flight : OpenFlight) → (map.get new.flights key ≡ Some flight) ↔ IsInFlight calls key flight }
{}

/// Of two flights of a table, the later has the greater number. So each flight has its own number.
pub fn later_flights_have_greater_numbers()
    ensures { (old new : OpenFlights) (before between after : List Call) (key later_key : Digest) (flight later : OpenFlight)
        → DoInTurn old (before ++ Led key flight ∷ (between ++ Led later_key later ∷ after)) new → flight.number < later.number }
{}

/// Whoever joins a flight has the one that was led under the key and wasn't finished since: its number, and the cell of its outcome.
pub fn a_joiner_has_the_flight_that_was_led()
    ensures { (before after : List Call) (new : OpenFlights) (key : Digest) (flight : OpenFlight)
        → DoInTurn no_flights (before ++ Joined key flight ∷ after) new → IsInFlight before key flight }
{}

/// `begin` is a call of a table: it leads a flight, or joins one.
pub fn a_beginning_is_a_call<T>()
    ensures led { (old new : OpenFlights) (key : Digest) (lead : _) → Begins {T = T} old key (Lead lead) new → Does old (Led key (seen lead.flight.value)) new }
    ensures joined { (old new : OpenFlights) (key : Digest) (flight : _) → Begins {T = T} old key (Join flight) new → Does old (Joined key (seen flight.value)) new }
{}

/// No flight is joined that isn't open or has another number; none is led for a key that has one, or again once it has begun.
pub fn wrong_answers_are_refused<T>()
    ensures joined { (key : Digest) (flight : _) (new : OpenFlights) → ¬ (Begins {T = T} no_flights key (Join flight) new) }
    ensures other { (old new : OpenFlights) (key : Digest) (open_one : OpenFlight) (flight : _) → map.get old.flights key ≡ Some open_one
        → flight.value.number ≢ open_one.number → ¬ (Begins {T = T} old key (Join flight) new) }
    ensures led { (old new : OpenFlights) (key : Digest) (open_one : OpenFlight) (lead : _) → map.get old.flights key ≡ Some open_one
        → ¬ (Begins {T = T} old key (Lead lead) new) }
    ensures again { (old new : OpenFlights) (key : Digest) (lead : _) → lead.flight.value.number < old.begun → ¬ (Begins {T = T} old key (Lead lead) new) }
{}
