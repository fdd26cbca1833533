//! Flights in a table and in threads. Where threads fly, loads are held back for each other, but end by themselves.
ghost use Rattle.std.specs.Prelude.{◌≡◌, true, refl};

use super::gates::{ATTEMPTS, CALLERS, Gate};
use host_names::Digest;
use single_flight::{Begun, FlightTable, Flights, Loads};
use std::alloc::{AllocError, Global};
use std::process::Abort;
use std::sync::Wait;
use std::test::Fail;
use std::thread;
use std::thread::Threads;

/// What a load gives.
#[derive(Clone, Copy, Debug, PartialEq, Eq)]
enum Answer {
    Loaded(u64),
    Missing,
}

/// Each answer may be that of each key.
struct AnyAnswer;

impl Loads<Answer> for AnyAnswer {
    ghost use Rattle.std.specs.Prelude.{⊤};

    ghost fits = { λ _ _. ⊤ };

    ghost clones_fit = { λ _ _ _ _ fits. fits };
}

/// The key that many threads call.
const SHARED: Digest = Digest([1; 20]);

/// The key that one thread calls.
const OTHER: Digest = Digest([2; 20]);

/// The load of the shared key.
fn load_shared(gate: &Gate, answer: Answer) -> Answer {
    gate.load_shared();
    answer
}

/// The load of the other key, which lets that of the shared one pass.
fn load_other(gate: &Gate) -> Answer {
    gate.load_other();
    gate.pass_other();
    Answer::Loaded(0)
}

/// Counts a caller by what it was given.
fn note(gate: &Gate, given: Result<Answer, AllocError>, wanted: Answer) {
    match given {
        Ok(answer) => gate.note(answer == wanted),
        Err(_) => gate.refuse(),
    }
}

fn call_shared<R: Wait>(rt: &R, flights: &Flights<Answer, AnyAnswer>, gate: &Gate, answer: Answer) {
    gate.call_shared();
    let given = flights.run(rt, &SHARED, || load_shared(gate, answer));
    note(gate, given, answer);
}

fn call_other<R: Wait>(rt: &R, flights: &Flights<Answer, AnyAnswer>, gate: &Gate) {
    let given = flights.run(rt, &OTHER, || load_other(gate));
    note(gate, given, Answer::Loaded(0));
}

/// All callers, each in a thread of its own. A thread that can't be made counts as refused.
fn fly<R: Threads + Wait + Sync>(
    rt: &R,
    flights: &Flights<Answer, AnyAnswer>,
    gate: &Gate,
    answer: Answer,
) {
    thread::scope(thread::scope_env(), rt, |scope| {
        for _ in 0..CALLERS {
            if scope
                .spawn(move || call_shared(rt, flights, gate, answer))
                .is_err()
            {
                gate.refuse();
            }
        }
        if scope.spawn(move || call_other(rt, flights, gate)).is_err() {
            gate.refuse();
        }
    });
}

/// That all callers of one key share the answer of one load, which another key's load overlaps.
fn assert_shared<R: Threads + Wait + Abort + Sync>(
    rt: &R,
    flights: &Flights<Answer, AnyAnswer>,
    answer: Answer,
) -> Result<(), Fail> {
    for _ in 0..ATTEMPTS {
        let gate = Gate::new();
        fly(rt, flights, &gate, answer);
        if gate.is_shared(rt)? {
            return Ok(());
        }
    }
    Err(Fail::from("no load was shared by all"))
}

#[test]
fn callers_of_one_key_share_one_load(rt: HostRuntime) -> Result<(), Fail> {
    let flights = Flights::new(rt.alloc());
    assert_shared(&rt, &flights, Answer::Loaded(7))
}

fn assert_loads_again<R: Wait + Abort>(
    rt: &R,
    flights: &Flights<Answer, AnyAnswer>,
) -> Result<(), Fail> {
    let given = flights.run(rt, &SHARED, || Answer::Loaded(8))?;
    assert_eq!(rt; given, Answer::Loaded(8));
    Ok(())
}

#[test]
fn a_fault_is_shared_and_the_next_call_loads_again(rt: HostRuntime) -> Result<(), Fail> {
    let flights = Flights::new(rt.alloc());
    assert_shared(&rt, &flights, Answer::Missing)?;
    assert_loads_again(&rt, &flights)
}

/// Whether a call leads a flight, which it ends.
fn leads(table: &mut FlightTable<u64>, key: &Digest) -> Result<bool, AllocError> {
    match table.begin(key)? {
        Begun::Lead(lead) => {
            table.finish(lead);
            Ok(true)
        }
        Begun::Join(_) => Ok(false),
    }
}

/// The number of the flight that is joined, and what has come of it.
type Joined = Option<(u64, Option<u64>)>;

/// What a call joins, if it leads none.
fn joined(table: &mut FlightTable<u64>, key: &Digest) -> Result<Joined, AllocError> {
    match table.begin(key)? {
        Begun::Lead(lead) => {
            table.finish(lead);
            Ok(None)
        }
        Begun::Join(flight) => Ok(Some((flight.number(), flight.outcome().get().copied()))),
    }
}

/// While a flight is led, and its outcome is there: what joins it, and whether other calls lead.
fn fly_in_turn(table: &mut FlightTable<u64>) -> Result<(Joined, bool, bool), AllocError> {
    match table.begin(&SHARED)? {
        Begun::Lead(lead) => {
            let _ = lead.flight().outcome().try_set(7);
            let same = joined(table, &SHARED);
            let other = leads(table, &OTHER);
            table.finish(lead);
            Ok((same?, other?, leads(table, &SHARED)?))
        }
        Begun::Join(_) => Ok((None, false, false)),
    }
}

/// The number of a flight of the shared key that was led and has ended, and what joined it before an outcome was set.
fn fly_unset(table: &mut FlightTable<u64>) -> Result<Option<(u64, Joined)>, AllocError> {
    match table.begin(&SHARED)? {
        Begun::Lead(lead) => {
            let same = joined(table, &SHARED);
            let number = table.finish(lead).number();
            Ok(Some((number, same?)))
        }
        Begun::Join(_) => Ok(None),
    }
}

fn assert_in_turn(rt: &impl Abort, table: &mut FlightTable<u64>) -> Result<(), Fail> {
    let flown = fly_in_turn(table)?;
    assert_eq!(rt; flown, (Some((0, Some(7))), true, true));
    Ok(())
}

fn assert_unset(rt: &impl Abort, table: &mut FlightTable<u64>) -> Result<(), Fail> {
    let flown = fly_unset(table)?;
    assert_eq!(rt; flown, Some((3, Some((3, None)))));
    Ok(())
}

#[test]
fn a_flight_is_led_once_until_it_ends_and_then_anew(rt: HostRuntime) -> Result<(), Fail> {
    let mut table = FlightTable::new(rt.alloc());
    assert_in_turn(&rt, &mut table)?;
    assert_unset(&rt, &mut table)
}
