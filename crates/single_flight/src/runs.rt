//! Flights that threads share.
ghost use Rattle.std.specs.Prelude.{◌≡◌, ◌↔◌, IfOk, IsTrue};

use crate::tables::{Begun, Flight, FlightTable, Lead};
use host_names::Digest;
use std::alloc::{AllocError, Global};
use std::marker::PhantomData;
use std::sync::{Arc, Mutex, Wait};

/// Which outcomes a load of a key may have. For clauses alone: nothing calls it. The caller implements it for a type of its own and not for
/// the type of outcomes, so that an owner of flights can be generic over it.
pub trait Loads<T: Clone> {
    ghost use Rattle.host_names.specs.declared.digests.Digest.{Digest};

    ghost fits: { Digest → T → Type 0 };

    ghost clones_fit: { (key : Digest) (outcome share : T) → T.is_clone outcome share → fits key outcome → fits key share };
}

/// The outcome of a flight, with its key. Another thread set it, so whoever reads it knows it by its type alone: it is an outcome that a
/// load of this key may have.
#[derive(Drop)]
struct Landed<T: Clone + Drop, L: Loads<T>> {
    key: Digest,
    outcome: T,
    of: PhantomData<L>,
    ghost fitting: { ∥ L.fits key outcome ∥₁ },
}

impl<T: Clone + Drop, L: Loads<T>> Landed<T, L> {
    /// Whether it is of this key.
    fn is_of(&self, key: &Digest) -> bool
        ensures { IsTrue result ↔ self.now.key ≡ key.now }
    {
        self.key == *key
    }

    /// A share of the outcome.
    fn share(&self) -> Result<T, AllocError>
        ensures { IfOk result (λ outcome. ∥ L.fits self.now.key outcome ∥₁) }
    {
        self.outcome.clone()
    }
}

/// The flights of some threads.
#[derive(Drop)]
pub struct Flights<T: Clone + Drop, L: Loads<T>> {
    table: Mutex<FlightTable<Landed<T, L>>>,
}

/// Waits for the outcome of a flight, and takes a share of it.
fn joined<T: Clone + Drop, L: Loads<T>, R: Wait, F: FnOnce() -> T + Drop>(
    rt: &R,
    key: &Digest,
    flight: &Arc<Flight<Landed<T, L>>>,
    load: F,
) -> Result<T, AllocError>
    requires callable { F.pre load }
    requires fits { (outcome : _) → F.post load outcome → ∥ L.fits key.now outcome ∥₁ }
    ensures { IfOk result (λ outcome. ∥ L.fits key.now outcome ∥₁) }
{
    let landed = flight.outcome().wait(rt);
    if landed.is_of(key) {
        landed.share()
    } else {
        // The key is the same, since the flight is the key's. But no clause could say so of what another thread set, so this case loads.
        Ok(load())
    }
}

impl<T: Clone + Drop, L: Loads<T>> Flights<T, L> {
    /// No flight is open yet.
    pub fn new(alloc: Global) -> Flights<T, L> {
        Flights {
            table: Mutex::new(FlightTable::new(alloc)),
        }
    }

    /// Loads, sets the outcome for those who joined, and then ends the flight. Whoever begins between the two joins the flight and has its
    /// outcome at once; so a caller who was given an outcome, such as a fault, may be given it again at its next call.
    ///
    /// The leader always sets the outcome, even if nobody has joined, and takes its own share first: each flight makes a share, and one
    /// call of the system, which wakes the joiners. The leader waits for nothing but the lock of the table: it alone sets the outcome, and
    /// holds no lock meanwhile.
    fn led<R: Wait, F: FnOnce() -> T + Drop>(
        &self,
        rt: &R,
        key: &Digest,
        lead: Lead<Landed<T, L>>,
        load: F,
    ) -> Result<T, AllocError>
        requires callable { F.pre load }
        requires fits { (outcome : _) → F.post load outcome → ∥ L.fits key.now outcome ∥₁ }
        ensures { IfOk result (λ outcome. ∥ L.fits key.now outcome ∥₁) }
    {
        let landed = Landed {
            key: *key,
            outcome: load(),
            of: PhantomData,
        };
        let share = landed.share();
        let _ = lead.flight().outcome().set(rt, landed);
        self.table.lock(rt).finish(lead);
        share
    }

    /// Loads a key, or waits for the load of it that is in flight. The leader and the joiners share the outcome, even a fault; each may
    /// lack the memory for its own share. No lock is held during the load.
    pub fn run<R: Wait, F: FnOnce() -> T + Drop>(
        &self,
        rt: &R,
        key: &Digest,
        load: F,
    ) -> Result<T, AllocError>
        requires callable { F.pre load }
        requires fits { (outcome : _) → F.post load outcome → ∥ L.fits key.now outcome ∥₁ }
        ensures { IfOk result (λ outcome. ∥ L.fits key.now outcome ∥₁) }
    {
        let begun = self.table.lock(rt).begin(key)?;
        match begun {
            Begun::Lead(lead) => self.led(rt, key, lead, load),
            Begun::Join(flight) => joined(rt, key, &flight, load),
        }
    }
}
