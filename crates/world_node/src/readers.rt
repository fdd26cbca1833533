//! Those who read chunks.
ghost use Rattle.std.specs.Prelude.{◌≡◌, IfOk, OnErr, OnOk, option_map};
ghost use Rattle.world_node.specs.Handlers.{after_look};

use crate::flights::Flight;
use crate::outcomes::Outcome;
use byte_view::Chunk;
use host_names::Digest;
use std::alloc::{AllocError, Global};
use std::marker::Model;
use std::sync::Arc;

/// How far a reader is with a chunk. Flights are named by their numbers.
#[derive(Drop)]
pub enum Phase {
    /// It wants none.
    Idle,
    /// It has to look into the caches.
    Wants(Digest),
    /// The caches didn't have the chunk.
    Missed(Digest),
    /// It leads this flight, and has to look once more.
    Looks(usize, Digest),
    /// It leads this flight, and loads.
    Loads(usize, Digest),
    /// It leads this flight, and has what it loaded.
    Holds(usize, Digest, Outcome),
    /// It leads this flight, and has to set this outcome.
    Sets(usize, Digest, Outcome),
    /// It has set the outcome of the flight that it leads, and has to end the flight.
    Ends(usize, Digest),
    /// It takes the outcome of this flight, once that was set.
    Joins(usize, Digest),
    /// It has found this, and has to take it.
    Has(Digest, Outcome),
}

/// What a reader has got.
#[derive(Drop)]
pub struct Got {
    pub key: Digest,
    /// The flight that it led or joined; none if the caches had the chunk.
    pub flight: Option<usize>,
    pub outcome: Outcome,
}

/// One who reads chunks.
#[derive(Drop)]
pub(crate) struct Reader {
    phase: Phase,
    got: Vec<Got>,
}

impl Model for Reader {
    ghost use Rattle.world_node.specs.Nodes.{ReaderState};

    ghost Value = { ReaderState };

    ghost view = { λ r. record { phase = r.phase; got = r.got.items } };
}

/// Where a look leads to.
pub(crate) fn phase_found(flight: Option<usize>, key: Digest, found: Option<Arc<Chunk>>) -> Phase
    ensures { result ≡ after_look flight key (option_map (λ chunk. chunk.value) found) }
{
    match flight {
        None => match found {
            Some(chunk) => Phase::Has(key, Outcome::of(chunk)),
            None => Phase::Missed(key),
        },
        Some(number) => match found {
            Some(chunk) => Phase::Sets(number, key, Outcome::of(chunk)),
            None => Phase::Loads(number, key),
        },
    }
}

impl Reader {
    ghost use Rattle.world_node.specs.Handlers.{after_look, asked_key, ended_flight, loaded_chunk, loading, missed_key, outcome_to_set, wants};
    ghost use Rattle.world_node.specs.Nodes.{gets, idle, ready_for, with_phase};

    /// It wants nothing, and has got nothing.
    pub(crate) fn new(alloc: Global) -> Reader
        ensures { result ≡ idle }
    {
        Reader {
            phase: Phase::Idle,
            got: Vec::new(alloc),
        }
    }

    /// It wants a chunk, if it wants none.
    pub(crate) fn want(&mut self, key: Digest)
        ensures { self.new ≡ wants key self.old self.old.phase }
    {
        if let Phase::Idle = self.phase {
            self.phase = Phase::Wants(key);
        }
    }

    /// The key that the caches didn't have, if it has to lead or join a flight of that.
    pub(crate) fn missed(&self) -> Option<Digest>
        ensures { result ≡ missed_key self.now.phase }
    {
        match self.phase {
            Phase::Missed(key) => Some(key),
            _ => None,
        }
    }

    /// The key that it has to look for in the caches, with the flight that it leads.
    pub(crate) fn asks(&self) -> Option<(Option<usize>, Digest)>
        ensures { result ≡ asked_key self.now.phase }
    {
        match self.phase {
            Phase::Wants(key) => Some((None, key)),
            Phase::Looks(flight, key) => Some((Some(flight), key)),
            _ => None,
        }
    }

    /// The flight that it leads, with its key and the chunk that it has loaded.
    pub(crate) fn loaded(&self) -> Result<Option<(usize, Digest, Arc<Chunk>)>, AllocError>
        ensures { IfOk result (λ loaded.
            option_map (λ it. (it.0, it.1, it.2.value)) loaded ≡ loaded_chunk self.now.phase) }
    {
        match &self.phase {
            Phase::Holds(flight, key, outcome) => match outcome.chunk()? {
                Some(chunk) => Ok(Some((*flight, *key, chunk))),
                None => Ok(None),
            },
            _ => Ok(None),
        }
    }

    /// The flight that it leads and whose outcome it has to set, with its key and that outcome.
    pub(crate) fn sets(&self) -> Result<Option<(usize, Digest, Outcome)>, AllocError>
        ensures { IfOk result (λ sets. sets ≡ outcome_to_set self.now.phase) }
    {
        match &self.phase {
            Phase::Holds(flight, key, outcome) => Ok(Some((*flight, *key, outcome.share()?))),
            Phase::Sets(flight, key, outcome) => Ok(Some((*flight, *key, outcome.share()?))),
            _ => Ok(None),
        }
    }

    /// The flight that it leads and loads for, with its key.
    pub(crate) fn loads(&self) -> Option<(usize, Digest)>
        ensures { result ≡ loading self.now.phase }
    {
        match &self.phase {
            Phase::Loads(flight, key) => Some((*flight, *key)),
            Phase::Holds(flight, key, outcome) if outcome.is_fault() => Some((*flight, *key)),
            _ => None,
        }
    }

    /// What is ready for it: the key, the flight, and the outcome.
    pub(crate) fn ready(
        &self,
        flights: &[Flight],
    ) -> Result<Option<(Digest, Option<usize>, Outcome)>, AllocError>
        ensures { IfOk result (λ it. it ≡ ready_for flights.now self.now.phase) }
    {
        match &self.phase {
            Phase::Has(key, outcome) => Ok(Some((*key, None, outcome.share()?))),
            Phase::Joins(number, key) => match flights.get(*number) {
                Some(flight) => match &flight.outcome {
                    Some(outcome) => Ok(Some((*key, Some(*number), outcome.share()?))),
                    None => Ok(None),
                },
                None => Ok(None),
            },
            _ => Ok(None),
        }
    }

    /// The flight that it has to end, with its key.
    pub(crate) fn ends(&self) -> Option<(usize, Digest)>
        ensures { result ≡ ended_flight self.now.phase }
    {
        match self.phase {
            Phase::Ends(flight, key) => Some((flight, key)),
            _ => None,
        }
    }

    /// It is in this phase from now on.
    pub(crate) fn go(&mut self, phase: Phase)
        ensures { self.new ≡ with_phase phase self.old }
    {
        self.phase = phase;
    }

    /// It has got this.
    pub(crate) fn get(
        &mut self,
        key: Digest,
        flight: Option<usize>,
        outcome: Outcome,
    ) -> Result<(), AllocError>
        ensures ok { OnOk result (self.new ≡ gets key flight outcome self.old) }
        ensures err { OnErr result (self.new ≡ self.old) }
    {
        self.got.push(Got {
            key,
            flight,
            outcome,
        })?;
        self.phase = Phase::Idle;
        Ok(())
    }
}
