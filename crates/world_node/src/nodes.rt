//! Nodes.
ghost use Rattle.std.specs.Prelude.{◌≡◌, IfOk, OnErr, OnOk, option_map, replicate};
ghost use Rattle.world_node.specs.Nodes as step;
ghost use Rattle.world_node.specs.Nodes.{called, happens, idle, ready, start};

use crate::calls::Call;
use crate::flights::{Flight, end as end_flight, find_open, settle as settle_flight};
use crate::outcomes::{Outcome, check};
use crate::readers::{Phase, Reader, phase_found};
use chunk_lru::{ChunkCache, Which};
use host_names::Digest;
use std::alloc::{AllocError, Global};
use std::marker::Model;
use std::sync::Arc;

/// A node: its caches, all its flights, and its readers, who are numbered from 0 on. A call that doesn't fit its reader's phase changes
/// nothing.
#[derive(Drop)]
pub struct Node {
    alloc: Global,
    cache: ChunkCache,
    flights: Vec<Flight>,
    readers: Vec<Reader>,
}

impl Model for Node {
    ghost use Rattle.world_node.specs.Nodes.{NodeState};

    ghost Value = { NodeState };

    ghost view = { λ n. record { cache = n.cache; flights = n.flights.items; readers = n.readers.items } };
}

/// This many readers, who want nothing.
fn readers_of(alloc: Global, count: usize) -> Result<Vec<Reader>, AllocError>
    ensures { IfOk result (λ readers. readers.items ≡ replicate count idle) }
{
    let mut readers = Vec::new(alloc);
    for _ in 0..count {
        readers.push(Reader::new(alloc))?;
    }
    Ok(readers)
}

impl Node {
    /// A node where nothing has happened.
    pub fn new(alloc: Global, limit: usize, count: usize) -> Result<Node, AllocError>
        ensures { IfOk result (λ node. node ≡ start limit count) }
    {
        Ok(Node {
            alloc,
            cache: ChunkCache::new(alloc, limit)?,
            flights: Vec::new(alloc),
            readers: readers_of(alloc, count)?,
        })
    }

    /// A reader wants a chunk.
    pub fn want(&mut self, number: usize, key: Digest)
        ensures { self.new ≡ happens self.old (step.Want number key) }
    {
        if number < self.readers.len() {
            let reader = &mut self.readers[number];
            reader.want(key);
        }
    }

    /// A reader leads a flight of the key that the caches didn't have, or joins the open one. If memory runs out, nothing changes.
    fn begin(&mut self, number: usize) -> Result<(), AllocError>
        ensures ok { OnOk result (self.new ≡ happens self.old (step.Begin number)) }
        ensures err { OnErr result (self.new ≡ self.old) }
    {
        if number >= self.readers.len() {
            return Ok(());
        }
        let reader = &self.readers[number];
        let Some(key) = reader.missed() else {
            return Ok(());
        };
        match find_open(self.flights.as_slice(), &key) {
            Some(flight) => {
                let reader = &mut self.readers[number];
                reader.go(Phase::Joins(flight, key));
            }
            None => {
                let flight = self.flights.len();
                self.flights.push(Flight {
                    key,
                    outcome: None,
                    is_open: true,
                })?;
                let reader = &mut self.readers[number];
                reader.go(Phase::Looks(flight, key));
            }
        }
        Ok(())
    }

    /// A reader looks into the caches. If memory runs out, nothing changes.
    fn look(&mut self, number: usize) -> Result<(), AllocError>
        ensures ok { OnOk result (self.new ≡ happens self.old (step.Look number)) }
        ensures err { OnErr result (self.new ≡ self.old) }
    {
        if number >= self.readers.len() {
            return Ok(());
        }
        let reader = &self.readers[number];
        let Some((flight, key)) = reader.asks() else {
            return Ok(());
        };
        let found = self.cache.get(&key)?;
        let reader = &mut self.readers[number];
        reader.go(phase_found(flight, key, found));
        Ok(())
    }

    /// A leader ends its flight.
    fn finish(&mut self, number: usize)
        ensures { self.new ≡ happens self.old (step.Finish number) }
    {
        if number < self.readers.len() {
            let reader = &self.readers[number];
            if let Some((flight, key)) = reader.ends() {
                end_flight(&mut self.flights, flight);
                let reader = &mut self.readers[number];
                reader.go(Phase::Joins(flight, key));
            }
        }
    }

    /// A leader puts its chunk into one of the caches. If memory runs out, nothing changes.
    fn add(&mut self, number: usize, which: Which) -> Result<(), AllocError>
        ensures ok { OnOk result (self.new ≡ happens self.old (step.Add number which)) }
        ensures err { OnErr result (self.new ≡ self.old) }
    {
        if number >= self.readers.len() {
            return Ok(());
        }
        let reader = &self.readers[number];
        let Some((flight, key, chunk)) = reader.loaded()? else {
            return Ok(());
        };
        let outcome = Outcome::of(Arc::try_clone(&chunk)?);
        self.cache.add(which, chunk)?;
        let reader = &mut self.readers[number];
        reader.go(Phase::Sets(flight, key, outcome));
        Ok(())
    }

    /// A leader sets the outcome of its flight. If memory runs out, nothing changes.
    fn settle(&mut self, number: usize) -> Result<(), AllocError>
        ensures ok { OnOk result (self.new ≡ happens self.old (step.Settle number)) }
        ensures err { OnErr result (self.new ≡ self.old) }
    {
        if number >= self.readers.len() {
            return Ok(());
        }
        let reader = &self.readers[number];
        let Some((flight, key, outcome)) = reader.sets()? else {
            return Ok(());
        };
        settle_flight(&mut self.flights, flight, outcome);
        let reader = &mut self.readers[number];
        reader.go(Phase::Ends(flight, key));
        Ok(())
    }

    /// A reader takes what is ready for it. If memory runs out, nothing changes.
    pub fn take(&mut self, number: usize) -> Result<(), AllocError>
        ensures ok { OnOk result (self.new ≡ happens self.old (step.Take number)) }
        ensures err { OnErr result (self.new ≡ self.old) }
    {
        if number >= self.readers.len() {
            return Ok(());
        }
        let reader = &self.readers[number];
        let Some((key, flight, outcome)) = reader.ready(self.flights.as_slice())? else {
            return Ok(());
        };
        let reader = &mut self.readers[number];
        reader.get(key, flight, outcome)?;
        Ok(())
    }

    /// A leader gets an answer. If memory runs out, nothing changes.
    fn answer(&mut self, number: usize, answer: &Option<Vec<u8>>) -> Result<(), AllocError>
        ensures ok { OnOk result (self.new ≡
            happens self.old (step.Answer number (option_map (λ bytes. bytes.items) answer.now))) }
        ensures err { OnErr result (self.new ≡ self.old) }
    {
        if number >= self.readers.len() {
            return Ok(());
        }
        let reader = &self.readers[number];
        let Some((flight, key)) = reader.loads() else {
            return Ok(());
        };
        let outcome = check(self.alloc, key, answer)?;
        let reader = &mut self.readers[number];
        reader.go(Phase::Holds(flight, key, outcome));
        Ok(())
    }

    /// A reader does this. If memory runs out, nothing changes.
    pub fn call(&mut self, number: usize, call: &Call) -> Result<(), AllocError>
        ensures ok { OnOk result (self.new ≡ happens self.old (called number call.now)) }
        ensures err { OnErr result (self.new ≡ self.old) }
    {
        match call {
            Call::Look => self.look(number)?,
            Call::Begin => self.begin(number)?,
            Call::Answer(answer) => self.answer(number, answer)?,
            Call::Add(which) => self.add(number, *which)?,
            Call::Settle => self.settle(number)?,
            Call::Finish => self.finish(number),
        }
        Ok(())
    }

    /// What is ready for a reader: the key of the chunk, the number of its flight, if it is of one, and a share of the outcome.
    pub fn ready(
        &self,
        number: usize,
    ) -> Result<Option<(Digest, Option<usize>, Outcome)>, AllocError>
        ensures { IfOk result (λ it. it ≡ ready self.now number) }
    {
        match self.readers.get(number) {
            Some(reader) => reader.ready(self.flights.as_slice()),
            None => Ok(None),
        }
    }
}
