//! Worlds.
ghost use Rattle.std.specs.Prelude.{◌≡◌, ◌<◌, ◌≤◌, ℕ, IfOk, IfSome, OnErr, OnOk, length, option_map, slice_get, take, Some};
ghost use Rattle.world_desk.specs.Desks.{IsLawful};
ghost use Rattle.host_world.specs.Lawful.{AreRight, IsReached, ShareFlights};
ghost use Rattle.host_world.specs.Steps.{EntersFree, Happens, Runs, went_on};
ghost use Rattle.host_world.specs.Worlds.{start};
ghost use Rattle.host_world.specs.declared.steps.Step.TheVariants as step;

use crate::laws::worlds_stay_lawful;
use crate::places::{call_at, nodes_of, ready_at, take_at, want_at};
use crate::steps::Step;
use crate::visits::{Visits, begin_at, go_on_at, visits_of};
use change_log::Log;
use std::alloc::{AllocError, Global};
use std::marker::Model;
use std::sync::Arc;
use world_desk::Desk;
use world_node::Node;
use world_read::{FileRead, FileRequest, Reading};

/// A desk, nodes, and visitors. Each visitor uses one node: the one whose place is the visitor's number modulo the number of nodes.
#[derive(Drop)]
pub struct World {
    alloc: Global,
    desk: Desk,
    nodes: Vec<Node>,
    visits: Vec<Visits>,
}

impl Model for World {
    ghost use Rattle.world_desk.specs.contracts.desks.Desk as the_desk;
    ghost use Rattle.world_node.specs.contracts.nodes.Node as the_node;
    ghost use Rattle.world_read.specs.contracts.reads.FileRead as the_read;
    ghost use Rattle.host_world.specs.Worlds.{WorldState, coded_world};

    ghost Value = { WorldState };

    ghost coded = { coded_world the_desk.the_row.coded the_node.the_row.coded the_read.the_row.coded };

    ghost view = { λ w. record { desk = w.desk; nodes = w.nodes.items; reads = w.visits.items } };
}

impl World {
    /// A world in which nothing has happened, with this many nodes and visitors, and with the limit of its log, in entries, and that of the
    /// caches of each node, in bytes. It takes these limits, so that its laws hold for any.
    pub fn new(
        alloc: Global,
        entries: u64,
        cache: usize,
        nodes: usize,
        visitors: usize,
    ) -> Result<World, AllocError>
        requires some { 1 ≤ entries }
        requires bounded { entries ≤ 1000000 }
        requires nodes { 1 ≤ nodes }
        ensures { IfOk result (λ world. world ≡ start entries cache nodes visitors) }
    {
        Ok(World {
            alloc,
            desk: Desk::new(alloc, entries, visitors)?,
            nodes: nodes_of(alloc, cache, nodes, visitors)?,
            visits: visits_of(alloc, visitors)?,
        })
    }

    /// How many visitors there are. They are numbered from 0 on.
    pub fn visitors(&self) -> usize
        ensures { result ≡ length self.now.desk.visitors }
    {
        self.desk.visitors()
    }

    /// The logs of the looks of a visitor, in order. Takes no memory.
    pub fn looks(&self, visitor: usize) -> &[Log]
        requires { visitor < length self.now.desk.visitors }
        ensures { IfSome (slice_get self.now.desk.visitors visitor) (λ v. result.now ≡ v.looks) }
    {
        self.desk.looks(visitor)
    }

    /// The reads of a visitor, in the order in which they began, if there is a visitor with this number. Takes no memory.
    pub fn reads(&self, visitor: usize) -> Option<&[FileRead]>
        ensures { option_map (λ reads. reads.now) result ≡ slice_get self.now.reads visitor }
    {
        match self.visits.get(visitor) {
            Some(visits) => Some(visits.reads()),
            None => None,
        }
    }

    /// A visitor looks, and its read of a file begins. If memory runs out, nothing changes.
    fn begin(&mut self, visitor: usize, request: &Arc<FileRequest>) -> Result<(), AllocError>
        requires { visitor < length self.old.reads }
        ensures ok { OnOk result (EntersFree self.old visitor (Some request.now.value) self.new) }
        ensures err { OnErr result (self.new ≡ self.old) }
    {
        let look = self.desk.look_count(visitor);
        let read = FileRead::begin(self.alloc, request, look, self.desk.shown_state())?;
        let name = read.wants();
        begin_at(&mut self.visits, &mut self.desk, visitor, read)?;
        want_at(&mut self.nodes, visitor, name);
        Ok(())
    }

    /// A visitor with no read in hand looks, and asks for a file or for none. If memory runs out, nothing changes.
    fn enter(
        &mut self,
        visitor: usize,
        request: &Option<Arc<FileRequest>>,
    ) -> Result<(), AllocError>
        ensures ok { OnOk result (Happens self.old (step.Enter visitor request.now) self.new) }
        ensures err { OnErr result (self.new ≡ self.old) }
    {
        if visitor >= self.visits.len() {
            return Ok(());
        }
        let visits = &self.visits[visitor];
        if visits.is_reading() {
            return Ok(());
        }
        match request {
            Some(request) => self.begin(visitor, request),
            None => self.desk.enter(visitor),
        }
    }

    /// The read in hand of a visitor goes on with this reading, and the visitor has taken what was ready for it. If memory runs out,
    /// nothing changes.
    fn go_on(&mut self, visitor: usize, reading: Reading) -> Result<(), AllocError>
        requires { visitor < length self.old.reads }
        ensures ok { OnOk result (self.new ≡ went_on visitor reading self.old) }
        ensures err { OnErr result (self.new ≡ self.old) }
    {
        take_at(&mut self.nodes, visitor)?;
        let name = reading.wants();
        go_on_at(&mut self.visits, visitor, reading);
        want_at(&mut self.nodes, visitor, name);
        Ok(())
    }

    /// A visitor takes what is ready for it at its node, and its read in hand goes on with that. If memory runs out, nothing changes.
    fn take(&mut self, visitor: usize) -> Result<(), AllocError>
        ensures ok { OnOk result (Happens self.old (step.Take visitor) self.new) }
        ensures err { OnErr result (self.new ≡ self.old) }
    {
        if visitor >= self.visits.len() {
            return Ok(());
        }
        let Some((_, _, outcome)) = ready_at(self.nodes.as_slice(), visitor)? else {
            return Ok(());
        };
        let visits = &self.visits[visitor];
        let Some(reading) = visits.next(self.alloc, outcome.chunk()?)? else {
            return Ok(());
        };
        self.go_on(visitor, reading)?;
        Ok(())
    }

    /// One step. If memory runs out, nothing changes.
    fn step(&mut self, step: &Step) -> Result<(), AllocError>
        ensures ok { OnOk result (Happens self.old step.now self.new) }
        ensures err { OnErr result (self.new ≡ self.old) }
    {
        match step {
            Step::Commit(command) => self.desk.commit(command),
            Step::Undo { site, change } => self.desk.undo(site, *change),
            Step::Publish => self.desk.publish(),
            Step::Enter { visitor, request } => self.enter(*visitor, request),
            Step::Learn(visitor) => self.desk.learn(*visitor),
            Step::Upload(bytes) => self.desk.upload(bytes.as_slice()),
            Step::Call(visitor, call) => call_at(&mut self.nodes, *visitor, call),
            Step::Take(visitor) => self.take(*visitor),
        }
    }

    /// Takes these steps, one after another, until memory runs out.
    fn take_steps(&mut self, steps: &[Step]) -> Result<(), AllocError>
        ensures ok { OnOk result (Runs self.old steps.now self.new) }
        ensures err { OnErr result
            ((n : ℕ) × (n < length steps.now) × Runs self.old (take n steps.now) self.new) }
    {
        for step in steps {
            self.step(step)?;
        }
        Ok(())
    }

    /// Takes these steps, one after another: either all of them, or those before the first for which memory ran out. A world that steps led
    /// to from the one in which nothing has happened stays lawful.
    pub fn run(&mut self, steps: &[Step]) -> Result<(), AllocError>
        ensures ok { OnOk result (Runs self.old steps.now self.new) }
        ensures err { OnErr result
            ((n : ℕ) × (n < length steps.now) × Runs self.old (take n steps.now) self.new) }
        // The desk's log is legal; each look of a visitor is a beginning of it, and begins with all that the visitor saw or was told of before.
        ensures lawful { IsReached self.old → IsLawful self.new.desk }
        // Each answer has the status, the range and the body of the reply over the state of the log of its look.
        ensures right { IsReached self.old → AreRight self.new }
        // At each node one flight of a key is open at most, and who joined one has what its leader has.
        ensures flights { IsReached self.old → ShareFlights self.new }
        ensures reached { IsReached self.old → IsReached self.new }
    {
        worlds_stay_lawful();
        self.take_steps(steps)
    }
}
