//! Runs of a simulated node: the events of a run happen, and what the node does is looked at.
use crate::levels::{DrawnNode, Ground, Level, Nobody};
use event_loop::{Node, NodePlan};
use operator_notices::Notices;
use simulated_clients::{Fault, Plan, Seen};
use simulated_sockets::{DrawnClock, DrawnListener, DrawnSet, Event, Inner, Others, World};
use std::alloc::{AllocError, Global};
use std::sync::{Arc, Mutex, Wait};

/// How many turns the workers take at most until they are at rest.
const MOST_TURNS: u32 = 20_000;

/// How often connections are looked at in the end, and how many milliseconds pass between: each is late by then.
const LAST_LOOKS: u32 = 40;

/// How many errands are done before each of these looks.
const LAST_ERRANDS: u32 = 64;

const LAST_TIME: u64 = 20_000;

/// A node with a set for each worker.
fn node_of<'a>(
    alloc: Global,
    world: &'a Mutex<World>,
    plan: &Plan,
) -> Result<DrawnNode<'a>, AllocError> {
    let mut sets = Vec::new(alloc);
    for number in 0..plan.workers {
        sets.push(DrawnSet { world, number })?;
    }
    let limits = connection_rules::Limits::with_second(1_000);
    let made = NodePlan {
        places: plan.places as usize,
        limits,
        clients: plan.clients,
        notices: Arc::new(alloc, Notices::new())?,
    };
    Node::new(alloc, DrawnListener { world }, sets, made)
}

/// A node, and all that go on there: a level for each worker, the uppermost first.
#[derive(Drop)]
struct Played<'p, 'a, R, O> {
    world: &'a Mutex<World>,
    node: &'p DrawnNode<'a>,
    workers: usize,
    /// The clock of the overseeing thread, over all workers.
    clock: &'p DrawnClock<'p, R, O>,
    top: &'p O,
}

impl<R: Wait, O: Others> Played<'_, '_, R, O> {
    /// A worker waits, and does what that told, or does nothing yet, unless the node is over.
    fn turn(&self, number: usize, acts: bool) {
        if let Some(mut world) = self.world.try_lock() {
            world.begin_turn();
        }
        if let Some(at) = number.checked_rem(self.workers) {
            self.top.happen(Inner::Turn(at, acts));
        }
    }

    /// Whether the node is over.
    fn is_over(&self) -> bool {
        match self.world.try_lock() {
            Some(world) => world.is_over,
            None => false,
        }
    }

    /// Whether a worker has something to do.
    fn is_busy(&self) -> bool {
        match self.world.try_lock() {
            Some(world) => (0..self.workers).any(|at| world.may_turn(at)),
            None => false,
        }
    }

    /// All workers take turns, two each at least, until none has anything to do; then what they left is looked at.
    fn settle(&self) {
        for number in 0..MOST_TURNS {
            if self.is_over() {
                return;
            }
            if number as usize >= self.workers.saturating_mul(2) && !self.is_busy() {
                break;
            }
            self.turn(number as usize, true);
        }
        let is_busy = self.is_busy();
        if let Some(mut world) = self.world.try_lock() {
            if is_busy {
                world.blame(Fault::Spins);
            }
            if world.must_be_over() {
                world.blame(Fault::DoesNotEnd);
            }
            world.judge_rest();
            world.settle();
        }
    }

    /// An event happens.
    fn happen(&self, event: &Event) -> Result<(), AllocError> {
        if let Some(mut world) = self.world.try_lock() {
            world.happen(event)?;
        }
        match *event {
            Event::Turn(number) => self.turn(number, true),
            Event::Wait(number) => self.turn(number, false),
            Event::Slow(fails) => self.top.happen(Inner::Slow(fails)),
            Event::Settles => self.settle(),
            Event::Drains(milliseconds) => self.top.happen(Inner::Drain(milliseconds)),
            Event::GivesUp => self.give_up(),
            _ => {}
        }
        Ok(())
    }

    /// The overseeing thread asks for a connection, since a file finds no descriptor.
    fn give_up(&self) {
        if let Some(mut world) = self.world.try_lock() {
            world.want_descriptor();
        }
        self.node.give_up_first(self.clock);
    }

    /// What has been seen so far.
    fn fault(&self) -> Option<Fault> {
        self.world.try_lock()?.fault
    }

    /// All come to their ends: nobody sends or takes anything more, and what is late goes.
    fn end_all(&self) -> Result<(), AllocError> {
        if let Some(mut world) = self.world.try_lock() {
            world.is_quiet = true;
        }
        for _ in 0..LAST_LOOKS {
            for _ in 0..LAST_ERRANDS {
                self.top.happen(Inner::Slow(false));
            }
            self.happen(&Event::Settles)?;
            self.happen(&Event::Passes(LAST_TIME))?;
            if self.is_over() || self.fault().is_some() {
                return Ok(());
            }
        }
        self.happen(&Event::Settles)?;
        if let Some(mut world) = self.world.try_lock() {
            if !world.is_over && world.open() > 0 {
                world.blame(Fault::SocketStaysOpen);
            }
        }
        Ok(())
    }

    /// All these events happen, and then what is left ends.
    fn play(&self, events: &[Event]) -> Result<(), AllocError> {
        for event in events {
            if self.is_over() || self.fault().is_some() {
                return Ok(());
            }
            self.happen(event)?;
        }
        self.end_all()
    }
}

/// What came of a run: what was seen that may not be, and how often other things were.
#[derive(Clone, Copy)]
pub(crate) struct Outcome {
    pub(crate) fault: Option<Fault>,
    pub(crate) seen: Seen,
}

/// The clock of what has these below it.
fn clock_over<'v, R, O>(rt: &'v R, world: &'v Mutex<World>, others: &'v O) -> DrawnClock<'v, R, O> {
    DrawnClock { rt, world, others }
}

/// What happens to a node.
#[derive(Drop)]
struct Script<'e> {
    plan: &'e Plan,
    events: &'e [Event],
}

/// All events happen, with the level of the first worker over all others.
fn play_top<'s, 'a, R: Wait, O: Others + Drop>(
    rt: &'s R,
    world: &'a Mutex<World>,
    node: &'s DrawnNode<'a>,
    script: &Script<'_>,
    top: O,
) -> Result<(), AllocError> {
    let played = Played {
        world,
        node,
        workers: script.plan.workers,
        clock: &clock_over(rt, world, &top),
        top: &top,
    };
    played.play(script.events)
}

/// All events happen, with the level of the first worker over what is below it. A node of fewer than four workers has the first ones. What is below is moved
/// here, since nothing is known of lifetimes where a level would be dropped.
fn play_first<'s, 'a, R: Wait, O: Others + Drop>(
    rt: &'s R,
    alloc: Global,
    world: &'a Mutex<World>,
    node: &'s DrawnNode<'a>,
    script: &Script<'_>,
    below: O,
) -> Result<(), AllocError> {
    let clock = clock_over(rt, world, &below);
    let first = Level::new(&clock, alloc, world, node, &below, script.plan.worker(0))?;
    play_top(rt, world, node, script, first)
}

/// The same, with the levels of the workers before it over this one.
fn play_second<'s, 'a, R: Wait, O: Others + Drop>(
    rt: &'s R,
    alloc: Global,
    world: &'a Mutex<World>,
    node: &'s DrawnNode<'a>,
    script: &Script<'_>,
    below: O,
) -> Result<(), AllocError> {
    let clock = clock_over(rt, world, &below);
    let second = Level::new(&clock, alloc, world, node, &below, script.plan.worker(1))?;
    play_first(rt, alloc, world, node, script, second)
}

/// The same.
fn play_third<'s, 'a, R: Wait, O: Others + Drop>(
    rt: &'s R,
    alloc: Global,
    world: &'a Mutex<World>,
    node: &'s DrawnNode<'a>,
    script: &Script<'_>,
    below: O,
) -> Result<(), AllocError> {
    let clock = clock_over(rt, world, &below);
    let third = Level::new(&clock, alloc, world, node, &below, script.plan.worker(2))?;
    play_second(rt, alloc, world, node, script, third)
}

/// The same.
fn play_fourth<'s, 'a, R: Wait, O: Others + Drop>(
    rt: &'s R,
    alloc: Global,
    world: &'a Mutex<World>,
    node: &'s DrawnNode<'a>,
    script: &Script<'_>,
    below: O,
) -> Result<(), AllocError> {
    let clock = clock_over(rt, world, &below);
    let fourth = Level::new(&clock, alloc, world, node, &below, script.plan.worker(3))?;
    play_third(rt, alloc, world, node, script, fourth)
}

/// All events happen, with what is below all workers.
fn play_all<'a, R: Wait>(
    rt: &R,
    alloc: Global,
    world: &'a Mutex<World>,
    node: &DrawnNode<'a>,
    script: &Script<'_>,
) -> Result<(), AllocError> {
    let nobody = Nobody;
    let clock = clock_over(rt, world, &nobody);
    let ground = Ground::new(&clock, alloc, world, node)?;
    play_fourth(rt, alloc, world, node, script, ground)
}

/// A run of these events.
pub(crate) fn run<R: Wait>(
    rt: &R,
    alloc: Global,
    plan: &Plan,
    events: &[Event],
) -> Result<Outcome, AllocError> {
    let world = Mutex::new(World::new(alloc, *plan)?);
    let node = node_of(alloc, &world, plan)?;
    let _ = node.open();
    play_all(rt, alloc, &world, &node, &Script { plan, events })?;
    let mut outcome = Outcome {
        fault: None,
        seen: Seen::new(),
    };
    if let Some(mut world) = world.try_lock() {
        outcome.fault = world.fault;
        outcome.seen = world.seen;
        // The sockets that are left are closed with the node.
        world.is_over = true;
    }
    Ok(outcome)
}
