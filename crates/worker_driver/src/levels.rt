//! The workers of a simulated node, each over those that may take turns in the middle of its own.
use crate::hands::{Counts, Hand, WorkerHand};
use event_loop::{ErrandTurns, ErrandWorker, Node, NodeTurns, Turns, Worker};
use simulated_clients::Talk;
use simulated_sockets::{
    DrawnClock, DrawnListener, DrawnSet, DrawnSlowSteps, DrawnSocket, DrawnSteps, Inner, Others,
    World,
};
use socket_sets::Ready;
use std::alloc::{AllocError, Global};
use std::sync::{Mutex, Wait};

/// A simulated node.
pub(crate) type DrawnNode<'a> = Node<Talk, DrawnSocket<'a>, DrawnListener<'a>, DrawnSet<'a>>;

/// The clock of what has others below it.
pub(crate) type ClockOver<'v, R, O> = DrawnClock<'v, R, O>;

type TurnsOver<'v, 'a, R, O> = NodeTurns<
    'v,
    ClockOver<'v, R, O>,
    Talk,
    DrawnSocket<'a>,
    DrawnListener<'a>,
    DrawnSet<'a>,
>;

type WorkerOver<'v, 'a, R, O> = Worker<
    'v,
    ClockOver<'v, R, O>,
    DrawnSteps<'a, 'v, O>,
    DrawnListener<'a>,
    DrawnSet<'a>,
>;

type DrawnErrands<'v, 'a, R> = ErrandTurns<
    'v,
    ClockOver<'v, R, Nobody>,
    Talk,
    DrawnSocket<'a>,
    DrawnListener<'a>,
    DrawnSet<'a>,
>;

type DrawnErrandWorker<'v, 'a, R> = ErrandWorker<
    'v,
    ClockOver<'v, R, Nobody>,
    DrawnSlowSteps<'a>,
    DrawnSocket<'a>,
    DrawnListener<'a>,
    DrawnSet<'a>,
>;

/// Nobody, below whom nothing goes on.
#[derive(Drop)]
pub(crate) struct Nobody;

impl Others for Nobody {
    fn happen(&self, _inner: Inner) {}
}

/// What is below all workers: a thread that may wait, and what else befalls the node.
#[derive(Drop)]
pub(crate) struct Ground<'v, 'a, R: Wait> {
    // What its thread sees: here it tells which lifetimes are in it.
    _clock: &'v ClockOver<'v, R, Nobody>,
    world: &'a Mutex<World>,
    node: &'v DrawnNode<'a>,
    slow: Mutex<Box<Hand<DrawnErrands<'v, 'a, R>, DrawnErrandWorker<'v, 'a, R>>>>,
}

impl<'v, 'a, R: Wait> Ground<'v, 'a, R> {
    /// That of a node.
    pub(crate) fn new(
        clock: &'v ClockOver<'v, R, Nobody>,
        alloc: Global,
        world: &'a Mutex<World>,
        node: &'v DrawnNode<'a>,
    ) -> Result<Ground<'v, 'a, R>, AllocError> {
        let worker = ErrandWorker::new(clock, alloc, node, DrawnSlowSteps { world });
        let hand = Hand::new(ErrandTurns::new(clock, node), worker);
        Ok(Ground {
            _clock: clock,
            world,
            node,
            slow: Mutex::new(Box::new(alloc, hand)?),
        })
    }

    /// A thread that may wait takes the next connection, if there is one.
    fn slow(&self, fails: bool) {
        let is_there = match self.world.try_lock() {
            Some(mut world) => world.takes_errand(fails),
            None => false,
        };
        if is_there {
            if let Some(mut slow) = self.slow.try_lock() {
                slow.turn();
            }
        }
    }

    /// The node begins to drain, unless it drains already.
    fn drain(&self, milliseconds: u64) {
        let by = match self.world.try_lock() {
            Some(mut world) => world.drain(milliseconds),
            None => None,
        };
        if let Some(by) = by {
            self.node.drain(by);
        }
    }
}

impl<R: Wait> Others for Ground<'_, '_, R> {
    fn happen(&self, inner: Inner) {
        match inner {
            Inner::Turn(_, _) => {}
            Inner::Slow(fails) => self.slow(fails),
            Inner::Drain(milliseconds) => self.drain(milliseconds),
        }
    }
}

/// The worker of this number, if the node has so many.
#[derive(Drop)]
struct Seat<'a, T, W> {
    world: &'a Mutex<World>,
    number: usize,
    hand: Mutex<Option<Box<WorkerHand<T, W>>>>,
}

impl<T: Turns<Turn = Ready>, W: Counts<Ready>> Seat<'_, T, W> {
    /// Whether its worker waits no longer.
    fn is_awake(&self) -> bool {
        match self.world.try_lock() {
            Some(world) => world.may_turn(self.number),
            None => false,
        }
    }

    /// Its worker begins to do what a wait told.
    fn note_turn(&self) {
        if let Some(mut world) = self.world.try_lock() {
            world.note_turn(self.number);
        }
    }

    /// Its worker waits, and does what that told, or does nothing yet, unless the node is over.
    fn turn(&self, acts: bool) {
        let Some(mut held) = self.hand.try_lock() else {
            return;
        };
        let Some(hand) = &mut *held else {
            return;
        };
        if !hand.has_waited() && !self.is_awake() {
            return;
        }
        if !hand.wait() {
            if let Some(mut world) = self.world.try_lock() {
                world.end_all();
            }
        } else if acts {
            self.note_turn();
            hand.act();
        }
    }
}

type HandOver<'v, 'a, R, O> = WorkerHand<TurnsOver<'v, 'a, R, O>, WorkerOver<'v, 'a, R, O>>;

/// A worker, if the node has so many, and those that may go on in the middle of its turns. It is in a box, since types that reach too much are refused.
#[derive(Drop)]
pub(crate) struct Level<'v, 'a, R: Wait, O: Others> {
    // What its worker sees: here it tells which lifetimes are in a level.
    _clock: &'v ClockOver<'v, R, O>,
    _node: &'v DrawnNode<'a>,
    seat: Seat<'a, TurnsOver<'v, 'a, R, O>, WorkerOver<'v, 'a, R, O>>,
    below: &'v O,
}

/// The worker of this number, which has done nothing.
fn hand_of<'v, 'a, R: Wait, O: Others>(
    clock: &'v ClockOver<'v, R, O>,
    alloc: Global,
    world: &'a Mutex<World>,
    node: &'v DrawnNode<'a>,
    below: &'v O,
    number: usize,
) -> HandOver<'v, 'a, R, O> {
    let steps = DrawnSteps {
        world,
        others: below,
    };
    let worker = Worker::new(clock, alloc, node, number, steps);
    WorkerHand::new(NodeTurns::new(clock, node, number), worker)
}

impl<'v, 'a, R: Wait, O: Others> Level<'v, 'a, R, O> {
    /// One with the worker of this number, or with none.
    pub(crate) fn new(
        clock: &'v ClockOver<'v, R, O>,
        alloc: Global,
        world: &'a Mutex<World>,
        node: &'v DrawnNode<'a>,
        below: &'v O,
        number: Option<usize>,
    ) -> Result<Level<'v, 'a, R, O>, AllocError> {
        let hand = match number {
            Some(number) => Some(Box::new(
                alloc,
                hand_of(clock, alloc, world, node, below, number),
            )?),
            None => None,
        };
        let seat = Seat {
            world,
            number: number.unwrap_or(0),
            hand: Mutex::new(hand),
        };
        Ok(Level {
            _clock: clock,
            _node: node,
            seat,
            below,
        })
    }
}

impl<R: Wait, O: Others> Others for Level<'_, '_, R, O> {
    fn happen(&self, inner: Inner) {
        match inner {
            Inner::Turn(0, acts) => self.seat.turn(acts),
            Inner::Turn(number, acts) => {
                self.below
                    .happen(Inner::Turn(number.saturating_sub(1), acts))
            }
            _ => self.below.happen(inner),
        }
    }
}
