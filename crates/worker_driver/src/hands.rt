//! The threads of a simulated node: turns that they take, and what takes them.
ghost use Rattle.std.specs.Prelude.{◌≡◌, ◌+◌, ◌<◌, ◌^◌, IsTrue};

use event_loop::{Errand, ErrandWorker, SlowSteps, Steps, Takes, Turns, Worker};
use socket_sets::{Listener, Ready, SocketSet, Waits};
use std::sync::Wait;
use std::time::Clock;

/// What does turns, and tells whether its count of them has room for one more.
pub(crate) trait Counts<T>: Takes<T> {
    fn may_take(&self) -> bool
        ensures { IsTrue result → Self.Takes.done self.now + 1 < 2 ^ 64 };
}

impl<
    R: Wait + Clock,
    S: Steps + Drop,
    L: Listener<S::Socket> + Drop,
    P: Waits + SocketSet<S::Socket, L> + Drop,
> Counts<Ready> for Worker<'_, R, S, L, P> {
    fn may_take(&self) -> bool {
        self.done() < u64::MAX
    }
}

impl<R: Wait + Clock, S: SlowSteps + Drop, K: Drop, L: Drop, P: Waits + Drop> Counts<
    Errand<S::Connection>,
> for ErrandWorker<'_, R, S, K, L, P> {
    fn may_take(&self) -> bool {
        self.done() < u64::MAX
    }
}

/// What takes turns, and does each.
#[derive(Drop)]
pub(crate) struct Hand<T, W> {
    turns: T,
    worker: W,
}

impl<T: Turns, W: Counts<T::Turn>> Hand<T, W> {
    /// One that has done nothing.
    pub(crate) fn new(turns: T, worker: W) -> Hand<T, W> {
        Hand { turns, worker }
    }

    /// Takes a turn and does it. Answers whether there was one.
    pub(crate) fn turn(&mut self) -> bool {
        if !self.worker.may_take() {
            return false;
        }
        match self.turns.next() {
            Some(turn) => {
                self.worker.take(turn);
                true
            }
            None => false,
        }
    }
}

/// A worker, whose turn may be cut between its wait and what it does: others go on meanwhile.
#[derive(Drop)]
pub(crate) struct WorkerHand<T, W> {
    turns: T,
    worker: W,
    /// What its last wait told of, if it has done nothing since.
    told: Option<Ready>,
}

impl<T: Turns<Turn = Ready>, W: Counts<Ready>> WorkerHand<T, W> {
    /// One that has done nothing.
    pub(crate) fn new(turns: T, worker: W) -> WorkerHand<T, W> {
        WorkerHand {
            turns,
            worker,
            told: None,
        }
    }

    /// Whether it has waited, and done nothing since.
    pub(crate) fn has_waited(&self) -> bool {
        self.told.is_some()
    }

    /// Waits, unless it has waited and done nothing since. Answers false if there are no more turns.
    pub(crate) fn wait(&mut self) -> bool {
        if self.told.is_some() {
            return true;
        }
        match self.turns.next() {
            Some(ready) => {
                self.told = Some(ready);
                true
            }
            None => false,
        }
    }

    /// Does what its wait told of.
    pub(crate) fn act(&mut self) {
        if let Some(ready) = self.told.take() {
            if self.worker.may_take() {
                self.worker.take(ready);
            }
        }
    }
}
