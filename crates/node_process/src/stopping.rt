//! How the nodes come to their end, and who is asked for a descriptor meanwhile.
ghost use Rattle.std.specs.Prelude.{◌≡◌, ◌-◌, ◌<◌, ◌↔◌, IsTrue, false, true};

use std::sync::{Condvar, Mutex, Wait};
use std::time::{Clock, Duration};

/// How many workers of the nodes are still to end, and whether a thread lacks a descriptor.
#[derive(Drop)]
struct Left {
    workers: u64,
    is_lacking: bool,
}

impl Left {
    /// A worker has ended. Answers whether it was the last.
    fn leave(&mut self) -> bool
        ensures fewer { self.new.workers ≡ self.old.workers - 1 }
        ensures last { IsTrue result ↔ (self.new.workers ≡ 0) }
        ensures asked { self.new.is_lacking ≡ self.old.is_lacking }
    {
        self.workers = self.workers.saturating_sub(1);
        self.workers == 0
    }

    /// A thread lacks a descriptor. Answers whether one may be given: nobody gives one once all workers have ended.
    fn ask(&mut self) -> bool
        ensures may { IsTrue result ↔ (0 < self.old.workers) }
        ensures asked { 0 < self.old.workers → self.new.is_lacking ≡ true }
        ensures same { self.new.workers ≡ self.old.workers }
    {
        if self.workers == 0 {
            return false;
        }
        self.is_lacking = true;
        true
    }

    /// Whether a thread has asked for a descriptor since this was called last.
    fn take_ask(&mut self) -> bool
        ensures asked { result ≡ self.old.is_lacking }
        ensures taken { self.new.is_lacking ≡ false }
        ensures same { self.new.workers ≡ self.old.workers }
    {
        let was = self.is_lacking;
        self.is_lacking = false;
        was
    }
}

/// What the threads of the nodes tell the thread that oversees them.
#[derive(Drop)]
pub struct Stop {
    left: Mutex<Left>,
    changes: Condvar,
    given: Condvar,
}

impl Stop {
    /// No worker has begun.
    pub fn new() -> Stop {
        Stop {
            left: Mutex::new(Left {
                workers: 0,
                is_lacking: false,
            }),
            changes: Condvar::new(),
            given: Condvar::new(),
        }
    }

    /// So many workers are to end.
    pub fn expect<R: Wait>(&self, rt: &R, workers: u64) {
        let mut left = self.left.lock(rt);
        left.workers = workers;
    }

    /// A worker has ended. Answers whether it was the last. Once it was, no thread waits for a descriptor.
    pub fn leave<R: Wait>(&self, rt: &R) -> bool {
        let is_last = self.left.lock(rt).leave();
        self.changes.notify_all();
        if is_last {
            self.given.notify_all();
        }
        is_last
    }

    /// Waits until a thread has something to tell, at most so many milliseconds. Answers whether all workers have ended.
    pub fn waits<R: Wait + Clock>(&self, rt: &R, most: u64) -> bool {
        let left = self.left.lock(rt);
        if left.workers == 0 {
            return true;
        }
        if left.is_lacking {
            return false;
        }
        let (left, _) = self
            .changes
            .wait_timeout(rt, left, Duration::from_millis(most));
        left.workers == 0
    }

    /// Asks for a descriptor, and waits until the overseeing thread has done what it can. Once all workers have ended it answers that nobody gives one.
    pub fn asks<R: Wait>(&self, rt: &R) -> bool {
        let mut left = self.left.lock(rt);
        if !left.ask() {
            return false;
        }
        self.changes.notify_all();
        let left = self.given.wait(rt, left);
        left.workers > 0
    }

    /// Whether a thread has asked for a descriptor since this was called last.
    pub fn is_asked<R: Wait>(&self, rt: &R) -> bool {
        self.left.lock(rt).take_ask()
    }

    /// Lets the threads that asked look again.
    pub fn gave(&self) {
        self.given.notify_all();
    }
}
