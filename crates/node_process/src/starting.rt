//! How the threads of the nodes begin: all of them, or none.
use std::sync::atomic::{AtomicU64, Ordering};
use std::thread;
use std::time::{Clock, Duration};

/// How often a thread looks whether all have begun, and how many milliseconds it pauses between. Threads that can't be made are missed after that time.
const LOOKS: u32 = 3_000;

const PAUSE: u64 = 1;

/// It isn't known yet whether all threads begin; they have begun; or some can't be made.
const WAITS: u64 = 0;

const RUNS: u64 = 1;

const FAILED: u64 = 2;

/// How many of the threads of the nodes have begun.
#[derive(Drop)]
pub struct Start {
    all: u64,
    begun: AtomicU64,
    state: AtomicU64,
}

impl Start {
    /// None of so many threads has begun.
    pub fn new(all: u64) -> Start {
        Start {
            all,
            begun: AtomicU64::new(0),
            state: AtomicU64::new(WAITS),
        }
    }

    /// A thread has begun. Answers whether all have in time.
    pub fn begin<R: Clock>(&self, rt: &R) -> bool {
        let before = self.begun.fetch_add(1, Ordering::SeqCst);
        if before.saturating_add(1) >= self.all {
            self.decide(RUNS);
        }
        self.runs(rt)
    }

    /// Waits until all have begun, and answers whether they have in time. If not, none goes on.
    pub fn runs<R: Clock>(&self, rt: &R) -> bool {
        for _ in 0..LOOKS {
            if self.state.load(Ordering::SeqCst) != WAITS {
                break;
            }
            thread::sleep(rt, Duration::from_millis(PAUSE));
        }
        self.decide(FAILED);
        self.state.load(Ordering::SeqCst) == RUNS
    }

    /// Decides it, unless it is decided.
    fn decide(&self, state: u64) {
        let _ = self
            .state
            .compare_exchange(WAITS, state, Ordering::SeqCst, Ordering::SeqCst);
    }
}
