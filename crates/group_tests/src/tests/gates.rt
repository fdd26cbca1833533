//! Threads whose loads are held back for each other. They end by themselves also where what they wait for never comes.
use std::process::Abort;
use std::sync::atomic::{AtomicU64, Ordering};
use std::test::Fail;
use std::thread;

/// How many threads call the shared key.
pub(super) const CALLERS: u64 = 8;

/// How often callers are made to share a load, until none of them was late.
pub(super) const ATTEMPTS: usize = 8;

/// How often a load looks whether what it waits for has come. It comes, however busy the machine is.
const TURNS: u64 = 30_000_000;

/// How often the other key's load looks whether the shared key is loaded twice, which doesn't happen.
const TURNS_IN_VAIN: u64 = 100_000;

/// What the threads have done so far.
#[derive(Drop)]
pub(super) struct Gate {
    callers: AtomicU64,
    loads: AtomicU64,
    loading: AtomicU64,
    together: AtomicU64,
    others: AtomicU64,
    overlaps: AtomicU64,
    answered: AtomicU64,
    refused: AtomicU64,
}

/// Whether a count comes to a number before so many turns are over.
fn comes_to(count: &AtomicU64, wanted: u64, turns: u64) -> bool {
    for _ in 0..turns {
        if count.load(Ordering::SeqCst) >= wanted {
            return true;
        }
        thread::yield_now();
    }
    false
}

impl Gate {
    pub(super) fn new() -> Gate {
        Gate {
            callers: AtomicU64::new(0),
            loads: AtomicU64::new(0),
            loading: AtomicU64::new(0),
            together: AtomicU64::new(0),
            others: AtomicU64::new(0),
            overlaps: AtomicU64::new(0),
            answered: AtomicU64::new(0),
            refused: AtomicU64::new(0),
        }
    }

    /// Another thread calls the shared key.
    pub(super) fn call_shared(&self) {
        self.callers.fetch_add(1, Ordering::SeqCst);
    }

    /// The load of the shared key, which is held back until the other key's pass is told.
    pub(super) fn load_shared(&self) {
        self.loads.fetch_add(1, Ordering::SeqCst);
        if self.loading.fetch_add(1, Ordering::SeqCst) > 0 {
            self.together.fetch_add(1, Ordering::SeqCst);
        }
        if comes_to(&self.others, 1, TURNS) {
            self.overlaps.fetch_add(1, Ordering::SeqCst);
        }
        self.loading.fetch_sub(1, Ordering::SeqCst);
    }

    /// The load of the other key, which gives each caller of the shared one the time to load that, too.
    pub(super) fn load_other(&self) {
        let _ = comes_to(&self.callers, CALLERS, TURNS);
        let _ = comes_to(&self.loads, 2, TURNS_IN_VAIN);
    }

    /// Lets the load of the shared key pass.
    pub(super) fn pass_other(&self) {
        self.others.fetch_add(1, Ordering::SeqCst);
    }

    /// Counts a caller that was given what it should be.
    pub(super) fn note(&self, is_right: bool) {
        if is_right {
            self.answered.fetch_add(1, Ordering::SeqCst);
        }
    }

    /// Counts a caller for which there was no memory.
    pub(super) fn refuse(&self) {
        self.refused.fetch_add(1, Ordering::SeqCst);
    }

    /// That all callers of the shared key were given what they should be, by loads one at a time, which overlapped the
    /// other key's. Answers whether it was one load: a caller that the machine held up until that had ended loads again.
    pub(super) fn is_shared(&self, rt: &impl Abort) -> Result<bool, Fail> {
        if self.refused.load(Ordering::SeqCst) > 0 {
            return Err(Fail::from("OutOfMemory"));
        }
        let loads = self.loads.load(Ordering::SeqCst);
        assert_count(rt, &self.together, 0, "loads of one key at once");
        assert_count(
            rt,
            &self.overlaps,
            loads,
            "loads that overlap another key's",
        );
        assert_count(rt, &self.answered, CALLERS + 1, "callers with the answer");
        Ok(loads == 1)
    }
}

pub(super) fn assert_count(rt: &impl Abort, count: &AtomicU64, wanted: u64, what: &str) {
    assert_eq!(rt; count.load(Ordering::SeqCst), wanted, "{what}");
}
