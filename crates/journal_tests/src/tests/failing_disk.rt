//! A disk that stops or that fails once, and what the call leaves that it does so at. It is proved to be one: each clause of `Disk` is met
//! by a device that fails in the middle of a write or a cut, and goes on after it or not.
ghost use Rattle.std.specs.Prelude.{◌≡◌, ◌↔◌, ◌⊎◌, ◌<◌, ◌≤◌, ℕ, IfSome, IsTrue, List, length};
ghost use Rattle.host_disk.specs.Crashes.{CountsFailure, Cut, Elapses, Follows, Torn};
ghost use Rattle.journal_tests.specs.declared.tests.failing_disk.Turn.TheVariants.{Works};

use host_disk::{DeviceFault, Disk};

/// What a write that fails may put where its bytes belong.
const JUNK: [u8; 64] = [7; 64];

/// What the first call that fails leaves of what it was to write or cut.
#[derive(Clone, Copy, Debug, PartialEq, Eq)]
pub enum Leaves {
    /// The disk is as before.
    Nothing,
    /// The first half is written, and the second half of what was to go is cut.
    Half,
    /// Other bytes are where it was to write, up to 64 of them. Nothing is cut.
    Junk,
    /// All is done.
    All,
}

/// How many calls fail.
#[derive(Clone, Copy, Debug, PartialEq, Eq)]
pub enum Fails {
    /// One alone: the device had a fault.
    Once,
    /// All from the first on: the device stopped.
    Always,
}

/// Which call this is.
#[derive(Clone, Copy, Debug, PartialEq, Eq)]
enum Turn {
    Works,
    /// The first that fails.
    Fails,
    /// One after that.
    Failed,
}

/// A disk some of whose calls fail. The first of these leaves some of what it was to do, and the others do nothing. Each call before and
/// after them is one of the disk within.
#[derive(Drop)]
pub struct FailingDisk<D> {
    disk: D,
    /// How many calls come before the first that fails.
    first: usize,
    /// How many come before those that work again.
    end: usize,
    leaves: Leaves,
    calls: usize,
    failures: u64,
}

/// The outcome of a call, which is counted where it failed.
fn counted<T>(failures: &mut u64, outcome: Result<T, DeviceFault>) -> Result<T, DeviceFault>
    ensures same { result ≡ outcome }
    ensures cause { CountsFailure result failures.old failures.new }
{
    if outcome.is_err() {
        *failures = failures.saturating_add(1);
    }
    outcome
}

/// What a write that fails puts in place of its bytes.
fn left_of<'a>(bytes: &'a [u8], leaves: Leaves) -> Option<&'a [u8]>
    ensures { IfSome result (λ left. length left.now ≤ length bytes.now) }
{
    match leaves {
        Leaves::Nothing => None,
        Leaves::Half => Some(&bytes[..bytes.len() / 2]),
        Leaves::Junk => Some(&JUNK[..bytes.len().min(JUNK.len())]),
        Leaves::All => Some(bytes),
    }
}

/// Writes what a write that fails leaves.
fn leave_written<D: Disk>(disk: &mut D, at: usize, bytes: &[u8], leaves: Leaves)
    ensures seen { IsTrue D.is_modelled → Torn at (length bytes.now) (D.seen disk.old) (D.seen disk.new) }
    ensures past { IsTrue D.is_modelled → length (D.seen disk.old) < at → D.seen disk.new ≡ D.seen disk.old }
    ensures crash { IsTrue D.is_modelled
        → Follows (Torn at (length bytes.now)) (D.may_leave disk.old) (D.may_leave disk.new) }
    ensures left { IsTrue D.is_modelled → (c : List ℕ) → D.may_leave disk.old c → D.may_leave disk.new c }
    ensures past_crash { IsTrue D.is_modelled → length (D.seen disk.old) < at
        → (c : List ℕ) → D.may_leave disk.new c ↔ D.may_leave disk.old c }
    ensures time { IsTrue D.is_modelled
        → Elapses (D.moment disk.old) (D.moment disk.new) (D.left_since disk.old) (D.left_since disk.new)
        (D.may_leave disk.new) }
{
    if let Some(left) = left_of(bytes, leaves) {
        let _ = disk.write_at(at, left);
    }
}

/// The size to which a cut that fails cuts a disk, which has so many bytes more.
fn size_left(size: usize, more: usize, leaves: Leaves) -> Option<usize>
    ensures { IfSome result (λ left. size ≤ left) }
{
    match leaves {
        Leaves::Nothing | Leaves::Junk => None,
        Leaves::Half => Some(size.saturating_add(more / 2)),
        Leaves::All => Some(size),
    }
}

/// Cuts what a cut that fails leaves cut.
fn leave_cut<D: Disk>(disk: &mut D, size: usize, leaves: Leaves)
    ensures seen { IsTrue D.is_modelled → Cut size (D.seen disk.old) (D.seen disk.new) }
    ensures crash { IsTrue D.is_modelled → Follows (Cut size) (D.may_leave disk.old) (D.may_leave disk.new) }
    ensures left { IsTrue D.is_modelled → (c : List ℕ) → D.may_leave disk.old c → D.may_leave disk.new c }
    ensures time { IsTrue D.is_modelled
        → Elapses (D.moment disk.old) (D.moment disk.new) (D.left_since disk.old) (D.left_since disk.new)
        (D.may_leave disk.new) }
{
    let more = disk.len().map_or(0, |len| len.saturating_sub(size));
    if let Some(left) = size_left(size, more, leaves) {
        let _ = disk.cut(left);
    }
}

impl<D: Disk> FailingDisk<D> {
    /// A disk that fails after so many calls.
    pub fn new(disk: D, before: usize, fails: Fails, leaves: Leaves) -> FailingDisk<D> {
        FailingDisk {
            disk,
            first: before,
            end: match fails {
                Fails::Once => before.saturating_add(1),
                Fails::Always => usize::MAX,
            },
            leaves,
            calls: 0,
            failures: 0,
        }
    }

    /// How many calls were made.
    pub fn calls(&self) -> usize {
        self.calls
    }

    /// Lets all further calls go to the disk.
    pub fn mend(&mut self) {
        self.end = 0;
    }

    /// Counts a call.
    fn turn(&mut self) -> Turn
        ensures works { result ≡ Works ↔ ((self.old.calls < self.old.first) ⊎ (self.old.end ≤ self.old.calls)) }
        ensures disk { self.new.disk ≡ self.old.disk }
        ensures failures { self.new.failures ≡ self.old.failures }
    {
        let made = self.calls;
        self.calls = made.saturating_add(1);
        if made < self.first || self.end <= made {
            return Turn::Works;
        }
        if made == self.first {
            Turn::Fails
        } else {
            Turn::Failed
        }
    }
}

impl<D: Disk> Disk for FailingDisk<D> {
    ghost is_modelled = { D.is_modelled };

    ghost seen = { λ failing. D.seen failing.disk };

    ghost may_leave = { λ failing. D.may_leave failing.disk };

    ghost moment = { λ failing. D.moment failing.disk };

    ghost left_since = { λ failing. D.left_since failing.disk };

    ghost faults = { λ failing. failing.failures };

    ghost may_fail = { λ failing call. ((failing.first ≤ failing.calls) × (failing.calls < failing.end))
        ⊎ D.may_fail failing.disk call };

    ghost may_stay = { λ failing. D.may_stay failing.disk };

    ghost counts_now = { λ failing. D.counts_now failing.disk };

    ghost only_now = { λ failing. D.only_now failing.disk };

    fn failures(&self) -> u64 {
        self.failures
    }

    fn len(&mut self) -> Result<usize, DeviceFault> {
        if self.turn() != Turn::Works {
            return counted(&mut self.failures, Err(DeviceFault));
        }
        let outcome = self.disk.len();
        counted(&mut self.failures, outcome)
    }

    fn read(&mut self, at: usize, bytes: &mut [u8]) -> Result<(), DeviceFault> {
        if self.turn() != Turn::Works {
            return counted(&mut self.failures, Err(DeviceFault));
        }
        let outcome = self.disk.read(at, bytes);
        counted(&mut self.failures, outcome)
    }

    fn write_at(&mut self, at: usize, bytes: &[u8]) -> Result<(), DeviceFault> {
        match self.turn() {
            Turn::Works => {
                let outcome = self.disk.write_at(at, bytes);
                counted(&mut self.failures, outcome)
            }
            Turn::Fails => {
                leave_written(&mut self.disk, at, bytes, self.leaves);
                counted(&mut self.failures, Err(DeviceFault))
            }
            Turn::Failed => counted(&mut self.failures, Err(DeviceFault)),
        }
    }

    fn cut(&mut self, size: usize) -> Result<(), DeviceFault> {
        match self.turn() {
            Turn::Works => {
                let outcome = self.disk.cut(size);
                counted(&mut self.failures, outcome)
            }
            Turn::Fails => {
                leave_cut(&mut self.disk, size, self.leaves);
                counted(&mut self.failures, Err(DeviceFault))
            }
            Turn::Failed => counted(&mut self.failures, Err(DeviceFault)),
        }
    }

    fn sync(&mut self) -> Result<(), DeviceFault> {
        if self.turn() != Turn::Works {
            return counted(&mut self.failures, Err(DeviceFault));
        }
        let outcome = self.disk.sync();
        counted(&mut self.failures, outcome)
    }
}
