//! Which bytes of a file some specs choose.
ghost use Rattle.std.specs.Prelude.{◌≡◌, ◌<◌, ◌≤◌, ◌↔◌, length, All, IsTrue, IfSome, sum_by};
ghost use Rattle.std.specs.List.{filter_map};
ghost use Rattle.range_spec.specs.Asks.{IsInOrder};
ghost use Rattle.range_spec.specs.Chosen.{chosen, interval_of, intervals_in, LiesWithin, size_of};

use crate::{Spec, Specs};
use arrayvec::ArrayVec;
use std::marker::Model;

/// Intervals of positions, each with its first and its last byte, both included: 16 at most, in the order asked.
#[derive(Clone, Debug, PartialEq, Eq, Drop)]
pub struct Intervals {
    list: ArrayVec<(u64, u64), 16>,
}

impl Model for Intervals {
    ghost use Rattle.std.specs.Prelude.{List, ℕ};

    ghost Value = { List (ℕ × ℕ) };

    ghost view = { λ s. s.list.items };

    ghost inverse = { λ intervals. record { list = record { items = intervals } } };
}

impl Intervals {
    /// The intervals, in the order asked.
    pub fn as_slice(&self) -> &[(u64, u64)]
        ensures value { result.now ≡ self.now }
        ensures few { length self.now ≤ 16 }
    {
        self.list.as_slice()
    }
}

/// What a reply to a range request sends of a file.
#[derive(Clone, Debug, PartialEq, Eq, Drop)]
pub enum Choice {
    /// The whole file, as if no range had been asked for.
    Whole,
    /// The bytes from the first position to the last, both included.
    One(u64, u64),
    /// Several such intervals.
    Many(Intervals),
    /// No spec can be satisfied: status 416.
    None416,
}

impl Spec {
    /// The first and the last position of this spec in a file of `size` bytes, or `None` where it can't be satisfied.
    fn interval(self, size: u64) -> Option<(u64, u64)>
        requires some { 0 < size }
        requires in_order { IsInOrder self }
        ensures value { result ≡ interval_of size self }
        ensures within { IfSome result (LiesWithin size) }
    {
        let last_byte = size - 1;
        match self {
            Spec::From(first, _) if first >= size => None,
            Spec::From(first, last) => Some((first, last.unwrap_or(last_byte).min(last_byte))),
            Spec::Suffix(0) => None,
            Spec::Suffix(n) => Some((size.saturating_sub(n), last_byte)),
        }
    }
}

/// Which bytes of a file of `size` bytes the specs choose: those of each spec that can be satisfied, cut to the file. If the file is empty,
/// or if several intervals together have more bytes than the file, the whole file is chosen.
pub fn select(specs: &Specs, size: u64) -> Choice
    ensures choice { result ≡ chosen specs.now size }
    ensures within { All (LiesWithin size) (intervals_in result) }
    ensures fits { sum_by size_of (intervals_in result) ≤ size }
{
    if size == 0 {
        return Choice::Whole;
    }
    let list = satisfiable(specs.as_slice(), size);
    match list.as_slice() {
        [] => Choice::None416,
        [(first, last)] => Choice::One(*first, *last),
        several if fits(several, size) => Choice::Many(Intervals { list }),
        _ => Choice::Whole,
    }
}

/// The intervals of the specs that can be satisfied, in order.
fn satisfiable(specs: &[Spec], size: u64) -> ArrayVec<(u64, u64), 16>
    requires some { 0 < size }
    requires few { length specs.now ≤ 16 }
    requires in_order { All IsInOrder specs.now }
    ensures each { result.items ≡ filter_map (interval_of size) specs.now }
    ensures within { All (LiesWithin size) result.items }
{
    let mut intervals = ArrayVec::new();
    for spec in specs {
        if let Some(interval) = spec.interval(size) {
            intervals.push(interval);
        }
    }
    intervals
}

/// Whether the intervals together have at most `size` bytes.
fn fits(intervals: &[(u64, u64)], size: u64) -> bool
    requires { All (LiesWithin size) intervals.now }
    ensures { IsTrue result ↔ (sum_by size_of intervals.now ≤ size) }
{
    let mut room = size;
    for (first, last) in intervals {
        match room.checked_sub(last - first + 1) {
            Some(left) => room = left,
            None => return false,
        }
    }
    true
}
