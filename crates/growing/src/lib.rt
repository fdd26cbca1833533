//! An order in which a value becomes later and later, and that of logs. It is for clauses alone.
#![tactic(auto)]

pub mod laws;
mod logs;

/// What becomes later.
pub trait Growing {
    /// The second value is what the first has become, or still the first.
    ghost is_later: { Self → Self → Type 0 };

    /// Each value is no earlier than itself.
    ghost itself: { (x : Self) → is_later x x };

    /// What is no earlier than a later value is no earlier than a value before that.
    ghost goes_on: { (x y z : Self) → is_later x y → is_later y z → is_later x z };
}
