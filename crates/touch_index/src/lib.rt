//! An inverted index of a history: from cells to the numbers of the live changes that may touch them.
#![tactic(auto)]

mod fronts;
mod index;
mod keys;
mod numbers;
mod postings;

pub use index::Index;
