//! What a desk shares, step by step, with no thread and no lock: its log, the log that is shown, what was uploaded, and what its visitors
//! have seen.
#![tactic(auto)]

mod desks;
mod entries;
pub mod laws;
mod visitors;

pub use desks::Desk;
