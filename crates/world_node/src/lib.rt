//! A node, step by step, with no thread and no lock: its caches, its flights, and those who read chunks through them.
#![tactic(auto)]

mod calls;
mod flights;
pub mod laws;
mod nodes;
mod outcomes;
mod readers;

pub use calls::Call;
pub use flights::Flight;
pub use nodes::Node;
pub use outcomes::Outcome;
pub use readers::{Got, Phase};
