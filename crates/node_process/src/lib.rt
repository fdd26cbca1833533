//! The process that the nodes run in: how its threads begin and end, which descriptors it has, and what its operator is told.
#![tactic(auto)]

mod descriptors;
mod ends;
mod halts;
mod processes;
mod repeating;
mod starting;
mod stopping;
mod surroundings;
mod telling;

pub use descriptors::{GivingAccess, places_of};
pub use ends::EndsSeen;
pub use halts::{Halt, HaltingShelf};
pub use processes::Process;
pub use starting::Start;
pub use stopping::Stop;
pub use surroundings::Surroundings;
pub use telling::Teller;
