//! What a command does to the state, and when it is refused.
#![tactic(auto)]

mod cell_commands;
mod commands;
mod decisions;
mod entries;
mod folders;
pub mod laws;
mod live;
mod plans;
mod publishing;
mod refusals;
mod touched;
mod trees;
mod uploads;

pub use commands::Command;
pub use decisions::{MOST_FILES, decide, opening_refusal};
pub use entries::Entry;
pub use plans::Plan;
pub use refusals::{ChangeError, ChangeRefusal};
pub use touched::{Touched, TouchedCells};
pub use uploads::uploads_are_digested;
