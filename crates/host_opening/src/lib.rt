//! What an opening makes of the entries of a history: which files they want, and the history itself.
#![tactic(auto)]

pub mod laws;
mod needs;
mod places;
mod published;
mod replays;
mod wanted_files;

pub use replays::{ReplayFault, replay};
pub use wanted_files::wanted;
