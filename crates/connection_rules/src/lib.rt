//! Rules for the connections of a node: when one is late, how much they hold, and which one goes if a place or room is needed.
#![tactic(auto)]

mod bodies;
pub mod laws;
mod least;
mod limits;
mod paces;
mod recent;
mod replies;
mod stakes;
mod standings;

pub use bodies::Bodies;
pub use least::Least;
pub use limits::Limits;
pub use paces::{Pace, Stage};
pub use recent::Recent;
pub use replies::{HeldFile, HeldReply, Replies};
pub use stakes::{Stake, are_crowding};
pub use standings::Standing;
