//! Sockets that don't block, as streams in both directions.
#![tactic(auto)]

mod sockets;
mod trails;

pub use sockets::{Socket, write_to};
pub use trails::Trail;
