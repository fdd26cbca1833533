//! The clients of a simulated node, each alone: what it sends and takes, what its connection asks for, and what docs/WIRE.md says of its time and of what it has
//! to lose; and what a node may not do, and what is seen of it.
#![tactic(auto)]

mod callers;
mod draws;
mod faults;
mod flows;
mod laps;
mod newcomers;
mod parts;
mod plans;
mod seen;
mod standing;
mod talks;
mod watches;

pub use callers::{Caller, Doing, Moved, Whereabouts};
pub use draws::Draws;
pub use faults::Fault;
pub use flows::Flow;
pub use laps::Lap;
pub use parts::broken;
pub use plans::{Plan, Taste, draw_piece};
pub use seen::Seen;
pub use standing::IDLE;
pub use talks::{Bytes, FILE, FILES, Talk};
pub use watches::Watch;
