//! What a simulated node has around it: a drawn listener, sockets, sets and clock, and steps of connections; and what is seen there that docs/WIRE.md excludes.
//!
//! All goes on one thread. In the middle of a worker's turn, wherever the worker looks at the clock, sleeps, or begins or goes on with a connection, `Others` may
//! take whole turns of their own, which lie within it. So two turns never overlap without one lying within the other, and nothing comes between two accesses of
//! what workers share if there is no look at the clock between them.
#![tactic(auto)]

mod clocks;
mod drains;
mod edges;
mod ends;
mod events;
mod goers;
mod judges;
mod meanwhile;
mod moves;
mod places;
mod rooms;
mod sets;
mod steps;
mod telling;
mod watching;
mod worlds;

pub use clocks::DrawnClock;
pub use edges::{DrawnListener, DrawnSocket};
pub use events::Event;
pub use meanwhile::{Inner, Others};
pub use sets::DrawnSet;
pub use steps::{DrawnSlowSteps, DrawnSteps};
pub use worlds::World;
