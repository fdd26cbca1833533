//! What the threads of a node do: each worker waits for those of its connections that are ready, and goes on with one at a time.
#![tactic(auto)]

mod accepting;
mod closing;
mod errands;
mod giving;
mod handing_back;
mod lines;
mod nodes;
mod serving;
mod stepping;
mod steps;
mod sweeping;
mod turns;
mod workers;

pub use errands::Errand;
pub use handing_back::{ErrandTurns, ErrandWorker};
pub use nodes::{Node, NodePlan, TcpNode};
pub use serving::Worker;
pub use steps::{NotBegun, SlowSteps, Steps};
pub use turns::NodeTurns;
pub use workers::{Takes, Turns, work};
