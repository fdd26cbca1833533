//! The host over all its steps: a desk, nodes and visitors, and each action of each of them one step after another, in any order. There are
//! no threads and no locks: whatever runs at once does so in some order of these steps.
//!
//! It is made of three crates without threads: a desk, a node, and the reads of files. Each step is one atomic action of one visitor or
//! deployer, and an equation, but for two: an entrance and a taken chunk are relations, since what is read of a file is one.
#![tactic(auto)]

pub mod laws;
mod places;
mod steps;
mod visits;
mod worlds;

pub use steps::Step;
pub use worlds::World;
