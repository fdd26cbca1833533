//! Two caches of chunks under one limit: of what the source gave, and of what a peer gave.
#![tactic(auto)]

mod caches;
pub mod laws;
mod lists;

pub use caches::{ChunkCache, Which};
