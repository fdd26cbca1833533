//! Sorted maps whose copies share what neither has changed. They know nothing of sites: a state keeps its cells in such a map.
#![tactic(auto)]

mod block_ranges;
mod block_writes;
mod chunks;
mod maps;
mod merge;
mod pieces;
mod probes;
mod ranges;
mod searches;
mod spans;
mod writes;

pub use maps::SharedMap;
pub use probes::Probe;
pub use ranges::Range;
pub use spans::Span;
