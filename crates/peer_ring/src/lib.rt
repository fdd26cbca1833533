//! A ring of peers, by which each key has one owner: consistent hashing.
#![tactic(auto)]

pub mod laws;
mod points;
mod ring_hashes;
mod rings;

pub use ring_hashes::{DigestHash, RingHash};
pub use rings::{Ring, RingFault};
