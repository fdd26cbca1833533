//! Slices of bytes that are written one after another.
#![tactic(auto)]

mod slices;

pub use slices::Slices;
