//! Byte ranges of RFC 9110, section 14: what the value of a Range field asks for, and which bytes of a file that
//! chooses. No call allocates.
#![tactic(auto)]

mod blocks;
mod grammar;
pub mod laws;
mod reading;
mod selection;

pub use grammar::{Asked, Spec, Specs, parse};
pub use selection::{Choice, Intervals, select};
