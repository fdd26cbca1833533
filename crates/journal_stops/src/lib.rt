//! A journal over a disk that stops or fails at any of its calls, and what is opened after a crash there.
#![tactic(auto)]

mod boots;
pub mod laws;
mod stops;

pub use boots::{Boot, open_and_put};
pub use stops::{Reopened, fail_and_open, stop_and_open};
