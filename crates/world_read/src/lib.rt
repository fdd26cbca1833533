//! Reads of files, chunk by chunk, each up to its answer.
#![tactic(auto)]

mod gathered;
pub mod laws;
mod reads;
mod requests;

pub use reads::{FileRead, Reading};
pub use requests::FileRequest;
