//! What is found on a disk and a shelf: a journal, the history of its entries, and the store of its files.
#![tactic(auto)]

mod faults;
mod found;
mod openings;

pub use faults::{NotOpened, OpenFault};
pub use found::Found;
