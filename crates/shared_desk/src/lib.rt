//! A desk that threads share: its book, the files that are known and the shelf are each behind a lock of its own.
#![tactic(auto)]

mod closings;
mod desks;
mod hints;
pub mod laws;
mod listings;
mod new_desks;
mod openings;
mod reading;
mod showing;
mod turns;
mod uploading;

pub use desks::Desk;
pub use new_desks::NewDesk;
pub use openings::{Opened, open};
