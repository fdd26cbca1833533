//! The desk that nodes share, from the seat of one of them.
#![tactic(auto)]

mod seated_desks;

pub use seated_desks::SeatedDesk;
