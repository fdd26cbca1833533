//! Shared loads: at most one load of a key is in flight, and whoever asks for the key meanwhile joins it.
#![tactic(auto)]

pub mod laws;
mod runs;
mod tables;

pub use runs::{Flights, Loads};
pub use tables::{Begun, Flight, FlightTable, Lead};
