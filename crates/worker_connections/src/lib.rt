//! The connections of one worker: what each is doing, what follows from what happens, and which one goes if a place or room is needed.
#![tactic(auto)]

mod changes;
mod clients;
mod connections;
pub mod laws;
mod looks;
mod numbers;
mod places;
mod ranks;
mod rooms;
mod share_looks;
mod shares;
mod steps;

pub use changes::{Change, Fate, Name};
pub use clients::{Client, State, Turn};
pub use connections::Connections;
pub use places::Places;
pub use rooms::Rooms;
pub use shares::{Share, Shares, Want};
pub use steps::{Holding, Interest, Kind, Next, Step};
