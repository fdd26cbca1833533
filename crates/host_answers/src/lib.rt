//! What a request is answered, by calls of a house: a history that is looked at and changed, and files that are held.
#![tactic(auto)]

mod answers;
mod asking;
mod change_lists;
mod commands;
mod deploys;
mod houses;
pub mod laws;
mod reads;
mod stops;
mod telling;
mod uploads;

pub use answers::answer;
pub use asking::asked_for;
pub use houses::House;
pub use stops::Stop;
pub use uploads::Uploaded;
