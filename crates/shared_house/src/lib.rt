//! The house of a node: what its workers answer requests over. They share a desk and the node's files.
#![tactic(auto)]

mod answered;
mod answering;
mod desk_access;
mod file_access;
mod guest_answers;
mod guests;
mod haste;
mod houses;
mod kept;
pub mod laws;
mod memories;
mod notes;

pub use answered::Answered;
pub use desk_access::{DeskAccess, Taken};
pub use file_access::{CachedFiles, FileAccess, GroupFiles};
pub use guests::Guest;
pub use haste::{Haste, Patient, Quick};
pub use houses::{DeskVisitor, SharedHouse};
pub use memories::Memory;
pub use notes::{LogFront, Note};
