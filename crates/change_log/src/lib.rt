//! The log of a history: its entries in their order, each with its number, and the base that they stand on. Copies share both.
#![tactic(auto)]

mod founding;
mod logs;
mod names;

pub use founding::{may_be_base, state_of};
pub use logs::Log;
pub use names::{Name, Names};
