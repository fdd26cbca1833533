//! The journal of a host: the entries of its history, on a disk. Their texts are the bodies of a file of records. Whenever the machine stops, a
//! modelled disk has each entry whole or not at all.
#![tactic(auto)]

mod collecting;
mod held;
mod journals;
pub mod laws;
mod losses;
mod prepared;

pub use journals::{Journal, NotOpened};
pub use losses::look;
pub use prepared::{Prepared, prepare};
