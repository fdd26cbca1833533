//! How stretches of files are held: by a reader that gives chunks under their names, one after another.
#![tactic(auto)]

mod faults;
mod holders;
pub mod laws;
mod readers;

pub use faults::ReadFault;
pub use holders::Holder;
pub use readers::{ChunkReader, hold_stretch};
