//! What a node reads chunks through: its caches, its flights, the peer that owns a key, and the source.
#![tactic(auto)]

mod caches;
mod coins;
mod file_sources;
mod groups;
mod held_pieces;
pub mod laws;
mod loads;
mod node_files;
mod places;
mod shared_sources;
mod solo_groups;
mod sources;

pub use coins::{Coin, Counter};
pub use file_sources::FileSource;
pub use groups::{Group, Tidy};
pub use node_files::NodeFiles;
pub use shared_sources::SharedSource;
pub use solo_groups::SoloGroup;
pub use sources::{Outcome, Source};
