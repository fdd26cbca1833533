//! The names that the whole host speaks of: sites and aliases, paths, digests and cells.
#![tactic(auto)]

mod cells;
mod digests;
pub mod laws;
mod names;
mod paths;

pub use cells::{Cell, CellRef};
pub use digests::{BadDigest, Digest};
pub use names::{AliasName, BadName, Name, SiteName};
pub use paths::{FilePath, PathError};
