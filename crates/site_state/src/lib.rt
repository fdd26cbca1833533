//! The state of the host: a finite map from cells to values.
#![tactic(auto)]

mod changes;
mod drafts;
mod files;
pub mod laws;
mod listings;
mod paths;
mod site_cells;
mod states;
mod values;

pub use changes::{Change, Side};
pub use drafts::{first_lacking, least_missing, missing};
pub use files::File;
pub use listings::{Listing, NotAPatch};
pub use paths::PathMap;
pub use site_cells::{is_alias_of, is_live_below, is_live_of};
pub use states::State;
pub use values::{Draft, Tree, Value};
