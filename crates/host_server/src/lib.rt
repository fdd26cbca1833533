//! The host on one connection: what a request is answered, and what the host and its files are then.
#![tactic(auto)]

mod answers;
mod host;
mod kept_files;
pub mod laws;
mod lost_journals;
mod opening_lines;
mod openings;
mod runs;
mod servers;
mod services;
mod serving;
mod solo;
mod stores;
mod storing;

pub use answers::answer;
pub use host::SoloHouse;
pub use opening_lines::{line_of, status_of};
pub use runs::fail;
pub use servers::Server;
pub use solo::run_solo;
pub use stores::{Store, open_folder, run_store};
