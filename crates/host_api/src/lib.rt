//! The requests and replies of the host's interface: what a method, a target and a body ask for, and the texts of replies.
#![tactic(auto)]

mod bodies;
mod change_lines;
mod digest_texts;
mod documents;
mod items;
pub mod laws;
mod limits;
mod listings;
mod members;
mod methods;
mod numbers;
mod refusal_texts;
mod refusals;
mod resources;
mod routes;
mod table;
mod target_paths;
mod targets;
mod texts;
mod types;
mod versions;

pub use bodies::{Ask, ask_of};
pub use change_lines::{ChangeLine, Word, word_of};
pub use items::Items;
pub use limits::body_limit;
pub use refusal_texts::{SHORT_TEXT, short_text};
pub use refusals::{HeadRefusal, Refusal};
pub use resources::Resource;
pub use routes::{Route, route_of};
pub use texts::{DeployState, Told, text};
pub use types::content_type;
pub use versions::Version;
