//! Replies: what they say, and how they are sent. A reply owns what is held of a file, and lends it in parts.
#![tactic(auto)]

mod bodies;
mod media_types;
mod parts_types;
mod replies;
mod versions;

pub use media_types::file_type;
pub use replies::{HeldFile, Reply, is_head_only};
pub use versions::file_of;
