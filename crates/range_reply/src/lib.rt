//! The reply to a read of a file that asks for ranges of bytes (RFC 9110, section 14). Only `read_body` allocates.
#![tactic(auto)]

mod boundaries;
mod choices;
mod conditions;
mod file_bodies;
mod holds;
pub mod laws;
mod lengths;
mod opened;
mod parts;
mod plans;
mod searches;
mod stretches;
mod texts;

pub use boundaries::Boundary;
pub use choices::boundary;
pub use conditions::IfRange;
pub use file_bodies::{FileBody, FileForm, read_body, read_whole};
pub use parts::Parts;
pub use plans::{ReplyPlan, plan};
