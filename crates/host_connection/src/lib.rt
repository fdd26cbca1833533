//! One connection: requests in, and a reply to each from whatever answers them.
#![tactic(auto)]

mod connections;
pub mod laws;
mod meters;
mod phases;
mod requests;
mod resting;
mod services;
mod steps;
mod stops;
mod wordings;

pub use connections::{ConnectionFault, serve_connection};
pub use meters::Metered;
pub use requests::Request;
pub use services::{Prompt, Service};
pub use steps::{Connection, Progress, Stage, Wants};
