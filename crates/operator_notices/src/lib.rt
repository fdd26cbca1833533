//! What the operator of a host is told. Any thread notes it without waiting, and one thread writes it.
#![tactic(auto)]

mod kinds;
mod notices;
mod reasons;
mod slots;
mod texts;

pub use kinds::Kind;
pub use notices::Notices;
pub use reasons::reason_of;
pub use slots::Notice;
pub use texts::Text;
