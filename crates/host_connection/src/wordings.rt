//! What a reply is sent from.
ghost use Rattle.std.specs.Prelude.{◌≡◌};

use host_replies::{HeldFile, Reply};
use std::sync::Arc;

/// What is sent: a reply that was made for its request, or the text of one that was sent before.
#[derive(Drop)]
pub enum Wording {
    Made(Reply),
    Kept(Arc<Vec<u8>>),
}

impl Wording {
    ghost use Rattle.host_connection.specs.Wordings.{held_for};

    /// What it holds of a file. A text that is kept holds nothing of one.
    pub(crate) fn held_file(&self) -> Option<HeldFile>
        ensures { result ≡ held_for self.now }
    {
        match self {
            Wording::Made(reply) => reply.held_file(),
            Wording::Kept(_) => None,
        }
    }
}
