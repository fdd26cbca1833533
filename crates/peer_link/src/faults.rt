//! Why connections of peers end.
ghost use Rattle.std.specs.Prelude.{◌≡◌};

use std::alloc::AllocError;
use thiserror::Error;

/// Why the connection of a peer ended before its stream did.
#[derive(Clone, Copy, Debug, PartialEq, Eq, Error)]
pub enum ServeFault {
    /// A head is malformed, or announces a body.
    #[error("a peer sent no request that is answered")]
    BadHead,
    /// A read failed.
    #[error("a request of a peer could not be read")]
    ReadFault,
    /// A write failed.
    #[error("an answer to a peer could not be written")]
    WriteFault,
    /// No memory for the connection.
    #[error("no memory for the connection of a peer")]
    OutOfMemory,
}

impl From<AllocError> for ServeFault {
    ghost use Rattle.peer_link.specs.declared.faults.ServeFault.TheVariants.{OutOfMemory};

    ghost from_gives = { λ _ e. e ≡ OutOfMemory };

    fn from(_error: AllocError) -> ServeFault {
        ServeFault::OutOfMemory
    }
}
