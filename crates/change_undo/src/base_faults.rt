//! Why there is no history of a log's base.
use std::alloc::AllocError;
use thiserror::Error;

/// Why there is no history of a log's base.
#[derive(Clone, Copy, Debug, PartialEq, Eq, Error)]
pub enum BaseFault {
    /// The base of this number may not be one: an alias names no kept deploy of its site, the number of a deploy is above the base's, two
    /// deploys have one number, or a file that is served or kept was not uploaded.
    #[error("base {0} is not legal")]
    NotLegal(u64),
    #[error("out of memory")]
    OutOfMemory,
}

impl From<AllocError> for BaseFault {
    ghost use Rattle.std.specs.Prelude.{◌≡◌};
    ghost use Rattle.change_undo.specs.declared.base_faults.BaseFault.TheVariants.{OutOfMemory};

    ghost from_gives = { λ _ error. error ≡ OutOfMemory };

    fn from(_error: AllocError) -> BaseFault {
        BaseFault::OutOfMemory
    }
}
