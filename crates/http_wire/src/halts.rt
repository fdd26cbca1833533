//! Reasons why a call returns no value.
use crate::faults::{BodyFault, HeadFault};
use std::alloc::AllocError;

/// Why a call on a stream returns no value.
#[derive(Clone, Copy, Debug, PartialEq, Eq)]
pub enum Halt<E> {
    /// The call failed.
    Failed(E),
    /// The stream has to wait first. The call may be repeated and continues where it left off.
    WouldWait,
}

impl From<AllocError> for Halt<HeadFault> {
    ghost use Rattle.std.specs.Prelude.{◌≡◌};
    ghost use Rattle.http_wire.specs.declared.faults.HeadFault.TheVariants.{OutOfMemory};
    ghost use Rattle.http_wire.specs.declared.halts.Halt.TheVariants.{Failed};

    ghost from_gives = { λ _ e. e ≡ Failed OutOfMemory };

    fn from(_error: AllocError) -> Halt<HeadFault> {
        Halt::Failed(HeadFault::OutOfMemory)
    }
}

impl From<AllocError> for Halt<BodyFault> {
    ghost use Rattle.std.specs.Prelude.{◌≡◌};
    ghost use Rattle.http_wire.specs.declared.faults.BodyFault.TheVariants.{OutOfMemory};
    ghost use Rattle.http_wire.specs.declared.halts.Halt.TheVariants.{Failed};

    ghost from_gives = { λ _ e. e ≡ Failed OutOfMemory };

    fn from(_error: AllocError) -> Halt<BodyFault> {
        Halt::Failed(BodyFault::OutOfMemory)
    }
}
