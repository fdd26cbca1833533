//! Faults that can occur on a connection.
ghost use Rattle.std.specs.Prelude.{◌≡◌};

use std::alloc::AllocError;
use thiserror::Error;

/// Why no head was read.
#[derive(Clone, Copy, Debug, PartialEq, Eq, Error)]
pub enum HeadFault {
    /// The input ended before the head was complete or too long, possibly before its first byte.
    #[error("the input ended before the head of a request was whole")]
    Ended,
    /// A read failed.
    #[error("the head of a request could not be read")]
    ReadFault,
    /// The head does not end within 16,384 bytes, or has more than 64 fields.
    #[error("the head of a request is too large")]
    HeadTooLarge,
    /// The head does not match the grammar, or it has at most 64 fields and its target does not begin with a slash.
    #[error("this is not the head of a request that is answered")]
    BadHead,
    /// Memory for the head could not be allocated.
    #[error("no memory for the head of a request")]
    OutOfMemory,
}

impl From<AllocError> for HeadFault {
    ghost use Rattle.http_wire.specs.declared.faults.HeadFault.TheVariants.{OutOfMemory};

    ghost from_gives = { λ _ e. e ≡ OutOfMemory };

    fn from(_error: AllocError) -> HeadFault {
        HeadFault::OutOfMemory
    }
}

/// Why the body that a head announces is not read.
#[derive(Clone, Copy, Debug, PartialEq, Eq, Error)]
pub enum LengthFault {
    /// The head has a `Transfer-Encoding` field, whatever its value.
    #[error("the body of a request has a transfer coding")]
    CodingRefused,
    /// The head has more than one length, or a length that is not a 64-bit number.
    #[error("the head of a request does not say how long its body is")]
    LengthBad,
    /// The length exceeds the limit.
    #[error("the body of a request is too large")]
    BodyTooLarge,
}

/// Why no body was read.
#[derive(Clone, Copy, Debug, PartialEq, Eq, Error)]
pub enum BodyFault {
    /// The input ended before the body was complete.
    #[error("the input ended before the body of a request was whole")]
    Ended,
    /// A read failed.
    #[error("the body of a request could not be read")]
    ReadFault,
    /// Memory for the body could not be allocated.
    #[error("no memory for the body of a request")]
    OutOfMemory,
}

impl From<AllocError> for BodyFault {
    ghost use Rattle.http_wire.specs.declared.faults.BodyFault.TheVariants.{OutOfMemory};

    ghost from_gives = { λ _ e. e ≡ OutOfMemory };

    fn from(_error: AllocError) -> BodyFault {
        BodyFault::OutOfMemory
    }
}

/// A write failed. Exactly the given number of bytes was written from the front of the text, and not the whole text.
#[derive(Clone, Copy, Debug, PartialEq, Eq, Error)]
#[error("a write failed after {0} bytes of the reply")]
pub struct WriteFault(pub u64);
