//! Why no request is read.
ghost use Rattle.std.specs.Prelude.{◌≡◌};
ghost use Rattle.host_connection.specs.Serving.{refusal_of, Announced};
ghost use Rattle.host_connection.specs.Stopping.{stop_of_body, stop_of_head};

use host_api::{HeadRefusal, body_limit};
use host_replies::is_head_only;
use http_wire::{BodyFault, Head, HeadFault, LengthFault, check_body};

/// Why no request was read.
#[derive(Drop)]
pub enum Stop {
    /// The input ended.
    Ended,
    /// A read failed.
    ReadFault,
    /// A write failed.
    WriteFault,
    /// The request is refused by its head.
    Refused { why: HeadRefusal, head_only: bool },
    /// There was no memory for the request.
    OutOfMemory { head_only: bool },
}

impl Stop {
    /// Why none was read where no head was.
    pub(crate) fn of_head(fault: HeadFault) -> Stop
        ensures { result ≡ stop_of_head fault }
    {
        match fault {
            HeadFault::Ended => Stop::Ended,
            HeadFault::ReadFault => Stop::ReadFault,
            HeadFault::HeadTooLarge => Stop::Refused {
                why: HeadRefusal::HeadTooLarge,
                head_only: false,
            },
            HeadFault::BadHead => Stop::Refused {
                why: HeadRefusal::BadHead,
                head_only: false,
            },
            HeadFault::OutOfMemory => Stop::OutOfMemory { head_only: false },
        }
    }

    /// Why none was read where the body of a head was not.
    pub(crate) fn of_body(fault: BodyFault, head_only: bool) -> Stop
        ensures { result ≡ stop_of_body head_only fault }
    {
        match fault {
            BodyFault::Ended => Stop::Ended,
            BodyFault::ReadFault => Stop::ReadFault,
            BodyFault::OutOfMemory => Stop::OutOfMemory { head_only },
        }
    }
}

/// What a request is refused by whose head announces no body that is read.
fn refusal_of(fault: LengthFault) -> HeadRefusal
    ensures { result ≡ refusal_of fault }
{
    match fault {
        LengthFault::CodingRefused => HeadRefusal::CodingRefused,
        LengthFault::LengthBad => HeadRefusal::LengthBad,
        LengthFault::BodyTooLarge => HeadRefusal::BodyTooLarge,
    }
}

/// How long the body is that a head announces, where it is read.
pub fn announced(head: &Head) -> Result<u64, Stop>
    ensures { Announced head.now result }
{
    let limit = body_limit(head.method().as_str(), head.target());
    match check_body(head, limit) {
        Ok(size) => Ok(size),
        Err(fault) => Err(Stop::Refused {
            why: refusal_of(fault),
            head_only: is_head_only(head),
        }),
    }
}
