//! Answers to a request for a path.
ghost use Rattle.std.specs.Prelude.{◌≡◌, ◌≤◌, [], IfOk, IfSome, vec_len};
ghost use Rattle.http_wire.specs.Answers.{IsAnswer};
ghost use Rattle.http_wire.specs.AnswerReads.{AwaitsAnswer, ReadsAnswer, fault_of_body, fault_of_head};
ghost use Rattle.http_wire.specs.Timing.{Ran};

use crate::answer_heads::judge;
use crate::bodies::read_body;
use crate::buffers::Buffer;
use crate::duplexes::Steady;
use crate::faults::{BodyFault, HeadFault};
use crate::halts::Halt;
use crate::scans::Search;
use crate::wires::find_head;
use std::alloc::{AllocError, Global};
use thiserror::Error;

/// Why an answer gives no body.
#[derive(Clone, Copy, Debug, PartialEq, Eq, Error)]
pub enum AnswerFault {
    /// The status is not 200.
    #[error("the status of the answer is not 200")]
    NotOk,
    /// A read failed, or the input ended before the answer was complete.
    #[error("the answer could not be read")]
    ReadFault,
    /// The head doesn't match the grammar, doesn't end within 16,384 bytes, has more than 64 fields, or doesn't have exactly one valid
    /// length.
    #[error("this is not the head of an answer that is read")]
    BadHead,
    /// The length exceeds the limit.
    #[error("the body of the answer is too long")]
    TooLong,
    /// Memory for the answer could not be allocated.
    #[error("no memory for the answer")]
    OutOfMemory,
}

impl From<AllocError> for AnswerFault {
    ghost use Rattle.http_wire.specs.declared.answers.AnswerFault.TheVariants.{OutOfMemory};

    ghost from_gives = { λ _ e. e ≡ OutOfMemory };

    fn from(_error: AllocError) -> AnswerFault {
        AnswerFault::OutOfMemory
    }
}

// Converts the fault of a head that was not found.
fn without_head(fault: HeadFault) -> AnswerFault
    ensures { result ≡ fault_of_head fault }
{
    match fault {
        HeadFault::Ended | HeadFault::ReadFault => AnswerFault::ReadFault,
        HeadFault::HeadTooLarge | HeadFault::BadHead => AnswerFault::BadHead,
        HeadFault::OutOfMemory => AnswerFault::OutOfMemory,
    }
}

// Converts the fault of a body that was not read.
fn without_body(fault: BodyFault) -> AnswerFault
    ensures { result ≡ fault_of_body fault }
{
    match fault {
        BodyFault::Ended | BodyFault::ReadFault => AnswerFault::ReadFault,
        BodyFault::OutOfMemory => AnswerFault::OutOfMemory,
    }
}

// Reads an answer from a stream from which nothing was read before.
fn take_answer<D: Steady>(
    buffer: &mut Buffer,
    duplex: &mut D,
    limit: u64,
) -> Result<Vec<u8>, AnswerFault>
    requires { buffer.old ≡ [] }
    ensures { Ran D.saw (AwaitsAnswer limit) duplex.old duplex.new (ReadsAnswer result limit) }
{
    let mut search = Search::new();
    let count = match find_head(buffer, duplex, &mut search) {
        Ok(count) => count,
        Err(Halt::Failed(fault)) => return Err(without_head(fault)),
        Err(Halt::WouldWait) => unreachable!(),
    };
    let size = match judge(&buffer.as_slice()[..count], limit) {
        Ok(size) => size,
        Err(fault) => return Err(fault),
    };
    buffer.consume(count);
    match read_body(buffer, duplex, size) {
        Ok(body) => Ok(body),
        Err(fault) => Err(without_body(fault)),
    }
}

/// Reads the answer to a request for a path and returns its body, of at most `limit` bytes. Writes nothing.
///
/// The function judges the head before it reads more of the body. A status other than 200 is `NotOk`, whatever else the head says. A head
/// without exactly one valid length is `BadHead`. A length over the limit is `TooLong`.
///
/// The function allocates memory for the longest head. It allocates memory for the body as the bytes arrive: by design, at most twice the
/// bytes that arrived and no more than the announced length. It may read beyond the answer, as the stream brings no other answer.
pub fn read_answer<D: Steady>(
    alloc: Global,
    duplex: &mut D,
    limit: u64,
) -> Result<Vec<u8>, AnswerFault>
    ensures answer { IfSome (D.left duplex.old) (IsAnswer D.read_fails result limit) }
    ensures within { IfOk result (λ body. vec_len body ≤ limit) }
    ensures ran { Ran D.saw (AwaitsAnswer limit) duplex.old duplex.new (ReadsAnswer result limit) }
{
    let mut buffer = Buffer::new(alloc)?;
    take_answer(&mut buffer, duplex, limit)
}
