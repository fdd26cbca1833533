//! A connection that is over, while its client still sends.
ghost use Rattle.std.specs.Prelude.{◌≤◌};

use connection_rules::Stage;
use socket_sets::ClientSocket;
use std::io::{Error, ErrorKind};
use worker_connections::{Holding, Interest, Next, Step};

/// How many bytes a read takes at most.
const PIECE: usize = 8_192;

/// How many reads a turn has: with them it moves no more than any other step.
const READS: u32 = 32;

/// Whether a read may be made again after it failed.
fn may_read_again(error: &Error) -> bool {
    matches!(error.kind(), ErrorKind::WouldBlock | ErrorKind::Interrupted)
}

/// Reads what is there and drops it: how many bytes it was, and whether more may come.
fn drop_input<K: ClientSocket>(socket: &K) -> (u64, bool)
    ensures few { result.0 ≤ 262144 }
{
    let mut piece = [0; PIECE];
    let mut dropped = 0;
    'reads: for _ in 0..READS {
        match socket.read_some(&mut piece) {
            Ok(0) => return (dropped, false),
            Ok(count) => dropped += count as u64,
            Err(error) => return (dropped, may_read_again(&error)),
        }
    }
    (dropped, true)
}

/// Goes on with a connection that closes, until its client has closed it too.
pub(crate) fn close_on<K: ClientSocket>(socket: &K) -> Step {
    let (read, may_come) = drop_input(socket);
    Step {
        next: if may_come {
            Next::Waits(Interest::Read)
        } else {
            Next::Ends
        },
        stage: Stage::Closing,
        read,
        written: 0,
        answers: false,
        holds: Holding::Nothing,
    }
}
