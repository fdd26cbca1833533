//! Requests for a path.
ghost use Rattle.std.specs.Prelude.{◌≡◌, [], OnOk, OnErr, IfErr, IsErrOf};
ghost use Rattle.std.specs.List.{flat_map};
ghost use Rattle.std.specs.Io.KnownBytes.{Appends};
ghost use Rattle.http_wire.specs.Answers.{get_text};
ghost use Rattle.http_wire.specs.Gathering.{Puts};
ghost use Rattle.http_wire.specs.Sending.{SentFront, WritesText};
ghost use Rattle.http_wire.specs.Timing.{NoRead, Ran};

use crate::duplexes::{Duplex, Steady};
use crate::faults::WriteFault;
use crate::halts::Halt;
use crate::sends::{Outgoing, put_pieces};
use crate::sinks::WriteFailed;

// Puts the pieces and writes all of them.
fn put_all<D: Duplex>(
    duplex: &mut D,
    out: &mut Outgoing,
    pieces: &[&[u8]],
) -> Result<(), Halt<WriteFailed>>
    ensures ran { Ran D.saw NoRead duplex.old duplex.new
        (Puts result (flat_map (λ p. p.now) pieces.now) out.old out.new) }
    ensures empty { OnOk result (out.new.rest ≡ []) }
    ensures waits { IsErrOf result Halt.WouldWait → D.waits duplex.new }
{
    put_pieces(duplex, out, pieces)?;
    out.write(duplex, &[], &[], &[])
}

// Writes the pieces of a request.
fn write_pieces<D: Steady>(
    duplex: &mut D,
    out: &mut Outgoing,
    path: &[u8],
) -> Result<(), WriteFault>
    ensures { Ran D.saw NoRead duplex.old duplex.new (WritesText result (get_text path.now)) }
{
    out.begin();
    let pieces: [&[u8]; 3] = [b"GET ", path, b" HTTP/1.1\r\nHost: peer\r\n\r\n"];
    match put_all(duplex, out, &pieces) {
        Ok(()) => Ok(()),
        Err(Halt::Failed(_)) => Err(WriteFault(out.sent())),
        Err(Halt::WouldWait) => unreachable!(),
    }
}

/// Writes a request to a peer for `path`, which is written as it is. The request is a GET whose only field is `Host`, which every request
/// has (RFC 9112, section 3.2). Reads nothing.
///
/// Allocates no memory, and fails as `write_reply` does.
pub fn write_get<D: Steady>(
    duplex: &mut D,
    out: &mut Outgoing,
    path: &str,
) -> Result<(), WriteFault>
    ensures ok { OnOk result (Appends (D.held duplex.old) (D.held duplex.new) (get_text path.now)) }
    ensures fault { IfErr result
        (λ fault. SentFront (D.held duplex.old) (D.held duplex.new) (get_text path.now) fault.0) }
    ensures cause { OnErr result D.write_fails }
    ensures ran { Ran D.saw NoRead duplex.old duplex.new (WritesText result (get_text path.now)) }
{
    write_pieces(duplex, out, path.as_bytes())
}
