//! Puts the parts of bodies.
ghost use Rattle.std.specs.Prelude.{IsErrOf};
ghost use Rattle.std.specs.List.{concat};
ghost use Rattle.http_wire.specs.Gathering.{Puts};
ghost use Rattle.http_wire.specs.Timing.{NoRead, Ran};

use crate::duplexes::Duplex;
use crate::halts::Halt;
use crate::sends::{Outgoing, ROOM};
use crate::sinks::WriteFailed;
use byte_view::{BodyParts, bytes_if, next_if, rest_if_few};

/// Puts the parts of a body in order, each from where it lies in memory. Puts three at once, so that they go out with the gathered bytes, and four where
/// none are gathered; with the second also all that are left, if these have few bytes. The last part that has bytes is put alone, so a body of one part is
/// asked for no other.
pub fn put_parts<D: Duplex, P: BodyParts<Item: Drop> + Drop>(
    duplex: &mut D,
    out: &mut Outgoing,
    parts: P,
) -> Result<(), Halt<WriteFailed>>
    ensures ran { Ran D.saw NoRead duplex.old duplex.new (Puts result (concat (P.texts parts)) out.old out.new) }
    ensures waits { IsErrOf result Halt.WouldWait → D.waits duplex.new }
{
    let mut parts = parts;
    // Whether what was put before is out, so that nothing is gathered.
    let mut is_out = false;
    'parts: while let Some(first) = parts.next() {
        let piece = P::bytes(&first);
        if parts.length() == 0 {
            return out.put(duplex, piece);
        }
        let second_part = next_if(&mut parts, true);
        let second = bytes_if::<P>(&second_part);
        let rest = rest_if_few(&mut parts);
        if !rest.is_empty() {
            return out.put_three(duplex, piece, second, rest.as_slice());
        }
        let third = next_if(&mut parts, true);
        let is_long = piece.len() > ROOM;
        let fourth = next_if(&mut parts, is_out && is_long);
        out.put_four(
            duplex,
            piece,
            second,
            bytes_if::<P>(&third),
            bytes_if::<P>(&fourth),
        )?;
        is_out = is_long;
    }
    Ok(())
}
