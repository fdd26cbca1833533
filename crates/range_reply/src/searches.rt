//! Searches what is held of a file for bytes, in the chunks and across their edges. Bytes with the mark are looked for across all edges, and in those
//! chunks alone that have the mark too. No call allocates.
ghost use Rattle.std.specs.Prelude.{◌≡◌, ◌↔◌, ◌<◌, ◌≤◌, ◌++◌, List, ℕ, IsTrue, length, map, take};
ghost use Rattle.std.specs.List.{concat};
ghost use Rattle.std.specs.Str.Iter.{HasSubslice};
ghost use Rattle.byte_view.specs.Holds.{IsHeld};
ghost use Rattle.range_reply.specs.Searches.{ending};
ghost use Rattle.range_reply.specs.Slices.{ArePure, OccursInOne, all_meant, shown};

use arrayvec::ArrayVec;
use byte_view::{Hold, Pieces, mark, occurs};

/// How many bytes on each side of an edge are searched: as many as the longest text that may be searched for has.
const SIDE: usize = 64;

/// Returns the last 64 bytes of a text, or all if it has fewer.
fn last_bytes(text: &[u8]) -> ArrayVec<u8, 64>
    ensures { result.items ≡ ending text.now }
{
    ArrayVec::try_from(&text[text.len().saturating_sub(SIDE)..]).unwrap()
}

/// Returns the bytes in `before`, then the first 64 bytes after the edge, or all if there are fewer.
fn around_edge(before: &[u8], after: &[u8]) -> ArrayVec<u8, 128>
    requires { length before.now ≤ 64 }
    ensures { result.items ≡ before.now ++ take 64 after.now }
{
    let mut bytes = ArrayVec::new();
    bytes.try_extend_from_slice(before).unwrap();
    bytes
        .try_extend_from_slice(&after[..SIDE.min(after.len())])
        .unwrap();
    bytes
}

/// Returns the last 64 bytes before the edge after a piece, or all if there are fewer. `edge` is the bytes that are searched at the
/// edge before the piece.
fn last_bytes_after(edge: &[u8], piece: &[u8]) -> ArrayVec<u8, 64>
    ensures { (seen : List ℕ) → edge.now ≡ ending seen ++ take 64 piece.now → result.items ≡ ending (seen ++ piece.now) }
{
    last_bytes(if piece.len() < SIDE { edge } else { piece })
}

/// Whether bytes occur in pieces that follow one another.
fn occurs_in_pieces(bytes: &[u8], mut pieces: Pieces<'_>) -> bool
    requires some { 0 < length bytes.now }
    requires few { length bytes.now ≤ 64 }
    ensures { IsTrue result ↔ HasSubslice (concat pieces.entry) bytes.now }
{
    let has_mark = occurs(mark(), bytes);
    let mut last = ArrayVec::new();
    'pieces: loop {
        let may_have_bytes = !has_mark || pieces.next_may_have_mark();
        let Some(piece) = pieces.next() else {
            return false;
        };
        let edge = around_edge(last.as_slice(), piece);
        if occurs(bytes, edge.as_slice()) || may_have_bytes && occurs(bytes, piece) {
            return true;
        }
        last = last_bytes_after(edge.as_slice(), piece);
    }
}

/// Whether bytes occur in what a hold shows of its stretch.
fn occurs_in_hold(bytes: &[u8], hold: &Hold) -> bool
    requires some { 0 < length bytes.now }
    requires few { length bytes.now ≤ 64 }
    ensures shown { IsTrue result ↔ HasSubslice (shown hold.now) bytes.now }
    ensures held { IsHeld hold.now }
{
    let (first, last) = hold.stretch();
    occurs_in_pieces(bytes, hold.pieces(first, last))
}

/// Whether bytes occur in what at least one of the holds shows.
pub(crate) fn occurs_in_one(bytes: &[u8], holds: &[Hold]) -> bool
    requires some { 0 < length bytes.now }
    requires few { length bytes.now ≤ 64 }
    ensures shown { IsTrue result ↔ OccursInOne bytes.now (map shown holds.now) }
    ensures pure { ArePure holds.now → (IsTrue result ↔ OccursInOne bytes.now (all_meant holds.now)) }
{
    for hold in holds {
        if occurs_in_hold(bytes, hold) {
            return true;
        }
    }
    false
}
