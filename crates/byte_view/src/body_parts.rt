//! The parts of a body, which is never joined in memory.
ghost use Rattle.std.specs.Prelude.{◌≡◌, ◌<◌, ◌≤◌, [], ◌++◌, ℕ, List, Option, length};
ghost use Rattle.std.specs.List.{concat};
ghost use Rattle.std.specs.Iterator.{UpTo, YieldsFirstBy};
ghost use Rattle.byte_view.specs.BodyParts.{text_if, text_of};

use arrayvec::{ArrayString, ArrayVec};
use std::iter::Iterator;

/// A part of a body: a short text of its own, such as a boundary's line, or bytes that it borrows. The room for its text is small, since parts are
/// moved on their way out.
#[derive(Clone, Copy, Debug)]
pub enum Part<'a> {
    Text(ArrayString<96>),
    Lent(&'a [u8]),
}

impl<'a> Part<'a> {
    /// The part's bytes. The call allocates nothing.
    pub fn bytes(&self) -> &[u8]
        ensures { result.now ≡ text_of self.now }
    {
        match self {
            Part::Text(text) => text.as_str().as_bytes(),
            Part::Lent(bytes) => bytes,
        }
    }
}

/// The parts of a body, in order. Their total length is known before the first is given.
pub trait BodyParts: Iterator {
    // The bytes of a part.
    ghost text: { Self.Item → List ℕ };

    // The bytes of each part that is left.
    ghost texts: { Self → List (List ℕ) };

    /// The bytes of a part. The call allocates nothing.
    fn bytes(part: &Self::Item) -> &[u8]
        ensures { result.now ≡ text part.now };

    /// The total length of the parts that are left, in bytes.
    fn length(&self) -> u64
        ensures { result ≡ length (concat (texts self.now)) };

    // Each call of `next` gives the first part that is left.
    ghost gives: { (old : Self) (part : Option Self.Item) (new : Self) → Self.next_gives old part new
        → YieldsFirstBy text texts old part new };

    ghost can: { (parts : Self) → Self.can_next parts };

    ghost ends: { (parts : Self) → UpTo (Self.remaining parts) (length (texts parts)) };
}

/// How many bytes are few: so many are copied rather than sent apart.
pub const FEW: usize = 256;

/// The bytes of a part, or no bytes if there is no part. The call allocates nothing.
pub fn bytes_if<P: BodyParts>(part: &Option<P::Item>) -> &[u8]
    ensures { result.now ≡ text_if P.text part.now }
{
    match part {
        Some(part) => P::bytes(part),
        None => &[],
    }
}

/// Takes the next part, if one is wanted and left.
pub fn next_if<P: BodyParts>(parts: &mut P, is_wanted: bool) -> Option<P::Item>
    ensures taken { concat (P.texts parts.old) ≡ text_if P.text result ++ concat (P.texts parts.new) }
    ensures fewer { length (P.texts parts.new) ≤ length (P.texts parts.old) }
{
    if !is_wanted {
        return None;
    }
    parts.next()
}

/// Takes all parts that are left and copies their bytes, if these are few; and else nothing. The call allocates nothing.
pub fn rest_if_few<P: BodyParts<Item: Drop>>(parts: &mut P) -> ArrayVec<u8, FEW>
    ensures taken { concat (P.texts parts.old) ≡ result.items ++ concat (P.texts parts.new) }
    ensures all { 0 < length result.items → concat (P.texts parts.new) ≡ [] }
    ensures fewer { length (P.texts parts.new) ≤ length (P.texts parts.old) }
{
    let mut rest = ArrayVec::new();
    if parts.length() > FEW as u64 {
        return rest;
    }
    'parts: while let Some(part) = parts.next() {
        rest.try_extend_from_slice(P::bytes(&part)).unwrap();
    }
    rest
}
