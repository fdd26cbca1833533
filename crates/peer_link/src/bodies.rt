//! The bodies of answers.
ghost use Rattle.std.specs.Prelude.{◌≡◌};
ghost use Rattle.std.specs.Iterator.{YieldsFirstRef, item_count};
ghost use Rattle.peer_link.specs.Bodies.{lent_parts};

use byte_view::BodyParts;
use std::marker::Model;

/// A body of one lent part, or of none. Contracts see the list of its parts.
#[derive(Drop)]
pub(crate) struct LentBody<'a> {
    bytes: Option<&'a [u8]>,
}

impl<'a> Model for LentBody<'a> {
    ghost use Rattle.std.specs.Prelude.{List, ℕ};
    ghost use Rattle.peer_link.specs.Bodies.{lent_parts};

    ghost Value = { List (List ℕ) };

    ghost view = { λ body. lent_parts body.bytes };
}

impl<'a> LentBody<'a> {
    pub(crate) fn new(bytes: Option<&'a [u8]>) -> LentBody<'a>
        ensures { result ≡ lent_parts bytes.entry }
    {
        LentBody { bytes }
    }
}

impl<'a> Iterator for LentBody<'a> {
    type Item = &'a [u8];

    ghost next_gives = { YieldsFirstRef (λ body. body) };

    ghost remaining = { item_count (λ body. body) };

    fn next(&mut self) -> Option<&'a [u8]> {
        self.bytes.take()
    }
}

impl<'a> BodyParts for LentBody<'a> {
    ghost use Rattle.std.proofs.Math.Nat.{le_refl};
    ghost use Rattle.std.specs.Prelude.{length};

    ghost text = { λ part. part.now };

    ghost texts = { λ body. body };

    fn bytes<'p>(part: &'p &'a [u8]) -> &'p [u8] {
        part
    }

    fn length(&self) -> u64 {
        match self.bytes {
            Some(bytes) => bytes.len() as u64,
            None => 0,
        }
    }

    ghost gives = { λ old part new gave. gave };

    ghost can = { λ parts. tt };

    ghost ends = { λ parts. (tt, le_refl (length parts)) };
}
