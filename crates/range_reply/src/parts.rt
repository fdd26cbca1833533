//! The parts of a body, in order. The bytes of the file are lent as they lie.
ghost use Rattle.std.specs.Prelude.{◌≡◌, ℕ, List, [], ◌∷◌, All, MatchOption, Some, None, true, false, length, option_map};
ghost use Rattle.std.specs.Iterator.{YieldsFirstBy, at_most};
ghost use Rattle.byte_view.specs.BodyParts.{text_of as part_text};
ghost use Rattle.byte_view.specs.Holds.{Held};
ghost use Rattle.range_reply.specs.Bodies as spec;
ghost use Rattle.range_reply.specs.Multipart.{last_line, text_of};
ghost use Rattle.range_reply.specs.PartTexts.{length_of, several_texts, stretch_texts};

use crate::boundaries::Boundary;
use crate::opened::{Heads, Opened};
use crate::texts::{last_line, text_in};
use byte_view::{BodyParts, Hold, Part};
use http_wire::FieldText;
use std::iter::Iterator;
use std::marker::Model;

/// What is left to give of a body.
#[derive(Drop)]
struct Queue<'a> {
    /// What comes first.
    opened: Opened<'a>,
    /// The holds whose parts come next, what the heads of these parts say, and how many bytes the file has.
    holds: &'a [Hold],
    heads: Heads<'a>,
    size: u64,
    /// Whether the last boundary's line comes at the end.
    ends: bool,
}

impl<'a> Queue<'a> {
    ghost use Rattle.range_reply.specs.PartTexts.{IsOfSize, queue_texts, rest_texts};
    ghost use Rattle.range_reply.specs.declared.opened.Heading.TheVariants.{Done};

    /// Makes the queue that gives only `opened`, which has no head.
    fn only(opened: Opened<'a>) -> Queue<'a>
        requires { opened.heading ≡ Done }
        ensures texts { queue_texts result ≡ rest_texts opened.entry }
        ensures sized { IsOfSize result }
    {
        Queue {
            opened,
            holds: &[],
            heads: Heads {
                boundary: None,
                content_type: "",
            },
            size: 0,
            ends: false,
        }
    }

    /// Takes the last boundary's line, if it is left.
    fn take_end(&mut self) -> Option<Part<'a>>
        ensures end { MatchOption result (self.old.ends ≡ false)
            (λ part. (self.old.ends ≡ true) × (part_text part ≡ last_line (spec.text_in self.old.heads.boundary))) }
        ensures others { self.new ≡ record self.old { ends = false } }
    {
        if !self.ends {
            return None;
        }
        self.ends = false;
        Some(Part::Text(last_line(text_in(&self.heads.boundary).as_str())))
    }

    /// Takes the first part that is left.
    #[inline(always)]
    fn take(&mut self) -> Option<Part<'a>>
        requires { IsOfSize self.old }
        ensures first { YieldsFirstBy part_text queue_texts self.old result self.new }
        ensures sized { IsOfSize self.new }
    {
        if let Some(part) = self.opened.take(&self.heads) {
            return Some(part);
        }
        if let Some((hold, rest)) = self.holds.split_first() {
            self.opened = Opened::part(hold, self.size);
            self.holds = rest;
            return self.opened.take(&self.heads);
        }
        self.take_end()
    }
}

/// The parts of a body, in order. Contracts see the texts of the parts that are left. Making a `Parts` allocates nothing.
#[derive(Drop)]
pub struct Parts<'a> {
    queue: Queue<'a>,
    /// How many bytes the parts that are left have.
    length: u64,
}

impl<'a> Model for Parts<'a> {
    ghost use Rattle.std.specs.Prelude.{◌≡◌, ℕ, List};
    ghost use Rattle.range_reply.specs.PartTexts.{IsOfSize, length_of, queue_texts};

    ghost Value = { List (List ℕ) };

    ghost view = { λ p. queue_texts p.queue };

    ghost invariant = { λ p. IsOfSize p.queue × (p.length ≡ length_of (queue_texts p.queue)) };
}

impl<'a> Parts<'a> {
    /// Returns these bytes alone, as one part.
    pub fn of(bytes: &'a [u8]) -> Parts<'a>
        ensures { result ≡ bytes.now ∷ [] }
    {
        Parts {
            queue: Queue::only(Opened::text(bytes)),
            length: bytes.len() as u64,
        }
    }

    /// Returns the parts that show the stretch of a hold, or no parts if there is no hold. They have `total` bytes.
    #[inline(always)]
    pub(crate) fn of_stretch(hold: Option<&'a Hold>, total: u64) -> Parts<'a>
        requires { total ≡ length_of (stretch_texts (option_map (λ h. h.now) hold)) }
        ensures { result ≡ stretch_texts (option_map (λ h. h.now) hold.entry) }
    {
        Parts {
            queue: Queue::only(Opened::of_stretch(hold)),
            length: total,
        }
    }

    /// Returns the parts for the stretches of holds, with this boundary between them. The file of the holds has `size` bytes.
    #[inline(never)]
    pub(crate) fn of_several(
        holds: &'a [Hold],
        size: u64,
        boundary: &Boundary,
        content_type: FieldText<'a>,
        total: u64,
    ) -> Parts<'a>
        requires sized { All (λ (h : Held). length h.file ≡ size) holds.now }
        requires long { total ≡ length_of (several_texts (text_of boundary.now) content_type.text.now holds.now) }
        ensures { result ≡ several_texts (text_of boundary.now) content_type.entry.text.now holds.now }
    {
        Parts {
            queue: Queue {
                opened: Opened::none(),
                holds,
                heads: Heads {
                    boundary: Some(*boundary),
                    content_type: content_type.as_str(),
                },
                size,
                ends: true,
            },
            length: total,
        }
    }
}

impl<'a> Iterator for Parts<'a> {
    type Item = Part<'a>;

    ghost next_gives = { YieldsFirstBy part_text (λ parts. parts) };

    ghost remaining = { λ parts. at_most (length parts) };

    #[inline(always)]
    fn next(&mut self) -> Option<Part<'a>> {
        let part = self.queue.take();
        if let Some(part) = &part {
            self.length -= part.bytes().len() as u64;
        }
        part
    }
}

impl<'a> BodyParts for Parts<'a> {
    ghost use Rattle.std.proofs.Common.{arith};
    ghost use Rattle.byte_view.specs.BodyParts.{text_of as part_text};

    ghost text = { part_text };

    ghost texts = { λ parts. parts };

    fn bytes<'p>(part: &'p Part<'a>) -> &'p [u8] {
        part.bytes()
    }

    fn length(&self) -> u64 {
        self.length
    }

    ghost gives = { λ old part new given. given };

    ghost can = { λ parts. tt };

    ghost ends = { λ parts. (tt, omega arith) };
}
