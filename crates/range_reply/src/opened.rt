//! One part of a body: its head, its bytes and what comes after them.
ghost use Rattle.std.specs.Prelude.{◌≡◌, ℕ, List, [], ◌∷◌, ◌++◌, MatchOption, codes, length, option_map};
ghost use Rattle.std.specs.Iterator.{YieldsFirstBy};
ghost use Rattle.byte_view.specs.BodyParts.{text_of as part_text};
ghost use Rattle.byte_view.specs.Holds.{lent};
ghost use Rattle.range_reply.specs.PartTexts.{pieces_in, range_line, stretch_texts};

use crate::boundaries::Boundary;
use crate::texts::{line_before_type, line_behind_type, text_in};
use byte_view::{Hold, Part, Pieces};

/// What the heads of all parts say: the boundary before each part, and the type of the file.
#[derive(Drop)]
pub struct Heads<'a> {
    pub boundary: Option<Boundary>,
    pub content_type: &'a str,
}

/// What is left to give of the head of a part.
#[derive(Clone, Copy, Debug)]
pub enum Heading {
    /// All of it, from the boundary's line on.
    Whole,
    /// The type of the file, and what comes after it.
    FromType,
    /// What comes after the type.
    FromRange,
    /// Nothing.
    Done,
}

/// What is left to give of one of several parts, of a single stretch or of a single text.
#[derive(Drop)]
pub struct Opened<'a> {
    /// What comes before the bytes. Its texts are made when they are taken, so an `Opened` is small and cheap to move.
    heading: Heading,
    /// The first and the last byte of the stretch, and how many bytes its file has.
    first: usize,
    last: usize,
    size: u64,
    /// The bytes of the stretch.
    pieces: Option<Pieces<'a>>,
    /// What comes after the bytes.
    end: Option<&'a [u8]>,
}

impl<'a> Opened<'a> {
    ghost use Rattle.range_reply.specs.PartTexts.{heading_of, opened_texts, range_of, rest_texts};
    ghost use Rattle.range_reply.specs.declared.opened.Heading.TheVariants.{Done, Whole};

    /// Returns an `Opened` with nothing to give.
    pub fn none() -> Opened<'a>
        ensures bare { result.heading ≡ Done }
        ensures rest { rest_texts result ≡ [] }
    {
        Opened {
            heading: Heading::Done,
            first: 0,
            last: 0,
            size: 0,
            pieces: None,
            end: None,
        }
    }

    /// Returns an `Opened` that gives this text alone.
    pub fn text(bytes: &'a [u8]) -> Opened<'a>
        ensures bare { result.heading ≡ Done }
        ensures rest { rest_texts result ≡ bytes.now ∷ [] }
    {
        Opened {
            heading: Heading::Done,
            first: 0,
            last: 0,
            size: 0,
            pieces: None,
            end: Some(bytes),
        }
    }

    /// Returns an `Opened` that gives what a hold shows of its stretch.
    fn stretch(hold: &'a Hold) -> Opened<'a>
        ensures bare { result.heading ≡ Done }
        ensures rest { rest_texts result ≡ lent hold.now hold.now.first hold.now.last }
    {
        let (first, last) = hold.stretch();
        Opened {
            heading: Heading::Done,
            first,
            last,
            size: 0,
            pieces: Some(hold.pieces(first, last)),
            end: None,
        }
    }

    /// Returns an `Opened` that gives what a hold shows of its stretch, or nothing if there is no hold.
    #[inline(always)]
    pub fn of_stretch(hold: Option<&'a Hold>) -> Opened<'a>
        ensures bare { result.heading ≡ Done }
        ensures rest { rest_texts result ≡ stretch_texts (option_map (λ h. h.now) hold.entry) }
    {
        match hold {
            Some(hold) => Opened::stretch(hold),
            None => Opened::none(),
        }
    }

    /// Returns the part for the stretch of a hold whose file has `size` bytes.
    pub fn part(hold: &'a Hold, size: u64) -> Opened<'a>
        requires { length hold.now.file ≡ size }
        ensures whole { result.heading ≡ Whole }
        ensures range { range_of result ≡ range_line (hold.now.first, hold.now.last) (length hold.now.file) }
        ensures rest { rest_texts result ≡ lent hold.now hold.now.first hold.now.last ++ codes "\r\n" ∷ [] }
    {
        let (first, last) = hold.stretch();
        Opened {
            heading: Heading::Whole,
            first,
            last,
            size,
            pieces: Some(hold.pieces(first, last)),
            end: Some(b"\r\n"),
        }
    }

    /// Takes the next text of the head.
    fn next_of_head(&mut self, heads: &Heads<'a>) -> Option<Part<'a>>
        ensures head { YieldsFirstBy part_text (heading_of heads.now) self.old result self.new }
        ensures others { self.new ≡ record self.old { heading = self.new.heading } }
    {
        match self.heading {
            Heading::Whole => {
                self.heading = Heading::FromType;
                Some(Part::Text(line_before_type(text_in(&heads.boundary).as_str())))
            }
            Heading::FromType => {
                self.heading = Heading::FromRange;
                Some(Part::Lent(heads.content_type.as_bytes()))
            }
            Heading::FromRange => {
                self.heading = Heading::Done;
                let (first, last) = (self.first as u64, self.last as u64);
                Some(Part::Text(line_behind_type(first, last, self.size)))
            }
            Heading::Done => None,
        }
    }

    /// Takes the next piece of the stretch.
    fn next_piece(&mut self) -> Option<&'a [u8]>
        ensures piece { MatchOption result
            ((pieces_in self.old.pieces ≡ []) × (pieces_in self.new.pieces ≡ []))
            (λ piece. pieces_in self.old.pieces ≡ piece.now ∷ pieces_in self.new.pieces) }
        ensures others { self.new ≡ record self.old { pieces = self.new.pieces } }
    {
        match &mut self.pieces {
            Some(pieces) => pieces.next(),
            None => None,
        }
    }

    /// Takes the first part that is left.
    #[inline(always)]
    pub fn take(&mut self, heads: &Heads<'a>) -> Option<Part<'a>>
        ensures { YieldsFirstBy part_text (opened_texts heads.now) self.old result self.new }
    {
        if let Some(part) = self.next_of_head(heads) {
            return Some(part);
        }
        if let Some(piece) = self.next_piece() {
            return Some(Part::Lent(piece));
        }
        match self.end.take() {
            Some(end) => Some(Part::Lent(end)),
            None => None,
        }
    }
}
