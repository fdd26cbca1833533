//! Postings: under which keys a change is found.

use persistent_maps::{Probe, Span};
use std::cmp::Ordering;

/// The change with this number is posted under this key. Postings are ordered by key and then by number, so that the changes under one key
/// are side by side. A posting takes 16 bytes.
#[derive(Clone, Copy, PartialEq, Eq, PartialOrd, Ord)]
pub struct Posting {
    pub key: u64,
    pub number: u64,
}

impl Probe<Posting> for Posting {
    ghost sought = { λ p. p };

    fn compare(&self, posting: &Posting) -> Ordering {
        posting.cmp(self)
    }
}

/// The postings under a key of the numbers above this one.
#[derive(Drop)]
pub(crate) struct Above {
    pub(crate) key: u64,
    pub(crate) number: u64,
}

impl Span<Posting> for Above {
    ghost use Rattle.touch_index.specs.Postings.{is_above, is_up_to};
    ghost use Rattle.touch_index.specs.PostingOrder.{above_together};

    ghost before = { λ s. is_up_to s.key s.number };

    ghost within = { λ s. is_above s.key s.number };

    ghost together = { λ s. above_together s.key s.number };

    fn is_before(&self, posting: &Posting) -> bool {
        posting.key < self.key || (posting.key == self.key && posting.number <= self.number)
    }

    fn is_within(&self, posting: &Posting) -> bool {
        posting.key == self.key && self.number < posting.number
    }
}
