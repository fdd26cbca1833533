//! What a worker keeps of the replies that it sent.
ghost use Rattle.std.specs.Prelude.{◌≡◌, IfSome};

use crate::kept::Kept;
use site_desk::DeskName;
use std::alloc::Global;
use std::hash::{FoldHasher, Hasher};

/// How many replies are kept at most.
const PLACES: usize = 4096;

/// How many bytes of memory a place takes beside what is kept there.
const PLACE: usize = 80;

/// What tells a head from most others.
fn tag_of(head: &[u8]) -> u64 {
    let mut hasher = FoldHasher::default();
    hasher.write(head);
    hasher.finish()
}

/// The number of the place of a head with this tag. Several heads may have one place.
fn number_of(tag: u64) -> usize {
    (tag % PLACES as u64) as usize
}

/// A place for one reply, and the tag of the head that wanted it last.
#[derive(Drop)]
struct Place<J: DeskName> {
    wanted: u64,
    kept: Option<Kept<J>>,
}

/// The small replies that a worker keeps. Each head has one place, where a later reply takes that of an earlier one. A reply is kept once its head comes a
/// second time, and none of its place came between: so heads that come once cost no room. If there is no room for a reply, others go, one place after another.
#[derive(Drop)]
pub struct Memory<J: DeskName> {
    places: Vec<Place<J>>,
    /// The place that gives room next.
    next: usize,
    /// How many bytes of memory the replies take, and may take.
    bytes: usize,
    most: usize,
}

impl<J: DeskName> Memory<J> {
    /// One that keeps nothing yet, and takes so many bytes of memory at most.
    pub fn new(alloc: Global, most: usize) -> Memory<J> {
        Memory {
            places: Vec::new(alloc),
            next: 0,
            bytes: 0,
            most: most.saturating_sub(PLACES * PLACE),
        }
    }

    /// What is kept at the place of a head, if it is the reply to it.
    pub(crate) fn at(&self, head: &[u8]) -> Option<&Kept<J>>
        ensures { IfSome result (λ kept. kept.now ≡ head.now) }
    {
        let kept = self.places.get(number_of(tag_of(head)))?.kept.as_ref()?;
        if !kept.is_to(head) {
            return None;
        }
        Some(kept)
    }

    /// Whether the reply to this head, which isn't kept, is to be kept.
    pub(crate) fn wants(&mut self, head: &[u8]) -> bool {
        if !self.open() {
            return false;
        }
        let tag = tag_of(head);
        let Some(place) = self.places.get_mut(number_of(tag)) else {
            return false;
        };
        let came = place.wanted == tag;
        place.wanted = tag;
        came
    }

    /// Keeps a reply, if there is room for it.
    pub(crate) fn keep(&mut self, kept: Kept<J>) {
        let size = kept.size();
        let number = number_of(tag_of(kept.head()));
        self.give(number);
        self.make_room(size);
        if self.bytes.saturating_add(size) > self.most {
            return;
        }
        if let Some(place) = self.places.get_mut(number) {
            place.kept = Some(kept);
            self.bytes = self.bytes.saturating_add(size);
        }
    }

    /// Makes the places, where there are none. There may be no memory for them.
    fn open(&mut self) -> bool {
        if !self.places.is_empty() {
            return true;
        }
        for _ in 0..PLACES {
            let place = Place {
                wanted: 0,
                kept: None,
            };
            if self.places.push(place).is_err() {
                return false;
            }
        }
        true
    }

    /// Lets go what is kept at the place of this number.
    fn give(&mut self, number: usize) {
        let Some(place) = self.places.get_mut(number) else {
            return;
        };
        if let Some(kept) = place.kept.take() {
            self.bytes = self.bytes.saturating_sub(kept.size());
        }
    }

    /// Lets go some replies, until there is room for so many bytes more.
    fn make_room(&mut self, size: usize) {
        for _ in 0..PLACES {
            if self.bytes.saturating_add(size) <= self.most {
                return;
            }
            self.give(self.next);
            self.next = self.next.wrapping_add(1) % PLACES;
        }
    }
}
