//! A node by the plainest means: lists of numbers, and a count of draws.

use super::fixtures::{Gift, gift_at};
use chunk_reads::ReadFault;
use std::alloc::{AllocError, Global};

/// What its peers give, in turn.
pub(super) const FETCHES: [Gift; 7] = [
    Gift::Right,
    Gift::Right,
    Gift::Other,
    Gift::Right,
    Gift::Short,
    Gift::Right,
    Gift::Nothing,
];

/// What its source gives, in turn.
pub(super) const LOADS: [Gift; 6] = [
    Gift::Right,
    Gift::Right,
    Gift::Nothing,
    Gift::Right,
    Gift::Other,
    Gift::Short,
];

/// The numbers of the chunks in its caches, the last used first; how often who was asked, and how often the coin was drawn.
#[derive(Drop)]
pub(super) struct PlainNode {
    pub(super) limit: usize,
    main: Vec<usize>,
    hot: Vec<usize>,
    draws: u64,
    pub(super) fetches: u64,
    pub(super) loads: u64,
}

/// What these chunks count: each 40, and its bytes.
fn size_of(numbers: &[usize]) -> usize {
    let mut size: usize = 0;
    for number in numbers {
        size = size.saturating_add(40 + number % 97 + 20);
    }
    size
}

/// Moves a number to the front, if it is there.
fn touch(numbers: &mut Vec<usize>, number: usize) -> Result<bool, AllocError> {
    if !numbers.contains(&number) {
        return Ok(false);
    }
    numbers.retain(|other| *other != number);
    numbers.insert(0, number)?;
    Ok(true)
}

impl PlainNode {
    pub(super) fn new(alloc: Global, limit: usize) -> PlainNode {
        PlainNode {
            limit,
            main: Vec::new(alloc),
            hot: Vec::new(alloc),
            draws: 0,
            fetches: 0,
            loads: 0,
        }
    }

    /// Lets the last chunks go until the others count no more than the limit: of hot where it counts more than an eighth of main.
    fn evict(&mut self) {
        for _ in 0..100 {
            let main = size_of(self.main.as_slice());
            let hot = size_of(self.hot.as_slice());
            if main.saturating_add(hot) <= self.limit {
                return;
            }
            if hot > main / 8 {
                self.hot.pop();
            } else {
                self.main.pop();
            }
        }
    }

    /// Whether the peer gives the chunk, which is kept in hot once in ten times, the first of them first.
    fn fetch(&mut self, number: usize) -> Result<bool, AllocError> {
        let gift = gift_at(&FETCHES, self.fetches);
        self.fetches = self.fetches.wrapping_add(1);
        if gift != Gift::Right {
            return Ok(false);
        }
        if self.draws % 10 == 0 {
            self.hot.insert(0, number)?;
            self.evict();
        }
        self.draws = self.draws.wrapping_add(1);
        Ok(true)
    }

    /// The fault of the source, or none: then the chunk is kept in main.
    fn load(&mut self, number: usize) -> Result<Option<ReadFault>, AllocError> {
        let gift = gift_at(&LOADS, self.loads);
        self.loads = self.loads.wrapping_add(1);
        match gift {
            Gift::Nothing => return Ok(Some(ReadFault::Missing)),
            Gift::Short => return Ok(Some(ReadFault::Device)),
            Gift::Other => return Ok(Some(ReadFault::Damaged)),
            Gift::Right => {}
        }
        self.main.insert(0, number)?;
        self.evict();
        Ok(None)
    }

    /// The fault that a read answers, or none.
    pub(super) fn read(
        &mut self,
        number: usize,
        is_mine: bool,
    ) -> Result<Option<ReadFault>, AllocError> {
        if touch(&mut self.main, number)? || touch(&mut self.hot, number)? {
            return Ok(None);
        }
        if !is_mine && self.fetch(number)? {
            return Ok(None);
        }
        self.load(number)
    }
}
