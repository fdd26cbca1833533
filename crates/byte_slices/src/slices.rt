//! Slices that are written one after another.
ghost use Rattle.std.specs.Prelude.{◌≡◌, ◌-◌, ◌<◌, ◌≤◌, ◌↔◌, ◌++◌, IsTrue, ℕ, List, drop, length, take};
ghost use Rattle.byte_slices.specs.Slices.{first_of, joined};

/// Four slices that are written one after another: as many as the toolchain's call `sendv` takes. Each of them may be empty.
#[derive(Clone, Copy, Debug)]
pub struct Slices<'a> {
    pub first: &'a [u8],
    pub second: &'a [u8],
    pub third: &'a [u8],
    pub fourth: &'a [u8],
}

// Drops so many bytes of a slice, from its front, or all of it; and answers how many are still to be dropped.
fn skip(slice: &mut &[u8], count: usize) -> usize
    ensures slice { slice.new.now ≡ drop count slice.old.now }
    ensures left { result ≡ count - length slice.old.now }
{
    let covered = count.min(slice.len());
    *slice = &slice[covered..];
    count - covered
}

// Cuts a slice down to so many bytes, and answers how many there may still be after it.
fn limit(slice: &mut &[u8], most: usize) -> usize
    ensures slice { slice.new.now ≡ take most slice.old.now }
    ensures left { result ≡ most - length slice.old.now }
{
    let kept = most.min(slice.len());
    *slice = &slice[..kept];
    most - kept
}

impl<'a> Slices<'a> {
    /// Whether none of them has a byte.
    pub fn is_empty(&self) -> bool
        ensures { IsTrue result ↔ (length (joined self.now) ≡ 0) }
    {
        self.front().is_empty()
    }

    /// The first of them that has a byte; an empty one, where none has.
    pub fn front(&self) -> &'a [u8]
        ensures first { result.now ≡ first_of self.now }
        ensures front { (rest : List ℕ) × (joined self.now ≡ result.now ++ rest) }
        ensures some { 0 < length (joined self.now) → 0 < length result.now }
    {
        if !self.first.is_empty() {
            return self.first;
        }
        if !self.second.is_empty() {
            return self.second;
        }
        if !self.third.is_empty() {
            return self.third;
        }
        self.fourth
    }

    /// Drops so many bytes, from the front.
    pub fn skip(&mut self, count: usize)
        ensures joined { joined self.new ≡ drop count (joined self.old) }
        ensures first { self.new.first.now ≡ drop count self.old.first.now }
    {
        let count = skip(&mut self.first, count);
        let count = skip(&mut self.second, count);
        let count = skip(&mut self.third, count);
        skip(&mut self.fourth, count);
    }

    /// The front of them that has so many bytes at most.
    pub fn up_to(&self, most: usize) -> Slices<'a>
        ensures { joined result ≡ take most (joined self.now) }
    {
        let mut slices = *self;
        let most = limit(&mut slices.first, most);
        let most = limit(&mut slices.second, most);
        let most = limit(&mut slices.third, most);
        limit(&mut slices.fourth, most);
        slices
    }
}
