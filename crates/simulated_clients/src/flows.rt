//! How many bytes a client moved of late, as far as docs/WIRE.md lets that be known: between the last 10 seconds and the last 20.

/// How many milliseconds a span has: four of them are within 10 seconds, and ten of them are more than 20.
const SPAN: u64 = 2_500;

/// How many spans are within 10 seconds.
const WITHIN: usize = 4;

/// How many bytes moved in each of the last spans of time, the newest first.
#[derive(Clone, Copy, Debug, PartialEq, Eq)]
pub struct Flow {
    span: u64,
    moved: [u64; 10],
}

impl Flow {
    /// Nothing moved yet.
    pub fn new() -> Flow {
        Flow {
            span: 0,
            moved: [0; 10],
        }
    }

    /// How many bytes moved in the span that is so many before that of this time.
    fn moved_before(&self, now: u64, spans: usize) -> u64 {
        let later = (now / SPAN).saturating_sub(self.span) as usize;
        if spans < later || spans.saturating_sub(later) >= self.moved.len() {
            return 0;
        }
        self.moved[spans.saturating_sub(later)]
    }

    /// So many bytes moved now.
    pub fn add(&mut self, bytes: u64, now: u64) {
        let mut moved = [0; 10];
        for at in 0..10 {
            moved[at] = self.moved_before(now, at);
        }
        moved[0] = moved[0].saturating_add(bytes);
        self.moved = moved;
        self.span = now / SPAN;
    }

    /// How many moved in the last 10 seconds, or in a little less.
    pub fn least(&self, now: u64) -> u64 {
        let mut sum = 0_u64;
        for at in 0..WITHIN {
            sum = sum.saturating_add(self.moved_before(now, at));
        }
        sum
    }

    /// How many moved in the last 22 seconds, or in a little more.
    pub fn most(&self, now: u64) -> u64 {
        let mut sum = 0_u64;
        for at in 0..10 {
            sum = sum.saturating_add(self.moved_before(now, at));
        }
        sum
    }
}
