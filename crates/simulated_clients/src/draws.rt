//! Numbers that look as if drawn.

/// What draws them: a generator (xorshift64) that begins with this number.
#[derive(Clone, Copy, Debug, PartialEq, Eq)]
pub struct Draws {
    state: u64,
}

impl Draws {
    /// Those that begin with this number.
    pub fn new(seed: u64) -> Draws {
        let mut draws = Draws {
            state: seed ^ 0x9E37_79B9_7F4A_7C15,
        };
        if draws.state == 0 {
            draws.state = 1;
        }
        // The first few of near numbers are like each other.
        for _ in 0..8 {
            draws.draw();
        }
        draws
    }

    /// The next.
    pub fn draw(&mut self) -> u64 {
        let mut state = self.state;
        state ^= state << 13;
        state ^= state >> 7;
        state ^= state << 17;
        self.state = state;
        state
    }

    /// The next of those below this one.
    pub fn below(&mut self, bound: u64) -> u64 {
        self.draw().checked_rem(bound).unwrap_or(0)
    }

    /// One of these.
    pub fn one_of(&mut self, numbers: &[u64]) -> u64 {
        let at = self.below(numbers.len() as u64) as usize;
        numbers.get(at).copied().unwrap_or(0)
    }
}
