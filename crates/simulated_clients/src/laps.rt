//! Since when a head, a body or a reply goes on, as far as its time goes.

/// How many bytes of a body or of a reply begin its time anew.
const PIECE: u64 = 61_440;

/// Since when a time runs, and how many bytes moved since.
#[derive(Clone, Copy, Debug, PartialEq, Eq)]
pub struct Lap {
    pub since: u64,
    moved: u64,
}

impl Lap {
    /// One that begins at this time.
    pub fn new(now: u64) -> Lap {
        Lap {
            since: now,
            moved: 0,
        }
    }

    /// So many bytes moved now. The time begins anew if something else begins, and with each piece of what is counted in pieces.
    pub fn note(&mut self, moved: u64, begins: bool, has_pieces: bool, now: u64) {
        self.moved = self.moved.saturating_add(moved);
        if begins || has_pieces && self.moved >= PIECE {
            *self = Lap::new(now);
        }
    }
}
