//! How a simulated node is made.
use crate::draws::Draws;

/// What most requests of a run ask for.
#[derive(Clone, Copy, Debug, PartialEq, Eq)]
pub enum Taste {
    Mixed,
    /// Replies that hold nothing.
    Small,
    Bodies,
    Replies,
}

/// How a node is made.
#[derive(Clone, Copy, Debug, PartialEq, Eq)]
pub struct Plan {
    pub workers: usize,
    pub places: u64,
    pub clients: u64,
    /// How many sockets one wait tells of.
    pub told: usize,
    pub taste: Taste,
    /// Whether much time passes at once, and whether calls of the system fail for once.
    pub is_slow: bool,
    pub is_faulty: bool,
    /// What clients do in the middle of a turn, and how time passes there, is drawn from this.
    pub seed: u64,
}

/// How many bytes a client sends or takes at once, and how many where bodies or replies are large.
const PIECES: [u64; 8] = [1, 10, 40, 200, 5_000, 100_000, 3_000_000, 20_000_000];

const LARGE_PIECES: [u64; 6] = [40, 5_000, 200_000, 1_000_000, 4_000_000, 20_000_000];

/// How many bytes a client sends or takes now.
pub fn draw_piece(draws: &mut Draws, taste: Taste) -> u64 {
    match taste {
        Taste::Mixed | Taste::Small => draws.one_of(&PIECES),
        Taste::Bodies | Taste::Replies => draws.one_of(&LARGE_PIECES),
    }
}

impl Plan {
    /// One that is drawn.
    pub fn draw(draws: &mut Draws) -> Plan {
        let clients = if draws.below(2) == 0 {
            u64::MAX
        } else {
            draws.below(30).saturating_add(1)
        };
        let told = if draws.below(2) == 0 {
            60
        } else {
            draws.below(4).saturating_add(1) as usize
        };
        let taste = match draws.below(6) {
            0 => Taste::Small,
            1 | 2 => Taste::Bodies,
            3 => Taste::Replies,
            _ => Taste::Mixed,
        };
        // Of few workers one has several bodies that wait.
        let most = if taste == Taste::Bodies { 2 } else { 3 };
        let workers = draws.below(most).saturating_add(2) as usize;
        let is_large = taste == Taste::Bodies || taste == Taste::Replies;
        let places = if is_large {
            draws.below(5).saturating_add(8)
        } else {
            draws.below(9).saturating_add(2)
        };
        Plan {
            workers,
            places,
            clients,
            told,
            taste,
            is_slow: draws.below(2) == 0,
            is_faulty: draws.below(2) == 0,
            seed: draws.draw(),
        }
    }

    /// The number of a worker, if the node has so many.
    pub fn worker(&self, number: usize) -> Option<usize> {
        if number < self.workers {
            Some(number)
        } else {
            None
        }
    }
}
