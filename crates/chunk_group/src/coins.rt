//! The coin that decides which chunks from peers are kept.
ghost use Rattle.std.specs.Prelude.{◌<◌, ◌≡◌};

/// Draws a number for each chunk that a peer gave.
pub trait Coin {
    ghost use Rattle.std.specs.Prelude.{ℕ};

    /// What a draw, with its number, leads from and to.
    ghost drew: { Self → ℕ → Self → Type 0 };

    /// A number from 0 to 9.
    fn draw(&mut self) -> u8
        ensures drew { drew self.old result self.new }
        ensures range { result < 10 };
}

/// Draws 0, 1, and so on up to 9, and then 0 again.
#[derive(Drop, Debug)]
pub struct Counter {
    next: u8,
    ghost range: { next < 10 },
}

impl Counter {
    /// A counter that draws 0 first.
    pub fn new() -> Counter
        ensures { result.next ≡ 0 }
    {
        Counter { next: 0 }
    }
}

impl Coin for Counter {
    ghost use Rattle.std.specs.Prelude.{◌≡◌, ◌+◌, ◌%◌};

    ghost drew = { λ old number new. (number ≡ old.next) × (new.next ≡ (number + 1) % 10) };

    fn draw(&mut self) -> u8 {
        let number = self.next;
        self.next = (number + 1) % 10;
        number
    }
}
