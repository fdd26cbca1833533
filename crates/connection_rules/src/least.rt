//! Which of the connections has the least number.
ghost use Rattle.std.specs.Prelude.{◌≡◌};
ghost use Rattle.connection_rules.specs.Least.{lesser_of, nobody};

use std::marker::Model;

/// Of the connections that were looked at, the place of the one with the least number, and that number: since when it waits, say, or how many bytes it
/// moved. Of those with the same number it is the first.
#[derive(Drop)]
pub struct Least {
    found: Option<(usize, u64)>,
}

impl Model for Least {
    ghost use Rattle.std.specs.Prelude.{ℕ, Option};

    ghost Value = { Option (ℕ × ℕ) };

    ghost view = { λ least. least.found };
}

impl Least {
    /// None was looked at.
    pub fn new() -> Least
        ensures { result ≡ nobody }
    {
        Least { found: None }
    }

    /// Looks at one more, which has this number.
    pub fn look(&mut self, place: usize, number: u64)
        ensures { self.new ≡ lesser_of self.old (place, number) }
    {
        let is_less = match self.found {
            Some((_, least)) => number < least,
            None => true,
        };
        if is_less {
            self.found = Some((place, number));
        }
    }

    /// The place of the one with the least number, and that number.
    pub fn found(&self) -> Option<(usize, u64)>
        ensures { result ≡ self.now }
    {
        self.found
    }
}
