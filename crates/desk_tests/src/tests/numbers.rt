//! Lists of numbers, each one more than the one before.
ghost use Rattle.std.specs.Prelude.{◌≡◌, ◌+◌, ◌<◌};

use growing::Growing;
use seen_lists::{Front, ListName, NewList, SeenList};
use std::marker::{Brand, Model};

/// A number. A greater one is later.
#[derive(Drop)]
pub(crate) struct Number {
    number: u64,
}

impl Model for Number {
    ghost use Rattle.std.specs.Prelude.{ℕ};

    ghost Value = { ℕ };

    ghost view = { λ n. n.number };
}

impl Number {
    pub(crate) fn of(number: u64) -> Number
        ensures { result ≡ number }
    {
        Number { number }
    }
}

impl Growing for Number {
    ghost use Rattle.std.specs.Prelude.{◌≤◌};
    ghost use Rattle.desk_tests.specs.Numbers as numbers;

    ghost is_later = { λ old new. old ≤ new };

    ghost itself = { numbers.itself };

    ghost goes_on = { numbers.goes_on };
}

impl ListName<Number> for Brand {
    ghost book = { record { number = 0; log_name = 0; cells_name = 0 } };

    ghost found = { 0 };
}

/// Pushes the next number.
pub(crate) fn push_next<L: ListName<Number>>(list: &mut SeenList<Number, L>)
    requires next { list.old.now ≡ list.old.times }
    requires few { list.old.times < 9 }
    ensures times { list.new.times ≡ list.old.times + 1 }
    ensures next { list.new.now ≡ list.new.times }
{
    list.push(&Number::of(list.len() + 1));
}

/// A list that counts its pushes. Contracts see how many there were.
#[derive(Drop)]
pub(crate) struct Counter<L: ListName<Number>> {
    list: SeenList<Number, L>,
}

impl<L: ListName<Number>> Model for Counter<L> {
    ghost use Rattle.std.specs.Prelude.{◌≡◌, ℕ};

    ghost Value = { ℕ };

    ghost view = { λ c. c.list.times };

    ghost invariant = { λ c. c.list.now ≡ c.list.times };
}

impl<L: ListName<Number>> Counter<L> {
    pub(crate) fn of(new: NewList<Number>) -> Counter<L>
        requires book { new ≡ L.book }
        requires found { L.found ≡ 0 }
        ensures { result ≡ 0 }
    {
        Counter {
            list: new.named::<L>(),
        }
    }

    /// The list.
    pub(crate) fn list(&self) -> &SeenList<Number, L>
        ensures { result.now.times ≡ self.now }
    {
        &self.list
    }

    /// Pushes the next number.
    pub(crate) fn push(&mut self)
        requires { self.old < 9 }
        ensures { self.new ≡ self.old + 1 }
    {
        push_next(&mut self.list);
    }

    /// Tells a front what the list is now.
    pub(crate) fn tell(&mut self, front: &mut Front<Number, L>)
        ensures { self.new ≡ self.old }
    {
        self.list.tell(front);
    }
}
