//! The loop of a worker.
ghost use Rattle.std.specs.Prelude.{◌≡◌, ◌+◌, ◌<◌, ◌^◌, ℕ, MatchOption};

use std::sync::Wait;

/// Where a worker's turns come from.
pub trait Turns {
    type Turn;

    // How many turns it gave so far, and whether it gives no more.
    ghost taken: { Self → ℕ };

    ghost ended: { Self → Type 0 };

    /// The next turn; none where there are no more.
    fn next(&mut self) -> Option<Self::Turn>
        ensures counted { MatchOption result ((taken self.new ≡ taken self.old) × ended self.new)
            (λ _. taken self.new ≡ taken self.old + 1) }
        ensures few { taken self.new < 2 ^ 64 };
}

/// What does the turns.
pub trait Takes<T> {
    // How many turns it did so far.
    ghost done: { Self → ℕ };

    fn take(&mut self, turn: T)
        requires room { done self.old + 1 < 2 ^ 64 }
        ensures { done self.new ≡ done self.old + 1 };
}

/// Does each turn that comes, once, and returns where no more come.
pub fn work<R: Wait, A: Turns, S: Takes<A::Turn>>(rt: &R, turns: &mut A, service: &mut S)
    requires fresh { S.done service.old ≡ A.taken turns.old }
    ensures each { S.done service.new ≡ A.taken turns.new }
    ensures ended { A.ended turns.new }
{
    for _ in rt.forever() {
        match turns.next() {
            Some(turn) => service.take(turn),
            None => return,
        }
    }
    unreachable!()
}
