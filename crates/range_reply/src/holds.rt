//! What is held of a file for one reply.
ghost use Rattle.std.specs.Prelude.{◌≡◌};
ghost use Rattle.range_reply.specs.Holding.{held_in};

use byte_view::Hold;
use std::slice;
use std::vec::Vec;

/// The stretches of a file that are held for a reply, in order. A single stretch takes no memory for a list, because
/// most replies send just one.
#[derive(Drop)]
pub(crate) enum Holds {
    /// One stretch.
    Alone(Hold),
    /// Several stretches, or no stretch.
    Listed(Vec<Hold>),
}

impl Holds {
    /// Returns the holds, in order.
    pub(crate) fn as_slice(&self) -> &[Hold]
        ensures { result.now ≡ held_in self.now }
    {
        match self {
            Holds::Alone(hold) => slice::from_ref(hold),
            Holds::Listed(holds) => holds.as_slice(),
        }
    }
}
