//! Laws of fronts, each the contract of a function that does nothing.
ghost use Rattle.std.specs.Prelude.{◌≡◌, ◌⊎◌};

use crate::fronts::Front;
use crate::names::ListName;
use growing::Growing;

/// Of two fronts of one list one is as late as the other. If each is, they are the same.
pub fn one_of_two_fronts_is_later<E: Growing, L: ListName<E>>(
    one: &Front<E, L>,
    other: &Front<E, L>,
)
    ensures either { E.is_later one.now other.now ⊎ E.is_later other.now one.now }
    ensures same { E.is_later one.now other.now → E.is_later other.now one.now → one.now ≡ other.now }
{
    one.reaches(other);
}

/// Each front is as late as what its list began with.
pub fn each_front_is_later_than_what_was_found<E: Growing, L: ListName<E>>(front: &Front<E, L>)
    ensures { E.is_later L.found front.now }
{
    front.seen();
}
