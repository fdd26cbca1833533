//! Laws of rings, each the contract of a function that does nothing.
ghost use Rattle.std.specs.Prelude.{◌≡◌, ℕ, List};
ghost use Rattle.std.specs.List.Sorted.{IsPermutation};
ghost use Rattle.peer_ring.specs.declared.points.Point.{Point};
ghost use Rattle.peer_ring.specs.Owners.{IsOwner};

/// Among some points a hash has at most one owner.
pub fn a_hash_has_at_most_one_owner()
    ensures { (points : List Point) (hash p q : ℕ) → IsOwner points hash p → IsOwner points hash q → p ≡ q }
{}

/// The owner of a hash doesn't depend on the order of the points.
pub fn owners_ignore_the_order_of_points()
    ensures { (points others : List Point) (hash peer : ℕ) → IsPermutation points others → IsOwner points hash peer → IsOwner others hash peer }
{}
