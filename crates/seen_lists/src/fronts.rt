//! Fronts: what was seen of a list.
ghost use Rattle.std.specs.Prelude.{◌≡◌, MatchBool, length};
ghost use Rattle.growing.specs.Orders.{IsLaterOf, IsNewer};
ghost use Rattle.seen_lists.specs.Fronts.{latest};
ghost use Rattle.seen_lists.specs.Rules.{IsFront, items_of};

use crate::names::ListName;
use crate::rules::{Law, Link};
use growing::Growing;
use logbook::Seen;
use std::marker::{Model, PhantomData};

/// A front of a list: what the list was when it was seen. It has no items at run time, only how many were pushed by then. Contracts see what it was.
///
/// Fronts are copied and learnt as often as one likes, by readers, receipts and owners. Of two fronts of one list the one after more pushes is newer. The
/// notes of `left_right` are no substitute: one reader uses a note up, and two notes can't be compared.
#[derive(Drop)]
pub struct Front<E: Growing, L: ListName<E>> {
    count: u64,
    seen: Seen<Link<E>, u64, Law>,
    of: PhantomData<L>,
}

impl<E: Growing, L: ListName<E>> Model for Front<E, L> {
    ghost use Rattle.seen_lists.specs.Fronts.{latest};
    ghost use Rattle.seen_lists.specs.Rules.{IsFront, items_of};

    ghost Value = { E };

    ghost view = { λ f. latest L.found (items_of f.seen.log) };

    ghost invariant = { λ f. IsFront E.is_later L.book L.found f.count f.seen.book f.seen.log };
}

impl<E: Growing, L: ListName<E>> Front<E, L> {
    /// The front of all that was seen.
    pub(crate) fn of(count: u64, seen: Seen<Link<E>, u64, Law>) -> Front<E, L>
        requires { IsFront E.is_later L.book L.found count seen.book seen.log }
        ensures { result ≡ latest L.found (items_of seen.log) }
    {
        Front {
            count,
            seen,
            of: PhantomData,
        }
    }

    /// What was seen of the log.
    pub(crate) fn seen(&self) -> &Seen<Link<E>, u64, Law>
        ensures latest { self.now ≡ latest L.found (items_of result.now.log) }
        ensures front { IsFront E.is_later L.book L.found
            (length (items_of result.now.log)) result.now.book result.now.log }
    {
        &self.seen
    }

    /// A copy.
    pub fn again(&self) -> Front<E, L>
        ensures { result ≡ self.now }
    {
        Front {
            count: self.count,
            seen: self.seen.again(),
            of: PhantomData,
        }
    }

    /// Whether this front is as late as another one. Else the other is newer. If each is as late as the other, they are the same.
    pub fn reaches(&self, other: &Front<E, L>) -> bool
        ensures told { MatchBool result (E.is_later other.now self.now) (IsNewer E.is_later self.now other.now) }
        ensures same { E.is_later self.now other.now → E.is_later other.now self.now → self.now ≡ other.now }
    {
        let mut both = self.seen.again();
        both.learn(&other.seen);
        self.count >= other.count
    }

    /// Goes over to another front, if that is as late as this one, and answers whether it did.
    pub fn follow(&mut self, other: &Front<E, L>) -> bool
        ensures when { MatchBool result (E.is_later self.old other.now) (IsNewer E.is_later other.now self.old) }
        ensures followed { MatchBool result (self.new ≡ other.now) (self.new ≡ self.old) }
        ensures kept { E.is_later self.old self.new }
    {
        if other.reaches(self) {
            *self = other.again();
            return true;
        }
        false
    }

    /// Learns what another front has seen.
    pub fn learn(&mut self, other: &Front<E, L>)
        ensures later { IsLaterOf E.is_later self.old other.now self.new }
        ensures kept { E.is_later self.old self.new }
        ensures learnt { E.is_later other.now self.new }
    {
        self.follow(other);
    }
}
