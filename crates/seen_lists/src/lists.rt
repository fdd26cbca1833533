//! Lists, each for the one owner that grows it.
ghost use Rattle.std.specs.Prelude.{◌≡◌, ◌+◌, ◌<◌, ◌^◌, length, Some};
ghost use Rattle.growing.specs.Orders.{IsNewer};
ghost use Rattle.logbook.specs.Pages.{may_write};
ghost use Rattle.seen_lists.specs.Fronts.{latest};
ghost use Rattle.seen_lists.specs.Rules.{IsFront, head_of, items_of, next_of};

use crate::fronts::Front;
use crate::names::ListName;
use crate::rules::{Addition, Begin, Cut, Law, Link, Look, Nothing, Push, ink};
use growing::Growing;
use logbook::{Offer, Pen, Seen, Start, Word};
use std::marker::{Model, PhantomData};
use std::sync::Wait;

/// For a case that can't occur while nobody else has the list: it never returns. `NewList::new` alone has such a case, since it has no pen
/// yet.
fn never<R: Wait>(rt: &R)
    ensures { ⊥ }
{
    for _ in rt.forever() {}
    unreachable!()
}

/// A list without items and without a name. Contracts see the book of its log, which no other list has.
#[derive(Drop)]
pub struct NewList<E> {
    head: Word<Link<E>, u64, Law>,
    pen: Pen,
    seen: Seen<Link<E>, u64, Law>,
}

impl<E> Model for NewList<E> {
    ghost use Rattle.logbook.specs.Pages.{Book, book_coded};
    ghost use Rattle.seen_lists.specs.Rules.{IsOwned};

    ghost Value = { Book };

    ghost coded = { book_coded };

    ghost view = { λ l. l.seen.book };

    ghost invariant = { λ l. IsOwned l.seen.book 1 0 l.head l.pen.book l.pen.nib l.seen.book l.seen.log };
}

impl<E: Growing> NewList<E> {
    /// A new list.
    pub fn new<R: Wait>(rt: &R) -> NewList<E> {
        let (mut seen, mut first, _second) = Seen::open(Start::alone(), 0, 0);
        let head = Word::tracked(0, &mut first);
        let mut pen = seen.no_pen();
        let mut offer: Offer<Link<E>, u64, Law, Nothing> = seen.plain::<Nothing, (), Look>(&());
        let found = head.compare_exchange::<Begin, Nothing>(0, 1, &mut seen, &mut offer, &mut pen);
        if found != 0 {
            never(rt);
        }
        ink::<E>(&mut pen);
        NewList { head, pen, seen }
    }

    /// The list under its name, as it was found.
    pub fn named<L: ListName<E>>(self) -> SeenList<E, L>
        requires { self ≡ L.book }
        ensures { result ≡ record { times = 0; now = L.found } }
    {
        let NewList { head, pen, seen } = self;
        SeenList {
            entries: 1,
            count: 0,
            head,
            pen,
            seen,
            of: PhantomData,
        }
    }
}

/// A list that its owner alone grows. It has no items at run time, only how many were pushed. Contracts see that, and what it is now: what was pushed last.
/// Whoever needs this at run time keeps it: an owner in a history, a reader in a snapshot.
#[derive(Drop)]
pub struct SeenList<E: Growing, L: ListName<E>> {
    entries: u64,
    count: u64,
    head: Word<Link<E>, u64, Law>,
    pen: Pen,
    seen: Seen<Link<E>, u64, Law>,
    of: PhantomData<L>,
}

impl<E: Growing, L: ListName<E>> Model for SeenList<E, L> {
    ghost use Rattle.seen_lists.specs.Fronts.{Rises, latest};
    ghost use Rattle.seen_lists.specs.Lists.{Versions};
    ghost use Rattle.seen_lists.specs.Rules.{IsOwned, items_of};

    ghost Value = { Versions E };

    ghost view = { λ l. record { times = l.count; now = latest L.found (items_of l.seen.log) } };

    ghost invariant = { λ l.
        IsOwned L.book l.entries l.count l.head l.pen.book l.pen.nib l.seen.book l.seen.log
        × Rises E.is_later L.found (items_of l.seen.log) };
}

impl<E: Growing, L: ListName<E>> SeenList<E, L> {
    /// How many items were pushed.
    pub fn len(&self) -> u64
        ensures { result ≡ self.now.times }
    {
        self.count
    }

    /// The front of what it is now.
    pub fn front(&self) -> Front<E, L>
        ensures { result ≡ self.now.now }
    {
        Front::of(self.count, self.seen.again())
    }

    /// A pen for the push after the next.
    fn pen(&self) -> Pen
        ensures book { result.book ≡ L.book }
        ensures right { result.nib.right ≡ may_write }
    {
        let mut seen = self.seen.again();
        let mut pen = seen.no_pen();
        let mut offer: Offer<Link<E>, u64, Law, Nothing> = seen.plain::<Nothing, (), Look>(&());
        self.head
            .compare_exchange::<Cut, Nothing>(0, 0, &mut seen, &mut offer, &mut pen);
        ink::<E>(&mut pen);
        pen
    }

    /// Pushes a newer item, which the list is then.
    pub fn push(&mut self, item: &E)
        requires room { self.old.times < 2 ^ 62 }
        requires newer { IsNewer E.is_later self.old.now item.now }
        ensures { self.new ≡ record { times = self.old.times + 1; now = item.now } }
    {
        let next = self.pen();
        let mut offer: Offer<Link<E>, u64, Law, Nothing> = self
            .seen
            .plain::<Nothing, Addition<E>, Push>(&Addition::of(item, &next));
        self.head.compare_exchange::<Push, Nothing>(
            self.entries,
            self.entries + 1,
            &mut self.seen,
            &mut offer,
            &mut self.pen,
        );
        self.pen = next;
        self.entries += 1;
        self.count += 1;
    }

    /// Tells a front what the list is now. That is as late as what the front had seen.
    pub fn tell(&mut self, front: &mut Front<E, L>)
        ensures same { self.new ≡ self.old }
        ensures told { front.new ≡ self.old.now }
        ensures kept { E.is_later front.old front.new }
    {
        self.has(front);
        *front = self.front();
    }

    /// The list is as late as each front of it. Nothing changes.
    fn has(&mut self, front: &Front<E, L>)
        ensures same { self.new ≡ self.old }
        ensures front { E.is_later front.now self.old.now }
    {
        let mut seen = self.seen.again();
        seen.learn(front.seen());
        let mut offer: Offer<Link<E>, u64, Law, Nothing> = seen.plain::<Nothing, (), Look>(&());
        self.head.compare_exchange::<Look, Nothing>(
            self.entries,
            self.entries,
            &mut seen,
            &mut offer,
            &mut self.pen,
        );
    }
}
