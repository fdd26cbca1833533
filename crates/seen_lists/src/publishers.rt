//! A list, with what is shown of it.
ghost use Rattle.std.specs.Prelude.{◌≡◌, ◌+◌, ◌<◌, ◌^◌, [], IfOk, IfSome, MatchOption, Some};
ghost use Rattle.growing.specs.Orders.{IsNewer};
ghost use Rattle.left_right.specs.Handles.{pending, published};

use crate::fronts::Front;
use crate::lists::SeenList;
use crate::names::ListName;
use crate::receipts::{Listed, Receipt};
use crate::shows::publish;
use growing::Growing;
use left_right::{Absorb, WriteHandle};
use std::alloc::AllocError;
use std::marker::{Model, PhantomData};
use std::sync::{Arc, Wait};

/// The owners of a snapshot: one that is kept, one that is shown, and one that is told. Contracts see what it is of.
#[derive(Drop)]
pub struct Owners<E, S: Listed<E> + Drop> {
    kept: Arc<S>,
    shown: Arc<S>,
    told: Arc<S>,
    of: PhantomData<E>,
}

impl<E, S: Listed<E> + Drop> Model for Owners<E, S> {
    ghost use Rattle.std.specs.Prelude.{◌≡◌};

    ghost Value = { E };

    ghost view = { λ o. S.item o.told.value };

    ghost invariant = { λ o. (S.item o.kept.value ≡ S.item o.told.value)
        × (S.item o.shown.value ≡ S.item o.told.value) };
}

impl<E, S: Listed<E> + Drop> Owners<E, S> {
    /// Three more owners of a snapshot.
    pub fn of(snap: &Arc<S>) -> Result<Owners<E, S>, AllocError>
        ensures { IfOk result (λ owners. owners ≡ S.item snap.now.value) }
    {
        Ok(Owners {
            kept: Arc::try_clone(snap)?,
            shown: Arc::try_clone(snap)?,
            told: Arc::try_clone(snap)?,
            of: PhantomData,
        })
    }
}

/// A list, the receipt of what it is now, and what is shown of it, which is the same. Contracts see how many items were pushed, and what it is now.
#[derive(Drop)]
pub struct Publisher<
    E: Growing,
    L: ListName<E>,
    S: Listed<E> + Drop,
    T: Absorb<Receipt<E, L, S>, State = E> + Drop,
    R: Wait + Drop,
> {
    list: SeenList<E, L>,
    last: Receipt<E, L, S>,
    shown: WriteHandle<T, Receipt<E, L, S>, R>,
}

impl<
    E: Growing,
    L: ListName<E>,
    S: Listed<E> + Drop,
    T: Absorb<Receipt<E, L, S>, State = E> + Drop,
    R: Wait + Drop,
> Model for Publisher<E, L, S, T, R> {
    ghost use Rattle.left_right.specs.Handles.{pending, published};
    ghost use Rattle.seen_lists.specs.Lists.{Versions};
    ghost use Rattle.seen_lists.specs.Publishers.{IsShown};

    ghost Value = { Versions E };

    ghost view = { λ p. p.list };

    ghost invariant = { λ p. IsShown p.list.now p.last (T.state (published p.shown)) (pending p.shown) T.applied };
}

impl<
    E: Growing,
    L: ListName<E>,
    S: Listed<E> + Drop,
    T: Absorb<Receipt<E, L, S>, State = E> + Drop,
    R: Wait + Drop,
> Publisher<E, L, S, T, R> {
    /// The list, with its receipt and what is shown of it. It takes these out of options, since a caller that is generic in L can't pass them by
    /// value: the toolchain proves no call that passes values of a type parameter to a function with a bound made of that parameter, as the
    /// bound of T is made of L.
    pub fn of(
        list: &mut Option<SeenList<E, L>>,
        last: &mut Option<Receipt<E, L, S>>,
        shown: &mut Option<WriteHandle<T, Receipt<E, L, S>, R>>,
    ) -> Publisher<E, L, S, T, R>
        requires last { MatchOption list.old ⊥ (λ list. last.old ≡ Some list.now) }
        requires shown { MatchOption shown.old ⊥ (λ handle.
            MatchOption list.old ⊥ (λ list. list.now ≡ T.state (published handle))) }
        requires none { IfSome shown.old (λ handle. pending handle ≡ []) }
        requires shows_last { (before : E) (next : E) → T.applied before next ≡ next }
        ensures { list.old ≡ Some result }
    {
        Publisher {
            list: list.take().unwrap(),
            last: last.take().unwrap(),
            shown: shown.take().unwrap(),
        }
    }

    /// The receipt of what the list is now.
    pub fn last(&self) -> &Receipt<E, L, S>
        ensures { result.now ≡ self.now.now }
    {
        &self.last
    }

    /// Tells a front what the list is now, which is shown. That is as late as what the front had seen.
    pub fn tell(&mut self, front: &mut Front<E, L>)
        ensures same { self.new ≡ self.old }
        ensures told { front.new ≡ self.old.now }
        ensures kept { E.is_later front.old front.new }
    {
        self.list.tell(front);
    }

    /// Pushes a newer item, shows the snapshot of it, and answers that snapshot's receipt.
    pub fn push(&mut self, rt: &impl Wait, item: &E, owners: Owners<E, S>) -> Receipt<E, L, S>
        requires room { self.old.times < 2 ^ 62 }
        requires newer { IsNewer E.is_later self.old.now item.now }
        requires same { owners ≡ item.now }
        ensures pushed { self.new ≡ record { times = self.old.times + 1; now = item.now } }
        ensures receipt { result ≡ item.now }
    {
        let Owners {
            kept,
            shown,
            told,
            of: _,
        } = owners;
        self.list.push(item);
        let front = self.list.front();
        publish(rt, &mut self.shown, Receipt::of(shown, front.again()));
        self.last = Receipt::of(kept, front.again());
        Receipt::of(told, front)
    }
}
