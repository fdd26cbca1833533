//! Receipts: snapshots of what has a list, each with the front of what the list was then.
ghost use Rattle.std.specs.Prelude.{◌≡◌, IfOk};

use crate::fronts::Front;
use crate::names::ListName;
use growing::Growing;
use std::alloc::AllocError;
use std::marker::Model;
use std::sync::Arc;

/// A snapshot of a list: what the list was when it was taken. For clauses alone.
pub trait Listed<E> {
    ghost item: { Self → E };
}

/// A snapshot, and the front of the list as the snapshot has it. Contracts see what the list was.
#[derive(Drop)]
pub struct Receipt<E: Growing, L: ListName<E>, S: Listed<E> + Drop> {
    snap: Arc<S>,
    front: Front<E, L>,
}

impl<E: Growing, L: ListName<E>, S: Listed<E> + Drop> Model for Receipt<E, L, S> {
    ghost use Rattle.std.specs.Prelude.{◌≡◌};

    ghost Value = { E };

    ghost view = { λ r. r.front };

    ghost invariant = { λ r. S.item r.snap.value ≡ r.front };
}

impl<E: Growing, L: ListName<E>, S: Listed<E> + Drop> Receipt<E, L, S> {
    /// The receipt of a snapshot.
    pub fn of(snap: Arc<S>, front: Front<E, L>) -> Receipt<E, L, S>
        requires { S.item snap.value ≡ front }
        ensures { result ≡ front }
    {
        Receipt { snap, front }
    }

    /// The snapshot.
    pub fn snap(&self) -> &Arc<S>
        ensures { S.item result.now.value ≡ self.now }
    {
        &self.snap
    }

    /// The front.
    pub fn front(&self) -> &Front<E, L>
        ensures { result.now ≡ self.now }
    {
        &self.front
    }

    /// A second owner of the snapshot. It fails if the snapshot has as many owners as it can have.
    pub fn again(&self) -> Result<Receipt<E, L, S>, AllocError>
        ensures { IfOk result (λ copy. copy ≡ self.now) }
    {
        Ok(Receipt {
            snap: Arc::try_clone(&self.snap)?,
            front: self.front.again(),
        })
    }
}
