//! Visitors, who look at what is shown, with no wait.
ghost use Rattle.std.specs.Prelude.{◌≡◌, ◌⊎◌, IfErr, IfOk, IfSome, MatchOption, OnErr, OnOk};
ghost use Rattle.growing.specs.Orders.{IsLaterOf, IsNewer};
ghost use Rattle.seen_lists.specs.Visits.{Visit, sees};
ghost use Rattle.seen_lists.specs.declared.visitors.LookFault.TheVariants.{Behind};

use crate::fronts::Front;
use crate::names::ListName;
use crate::receipts::{Listed, Receipt};
use crate::shows::Shown;
use growing::Growing;
use left_right::ReadHandle;
use std::alloc::AllocError;
use std::marker::Model;
use std::sync::Arc;

/// Why a look gives no snapshot.
#[derive(Clone, Copy, Debug, Drop, PartialEq, Eq)]
pub enum LookFault {
    /// The snapshot has as many owners as it can have.
    OutOfMemory,
    /// A front that was learnt is newer than what is shown: what the front saw isn't shown yet, or the owner of the list is gone. No
    /// clause excludes this, since what `left_right` reads is known by its type alone. An owner who shows each item before handing out a
    /// front of it excludes it as long as the owner is there.
    Behind,
}

impl From<AllocError> for LookFault {
    ghost use Rattle.std.specs.Prelude.{◌≡◌};
    ghost use Rattle.seen_lists.specs.declared.visitors.LookFault.TheVariants.{OutOfMemory};

    ghost from_gives = { λ _ fault. fault ≡ OutOfMemory };

    fn from(_error: AllocError) -> LookFault {
        LookFault::OutOfMemory
    }
}

/// A visitor, with the front of the latest that it saw or learnt, and the receipt of the latest snapshot that it was given. Contracts see what both are of.
/// By that receipt a look has a snapshot to give even if an older one is shown, or nothing any more.
#[derive(Drop)]
pub struct Visitor<E: Growing, L: ListName<E>, S: Listed<E> + Drop> {
    // None where it has no place of its own, and gives what was seen for it.
    reader: Option<ReadHandle<Shown<E, L, S>>>,
    front: Front<E, L>,
    last: Receipt<E, L, S>,
}

impl<E: Growing, L: ListName<E>, S: Listed<E> + Drop> Model for Visitor<E, L, S> {
    ghost use Rattle.seen_lists.specs.Visits.{Visit};

    ghost Value = { Visit E };

    ghost view = { λ v. record { known = v.front; held = v.last } };

    ghost invariant = { λ v. E.is_later v.last v.front };
}

/// What is shown, if it is as late as what is known, and newer than what is held.
fn newer<E: Growing, L: ListName<E>, S: Listed<E> + Drop>(
    shown: &Shown<E, L, S>,
    known: &Front<E, L>,
    held: &Receipt<E, L, S>,
) -> Result<Option<Receipt<E, L, S>>, AllocError>
    ensures { IfOk result (λ next. MatchOption next
        (IsNewer E.is_later shown.now known.now ⊎ E.is_later shown.now held.now)
        (λ receipt. (receipt ≡ shown.now) × E.is_later known.now receipt × IsNewer E.is_later held.now receipt)) }
{
    let next = shown.receipt();
    if !next.front().reaches(known) || held.front().reaches(next.front()) {
        return Ok(None);
    }
    Ok(Some(next.again()?))
}

impl<E: Growing, L: ListName<E>, S: Listed<E> + Drop> Visitor<E, L, S> {
    /// A visitor that knows a receipt.
    pub fn of(reader: ReadHandle<Shown<E, L, S>>, last: Receipt<E, L, S>) -> Visitor<E, L, S>
        ensures { result ≡ sees last }
    {
        Visitor {
            reader: Some(reader),
            front: last.front().again(),
            last,
        }
    }

    /// A second visitor, who knows what this one does. It fails if all places for visitors are taken, or if there is no memory.
    pub fn again(&self) -> Result<Visitor<E, L, S>, AllocError>
        ensures { IfOk result (λ copy. copy ≡ self.now) }
    {
        let reader = match &self.reader {
            Some(reader) => Some(reader.clone()?),
            None => None,
        };
        Ok(Visitor {
            reader,
            front: self.front.again(),
            last: self.last.again()?,
        })
    }

    /// A second visitor, who knows what this one does and takes no place: what is shown from now on it doesn't see, so each look gives what this one was
    /// given, or what it learns itself. It fails if there is no memory.
    pub fn lend(&self) -> Result<Visitor<E, L, S>, AllocError>
        ensures { IfOk result (λ copy. copy ≡ self.now) }
    {
        Ok(Visitor {
            reader: None,
            front: self.front.again(),
            last: self.last.again()?,
        })
    }

    /// The front of all that it saw or learnt. Handing it out and learning it take no memory, so a connection can carry what it saw from
    /// one worker to the next. A front has no snapshot.
    pub fn front(&self) -> Front<E, L>
        ensures { result ≡ self.now.known }
    {
        self.front.again()
    }

    /// Looks at what is shown. Answers the snapshot of the latest that is shown, was seen or was learnt; none if it learnt a front that is newer than what is
    /// shown and than each snapshot that it has.
    pub fn look(&mut self) -> Result<Arc<S>, LookFault>
        ensures seen { IfOk result (λ snap. self.new ≡ sees (S.item snap.value)) }
        ensures kept { E.is_later self.old.known self.new.known }
        ensures err { OnErr result (self.new ≡ self.old) }
        ensures behind { IfErr result (λ fault. fault ≡ Behind → IsNewer E.is_later self.old.held self.old.known) }
    {
        match self.next()? {
            Some(next) => Ok(self.go_over(next)?),
            None => self.held(),
        }
    }

    /// What is shown, if it is as late as what is known, and newer than what is held.
    fn next(&mut self) -> Result<Option<Receipt<E, L, S>>, AllocError>
        ensures same { self.new ≡ self.old }
        ensures kept { IfOk result (λ next. IfSome next (λ receipt. E.is_later self.old.known receipt)) }
    {
        let Visitor {
            reader,
            front,
            last,
        } = self;
        let Some(reader) = reader else {
            return Ok(None);
        };
        match reader.enter() {
            Some(shown) => newer(&shown, front, last),
            None => Ok(None),
        }
    }

    /// Goes over to a receipt, and answers its snapshot.
    fn go_over(&mut self, next: Receipt<E, L, S>) -> Result<Arc<S>, AllocError>
        ensures seen { IfOk result (λ snap. S.item snap.value ≡ next) }
        ensures ok { OnOk result (self.new ≡ sees next) }
        ensures err { OnErr result (self.new ≡ self.old) }
    {
        let snap = Arc::try_clone(next.snap())?;
        self.front = next.front().again();
        self.last = next;
        Ok(snap)
    }

    /// The snapshot that it holds, if that is as late as what is known.
    fn held(&self) -> Result<Arc<S>, LookFault>
        ensures seen { IfOk result (λ snap. self.now ≡ sees (S.item snap.value)) }
        ensures behind { IfErr result (λ fault. fault ≡ Behind → IsNewer E.is_later self.now.held self.now.known) }
    {
        if !self.last.front().reaches(&self.front) {
            return Err(LookFault::Behind);
        }
        Ok(Arc::try_clone(self.last.snap())?)
    }

    /// Learns a receipt, and takes over its owner of the snapshot. Whoever wants to keep the receipt makes a second owner first, and that
    /// alone can fail.
    pub fn learn(&mut self, receipt: Receipt<E, L, S>)
        ensures later { IsLaterOf E.is_later self.old.known receipt self.new.known }
        ensures held { IsLaterOf E.is_later self.old.held receipt self.new.held }
        ensures kept { E.is_later self.old.known self.new.known }
        ensures learnt { E.is_later receipt self.new.known }
    {
        self.front.learn(receipt.front());
        if receipt.front().reaches(self.last.front()) {
            self.last = receipt;
        }
    }

    /// Learns a front, which another visitor handed out.
    pub fn learn_front(&mut self, front: &Front<E, L>)
        ensures later { IsLaterOf E.is_later self.old.known front.now self.new.known }
        ensures held { self.new.held ≡ self.old.held }
        ensures kept { E.is_later self.old.known self.new.known }
        ensures learnt { E.is_later front.now self.new.known }
    {
        self.front.learn(front);
    }
}
