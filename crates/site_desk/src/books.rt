//! A book: the history of a desk, its journal, and what is published of it.
ghost use Rattle.std.specs.Prelude.{◌≡◌, ◌+◌, ◌≤◌, IfOk, MatchOption, MatchResult, None, Some, false, true};
ghost use Rattle.byte_view.specs.Contents.{AreDigested};
ghost use Rattle.entry_texts.specs.Spells.{IsInRange};
ghost use Rattle.change_undo.specs.Histories.{may_take_memory};
ghost use Rattle.change_log.specs.Logs.{BeginsWith, last_number, with_entry};
ghost use Rattle.change_undo.specs.Plans.{IsHistoryOver};
ghost use Rattle.site_change.specs.declared.entries.Entry.{Entry as Line};
ghost use Rattle.site_change.specs.declared.entries.Entry.TheVariants as entry;
ghost use Rattle.site_change.specs.Changes.{IsWithin};
ghost use Rattle.site_desk.specs.Answers.{IsAnswer, IsEnd, IsToldAs};
ghost use Rattle.site_desk.specs.Books.{IsEntered, Kept, commit_refusal, undo_refusal, with_known};

use crate::errors::DeskError;
use crate::names::DeskName;
use crate::published::{Notice, Published};
use crate::seats::{Returned, Seat};
use crate::snaps::HostSnap;
use crate::stocks::{KnownFiles, Stock, Tie};
use byte_view::Uploads;
use change_journal::Journal;
use change_log::Log;
use change_undo::History;
use host_disk::Disk;
use host_names::SiteName;
use journaled_history::{put_last, with_change, with_undo};
use left_right::Absorb;
use seen_lists::{Front, ListName, Owners};
use site_change::{ChangeError, Command};
use std::alloc::Global;
use std::marker::Model;
use std::sync::{Arc, Wait};

/// A history has no more entries than any may have. Nothing changes.
fn is_bounded(history: &History)
    requires { history.now.limit ≡ 1000000 }
    ensures { last_number history.now.entries ≤ 1000000 }
{
    history.len();
}

/// A desk's book: its history, its journal, what is published of it, and what is known of the uploads. Contracts see these uploads and the
/// journal. The history, what is shown and the last receipt have the journal's entries: as many as were there when the desk was opened and
/// were made from its seats. The history is what these entries give over the uploads.
///
/// The history is in the latest snapshot. A change works on a copy of it, so that there is one copy for each change, and readers have marks
/// and clashes too. What contracts see of the journal includes its disk: a broken journal says what its disk may hold.
#[derive(Drop)]
pub struct Book<
    J: DeskName,
    K: ListName<KnownFiles>,
    D: Disk,
    T: Absorb<Notice<J>, State = Log> + Drop,
    R: Wait + Drop,
> {
    alloc: Global,
    latest: Arc<HostSnap>,
    journal: Journal<D>,
    published: Box<Published<J, T, R>>,
    tie: Tie<K>,
}

impl<
    J: DeskName,
    K: ListName<KnownFiles>,
    D: Disk,
    T: Absorb<Notice<J>, State = Log> + Drop,
    R: Wait + Drop,
> Model for Book<J, K, D, T, R> {
    ghost use Rattle.change_log.specs.contracts.logs.Log as log;
    ghost use Rattle.blob_store.specs.contracts.blob_indexes.BlobIndex as known;
    ghost use Rattle.site_desk.specs.Books.{IsBook, Kept, coded_kept};

    ghost Value = { Kept D };

    ghost coded = { coded_kept known.the_row.coded log.the_row.coded D.code };

    ghost view = { λ b. record { known = b.tie; journal = b.journal } };

    ghost invariant = { λ b. IsBook b.latest.value b.tie b.journal.entries b.published.value };
}

impl<
    J: DeskName,
    K: ListName<KnownFiles>,
    D: Disk,
    T: Absorb<Notice<J>, State = Log> + Drop,
    R: Wait + Drop,
> Book<J, K, D, T, R> {
    /// The book of the snapshot of a history, which has the entries of the desk's opening. It takes the other parts out of options, since a
    /// caller that is generic in J can't pass them by value: the bound of T is made of J.
    pub fn of(
        alloc: Global,
        latest: Arc<HostSnap>,
        journal: &mut Option<Journal<D>>,
        published: &mut Option<Box<Published<J, T, R>>>,
        tie: &mut Option<Tie<K>>,
    ) -> Book<J, K, D, T, R>
        requires limit { latest.value.limit ≡ 1000000 }
        requires journal { MatchOption journal.old ⊥ (λ journal. journal.entries ≡ latest.value.entries) }
        requires published { MatchOption published.old ⊥ (λ boxed. boxed.value ≡ latest.value.entries) }
        requires tie { MatchOption tie.old ⊥ (λ known. IsHistoryOver known latest.value) }
        ensures known { tie.old ≡ Some result.known }
        ensures journal { journal.old ≡ Some result.journal }
    {
        Book {
            alloc,
            latest,
            journal: journal.take().unwrap(),
            published: published.take().unwrap(),
            tie: tie.take().unwrap(),
        }
    }

    /// Whether the device of the journal failed at an earlier call.
    pub fn is_broken(&self) -> bool
        ensures { result ≡ self.now.journal.broken }
    {
        self.journal.is_broken()
    }

    /// The snapshot of all entries.
    pub fn latest(&self) -> &HostSnap
        ensures entries { result.now.entries ≡ self.now.journal.entries }
        ensures limit { result.now.limit ≡ 1000000 }
        ensures over { IsHistoryOver self.now.known result.now }
        ensures digested { AreDigested self.now.known }
    {
        self.tie.are_digested();
        &self.latest
    }

    /// The receipt of all entries.
    pub fn last(&self) -> &Notice<J>
        ensures { result.now ≡ self.now.journal.entries }
    {
        self.published.last()
    }

    /// Tells a front of all entries. What it had seen was a beginning of them.
    pub fn tell(&mut self, seen: &mut Front<Log, J>)
        ensures same { self.new ≡ self.old }
        ensures told { seen.new ≡ self.old.journal.entries }
        ensures kept { BeginsWith seen.new seen.old }
    {
        self.published.tell(seen);
    }

    /// The history.
    fn history(&self) -> &History
        ensures entries { result.now.entries ≡ self.now.journal.entries }
        ensures limit { result.now.limit ≡ 1000000 }
        ensures over { IsHistoryOver self.now.known result.now }
    {
        self.latest.history()
    }

    /// The error of the book for an error of the history.
    fn told(&self, error: ChangeError) -> DeskError<Notice<J>>
        ensures { IsToldAs self.now.journal.entries error result }
    {
        match error {
            ChangeError::OutOfMemory => DeskError::OutOfMemory,
            ChangeError::Refused(reason) => match self.published.last().again() {
                Ok(seen) => DeskError::Refused { reason, seen },
                Err(_) => DeskError::NoReceipt(reason),
            },
        }
    }

    /// Learns of all uploads so far.
    pub fn learn(&mut self, stock: &mut Stock<K>)
        ensures known { self.new ≡ with_known self.old stock.old }
        ensures more { IsWithin self.old.known stock.old }
        ensures same { stock.new ≡ stock.old }
    {
        stock.tell(&mut self.tie);
    }

    /// The entries of the opening and those made from this seat are together no more than all entries. Nothing changes.
    pub fn audit(&mut self, mine: &mut Seat<J>)
        ensures same { self.new ≡ self.old }
        ensures made { mine.new ≡ mine.old }
        ensures floor { last_number J.found + mine.old ≤ last_number self.old.journal.entries }
    {
        self.published.audit(mine);
    }

    /// If all seats were given back, all entries are those of the opening and those made from the seats. Nothing changes.
    pub fn tally(&mut self, all: &mut Returned<J>)
        ensures same { self.new ≡ self.old }
        ensures seats { all.new ≡ all.old }
        ensures whole { all.old.seats ≡ J.parts
            → last_number self.old.journal.entries ≡ last_number J.found + all.old.made }
    {
        self.published.tally(all);
    }

    /// Commits a command as the next entry, from a seat, over the known uploads. The entry is put into the journal and then shown. Answers
    /// its receipt.
    pub fn commit<U: Uploads>(
        &mut self,
        rt: &impl Wait,
        uploads: &U,
        mine: &mut Seat<J>,
        command: Command,
    ) -> Result<Notice<J>, DeskError<Notice<J>>>
        requires known { U.contents uploads.now ≡ self.old.known }
        ensures answer { let why = commit_refusal self.old command in
            IsAnswer self.old.journal.broken self.old.journal.entries why (why ≡ None) result }
        ensures entered { IsEntered D.Disk result (entry.Change command) self.old self.new }
        ensures receipt { IfOk result (λ receipt.
            receipt ≡ with_entry self.old.journal.entries (entry.Change command)) }
        ensures made { MatchResult result (λ _. mine.new ≡ mine.old + 1) (λ _. mine.new ≡ mine.old) }
    {
        if self.is_broken() {
            return Err(DeskError::Broken);
        }
        match with_change(self.alloc, self.history(), uploads, command) {
            Ok(next) => self.enter(rt, mine, next),
            Err(error) => Err(self.told(error)),
        }
    }

    /// Undoes a change of this site by the next entry, from a seat. The entry is put into the journal and then shown. Answers its receipt.
    pub fn undo(
        &mut self,
        rt: &impl Wait,
        mine: &mut Seat<J>,
        site: &SiteName,
        change: u64,
    ) -> Result<Notice<J>, DeskError<Notice<J>>>
        ensures answer { let why = undo_refusal self.old site.now change in
            IsAnswer self.old.journal.broken self.old.journal.entries why (may_take_memory why ≡ true) result }
        ensures entered { IsEntered D.Disk result (entry.Undo site.now change) self.old self.new }
        ensures receipt { IfOk result (λ receipt.
            receipt ≡ with_entry self.old.journal.entries (entry.Undo site.now change)) }
        ensures made { MatchResult result (λ _. mine.new ≡ mine.old + 1) (λ _. mine.new ≡ mine.old) }
    {
        if self.is_broken() {
            return Err(DeskError::Broken);
        }
        match with_undo(self.history(), site, change) {
            Ok(undone) => self.enter(rt, mine, undone),
            Err(why) => Err(self.told(why)),
        }
    }

    /// Takes a history with one entry more: the entry is put into the journal, and then shown. All that takes memory comes before the entry
    /// is put.
    ///
    /// While there is no room or no memory to show it, that is tried again, and no clause says that there will be. Whoever opens a book
    /// shows the first receipt once more: that leaves room for what is shown later.
    fn enter(
        &mut self,
        rt: &impl Wait,
        mine: &mut Seat<J>,
        next: History,
    ) -> Result<Notice<J>, DeskError<Notice<J>>>
        requires whole { self.old.journal.broken ≡ false }
        requires follows { (last : Line) × IsInRange last
            × (next.entries ≡ with_entry self.old.journal.entries last) }
        requires limit { next.limit ≡ 1000000 }
        requires over { IsHistoryOver self.old.known next }
        ensures end { IsEnd result }
        ensures entered { (last : Line) → next.entries ≡ with_entry self.old.journal.entries last
            → IsEntered D.Disk result last self.old self.new }
        ensures receipt { IfOk result (λ receipt. receipt ≡ next.entries) }
        ensures made { MatchResult result (λ _. mine.new ≡ mine.old + 1) (λ _. mine.new ≡ mine.old) }
    {
        self.tie.are_digested();
        let snap = HostSnap::shared(self.alloc, next)?;
        let owners = Owners::of(&snap)?;
        is_bounded(snap.history());
        put_last(self.alloc, &mut self.journal, snap.history())?;
        let receipt = self.published.show(rt, mine, snap.log(), owners);
        self.latest = snap;
        Ok(receipt)
    }

    /// Hands out the journal.
    pub fn into_journal(self) -> Journal<D>
        ensures { result ≡ self.journal }
    {
        self.journal
    }
}
