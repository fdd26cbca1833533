//! The desk.
ghost use Rattle.std.specs.Prelude.{◌≡◌, ◌↔◌, ◌+◌, IfNone, IfSome, IsSome, MatchResult, OnSome, [], length, sum};
ghost use Rattle.change_log.specs.Logs.{BeginsWith, last_number};
ghost use Rattle.shared_desk.specs.Turns.{Commits, Undoes};

use crate::closings::give_all_back;
use crate::hints::Hints;
use crate::turns;
use blob_store::Files;
use change_log::Log;
use host_disk::Disk;
use host_names::SiteName;
use left_right::Absorb;
use seen_lists::{Front, ListName};
use site_change::Command;
use site_desk::{Book, DeskError, DeskName, KnownFiles, Notice, Seat, Stock};
use std::alloc::Global;
use std::marker::Model;
use std::mem;
use std::sync::{Mutex, Wait};

/// A book, the files that are known, hints at what deploys lack, and the files on the shelf. Each is behind a lock of its own. A thread that takes more than
/// one of these locks takes them in this order; the shelf's lock is held for one call alone, or not at all. Contracts see how many seats the desk has.
#[derive(Drop)]
pub struct Desk<
    J: DeskName,
    K: ListName<KnownFiles>,
    D: Disk,
    S,
    T: Absorb<Notice<J>, State = Log> + Drop,
    R: Wait + Drop,
> {
    pub(crate) alloc: Global,
    pub(crate) seats: u64,
    pub(crate) book: Mutex<Book<J, K, D, T, R>>,
    pub(crate) stock: Mutex<Stock<K>>,
    pub(crate) hints: Mutex<Hints>,
    pub(crate) files: Mutex<Files<S>>,
}

impl<
    J: DeskName,
    K: ListName<KnownFiles>,
    D: Disk,
    S,
    T: Absorb<Notice<J>, State = Log> + Drop,
    R: Wait + Drop,
> Model for Desk<J, K, D, S, T, R> {
    ghost use Rattle.std.specs.Prelude.{◌≡◌, ◌≤◌, ℕ};

    ghost Value = { ℕ };

    ghost view = { λ d. d.seats };

    ghost invariant = { λ d. (1 ≤ d.seats) × (d.seats ≡ J.parts) };
}

impl<
    J: DeskName,
    K: ListName<KnownFiles>,
    D: Disk,
    S,
    T: Absorb<Notice<J>, State = Log> + Drop,
    R: Wait + Drop,
> Desk<J, K, D, S, T, R> {
    /// Commits a command as the next entry, from a seat: the entry is put into the journal, and then shown. Gives the receipt of it. A front is told the
    /// entries by which it is judged: what it had seen was a beginning of them.
    pub fn commit(
        &self,
        rt: &impl Wait,
        seen: &mut Front<Log, J>,
        mine: &mut Seat<J>,
        command: Command,
    ) -> Result<Notice<J>, DeskError<Notice<J>>>
        ensures turn { Commits D.Disk (last_number J.found + mine.old) seen.new command result }
        ensures seen { BeginsWith seen.new seen.old }
        ensures made { MatchResult result (λ _. mine.new ≡ mine.old + 1) (λ _. mine.new ≡ mine.old) }
    {
        let mut book = self.book.lock(rt);
        let mut stock = self.stock.lock(rt);
        turns::commit(rt, &mut *book, &mut *stock, seen, mine, command)
    }

    /// Undoes a change of this site by the next entry, from a seat: the entry is put into the journal, and then shown. Gives the receipt of it. A front is
    /// told the entries by which it is judged.
    pub fn undo(
        &self,
        rt: &impl Wait,
        seen: &mut Front<Log, J>,
        mine: &mut Seat<J>,
        site: &SiteName,
        change: u64,
    ) -> Result<Notice<J>, DeskError<Notice<J>>>
        ensures turn { Undoes D.Disk (last_number J.found + mine.old) seen.new site.now change result }
        ensures seen { BeginsWith seen.new seen.old }
        ensures made { MatchResult result (λ _. mine.new ≡ mine.old + 1) (λ _. mine.new ≡ mine.old) }
    {
        let mut book = self.book.lock(rt);
        turns::undo(rt, &mut *book, seen, mine, site, change)
    }

    /// Closes the desk if these are all its seats, and takes them. Answers how many entries there are: those that were found and those that were
    /// made from the seats. Else it leaves the seats.
    ///
    /// The seats are lent: no caller that is generic in J can pass them by value, since the bound of T is made of J.
    pub fn close(&mut self, seats: &mut Vec<Seat<J>>) -> Option<u64>
        ensures all { IsSome result ↔ (length seats.old.items ≡ J.parts) }
        ensures closed { IfSome result (λ number. number ≡ last_number J.found + sum seats.old.items) }
        ensures taken { OnSome result (seats.new.items ≡ []) }
        ensures stays { IfNone result (seats.new ≡ seats.old) }
    {
        if seats.len() as u64 != self.seats {
            return None;
        }
        let book = self.book.get_mut();
        let number = book.latest().history().len();
        if let Some(mut all) = give_all_back(mem::replace(seats, Vec::new(self.alloc))) {
            book.tally(&mut all);
        }
        Some(number)
    }
}
