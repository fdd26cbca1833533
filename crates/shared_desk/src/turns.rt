//! Turns at a book, each while its lock is held.
ghost use Rattle.std.specs.Prelude.{◌≡◌, ◌+◌, MatchOption, MatchResult};
ghost use Rattle.change_log.specs.Logs.{BeginsWith, last_number};
ghost use Rattle.shared_desk.specs.Turns.{IsCommit, IsMet, IsUndo};
ghost use Rattle.shared_desk.specs.Uploads as spec;
ghost use Rattle.shared_desk.specs.Uploads.{IsJudged, IsPublishing};
ghost use Rattle.site_change.specs.Changes.{IsWithin};
ghost use Rattle.site_desk.specs.Books.{with_known};

use crate::hints::Hints;
use crate::listings::is_ready;
use change_log::Log;
use host_disk::Disk;
use host_names::{Digest, FilePath, SiteName};
use left_right::Absorb;
use seen_lists::{Front, ListName};
use site_change::Command;
use site_desk::{
    Book, DeskError, DeskName, KnownFiles, Notice, Seat, SeenFiles, Stock, UploadError,
};
use std::sync::Wait;

/// Learns of all uploads so far, and commits a command over them, from a seat. A front is told the entries that are there before.
pub(crate) fn commit<
    J: DeskName,
    K: ListName<KnownFiles>,
    D: Disk,
    T: Absorb<Notice<J>, State = Log> + Drop,
    R: Wait + Drop,
>(
    rt: &impl Wait,
    book: &mut Book<J, K, D, T, R>,
    stock: &mut Stock<K>,
    seen: &mut Front<Log, J>,
    mine: &mut Seat<J>,
    command: Command,
) -> Result<Notice<J>, DeskError<Notice<J>>>
    ensures turn { let met = with_known book.old stock.old in
        IsCommit D.Disk (last_number J.found + mine.old) command met result book.new }
    ensures told { seen.new ≡ book.old.journal.entries }
    ensures kept { BeginsWith seen.new seen.old }
    ensures same { stock.new ≡ stock.old }
    ensures made { MatchResult result (λ _. mine.new ≡ mine.old + 1) (λ _. mine.new ≡ mine.old) }
{
    book.learn(stock);
    book.tell(seen);
    book.audit(mine);
    let _history = book.latest();
    book.commit(rt, stock.index(), mine, command)
}

/// Undoes a change of a site, from a seat. A front is told the entries that are there before.
pub(crate) fn undo<
    J: DeskName,
    K: ListName<KnownFiles>,
    D: Disk,
    T: Absorb<Notice<J>, State = Log> + Drop,
    R: Wait + Drop,
>(
    rt: &impl Wait,
    book: &mut Book<J, K, D, T, R>,
    seen: &mut Front<Log, J>,
    mine: &mut Seat<J>,
    site: &SiteName,
    change: u64,
) -> Result<Notice<J>, DeskError<Notice<J>>>
    ensures turn { IsUndo D.Disk (last_number J.found + mine.old) site.now change book.old result book.new }
    ensures told { seen.new ≡ book.old.journal.entries }
    ensures kept { BeginsWith seen.new seen.old }
    ensures made { MatchResult result (λ _. mine.new ≡ mine.old + 1) (λ _. mine.new ≡ mine.old) }
{
    book.tell(seen);
    book.audit(mine);
    let _history = book.latest();
    book.undo(rt, mine, site, change)
}

/// The digest that a deploy of a site lists at a path, if an upload may go on. A front is told the entries by which that is so.
pub(crate) fn judge<
    J: DeskName,
    K: ListName<KnownFiles>,
    D: Disk,
    T: Absorb<Notice<J>, State = Log> + Drop,
    R: Wait + Drop,
>(
    book: &mut Book<J, K, D, T, R>,
    seen: &mut Front<Log, J>,
    mine: &mut Seat<J>,
    site: &SiteName,
    number: u64,
    path: &FilePath,
) -> Result<Digest, UploadError<Notice<J>>>
    ensures judged { IsJudged (last_number J.found + mine.old) site.now number path.now book.old result }
    ensures told { seen.new ≡ book.old.journal.entries }
    ensures kept { BeginsWith seen.new seen.old }
    ensures same { book.new ≡ book.old }
    ensures made { mine.new ≡ mine.old }
{
    book.tell(seen);
    book.audit(mine);
    let snap = book.latest();
    if book.is_broken() {
        return Err(UploadError::Broken);
    }
    match snap.state().listed(site, number, path) {
        Some(Some(digest)) => Ok(digest),
        Some(None) => Err(UploadError::NotListed),
        None => Err(UploadError::NoSuchDeploy),
    }
}

/// Learns of all uploads so far, and says whether a deploy of a site is ready over them. Both are told: these files and all entries.
fn learn_if_ready<
    J: DeskName,
    K: ListName<KnownFiles>,
    D: Disk,
    T: Absorb<Notice<J>, State = Log> + Drop,
    R: Wait + Drop,
>(
    book: &mut Book<J, K, D, T, R>,
    stock: &mut Stock<K>,
    hints: &mut Hints,
    seen: &mut Front<Log, J>,
    known: &mut SeenFiles<K>,
    mine: &mut Seat<J>,
    site: &SiteName,
    number: u64,
) -> bool
    ensures met { IsMet (last_number J.found + mine.old) book.new }
    ensures told { seen.new ≡ book.old.journal.entries }
    ensures kept { BeginsWith seen.new seen.old }
    ensures files { known.new ≡ stock.old }
    ensures within { IsWithin known.old known.new }
    ensures ready { result ≡ spec.is_ready book.new site.now number }
    ensures same { stock.new ≡ stock.old }
    ensures learnt { book.new ≡ with_known book.old stock.old }
    ensures made { mine.new ≡ mine.old }
{
    stock.show(known);
    book.learn(stock);
    book.tell(seen);
    book.audit(mine);
    is_ready(book.latest().state(), stock.index(), hints, site, number)
}

/// Learns of all uploads so far, and publishes a deploy of a site if it is ready over them, from a seat. Both are told by which that is so: these files, and
/// the entries that are there before.
pub(crate) fn publish_if_ready<
    J: DeskName,
    K: ListName<KnownFiles>,
    D: Disk,
    T: Absorb<Notice<J>, State = Log> + Drop,
    R: Wait + Drop,
>(
    rt: &impl Wait,
    book: &mut Book<J, K, D, T, R>,
    stock: &mut Stock<K>,
    hints: &mut Hints,
    seen: &mut Front<Log, J>,
    known: &mut SeenFiles<K>,
    mine: &mut Seat<J>,
    site: &SiteName,
    number: u64,
) -> Result<Option<Notice<J>>, UploadError<Notice<J>>>
    ensures done { IsPublishing D.Disk (last_number J.found + mine.old) site.now number
        (with_known book.old stock.old) result book.new }
    ensures told { seen.new ≡ book.old.journal.entries }
    ensures kept { BeginsWith seen.new seen.old }
    ensures files { known.new ≡ stock.old }
    ensures within { IsWithin known.old known.new }
    ensures made { MatchResult result
        (λ published. MatchOption published (mine.new ≡ mine.old) (λ _. mine.new ≡ mine.old + 1))
        (λ _. mine.new ≡ mine.old) }
{
    if !learn_if_ready(book, stock, hints, seen, known, mine, site, number) {
        return Ok(None);
    }
    let site = site.copied();
    match book.commit(rt, stock.index(), mine, Command::Publish { site, number }) {
        Ok(receipt) => Ok(Some(receipt)),
        Err(why) => Err(UploadError::NotPublished(why)),
    }
}
