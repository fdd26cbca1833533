//! Openings of desks.
ghost use Rattle.std.specs.Prelude.{◌≡◌, ◌<◌, ◌≤◌, ◌^◌, IfErr, IfOk};
ghost use Rattle.change_log.specs.Logs.{last_number};
ghost use Rattle.change_undo.specs.Plans.{IsHistoryOver};
ghost use Rattle.seen_lists.specs.Visits.{sees};
ghost use Rattle.site_desk.specs.Snaps.{IsFromUploads};
ghost use Rattle.shared_desk.specs.NewDesks.{AreNames};

use crate::desks::Desk;
use crate::hints::Hints;
use crate::new_desks::NewDesk;
use crate::showing::{DeskShown, FirstPublished, publish_found};
use blob_store::{BlobIndex, Blobs, Shelf};
use change_journal::Journal;
use change_log::Log;
use change_undo::History;
use found_host::Found;
use host_disk::Disk;
use seen_lists::{ListName, NewList, Visitor};
use site_change::uploads_are_digested;
use site_desk::{Book, DeskName, HostSnap, KnownFiles, Published, Seats, Stock, Tie};
use std::alloc::{AllocError, Global};
use std::sync::ledger::Blank;
use std::sync::{Arc, Mutex, Wait};

/// A desk that was opened: the desk, all its seats, and a visitor who knows what was found.
pub type Opened<J, K, D, S, R> = (
    Desk<J, K, D, S, DeskShown<J>, R>,
    Seats<J>,
    Visitor<Log, J, HostSnap>,
);

/// The snapshot of what a history is now.
fn snap_of(alloc: Global, history: &History) -> Result<Arc<HostSnap>, AllocError>
    requires { IsFromUploads history.now }
    ensures { IfOk result (λ snap. snap.value ≡ history.now) }
{
    HostSnap::shared(alloc, history.copy()?)
}

/// The stock of the files that are known.
fn stock_of<K: ListName<KnownFiles>>(index: BlobIndex, uploads: NewList<KnownFiles>) -> Stock<K>
    requires book { uploads ≡ K.book }
    requires found { K.found ≡ index }
    ensures { result ≡ index }
{
    Stock::of(index, uploads.named::<K>())
}

/// The book of what is found, and what is known of its files.
fn book_of<J: DeskName, K: ListName<KnownFiles>, D: Disk + Drop, R: Wait + Drop>(
    alloc: Global,
    snap: Arc<HostSnap>,
    journal: Journal<D>,
    published: Box<Published<J, DeskShown<J>, R>>,
    known: Tie<K>,
) -> Book<J, K, D, DeskShown<J>, R>
    requires limit { snap.value.limit ≡ 1000000 }
    requires journal { journal.entries ≡ snap.value.entries }
    requires published { published.value ≡ snap.value.entries }
    requires over { IsHistoryOver known snap.value }
{
    Book::of(
        alloc,
        snap,
        &mut Some(journal),
        &mut Some(published),
        &mut Some(known),
    )
}

/// What a desk shows at first, with all its seats.
fn seat_all<J: DeskName, R: Wait + Drop>(
    alloc: Global,
    rt: R,
    snap: &Arc<HostSnap>,
    count: Blank,
    entries: NewList<Log>,
    opening: u64,
    seats: u64,
    visitors: usize,
) -> Result<(FirstPublished<J, R>, Seats<J>), AllocError>
    requires ledger { count.name ≡ J.name }
    requires parts { (count.parts ≡ J.parts) × (seats ≡ J.parts) }
    requires book { entries ≡ J.book }
    requires entries { snap.now.value.entries ≡ J.found }
    requires opening { opening ≡ last_number J.found }
    requires few { last_number J.found ≤ 1000000 }
    requires visitors { (0 < visitors) × (visitors ≤ 64) }
    ensures published { IfOk result (λ made. made.0.0.value ≡ J.found) }
    ensures visitor { IfOk result (λ made. made.0.1 ≡ sees J.found) }
    ensures seats { IfOk result (λ made. made.1 ≡ seats) }
{
    let list = entries.named::<J>();
    let (count, rest) = count.open::<J>();
    let places = Seats::of(opening, seats, rest);
    let shown = publish_found(alloc, rt, snap, opening, list, count, visitors)?;
    Ok((shown, places))
}

/// The desk of what is found, with what is published of it.
fn desk_of<J: DeskName, K: ListName<KnownFiles>, D: Disk + Drop, S: Shelf + Drop, R: Wait + Drop>(
    alloc: Global,
    seats: u64,
    snap: Arc<HostSnap>,
    journal: Journal<D>,
    blobs: Blobs<S>,
    uploads: NewList<KnownFiles>,
    published: Box<Published<J, DeskShown<J>, R>>,
) -> Desk<J, K, D, S, DeskShown<J>, R>
    requires seats { (1 ≤ seats) × (seats ≡ J.parts) }
    requires limit { snap.value.limit ≡ 1000000 }
    requires entries { snap.value.entries ≡ journal.entries }
    requires over { IsHistoryOver blobs.known snap.value }
    requires published { published.value ≡ snap.value.entries }
    requires book { uploads ≡ K.book }
    requires files { K.found ≡ blobs.known }
{
    let (index, files) = blobs.into_parts();
    let stock: Stock<K> = stock_of(index, uploads);
    Desk {
        alloc,
        seats,
        book: Mutex::new(book_of(alloc, snap, journal, published, stock.tie())),
        stock: Mutex::new(stock),
        hints: Mutex::new(Hints::new()),
        files: Mutex::new(files),
    }
}

/// The snapshot of a history, what a desk of it shows at first, and all its seats.
fn prepare<J: DeskName, R: Wait + Drop>(
    alloc: Global,
    rt: R,
    history: &History,
    count: Blank,
    entries: NewList<Log>,
    seats: u64,
    visitors: usize,
) -> Result<(Arc<HostSnap>, FirstPublished<J, R>, Seats<J>), AllocError>
    requires ledger { count.name ≡ J.name }
    requires parts { (count.parts ≡ J.parts) × (seats ≡ J.parts) }
    requires book { entries ≡ J.book }
    requires entries { history.now.entries ≡ J.found }
    requires few { last_number J.found ≤ 1000000 }
    requires visitors { (0 < visitors) × (visitors ≤ 64) }
    requires uploads { IsFromUploads history.now }
    ensures snap { IfOk result (λ made. made.0.value ≡ history.now) }
    ensures published { IfOk result (λ made. made.1.0.value ≡ J.found) }
    ensures visitor { IfOk result (λ made. made.1.1 ≡ sees J.found) }
    ensures seats { IfOk result (λ made. made.2 ≡ seats) }
{
    let opening = history.len();
    let snap = snap_of(alloc, history)?;
    let (shown, places) = seat_all(alloc, rt, &snap, count, entries, opening, seats, visitors)?;
    Ok((snap, shown, places))
}

/// Opens the desk of what is found, with its seats and a visitor who knows the entries that are found. Out of memory hands back what is found, as it is.
pub fn open<J: DeskName, K: ListName<KnownFiles>, D: Disk + Drop, S: Shelf + Drop, R: Wait + Drop>(
    alloc: Global,
    rt: R,
    new: NewDesk,
    found: Found<D, S>,
    visitors: usize,
) -> Result<Opened<J, K, D, S, R>, Found<D, S>>
    requires names { AreNames J.name J.parts J.book K.book new }
    requires entries { J.found ≡ found.journal.entries }
    requires uploads { K.found ≡ found.store.known }
    requires limit { found.limit ≡ 1000000 }
    requires visitors { (0 < visitors) × (visitors ≤ 64) }
    ensures seats { IfOk result (λ opened. opened.1 ≡ new.seats) }
    ensures visitor { IfOk result (λ opened. opened.2 ≡ sees J.found) }
    ensures same { IfErr result (λ back. back ≡ found) }
{
    let NewDesk {
        seats,
        count,
        entries,
        uploads,
    } = new;
    let (history, journal, blobs) = found.into_parts();
    uploads_are_digested(&blobs);
    match prepare(alloc, rt, &history, count, entries, seats, visitors) {
        Ok((snap, (published, visitor), places)) => Ok((
            desk_of(alloc, seats, snap, journal, blobs, uploads, published),
            places,
            visitor,
        )),
        Err(_) => Err(Found::of(history, journal, blobs)),
    }
}
