//! What is shown of a desk that is opened.
ghost use Rattle.std.specs.Prelude.{◌≡◌, ◌<◌, ◌≤◌, ◌^◌, [], IfOk, OnOk};
ghost use Rattle.change_log.specs.Logs.{last_number};
ghost use Rattle.left_right.specs.Handles.{pending, published};
ghost use Rattle.seen_lists.specs.Visits.{sees};

use change_log::Log;
use left_right::WriteHandle;
use seen_lists::{Publisher, SeenList, Shown, Visitor};
use site_desk::{DeskName, HostSnap, Notice, Published};
use std::alloc::{AllocError, Global};
use std::sync::{Arc, Wait, ledger};

/// What is shown of a desk: the receipt that was published last.
pub(crate) type DeskShown<J> = Shown<Log, J, HostSnap>;

/// What shows a desk, boxed.
type DeskPublisher<J, R> = Box<Publisher<Log, J, HostSnap, DeskShown<J>, R>>;

/// The receipt of the snapshot of what a list is now.
fn first_receipt<J: DeskName>(
    snap: &Arc<HostSnap>,
    list: &SeenList<Log, J>,
) -> Result<Notice<J>, AllocError>
    requires { snap.now.value.entries ≡ list.now.now }
    ensures { IfOk result (λ receipt. receipt ≡ list.now.now) }
{
    Ok(Notice::of(Arc::try_clone(snap)?, list.front()))
}

/// Shows a receipt, with room for so many visitors.
fn show_first<J: DeskName, R: Wait + Drop>(
    alloc: Global,
    rt: R,
    last: &Notice<J>,
    visitors: usize,
) -> Result<WriteHandle<DeskShown<J>, Notice<J>, R>, AllocError>
    requires visitors { (0 < visitors) × (visitors < 2 ^ 32) }
    ensures shown { IfOk result (λ handle. published handle ≡ last.now) }
    ensures none { IfOk result (λ handle. pending handle ≡ []) }
{
    let first = Shown::of(last.again()?);
    let second = Shown::of(last.again()?);
    WriteHandle::new(alloc, rt, first, second, visitors)
}

/// Shows the receipt once more. From then on there is room for one that is shown later.
fn make_room<J: DeskName, R: Wait + Drop>(
    shown: &mut WriteHandle<DeskShown<J>, Notice<J>, R>,
    last: &Notice<J>,
) -> Result<(), AllocError>
    requires none { pending shown.old ≡ [] }
    ensures shown { OnOk result (published shown.new ≡ last.now) }
    ensures none { OnOk result (pending shown.new ≡ []) }
{
    let again = last.again()?;
    shown.append(again).map_err(|_| AllocError)?;
    shown.publish()
}

/// Shows a receipt, with room for so many visitors, and for one that is shown later.
fn show_with_room<J: DeskName, R: Wait + Drop>(
    alloc: Global,
    rt: R,
    last: &Notice<J>,
    visitors: usize,
) -> Result<WriteHandle<DeskShown<J>, Notice<J>, R>, AllocError>
    requires visitors { (0 < visitors) × (visitors < 2 ^ 32) }
    ensures shown { IfOk result (λ handle. published handle ≡ last.now) }
    ensures none { IfOk result (λ handle. pending handle ≡ []) }
{
    let mut shown = show_first(alloc, rt, last, visitors)?;
    make_room(&mut shown, last)?;
    Ok(shown)
}

/// A visitor who knows a receipt.
fn visitor_of<J: DeskName, R: Wait + Drop>(
    shown: &WriteHandle<DeskShown<J>, Notice<J>, R>,
    last: &Notice<J>,
) -> Result<Visitor<Log, J, HostSnap>, AllocError>
    ensures { IfOk result (λ visitor. visitor ≡ sees last.now) }
{
    Ok(Visitor::of(shown.handle()?, last.again()?))
}

/// What shows a list, boxed.
fn publisher_of<J: DeskName, R: Wait + Drop>(
    alloc: Global,
    list: SeenList<Log, J>,
    last: Notice<J>,
    shown: WriteHandle<DeskShown<J>, Notice<J>, R>,
) -> Result<DeskPublisher<J, R>, AllocError>
    requires last { last ≡ list.now }
    requires shown { published shown ≡ list.now }
    requires none { pending shown ≡ [] }
    ensures { IfOk result (λ boxed. boxed.value ≡ list) }
{
    let publisher = Publisher::of(&mut Some(list), &mut Some(last), &mut Some(shown));
    Ok(Box::new(alloc, publisher)?)
}

/// What is published of a list as it was found, boxed.
fn published_of<J: DeskName, R: Wait + Drop>(
    alloc: Global,
    opening: u64,
    count: ledger::Book<J>,
    publisher: DeskPublisher<J, R>,
) -> Result<Box<Published<J, DeskShown<J>, R>>, AllocError>
    requires opening { opening ≡ last_number J.found }
    requires few { last_number J.found ≤ 1000000 }
    requires none_counted { count.total ≡ 0 }
    requires found { publisher.value ≡ record { times = 0; now = J.found } }
    ensures { IfOk result (λ boxed. boxed.value ≡ J.found) }
{
    let published = Published::of(opening, &mut Some(count), &mut Some(publisher));
    Ok(Box::new(alloc, published)?)
}

/// Shows a receipt, with room for so many visitors, to a first one of them.
fn show_to_first<J: DeskName, R: Wait + Drop>(
    alloc: Global,
    rt: R,
    last: &Notice<J>,
    visitors: usize,
) -> Result<
    (
        WriteHandle<DeskShown<J>, Notice<J>, R>,
        Visitor<Log, J, HostSnap>,
    ),
    AllocError,
>
    requires visitors { (0 < visitors) × (visitors < 2 ^ 32) }
    ensures shown { IfOk result (λ made. published made.0 ≡ last.now) }
    ensures none { IfOk result (λ made. pending made.0 ≡ []) }
    ensures visitor { IfOk result (λ made. made.1 ≡ sees last.now) }
{
    let shown = show_with_room(alloc, rt, last, visitors)?;
    let visitor = visitor_of(&shown, last)?;
    Ok((shown, visitor))
}

/// What shows the snapshot of what a list is now, and a visitor.
fn show<J: DeskName, R: Wait + Drop>(
    alloc: Global,
    rt: R,
    snap: &Arc<HostSnap>,
    list: SeenList<Log, J>,
    visitors: usize,
) -> Result<(DeskPublisher<J, R>, Visitor<Log, J, HostSnap>), AllocError>
    requires entries { snap.now.value.entries ≡ list.now }
    requires visitors { (0 < visitors) × (visitors < 2 ^ 32) }
    ensures shown { IfOk result (λ made. made.0.value ≡ list) }
    ensures visitor { IfOk result (λ made. made.1 ≡ sees list.now) }
{
    let last = first_receipt(snap, &list)?;
    let (shown, visitor) = show_to_first(alloc, rt, &last, visitors)?;
    Ok((publisher_of(alloc, list, last, shown)?, visitor))
}

/// What is published of a desk, and a visitor.
pub(crate) type FirstPublished<J, R> = (
    Box<Published<J, DeskShown<J>, R>>,
    Visitor<Log, J, HostSnap>,
);

/// Publishes the snapshot of the entries that are found.
pub(crate) fn publish_found<J: DeskName, R: Wait + Drop>(
    alloc: Global,
    rt: R,
    snap: &Arc<HostSnap>,
    opening: u64,
    list: SeenList<Log, J>,
    count: ledger::Book<J>,
    visitors: usize,
) -> Result<FirstPublished<J, R>, AllocError>
    requires entries { snap.now.value.entries ≡ J.found }
    requires found { list ≡ record { times = 0; now = J.found } }
    requires opening { opening ≡ last_number J.found }
    requires few { last_number J.found ≤ 1000000 }
    requires none_counted { count.total ≡ 0 }
    requires visitors { (0 < visitors) × (visitors < 2 ^ 32) }
    ensures published { IfOk result (λ made. made.0.value ≡ J.found) }
    ensures visitor { IfOk result (λ made. made.1 ≡ sees J.found) }
{
    let (publisher, visitor) = show(alloc, rt, snap, list, visitors)?;
    Ok((published_of(alloc, opening, count, publisher)?, visitor))
}
