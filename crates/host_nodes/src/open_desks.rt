//! A desk is opened, and its nodes serve.
ghost use Rattle.std.specs.Prelude.{◌≡◌, ◌<◌, ◌≤◌};
ghost use Rattle.shared_desk.specs.NewDesks.{AreNames};
ghost use Rattle.host_nodes.specs.Ports.{LeavesRoom};

use crate::desks::serve_desk;
use crate::lines::Failure;
use crate::nodes::PEER_THREADS;
use crate::ports::bind_all;
use crate::posts::{Plan, Posts, Staff, posts_of};
use crate::runtimes::Serving;
use crate::showing::Houses;
use blob_store::{AbsenceReceipt, PutReceipt, Shelf, ShelfAccess};
use change_log::Log;
use command_line::ServeOptions;
use connection_rules::Limits;
use found_host::{Found, OpenFault};
use host_disk::Disk;
use http_wire::Sink;
use left_right::Absorb;
use node_process::{Process, Surroundings, places_of};
use operator_notices::Notices;
use seen_lists::{ListName, Shown};
use shared_desk::{Desk, NewDesk, Opened, open};
use site_desk::{DeskName, HostSnap, KnownFiles, Notice};
use std::alloc::{AllocError, Global};
use std::net::{Net, TcpListener, TcpStream};
use std::sync::{Arc, Wait};

/// How many nodes there are at most, and how many workers a node has at most.
const MOST: u64 = 8;

/// A value in a place of its own.
fn boxed<T: Drop>(alloc: Global, value: T) -> Result<Box<T>, AllocError> {
    Ok(Box::new(alloc, value)?)
}

/// A desk that is open, and who works at it.
#[derive(Drop)]
struct OpenDesk<
    J: DeskName,
    K: ListName<KnownFiles>,
    D: Disk + Drop,
    S: Shelf + Drop,
    R: Wait + Drop,
> {
    desk: Box<Desk<J, K, D, S, Shown<Log, J, HostSnap>, R>>,
    staff: Staff<J>,
}

/// How many nodes there are, and how many workers each has.
pub(crate) fn numbers(options: &ServeOptions) -> (u64, u64)
    ensures nodes { (0 < result.0) × (result.0 ≤ 8) }
    ensures workers { (0 < result.1) × (result.1 ≤ 8) }
{
    // The words give as many; the proof sees it here.
    (options.nodes.clamp(1, MOST), options.workers.clamp(1, MOST))
}

/// Puts a desk that was just opened into a place of its own, with its seats and its visitor beside it.
fn staffed<J: DeskName, K: ListName<KnownFiles>, D: Disk + Drop, S: Shelf + Drop, R: Wait + Drop>(
    alloc: Global,
    opened: Opened<J, K, D, S, R>,
) -> Result<OpenDesk<J, K, D, S, R>, Failure> {
    let (desk, seats, visitor) = opened;
    let staff = Staff { seats, visitor };
    let desk = boxed(alloc, desk)?;
    Ok(OpenDesk { desk, staff })
}

/// What came of a call that fails only for want of memory.
fn or_no_memory<T, E: Drop>(outcome: Result<T, E>) -> Result<T, Failure> {
    match outcome {
        Ok(value) => Ok(value),
        Err(_) => Err(Failure::NotOpened(OpenFault::OutOfMemory)),
    }
}

/// Opens the desk of what was found, with a seat for each node and this many visitors.
fn open_desk<J: DeskName, K: ListName<KnownFiles>, D: Disk + Drop, S: Shelf + Drop, R: Wait + Drop>(
    rt: R,
    alloc: Global,
    new: NewDesk,
    found: Found<D, S>,
    visitors: usize,
) -> Result<OpenDesk<J, K, D, S, R>, Failure>
    requires names { AreNames J.name J.parts J.book K.book new }
    requires entries { J.found ≡ found.journal.entries }
    requires uploads { K.found ≡ found.store.known }
    requires limit { found.limit ≡ 1000000 }
    requires visitors { (0 < visitors) × (visitors ≤ 64) }
{
    let opened = or_no_memory(open::<J, K, D, S, R>(alloc, rt, new, found, visitors))?;
    staffed(alloc, opened)
}

/// What the words ask of each node, and what this process leaves room for.
fn plan_of<P: Process>(
    options: &ServeOptions,
    limits: Limits,
    notices: &Arc<Notices>,
    process: &P,
) -> Result<Plan, Failure> {
    let (nodes, workers) = numbers(options);
    // The threads that answer other nodes are workers too.
    let all = workers.saturating_add(PEER_THREADS as u64);
    let places = places_of(process.descriptors(), nodes, all).ok_or(Failure::CannotListen)?;
    Ok(Plan {
        workers: workers as usize,
        places,
        limits,
        clients: options.conns.unwrap_or(u64::MAX),
        notices: Arc::try_clone(notices)?,
    })
}

/// Binds the ports that the words ask for, and gives these who work at a desk their posts there.
fn posts_at<
    J: DeskName,
    K: ListName<KnownFiles>,
    M: Houses,
    R: Net<Listener = TcpListener, Stream = TcpStream>,
>(
    rt: &R,
    alloc: Global,
    options: &ServeOptions,
    staff: Staff<J>,
    plan: &Plan,
) -> Result<Posts<J, K, M>, Failure>
    requires ports { LeavesRoom options.now.listen }
{
    let (nodes, _) = numbers(options);
    let bound = bind_all(rt, alloc, &options.listen, nodes as u16)?;
    posts_of(alloc, staff, bound, plan)
}

/// Serves at a desk, with these who work at it.
fn serve_staffed<
    J: DeskName + Send + Sync,
    K: ListName<KnownFiles> + Send + Sync,
    D: Disk + Send,
    S: Shelf + Send,
    T: Absorb<Notice<J>, State = Log> + Drop + Send + Sync,
    R: Serving,
    Q: ShelfAccess<S, U, N> + Send + Sync,
    U: PutReceipt + Drop + Send + Sync,
    N: AbsenceReceipt + Drop + Send + Sync,
    P: Process,
    O: Sink,
    E: Sink,
>(
    rt: &R,
    alloc: Global,
    options: &ServeOptions,
    limits: Limits,
    desk: &Desk<J, K, D, S, T, R>,
    staff: Staff<J>,
    around: &Surroundings<'_, R, P, Q, E>,
    lines: &mut O,
) -> Result<(), Failure>
    requires ports { LeavesRoom options.now.listen }
{
    let plan = plan_of(options, limits, around.notices, around.process)?;
    let posts = posts_at(rt, alloc, options, staff, &plan)?;
    serve_desk(rt, alloc, desk, posts, around, lines)
}

/// Serves from a desk that is open.
fn serve_open<
    J: DeskName + Send + Sync,
    K: ListName<KnownFiles> + Send + Sync,
    D: Disk + Drop + Send,
    S: Shelf + Drop + Send,
    R: Serving,
    Q: ShelfAccess<S, U, N> + Send + Sync,
    U: PutReceipt + Drop + Send + Sync,
    N: AbsenceReceipt + Drop + Send + Sync,
    P: Process,
    O: Sink,
    E: Sink,
>(
    rt: &R,
    alloc: Global,
    options: &ServeOptions,
    limits: Limits,
    opened: OpenDesk<J, K, D, S, R>,
    around: &Surroundings<'_, R, P, Q, E>,
    lines: &mut O,
) -> Result<(), Failure>
    requires ports { LeavesRoom options.now.listen }
{
    let OpenDesk { desk, staff } = opened;
    serve_staffed(rt, alloc, options, limits, &desk, staff, around, lines)
}

/// Serves from the desk of what was found, which has the runtime for its own.
pub(crate) fn serve_found<
    J: DeskName + Send + Sync,
    K: ListName<KnownFiles> + Send + Sync,
    D: Disk + Drop + Send,
    S: Shelf + Drop + Send,
    R: Serving,
    Q: ShelfAccess<S, U, N> + Send + Sync,
    U: PutReceipt + Drop + Send + Sync,
    N: AbsenceReceipt + Drop + Send + Sync,
    P: Process,
    O: Sink,
    E: Sink,
>(
    rt: &R,
    own: R,
    alloc: Global,
    options: &ServeOptions,
    limits: Limits,
    new: NewDesk,
    found: Found<D, S>,
    around: &Surroundings<'_, R, P, Q, E>,
    lines: &mut O,
) -> Result<(), Failure>
    requires names { AreNames J.name J.parts J.book K.book new }
    requires entries { J.found ≡ found.journal.entries }
    requires uploads { K.found ≡ found.store.known }
    requires limit { found.limit ≡ 1000000 }
    requires ports { LeavesRoom options.now.listen }
{
    let (nodes, workers) = numbers(options);
    let visitors = (nodes * workers) as usize;
    let opened = open_desk::<J, K, D, S, R>(own, alloc, new, found, visitors)?;
    serve_open(rt, alloc, options, limits, opened, around, lines)
}
