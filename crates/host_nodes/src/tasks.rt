//! What each thread of the nodes does.
use crate::errands::GuestErrands;
use crate::groups::HostGroup;
use crate::guests::{GuestSteps, HostSlot};
use crate::nodes::{Job, Place, Shared, do_errands, place_at, serve_clients, serve_tcp};
use crate::peer_ports::PeerSteps;
use crate::showing::HostHouses;
use crate::task_lists::Task;
use blob_store::{AbsenceReceipt, PutReceipt, Shelf, ShelfAccess};
use change_log::Log;
use desk_seats::SeatedDesk;
use event_loop::TcpNode;
use host_disk::Disk;
use left_right::Absorb;
use node_process::Stop;
use peer_link::PeerConnection;
use seen_lists::ListName;
use shared_desk::Desk;
use shared_house::{CachedFiles, DeskVisitor, Guest, Memory, Quick, SharedHouse};
use site_desk::{DeskName, KnownFiles, Notice, Seat};
use std::alloc::Global;
use std::net::{Net, TcpStream};
use std::sync::{Mutex, Wait};
use std::thread::Threads;
use std::time::Clock;

/// What the threads of the nodes share.
pub(crate) type HostShared<'a, 'g, 'h, J, K, D, S, T, R, Q, U, N> = Shared<
    'a,
    R,
    Desk<J, K, D, S, T, R>,
    Mutex<Seat<J>>,
    HostGroup<'g, 'h, R, S, Q, U, N>,
    TcpNode<HostSlot<J, K, D, S, Q, U, N>>,
    TcpNode<PeerConnection>,
>;

/// What the threads of a node work with.
type HostPlace<'s, 'g, 'h, J, K, D, R, S, Q, U, N> = Place<
    's,
    Mutex<Seat<J>>,
    HostGroup<'g, 'h, R, S, Q, U, N>,
    TcpNode<HostSlot<J, K, D, S, Q, U, N>>,
    TcpNode<PeerConnection>,
>;

/// The steps of a worker.
type HostSteps<'a, 'g, 'h, J, K, D, S, T, R, Q, U, N> = GuestSteps<
    J,
    K,
    HostHouses<J, D, S, Q, U, N>,
    SeatedDesk<'a, J, K, D, S, T, R, R, Q, U, N>,
    CachedFiles<'a, R, HostGroup<'g, 'h, R, S, Q, U, N>>,
    Quick,
>;

/// What the threads of all nodes work with, beside their places.
#[derive(Drop)]
pub(crate) struct Means<'a, 'l, Q> {
    pub(crate) access: &'a Q,
    /// The turn to parse a long body.
    pub(crate) parsing: &'l Mutex<()>,
    pub(crate) stop: &'l Stop,
    /// How many bytes of memory a worker takes to keep replies.
    pub(crate) kept: usize,
}

impl<'a, 'l, Q> Means<'a, 'l, Q> {
    /// These.
    pub(crate) fn new(
        access: &'a Q,
        parsing: &'l Mutex<()>,
        stop: &'l Stop,
        kept: usize,
    ) -> Means<'a, 'l, Q> {
        Means {
            access,
            parsing,
            stop,
            kept,
        }
    }
}

/// What takes the steps of a worker. There is nothing if memory lacks.
fn steps_of<
    'a,
    'g,
    'h,
    J: DeskName,
    K: ListName<KnownFiles>,
    D: Disk,
    S: Shelf,
    T: Absorb<Notice<J>, State = Log> + Drop,
    R: Net<Stream = TcpStream> + Clock + Wait + Threads + Drop,
    Q: ShelfAccess<S, U, N>,
    U: PutReceipt + Drop,
    N: AbsenceReceipt + Drop,
>(
    rt: &'a R,
    desk: &'a Desk<J, K, D, S, T, R>,
    access: &'a Q,
    parsing: &'a Mutex<()>,
    place: &HostPlace<'a, 'g, 'h, J, K, D, R, S, Q, U, N>,
    visitor: DeskVisitor<J>,
    memory: Memory<J>,
) -> Option<HostSteps<'a, 'g, 'h, J, K, D, S, T, R, Q, U, N>> {
    let desk = SeatedDesk::new(rt, desk, access, place.seat, parsing);
    let files = CachedFiles::new(rt, place.group);
    let house = SharedHouse::new(visitor, desk, files).ok()?;
    Some(GuestSteps::new(Guest::new(house, Quick, Some(memory))))
}

/// Serves the clients of a node with this visitor, until it ends.
fn serve_with<
    'a,
    'g,
    'h,
    J: DeskName,
    K: ListName<KnownFiles>,
    D: Disk,
    S: Shelf,
    T: Absorb<Notice<J>, State = Log> + Drop,
    R: Net<Stream = TcpStream> + Clock + Wait + Threads + Drop,
    Q: ShelfAccess<S, U, N>,
    U: PutReceipt + Drop,
    N: AbsenceReceipt + Drop,
>(
    rt: &'a R,
    alloc: Global,
    desk: &'a Desk<J, K, D, S, T, R>,
    access: &'a Q,
    parsing: &'a Mutex<()>,
    place: &HostPlace<'a, 'g, 'h, J, K, D, R, S, Q, U, N>,
    visitor: DeskVisitor<J>,
    memory: Memory<J>,
) {
    let node = place.node;
    if let Some(steps) = steps_of(rt, desk, access, parsing, place, visitor, memory) {
        serve_tcp(rt, alloc, node, steps);
    }
}

/// Answers what the workers of a node leave, until it ends.
fn answer_left<
    'a,
    'g,
    'h,
    J: DeskName,
    K: ListName<KnownFiles>,
    D: Disk,
    S: Shelf,
    T: Absorb<Notice<J>, State = Log> + Drop,
    R: Net<Stream = TcpStream> + Clock + Wait + Threads + Drop,
    Q: ShelfAccess<S, U, N>,
    U: PutReceipt + Drop,
    N: AbsenceReceipt + Drop,
>(
    rt: &'a R,
    alloc: Global,
    desk: &'a Desk<J, K, D, S, T, R>,
    access: &'a Q,
    parsing: &'a Mutex<()>,
    place: &HostPlace<'a, 'g, 'h, J, K, D, R, S, Q, U, N>,
) {
    let errands = GuestErrands {
        rt,
        desk,
        access,
        seat: place.seat,
        group: place.group,
        parsing,
    };
    do_errands(rt, alloc, place.node, errands);
}

/// Answers other nodes from the part of a node in the group, until it ends.
fn answer_peers<
    J: DeskName,
    K: ListName<KnownFiles>,
    D: Disk,
    S,
    R: Net<Stream = TcpStream> + Clock + Wait,
    Q: ShelfAccess<S, U, N>,
    U: PutReceipt + Drop,
    N: AbsenceReceipt + Drop,
>(rt: &R, alloc: Global, place: &HostPlace<'_, '_, '_, J, K, D, R, S, Q, U, N>) {
    let steps = PeerSteps {
        rt,
        chunks: place.group,
    };
    serve_clients(
        rt,
        alloc,
        Job {
            node: place.peers,
            steps,
        },
    );
}

/// Does what a thread is to do.
fn do_task<
    'a,
    J: DeskName,
    K: ListName<KnownFiles>,
    D: Disk,
    S: Shelf,
    T: Absorb<Notice<J>, State = Log> + Drop,
    R: Net<Stream = TcpStream> + Clock + Wait + Threads + Drop,
    Q: ShelfAccess<S, U, N>,
    U: PutReceipt + Drop,
    N: AbsenceReceipt + Drop,
>(
    alloc: Global,
    shared: &HostShared<'a, '_, '_, J, K, D, S, T, R, Q, U, N>,
    means: &Means<'a, '_, Q>,
    task: Task<J>,
) {
    let (rt, desk) = (shared.rt, shared.desk);
    let (access, parsing) = (means.access, means.parsing);
    match task {
        Task::Serve(at, visitor) => {
            if let Some(place) = place_at(shared, at) {
                let memory = Memory::new(alloc, means.kept);
                serve_with(rt, alloc, desk, access, parsing, &place, visitor, memory);
            }
        }
        Task::Errands(at) => {
            if let Some(place) = place_at(shared, at) {
                answer_left(rt, alloc, desk, access, parsing, &place);
            }
        }
        Task::Peers(at) => {
            if let Some(place) = place_at(shared, at) {
                answer_peers(rt, alloc, &place);
            }
        }
    }
}

/// Does what a thread is to do. Once the last worker has ended, so do the threads that may wait.
pub(crate) fn work_on<
    'a,
    J: DeskName,
    K: ListName<KnownFiles>,
    D: Disk,
    S: Shelf,
    T: Absorb<Notice<J>, State = Log> + Drop,
    R: Net<Stream = TcpStream> + Clock + Wait + Threads + Drop,
    Q: ShelfAccess<S, U, N>,
    U: PutReceipt + Drop,
    N: AbsenceReceipt + Drop,
>(
    alloc: Global,
    shared: &HostShared<'a, '_, '_, J, K, D, S, T, R, Q, U, N>,
    means: &Means<'a, '_, Q>,
    task: Task<J>,
) {
    let is_worker = matches!(task, Task::Serve(_, _));
    do_task(alloc, shared, means, task);
    if is_worker && means.stop.leave(shared.rt) {
        end_all(shared.rt, shared.nodes, shared.peers);
    }
}

/// Ends all of these nodes.
pub(crate) fn end_all<R: Wait, N: Drop, M: Drop>(
    rt: &R,
    nodes: &[TcpNode<N>],
    peers: &[TcpNode<M>],
) {
    for node in nodes {
        node.end_all(rt);
    }
    for node in peers {
        node.end_all(rt);
    }
}
