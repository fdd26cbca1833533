//! The desk of the nodes, and how they serve from it.
use crate::groups::{HostGroup, View, groups_of, views_of};
use crate::lines::Failure;
use crate::nodes::{Shared, share_out};
use crate::overseeing::Overseen;
use crate::ports::Ports;
use crate::posts::{Places, Posts};
use crate::runtimes::Serving;
use crate::showing::HostHouses;
use crate::task_lists::Task;
use crate::tasks::{HostShared, Means, work_on};
use blob_store::{AbsenceReceipt, PutReceipt, Shelf, ShelfAccess};
use change_log::Log;
use host_disk::Disk;
use http_wire::Sink;
use left_right::Absorb;
use node_process::{Process, Start, Surroundings};
use seen_lists::ListName;
use shared_desk::Desk;
use site_desk::{DeskName, KnownFiles, Notice};
use std::alloc::Global;
use std::sync::Mutex;

/// Does these tasks, and oversees them.
fn serve_nodes<
    'a,
    J: DeskName + Send + Sync,
    K: ListName<KnownFiles> + Send + Sync,
    D: Disk + Send,
    S: Shelf + Send,
    T: Absorb<Notice<J>, State = Log> + Drop + Send + Sync,
    R: Serving,
    Q: ShelfAccess<S, U, N> + Send + Sync,
    U: PutReceipt + Drop + Send + Sync,
    N: AbsenceReceipt + Drop + Send + Sync,
    P: Process,
    O: Sink,
    E: Sink,
>(
    alloc: Global,
    shared: &HostShared<'a, '_, '_, J, K, D, S, T, R, Q, U, N>,
    ports: &'a [Ports],
    tasks: Vec<Task<J>>,
    around: &Surroundings<'a, R, P, Q, E>,
    lines: &mut O,
) -> Result<(), Failure> {
    let (start, parsing) = (Start::new(tasks.len() as u64), Mutex::new(()));
    let kept = kept_by_each(workers_in(tasks.as_slice()), ports.len());
    let means = Means::new(around.access, &parsing, around.stop, kept);
    let overseen = Overseen::new(shared, ports, around);
    let (done, overseen) = share_out(
        shared,
        tasks,
        &start,
        &|shared, task| work_on(alloc, shared, &means, task),
        || overseen.oversee(shared.rt, alloc, &start, around.process, around.told, lines),
    );
    overseen?;
    Ok(done?)
}

/// How many bytes of memory a node takes at most to keep replies.
const KEPT: usize = 8_388_608;

/// How many of these a worker takes, if there are so many workers at so many nodes.
fn kept_by_each(workers: u64, nodes: usize) -> usize {
    KEPT.saturating_mul(nodes) / workers.max(1) as usize
}

/// How many of these tasks are those of workers.
fn workers_in<J: DeskName>(tasks: &[Task<J>]) -> u64 {
    let mut workers = 0_u64;
    for task in tasks {
        if matches!(task, Task::Serve(_, _)) {
            workers = workers.saturating_add(1);
        }
    }
    workers
}

/// Serves at these places, with these parts of the group.
fn serve_places<
    'a,
    J: DeskName + Send + Sync,
    K: ListName<KnownFiles> + Send + Sync,
    D: Disk + Send,
    S: Shelf + Send,
    T: Absorb<Notice<J>, State = Log> + Drop + Send + Sync,
    R: Serving,
    Q: ShelfAccess<S, U, N> + Send + Sync,
    U: PutReceipt + Drop + Send + Sync,
    N: AbsenceReceipt + Drop + Send + Sync,
    P: Process,
    O: Sink,
    E: Sink,
>(
    rt: &'a R,
    alloc: Global,
    desk: &'a Desk<J, K, D, S, T, R>,
    groups: &'a [HostGroup<'_, '_, R, S, Q, U, N>],
    places: &'a Places<J, K, HostHouses<J, D, S, Q, U, N>>,
    tasks: Vec<Task<J>>,
    around: &Surroundings<'a, R, P, Q, E>,
    lines: &mut O,
) -> Result<(), Failure> {
    let shared = Shared {
        rt,
        desk,
        seats: places.seats.as_slice(),
        groups,
        nodes: places.nodes.as_slice(),
        peers: places.peers.as_slice(),
    };
    around.stop.expect(rt, workers_in(tasks.as_slice()));
    let ports = places.ports.as_slice();
    serve_nodes(alloc, &shared, ports, tasks, around, lines)
}

/// Serves at these places, with a group of nodes that know each other so.
fn serve_group<
    J: DeskName + Send + Sync,
    K: ListName<KnownFiles> + Send + Sync,
    D: Disk + Send,
    S: Shelf + Send,
    T: Absorb<Notice<J>, State = Log> + Drop + Send + Sync,
    R: Serving,
    Q: ShelfAccess<S, U, N> + Send + Sync,
    U: PutReceipt + Drop + Send + Sync,
    N: AbsenceReceipt + Drop + Send + Sync,
    P: Process,
    O: Sink,
    E: Sink,
>(
    rt: &R,
    alloc: Global,
    desk: &Desk<J, K, D, S, T, R>,
    views: &[View],
    places: &Places<J, K, HostHouses<J, D, S, Q, U, N>>,
    tasks: Vec<Task<J>>,
    around: &Surroundings<'_, R, P, Q, E>,
    lines: &mut O,
) -> Result<(), Failure> {
    let groups = groups_of(
        rt,
        alloc,
        desk.files(),
        around.access,
        views,
        around.notices,
    )?;
    let groups = groups.as_slice();
    serve_places(rt, alloc, desk, groups, places, tasks, around, lines)
}

/// Serves from a desk, at these posts.
pub(crate) fn serve_desk<
    J: DeskName + Send + Sync,
    K: ListName<KnownFiles> + Send + Sync,
    D: Disk + Send,
    S: Shelf + Send,
    T: Absorb<Notice<J>, State = Log> + Drop + Send + Sync,
    R: Serving,
    Q: ShelfAccess<S, U, N> + Send + Sync,
    U: PutReceipt + Drop + Send + Sync,
    N: AbsenceReceipt + Drop + Send + Sync,
    P: Process,
    O: Sink,
    E: Sink,
>(
    rt: &R,
    alloc: Global,
    desk: &Desk<J, K, D, S, T, R>,
    posts: Posts<J, K, HostHouses<J, D, S, Q, U, N>>,
    around: &Surroundings<'_, R, P, Q, E>,
    lines: &mut O,
) -> Result<(), Failure> {
    let Posts { places, tasks } = posts;
    let views = views_of(alloc, places.ports.as_slice())?;
    serve_group(
        rt,
        alloc,
        desk,
        views.as_slice(),
        &places,
        tasks,
        around,
        lines,
    )
}
