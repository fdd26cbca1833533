//! The threads of the nodes.
use connection_rules::Stage;
use event_loop::{
    ErrandTurns, ErrandWorker, Node, NodeTurns, NotBegun, SlowSteps, Steps, TcpNode, Worker, work,
};
use node_process::Start;
use socket_sets::{Listener, SocketSet, Waits};
use std::alloc::{AllocError, Global};
use std::net::TcpStream;
use std::sync::Wait;
use std::thread;
use std::thread::Threads;
use std::time::Clock;
use worker_connections::{Holding, Next, Step};

/// How many threads of a node answer what its workers leave.
pub(crate) const ERRAND_THREADS: usize = 2;

/// How many threads of a node answer other nodes.
pub(crate) const PEER_THREADS: usize = 2;

/// What begins connections over TCP, and takes their steps. Whoever has any such thing knows nothing of its connections.
///
/// One call does both. For each method of a trait the prover compares the types of whoever calls with those of the impl; where there are as many types as in a
/// thread of the nodes, it has time for one method alone.
pub(crate) trait TakesSteps {
    /// What a connection takes along.
    type Connection: Drop;

    /// Room that a connection needs for a step, and may leave to the next one.
    type Room: Drop;

    /// Takes a step of a connection, over its socket if it has one here. If there is no connection yet, one begins in this place, which takes no step. Neither is
    /// done if there is no memory for it.
    fn take_step(
        &mut self,
        alloc: Global,
        connection: &mut Option<Self::Connection>,
        spare: &mut Option<Self::Room>,
        stream: Option<&TcpStream>,
    ) -> Result<Option<Step>, NotBegun>;
}

/// The step of a connection that can't go on.
pub(crate) fn lost() -> Step {
    Step {
        next: Next::Ends,
        stage: Stage::Closing,
        read: 0,
        written: 0,
        answers: false,
        holds: Holding::Nothing,
    }
}

/// The step that was taken. There is always one where the connection had begun.
fn step_taken(taken: Result<Option<Step>, NotBegun>) -> Step {
    match taken {
        Ok(Some(step)) => step,
        Ok(None) | Err(_) => lost(),
    }
}

/// The steps of a worker over TCP. It waits for nothing but its set.
#[derive(Drop)]
struct OverTcp<W: TakesSteps + Drop> {
    steps: W,
    /// Room that a connection left, for the next one that needs some.
    spare: Option<W::Room>,
}

impl<W: TakesSteps + Drop> Steps for OverTcp<W> {
    type Socket = TcpStream;

    type Connection = Option<W::Connection>;

    fn begin(
        &mut self,
        alloc: Global,
        _socket: &TcpStream,
    ) -> Result<Option<W::Connection>, NotBegun> {
        let mut connection = None;
        self.steps
            .take_step(alloc, &mut connection, &mut self.spare, None)?;
        Ok(connection)
    }

    fn go_on(
        &mut self,
        alloc: Global,
        connection: &mut Option<W::Connection>,
        socket: &TcpStream,
    ) -> Option<Step> {
        self.steps
            .take_step(alloc, connection, &mut self.spare, Some(socket))
            .ok()?
    }
}

/// Takes the step of a connection that is given to a thread that may wait. It needs no socket.
pub(crate) fn step_away<W: TakesSteps + Drop>(
    mut steps: W,
    alloc: Global,
    connection: &mut Option<W::Connection>,
) -> Step {
    step_taken(steps.take_step(alloc, connection, &mut None, None))
}

/// Serves whoever connects to a node over TCP, until it ends.
pub(crate) fn serve_tcp<R: Wait + Clock, W: TakesSteps + Drop>(
    rt: &R,
    alloc: Global,
    node: &TcpNode<Option<W::Connection>>,
    steps: W,
) {
    let steps = OverTcp { steps, spare: None };
    serve_clients(rt, alloc, Job { node, steps });
}

/// A worker, and the node whose clients it serves.
#[derive(Drop)]
pub(crate) struct Job<'a, S: Steps + Drop, L: Drop, P: Drop> {
    pub(crate) node: &'a Node<S::Connection, S::Socket, L, P>,
    pub(crate) steps: S,
}

/// Serves whoever connects to a node, until it ends.
pub(crate) fn serve_clients<
    R: Wait + Clock,
    S: Steps + Drop,
    L: Listener<S::Socket> + Drop,
    P: Waits + SocketSet<S::Socket, L> + Drop,
>(rt: &R, alloc: Global, job: Job<'_, S, L, P>) {
    let Job { node, steps } = job;
    let Some(number) = node.next_worker() else {
        return;
    };
    let mut turns = NodeTurns::new(rt, node, number);
    let mut worker = Worker::new(rt, alloc, node, number, steps);
    work(rt, &mut turns, &mut worker);
}

/// Does what the workers of a node leave, until the node ends.
pub(crate) fn do_errands<R: Wait + Clock, S: SlowSteps + Drop, K: Drop, L: Drop, P: Waits + Drop>(
    rt: &R,
    alloc: Global,
    node: &Node<S::Connection, K, L, P>,
    steps: S,
) {
    let mut turns = ErrandTurns::new(rt, node);
    let mut worker = ErrandWorker::new(rt, alloc, node, steps);
    work(rt, &mut turns, &mut worker);
}

/// What the threads share: the desk, and for each node a seat, its part in the group, its clients, and the other nodes that ask it.
#[derive(Drop)]
pub(crate) struct Shared<'a, R, A, B, C, E, F> {
    pub(crate) rt: &'a R,
    pub(crate) desk: &'a A,
    pub(crate) seats: &'a [B],
    pub(crate) groups: &'a [C],
    pub(crate) nodes: &'a [E],
    pub(crate) peers: &'a [F],
}

/// What the threads of one node work with: its seat, its part in the group, its clients, and the other nodes that ask it.
#[derive(Drop)]
pub(crate) struct Place<'s, B, C, E, F> {
    pub(crate) seat: &'s B,
    pub(crate) group: &'s C,
    pub(crate) node: &'s E,
    pub(crate) peers: &'s F,
}

/// What the threads of the node at this place work with.
pub(crate) fn place_at<'s, R, A, B, C, E, F>(
    shared: &Shared<'s, R, A, B, C, E, F>,
    at: usize,
) -> Option<Place<'s, B, C, E, F>> {
    Some(Place {
        seat: shared.seats.get(at)?,
        group: shared.groups.get(at)?,
        node: shared.nodes.get(at)?,
        peers: shared.peers.get(at)?,
    })
}

/// Does these tasks, each in a thread of its own, over what they share, and joins each thread; meanwhile this thread oversees them. Where a thread can't be
/// made, no task is begun. It knows no type of what is shared: so it is shown of each by itself that threads may share it.
pub(crate) fn share_out<
    R: Threads + Clock + Sync,
    A: Sync,
    B: Sync,
    C: Sync,
    E: Sync,
    F: Sync,
    H: Send + Drop,
    W: Fn(&Shared<'_, R, A, B, C, E, F>, H) + Sync,
    O: FnOnce() -> X,
    X,
>(
    shared: &Shared<'_, R, A, B, C, E, F>,
    tasks: Vec<H>,
    start: &Start,
    work: &W,
    oversee: O,
) -> (Result<(), AllocError>, X)
    requires works { W.IsAlwaysCallable work.now }
    requires oversees { O.pre oversee }
{
    let rt = shared.rt;
    thread::join(
        rt,
        || -> Result<(), AllocError>
            requires { W.IsAlwaysCallable work.now }
        { do_all(rt, shared, tasks, start, work) },
        oversee,
    )
}

/// Does these tasks once a thread has begun for each.
fn do_all<
    R: Threads + Clock + Sync,
    A: Sync,
    B: Sync,
    C: Sync,
    E: Sync,
    F: Sync,
    H: Send + Drop,
    W: Fn(&Shared<'_, R, A, B, C, E, F>, H) + Sync,
>(
    rt: &R,
    shared: &Shared<'_, R, A, B, C, E, F>,
    tasks: Vec<H>,
    start: &Start,
    work: &W,
) -> Result<(), AllocError>
    requires { W.IsAlwaysCallable work.now }
{
    thread::map_vec(
        rt,
        tasks,
        &|task: H| {
            if start.begin(rt) {
                work(shared, task);
            }
        },
    )?;
    Ok(())
}
