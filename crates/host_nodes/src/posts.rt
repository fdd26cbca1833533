//! What each node has of its own, and what is to be done there.
use crate::guests::NotedSlot;
use crate::lines::Failure;
use crate::nodes::PEER_THREADS;
use crate::ports::{Bound, Ports};
use crate::showing::Houses;
use crate::task_lists::{Task, tasks_of};
use connection_rules::Limits;
use event_loop::{Node, NodePlan, TcpNode};
use operator_notices::Notices;
use peer_link::PeerConnection;
use seen_lists::ListName;
use shared_house::DeskVisitor;
use site_desk::{DeskName, KnownFiles, Seat, Seats};
use socket_sets::ReadySet;
use std::alloc::{AllocError, Global};
use std::net::TcpListener;
use std::sync::{Arc, Mutex};

/// How many connections of other nodes a node has at most; it has no more of them than of clients.
const PEER_PLACES: usize = 16;

/// A seat for each node, behind a lock.
fn seats_of<J: DeskName>(
    alloc: Global,
    seats: Seats<J>,
    nodes: usize,
) -> Result<Vec<Mutex<Seat<J>>>, AllocError> {
    let mut seats = seats;
    let mut taken = Vec::new(alloc);
    for _ in 0..nodes {
        let Some(seat) = seats.take() else {
            return Ok(taken);
        };
        taken.push(Mutex::new(seat))?;
    }
    Ok(taken)
}

/// A set of sockets for each worker.
fn sets_of(alloc: Global, workers: usize) -> Result<Vec<ReadySet>, Failure> {
    let mut sets = Vec::new(alloc);
    for _ in 0..workers {
        let set = ReadySet::new().map_err(|_| Failure::CannotListen)?;
        sets.push(set).map_err(|_| AllocError)?;
    }
    Ok(sets)
}

/// The nodes of these listeners, which take no client yet.
fn nodes_of<C: Drop>(
    alloc: Global,
    listeners: Vec<TcpListener>,
    workers: usize,
    places: usize,
    limits: Limits,
    clients: u64,
    notices: &Arc<Notices>,
) -> Result<Vec<TcpNode<C>>, Failure> {
    let mut nodes = Vec::new(alloc);
    for listener in listeners {
        let sets = sets_of(alloc, workers)?;
        let plan = NodePlan {
            places,
            limits,
            clients,
            notices: Arc::try_clone(notices)?,
        };
        let node = Node::new(alloc, listener, sets, plan)?;
        nodes.push(node).map_err(|_| AllocError)?;
    }
    Ok(nodes)
}

/// What is asked of each node.
#[derive(Drop)]
pub(crate) struct Plan {
    pub(crate) workers: usize,
    pub(crate) places: usize,
    pub(crate) limits: Limits,
    pub(crate) clients: u64,
    pub(crate) notices: Arc<Notices>,
}

/// Who works at a desk: the seats of the nodes, and the first visitor.
#[derive(Drop)]
pub(crate) struct Staff<J: DeskName> {
    pub(crate) seats: Seats<J>,
    pub(crate) visitor: DeskVisitor<J>,
}

/// What each node has of its own: a seat, the clients that it serves, the other nodes that it answers, and its ports.
#[derive(Drop)]
pub(crate) struct Places<J: DeskName, K: ListName<KnownFiles>, M: Houses> {
    pub(crate) seats: Vec<Mutex<Seat<J>>>,
    pub(crate) nodes: Vec<TcpNode<NotedSlot<J, K, M>>>,
    pub(crate) peers: Vec<TcpNode<PeerConnection>>,
    pub(crate) ports: Vec<Ports>,
}

/// A place for each of these ports.
fn places_of<J: DeskName, K: ListName<KnownFiles>, M: Houses>(
    alloc: Global,
    seats: Seats<J>,
    bound: Bound,
    plan: &Plan,
) -> Result<Places<J, K, M>, Failure> {
    let Bound {
        clients,
        peers,
        ports,
    } = bound;
    let seats = seats_of(alloc, seats, ports.len())?;
    let nodes = nodes_of::<NotedSlot<J, K, M>>(
        alloc,
        clients,
        plan.workers,
        plan.places,
        plan.limits,
        plan.clients,
        &plan.notices,
    )?;
    let peers = nodes_of::<PeerConnection>(
        alloc,
        peers,
        PEER_THREADS,
        PEER_PLACES.min(plan.places),
        plan.limits,
        u64::MAX,
        &plan.notices,
    )?;
    Ok(Places {
        seats,
        nodes,
        peers,
        ports,
    })
}

/// The places of the nodes, and what is to be done there.
#[derive(Drop)]
pub(crate) struct Posts<J: DeskName, K: ListName<KnownFiles>, M: Houses> {
    pub(crate) places: Places<J, K, M>,
    pub(crate) tasks: Vec<Task<J>>,
}

/// The posts of these who work at a desk, at these ports.
pub(crate) fn posts_of<J: DeskName, K: ListName<KnownFiles>, M: Houses>(
    alloc: Global,
    staff: Staff<J>,
    bound: Bound,
    plan: &Plan,
) -> Result<Posts<J, K, M>, Failure> {
    let Staff { seats, visitor } = staff;
    let tasks = tasks_of(alloc, bound.ports.len(), plan.workers, visitor)?;
    Ok(Posts {
        places: places_of(alloc, seats, bound, plan)?,
        tasks,
    })
}
