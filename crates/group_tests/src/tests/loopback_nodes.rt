//! Three nodes that ask each other over loopback.
ghost use Rattle.std.specs.Prelude.{◌<◌, ◌≡◌, length};

use super::fixtures::{Giver, is_chunk_of, names};
use super::gates::assert_count;
use super::nodes_with_peers::PEERS;
use chunk_group::{Counter, Group};
use host_names::Digest;
use http_wire::{Pair, Reading, Writing};
use operator_notices::Notices;
use peer_link::{Peer, TcpLink, serve_peer};
use peer_ring::{DigestHash, Ring};
use std::alloc::Global;
use std::net::{Net, SocketAddr, TcpListener, TcpStream};
use std::process::Abort;
use std::sync::Wait;
use std::sync::atomic::{AtomicBool, AtomicU64, Ordering};
use std::test::Fail;
use std::thread;
use std::thread::Threads;
use std::time::Clock;

/// How many chunks the source has.
const CHUNKS: usize = 12;

/// In which order the nodes read all chunks.
const ORDERS: [[usize; 3]; 6] = [
    [0, 1, 2],
    [0, 2, 1],
    [1, 0, 2],
    [1, 2, 0],
    [2, 0, 1],
    [2, 1, 0],
];

type PeerNode<'s, 'l, R> = Group<DigestHash, Giver<'s>, TcpLink<'l, R>, Counter>;

/// The ports of the nodes for peers, their addresses, and how the nodes know each other.
#[derive(Drop)]
struct Ports {
    listeners: [TcpListener; 3],
    addresses: [SocketAddr; 3],
    peers: [Peer; 3],
    notices: Notices,
}

impl Ports {
    fn new<R: Net<Listener = TcpListener, Stream = TcpStream>>(rt: &R) -> Result<Ports, Fail> {
        let first = TcpListener::bind(rt, "127.0.0.1:0")?;
        let second = TcpListener::bind(rt, "127.0.0.1:0")?;
        let third = TcpListener::bind(rt, "127.0.0.1:0")?;
        let addresses = [
            first.local_addr()?,
            second.local_addr()?,
            third.local_addr()?,
        ];
        Ok(Ports {
            listeners: [first, second, third],
            addresses,
            peers: [
                Peer::new(addresses[0]),
                Peer::new(addresses[1]),
                Peer::new(addresses[2]),
            ],
            notices: Notices::new(),
        })
    }
}

/// The node at a place, whose source counts its calls.
fn node_at<'s, 'l, R: Net<Stream = TcpStream> + Clock>(
    alloc: Global,
    me: usize,
    source: Giver<'s>,
    link: TcpLink<'l, R>,
) -> Result<PeerNode<'s, 'l, R>, Fail>
    requires { me < 3 }
{
    let ring = Ring::new(alloc, &PEERS, &DigestHash)?;
    Ok(Group::new(alloc, 100_000, ring, me, source, link, Counter::new())?)
}

/// Answers the peers of a node until it is told to stop.
fn serve<R: Net<Stream = TcpStream> + Clock + Wait>(
    rt: &R,
    alloc: Global,
    listener: &TcpListener,
    node: &PeerNode<'_, '_, R>,
    stop: &AtomicBool,
) {
    for stream in listener.incoming() {
        if stop.load(Ordering::SeqCst) {
            return;
        }
        if let Ok(stream) = stream {
            let mut duplex = Pair {
                source: Reading(&stream),
                sink: Writing(&stream),
            };
            let _ = serve_peer(rt, alloc, &mut duplex, node);
        }
    }
}

/// Reads all chunks on a node, and counts the right answers.
fn visit<R: Net<Stream = TcpStream> + Clock + Wait>(
    rt: &R,
    alloc: Global,
    node: &PeerNode<'_, '_, R>,
    names: &[Digest],
    right: &AtomicU64,
) {
    for (number, name) in names.iter().enumerate() {
        if is_chunk_of(alloc, &node.get(rt, name), number).unwrap_or(false) {
            right.fetch_add(1, Ordering::SeqCst);
        }
    }
}

/// The node of a number.
fn pick<'n, N>(nodes: &'n [N; 3], number: usize) -> &'n N {
    match number {
        0 => &nodes[0],
        1 => &nodes[1],
        _ => &nodes[2],
    }
}

/// Lets each port take one connection more, which tells it to stop.
fn stop_all<R: Net<Stream = TcpStream>>(rt: &R, addresses: &[SocketAddr; 3], stop: &AtomicBool) {
    stop.store(true, Ordering::SeqCst);
    for address in addresses {
        let _ = TcpStream::connect(rt, *address);
    }
}

/// Reads all chunks on each node in turn, and then stops what answers the peers.
fn visit_in_order<R: Net<Stream = TcpStream> + Clock + Wait>(
    rt: &R,
    alloc: Global,
    ports: &Ports,
    nodes: &[PeerNode<'_, '_, R>; 3],
    order: &[usize; 3],
    names: &[Digest],
    right: &AtomicU64,
    stop: &AtomicBool,
) {
    for number in order {
        visit(rt, alloc, pick(nodes, *number), names, right);
    }
    stop_all(rt, &ports.addresses, stop);
}

/// All reads, while a thread for each node answers its peers. Without a thread for the reads, nothing is read.
fn run<R: Net<Listener = TcpListener, Stream = TcpStream> + Clock + Threads + Wait + Sync>(
    rt: &R,
    alloc: Global,
    ports: &Ports,
    nodes: &[PeerNode<'_, '_, R>; 3],
    order: &[usize; 3],
    names: &[Digest],
    right: &AtomicU64,
) {
    let stop = AtomicBool::new(false);
    let stop = &stop;
    thread::scope(thread::scope_env(), rt, |scope| {
        for (listener, node) in ports.listeners.iter().zip(nodes.iter()) {
            let _ = scope.spawn(move || serve(rt, alloc, listener, node, stop));
        }
        let reader = scope.spawn(move || {
            visit_in_order(rt, alloc, ports, nodes, order, names, right, stop)
        });
        if reader.is_err() {
            stop_all(rt, &ports.addresses, stop);
        }
    });
}

/// How many of the chunks a node owns.
fn owned(alloc: Global, names: &[Digest], me: usize) -> Result<u64, Fail> {
    let ring = Ring::new(alloc, &PEERS, &DigestHash)?;
    let mut count: u64 = 0;
    for name in names {
        if ring.owner(name.to_hex().as_bytes()) == me {
            count = count.saturating_add(1);
        }
    }
    Ok(count)
}

/// How often the source was asked by each node.
#[derive(Drop)]
struct Loads {
    counts: [AtomicU64; 3],
}

/// Asserts that each chunk was loaded by the node that owns it, and no other.
fn assert_loads(
    rt: &impl Abort,
    alloc: Global,
    names: &[Digest],
    loads: &Loads,
) -> Result<(), Fail> {
    for (me, count) in loads.counts.iter().enumerate() {
        assert_count(rt, count, owned(alloc, names, me)?, "loads of a node");
    }
    Ok(())
}

/// The three nodes, none of which has read anything.
fn new_nodes<'x, R: Net<Stream = TcpStream> + Clock>(
    alloc: Global,
    names: &'x [Digest],
    loads: &'x Loads,
    link: TcpLink<'x, R>,
) -> Result<[PeerNode<'x, 'x, R>; 3], Fail> {
    let first = Giver::new(alloc, names, &[], &loads.counts[0]);
    let second = Giver::new(alloc, names, &[], &loads.counts[1]);
    let third = Giver::new(alloc, names, &[], &loads.counts[2]);
    Ok([
        node_at(alloc, 0, first, link)?,
        node_at(alloc, 1, second, link)?,
        node_at(alloc, 2, third, link)?,
    ])
}

/// All reads in an order, on nodes that are new.
fn run_new<'x, R: Net<Listener = TcpListener, Stream = TcpStream> + Clock + Threads + Wait + Sync>(
    rt: &'x R,
    alloc: Global,
    ports: &'x Ports,
    loads: &'x Loads,
    order: &[usize; 3],
    names: &'x [Digest],
    right: &AtomicU64,
) -> Result<(), Fail> {
    let link = TcpLink::new(alloc, rt, &ports.peers, &ports.notices);
    let nodes = new_nodes(alloc, names, loads, link)?;
    run(rt, alloc, ports, &nodes, order, names, right);
    Ok(())
}

/// Asserts the reads in an order, on nodes that are new.
fn assert_order<
    R: Net<Listener = TcpListener, Stream = TcpStream> + Clock + Threads + Wait + Abort + Sync,
>(rt: &R, alloc: Global, names: &[Digest], order: &[usize; 3]) -> Result<(), Fail> {
    let ports = Ports::new(rt)?;
    let loads = Loads {
        counts: [AtomicU64::new(0), AtomicU64::new(0), AtomicU64::new(0)],
    };
    let right = AtomicU64::new(0);
    run_new(rt, alloc, &ports, &loads, order, names, &right)?;
    assert_count(rt, &right, 3 * CHUNKS as u64, "right answers");
    assert_loads(rt, alloc, names, &loads)
}

#[test]
fn a_key_is_loaded_once_by_its_owner_whatever_the_order(rt: HostRuntime) -> Result<(), Fail> {
    let names = names(rt.alloc(), CHUNKS)?;
    for order in &ORDERS {
        assert_order(&rt, rt.alloc(), names.as_slice(), order)?;
    }
    Ok(())
}
