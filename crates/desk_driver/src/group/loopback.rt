//! Three nodes that ask each other over loopback.
ghost use Rattle.std.specs.Prelude.{◌<◌, ◌≡◌, IfOk, length};

use crate::group::chunks::{CHUNK, ChunkMaker};
use anyhow::Result;
use chunk_group::{Counter, Group};
use host_names::Digest;
use http_wire::{Pair, Reading, Writing};
use operator_notices::Notices;
use peer_link::{Peer, TcpLink, serve_peer};
use peer_ring::{DigestHash, Ring};
use std::alloc::Global;
use std::net::{IpAddr, Ipv4Addr, Net, SocketAddr, TcpListener, TcpStream};
use std::sync::Wait;
use std::sync::atomic::{AtomicBool, AtomicU64, Ordering};
use std::time::Clock;

/// How many chunks the nodes have room for.
pub(crate) const CHUNKS: usize = 3000;

/// How many threads of a node answer its peers.
pub(crate) const SERVERS: usize = 4;

/// A node, its source, and its link to the others.
pub(crate) type PeerNode<'s, 'l, R> = Group<DigestHash, ChunkMaker<'s>, TcpLink<'l, R>, Counter>;

/// The ports of the nodes for peers, their addresses, and how the nodes know each other.
#[derive(Drop)]
pub(crate) struct Ports {
    pub(crate) listeners: [TcpListener; 3],
    pub(crate) addresses: [SocketAddr; 3],
    pub(crate) peers: [Peer; 3],
    pub(crate) notices: Notices,
}

/// A port of this machine alone.
fn local_address(port: u16) -> SocketAddr {
    SocketAddr::new(IpAddr::V4(Ipv4Addr::LOCALHOST), port)
}

impl Ports {
    /// This port and the next two.
    pub(crate) fn new<R: Net<Listener = TcpListener, Stream = TcpStream>>(
        rt: &R,
        port: u16,
    ) -> Result<Ports> {
        let addresses = [
            local_address(port),
            local_address(port.wrapping_add(1)),
            local_address(port.wrapping_add(2)),
        ];
        let first = TcpListener::bind(rt, addresses[0])?;
        let second = TcpListener::bind(rt, addresses[1])?;
        let third = TcpListener::bind(rt, addresses[2])?;
        Ok(Ports {
            listeners: [first, second, third],
            addresses,
            peers: [
                Peer::new(addresses[0]),
                Peer::new(addresses[1]),
                Peer::new(addresses[2]),
            ],
            notices: Notices::new(),
        })
    }
}

/// The ring of the nodes at these addresses, by the names that groupcache gives its own.
pub(crate) fn ring_of(alloc: Global, addresses: &[SocketAddr; 3]) -> Result<Ring<DigestHash>>
    ensures { IfOk result (λ ring. length ring.names ≡ 3) }
{
    let first = format!(in alloc; "http://{}", addresses[0])?;
    let second = format!(in alloc; "http://{}", addresses[1])?;
    let third = format!(in alloc; "http://{}", addresses[2])?;
    let names = [first.as_str(), second.as_str(), third.as_str()];
    Ok(Ring::new(alloc, &names, &DigestHash)?)
}

/// The node at a place.
fn node_at<'s, 'l, R: Net<Stream = TcpStream> + Clock>(
    alloc: Global,
    addresses: &[SocketAddr; 3],
    me: usize,
    source: ChunkMaker<'s>,
    link: TcpLink<'l, R>,
) -> Result<PeerNode<'s, 'l, R>>
    requires { me < 3 }
{
    let ring = ring_of(alloc, addresses)?;
    let limit = CHUNKS * (CHUNK + 40);
    Ok(Group::new(alloc, limit, ring, me, source, link, Counter::new())?)
}

/// How often the source of each node was asked.
#[derive(Drop)]
pub(crate) struct Loads {
    pub(crate) counts: [AtomicU64; 3],
}

impl Loads {
    pub(crate) fn new() -> Loads {
        Loads {
            counts: [AtomicU64::new(0), AtomicU64::new(0), AtomicU64::new(0)],
        }
    }

    /// How often that of the first node was.
    pub(crate) fn of_first(&self) -> u64 {
        self.counts[0].load(Ordering::SeqCst)
    }
}

/// The nodes at these addresses, none of which has read anything, over a source of the chunks of these names.
pub(crate) fn new_nodes<'x, R: Net<Stream = TcpStream> + Clock>(
    alloc: Global,
    addresses: &[SocketAddr; 3],
    names: &'x [Digest],
    loads: &'x Loads,
    link: TcpLink<'x, R>,
) -> Result<[PeerNode<'x, 'x, R>; 3]> {
    let first = ChunkMaker::new(alloc, names, &loads.counts[0]);
    let second = ChunkMaker::new(alloc, names, &loads.counts[1]);
    let third = ChunkMaker::new(alloc, names, &loads.counts[2]);
    Ok([
        node_at(alloc, addresses, 0, first, link)?,
        node_at(alloc, addresses, 1, second, link)?,
        node_at(alloc, addresses, 2, third, link)?,
    ])
}

/// Answers the peers of a node until it is told to stop.
pub(crate) fn serve<R: Net<Stream = TcpStream> + Clock + Wait>(
    rt: &R,
    alloc: Global,
    listener: &TcpListener,
    node: &PeerNode<'_, '_, R>,
    stop: &AtomicBool,
) {
    for stream in listener.incoming() {
        if stop.load(Ordering::SeqCst) {
            return;
        }
        if let Ok(stream) = stream {
            let _ = stream.set_nodelay(true);
            let mut duplex = Pair {
                source: Reading(&stream),
                sink: Writing(&stream),
            };
            let _ = serve_peer(rt, alloc, &mut duplex, node);
        }
    }
}

/// Lets each thread that answers peers take one connection more, which tells it to stop.
pub(crate) fn stop_all<R: Net<Stream = TcpStream>>(
    rt: &R,
    addresses: &[SocketAddr; 3],
    stop: &AtomicBool,
) {
    stop.store(true, Ordering::SeqCst);
    for address in addresses {
        for _ in 0..SERVERS {
            let _ = TcpStream::connect(rt, *address);
        }
    }
}
