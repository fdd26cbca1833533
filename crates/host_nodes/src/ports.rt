//! The ports of the nodes.
ghost use Rattle.std.specs.Prelude.{◌+◌, ◌<◌, ◌≤◌};
ghost use Rattle.std.specs.Net.Socket.{socket_port};

use crate::addresses::{client_address, peer_address};
use crate::lines::Failure;
use libc::net as c;
use socket_sets::bound_replies;
use std::alloc::{AllocError, Global};
use std::io;
use std::io::ErrorKind;
use std::net::{Net, SocketAddr, TcpListener, TcpStream};
use std::os::fd::AsRawFd;

/// How many connections of a port may wait to be accepted. With the 128 that a listener has at first, a client that is left out in a burst tries again only
/// after a second.
const BACKLOG: i32 = 4_096;

/// The addresses of both ports of a node.
#[derive(Drop)]
pub(crate) struct Ports {
    pub(crate) client_address: SocketAddr,
    pub(crate) peer_address: SocketAddr,
}

/// The ports of all nodes, and beside them their listeners for clients and for other nodes, which don't block.
#[derive(Drop)]
pub(crate) struct Bound {
    pub(crate) clients: Vec<TcpListener>,
    pub(crate) peers: Vec<TcpListener>,
    pub(crate) ports: Vec<Ports>,
}

/// A listener at an address, at which a burst of connections may wait. It doesn't block.
fn listen<R: Net<Listener = TcpListener, Stream = TcpStream>>(
    rt: &R,
    address: SocketAddr,
) -> io::Result<TcpListener> {
    let listener = TcpListener::bind(rt, address)?;
    if c::listen(listener.as_raw_fd(), BACKLOG) < 0 {
        return Err(io::Error::from(ErrorKind::Other));
    }
    listener.set_nonblocking(true)?;
    bound_replies(&listener);
    Ok(listener)
}

/// The ports of a node, where those of the first begin at this address.
fn bind<R: Net<Listener = TcpListener, Stream = TcpStream>>(
    rt: &R,
    first: &SocketAddr,
    node: u16,
) -> io::Result<(TcpListener, TcpListener, Ports)>
    requires room { socket_port first.now + node + 8 < 65536 }
{
    let client_address = client_address(first, node);
    let peer_address = peer_address(first, node);
    let clients = listen(rt, client_address)?;
    let peers = listen(rt, peer_address)?;
    let ports = Ports {
        client_address,
        peer_address,
    };
    Ok((clients, peers, ports))
}

/// The ports of so many nodes.
pub(crate) fn bind_all<R: Net<Listener = TcpListener, Stream = TcpStream>>(
    rt: &R,
    alloc: Global,
    first: &SocketAddr,
    nodes: u16,
) -> Result<Bound, Failure>
    requires room { socket_port first.now + nodes + 8 ≤ 65536 }
{
    let mut bound = Bound {
        clients: Vec::new(alloc),
        peers: Vec::new(alloc),
        ports: Vec::new(alloc),
    };
    for node in 0..nodes {
        let (clients, peers, ports) = bind(rt, first, node).map_err(|_| Failure::CannotListen)?;
        bound.clients.push(clients).map_err(|_| AllocError)?;
        bound.peers.push(peers).map_err(|_| AllocError)?;
        bound.ports.push(ports).map_err(|_| AllocError)?;
    }
    Ok(bound)
}
