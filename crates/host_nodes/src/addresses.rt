//! The addresses of the nodes.
ghost use Rattle.std.specs.Prelude.{◌≡◌, ◌+◌, ◌<◌, ◌≤◌};
ghost use Rattle.std.specs.Net.Socket.{socket_ip, socket_port};

use std::net::SocketAddr;

/// How far the port of a node for other nodes is from its port for clients.
const PEERS: u16 = 8;

/// Where a node serves clients, where the first does at this address.
pub(crate) fn client_address(first: &SocketAddr, node: u16) -> SocketAddr
    requires room { socket_port first.now + node < 65536 }
    ensures port { socket_port result ≡ socket_port first.now + node }
    ensures ip { socket_ip result ≡ socket_ip first.now }
{
    let mut address = *first;
    address.set_port(first.port() + node);
    address
}

/// Where it serves other nodes.
pub(crate) fn peer_address(first: &SocketAddr, node: u16) -> SocketAddr
    requires room { socket_port first.now + node + 8 < 65536 }
    ensures port { socket_port result ≡ socket_port first.now + node + 8 }
    ensures ip { socket_ip result ≡ socket_ip first.now }
{
    let mut address = client_address(first, node);
    address.set_port(first.port() + node + PEERS);
    address
}
