//! Connections to peers.
ghost use Rattle.std.specs.Prelude.{IfOk};
ghost use Rattle.peer_link.specs.PeerPlaces.{IsAddressAt};

use crate::peers::Peer;
use std::io;
use std::io::ErrorKind;
use std::net::{Net, SocketAddr, TcpStream};
use std::time::Duration;

/// A connection to a peer, and the address that it was made to. Only `connect_to` makes one, so whoever has one has called the peer of that address.
#[derive(Drop)]
pub(crate) struct PeerStream {
    stream: TcpStream,
    address: SocketAddr,
}

impl PeerStream {
    /// The connection itself.
    pub(crate) fn stream(&self) -> &TcpStream {
        &self.stream
    }
}

/// Connects to the peer at a place, within a time.
pub(crate) fn connect_to<R: Net<Stream = TcpStream>>(
    rt: &R,
    peers: &[Peer],
    place: usize,
    time: Duration,
) -> io::Result<PeerStream>
    ensures { IfOk result (λ made. IsAddressAt peers.now place made.address) }
{
    let Some(peer) = peers.get(place) else {
        return Err(io::Error::from(ErrorKind::NotFound));
    };
    let address = peer.address();
    let stream = TcpStream::connect_timeout(rt, &address, time)?;
    Ok(PeerStream { stream, address })
}
