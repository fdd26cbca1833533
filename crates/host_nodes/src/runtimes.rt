//! What the threads of the nodes need of the system.
use std::net::{Net, TcpListener, TcpStream};
use std::sync::Wait;
use std::thread::Threads;
use std::time::Clock;

/// Sockets, threads, waiting and the clock, by a handle that each thread may have.
pub(crate) trait Serving: Net<Listener = TcpListener, Stream = TcpStream>
    + Threads
    + Wait
    + Clock
    + Clone
    + Send
    + Sync
    + Drop {}

impl<
    R: Net<Listener = TcpListener, Stream = TcpStream>
        + Threads
        + Wait
        + Clock
        + Clone
        + Send
        + Sync
        + Drop,
> Serving for R {}
