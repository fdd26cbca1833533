//! The listener and the sockets of TCP, as a node reaches its clients by them.
ghost use Rattle.std.specs.Prelude.{◌≡◌, ◌↔◌, ◌++◌, IsTrue, replicate, ⊤};
ghost use Rattle.std.specs.Int.{to_le_bytes, w32};
ghost use Rattle.socket_sets.specs.Accepting.{LacksRoom};

use crate::traits::{AcceptFault, ClientSocket, Listener};
use libc::net as c;
use libc::types::pollfd;
use os::FromRawFd;
use std::io;
use std::io::{Error, Read};
use std::net::{Shutdown, TcpListener, TcpStream};
use std::os::fd::AsRawFd;

/// The system's numbers for want of memory, of descriptors in the system and in the process, and of room for sockets.
const ENOMEM: i32 = 12;

const ENFILE: i32 = 23;

const EMFILE: i32 = 24;

const ENOBUFS: i32 = 105;

/// How many bytes the system is asked to hold of a reply that the client doesn't take. It holds twice as many at most. What it holds counts as moved, so
/// without a bound a slow client is late although it takes enough.
const SEND_ROOM: u32 = 131_072;

/// A number as the value of an option of a socket: its four bytes, and what the call doesn't read.
fn option_of(number: u32) -> [u8; 16]
    ensures { result ≡ to_le_bytes w32 number ++ replicate 12 0 }
{
    let bytes = number.to_ne_bytes();
    [
        bytes[0], bytes[1], bytes[2], bytes[3], 0, 0, 0, 0, 0, 0, 0, 0, 0, 0, 0, 0,
    ]
}

/// Has the system send each reply at once to the clients of a listener, and hold no more than so much of one. A socket that is accepted has both of its listener.
/// Where the system doesn't do it, only slow clients are worse off.
pub fn bound_replies(listener: &TcpListener) {
    let descriptor = listener.as_raw_fd();
    let (at_once, room) = (option_of(1), option_of(SEND_ROOM));
    let _ = unsafe { c::setsockopt(descriptor, c::IPPROTO_TCP, c::TCP_NODELAY, &at_once, 4) };
    let _ = unsafe { c::setsockopt(descriptor, c::SOL_SOCKET, c::SO_SNDBUF, &room, 4) };
}

impl ClientSocket for TcpStream {
    fn read_some(&self, buffer: &mut [u8]) -> io::Result<usize> {
        let mut stream = self;
        stream.read(buffer)
    }

    fn shut_down(&self) -> bool {
        self.shutdown(Shutdown::Write).is_ok()
    }
}

/// How many bytes an address has at most.
const ADDRESS: u32 = 128;

/// Accepts a client by one call of the system: a socket that doesn't block, and that no other program gets.
fn accept_from(listener: &TcpListener) -> io::Result<TcpStream> {
    let mut length = ADDRESS;
    let how = c::SOCK_NONBLOCK | c::SOCK_CLOEXEC;
    let descriptor = unsafe { c::accept4(listener.as_raw_fd(), &mut [0; 128], &mut length, how) };
    if descriptor < 0 {
        return Err(Error::from_raw_os_error(os::errno()));
    }
    // Nobody else has this descriptor.
    Ok(unsafe { TcpStream::from_raw_fd(descriptor) })
}

/// Whether a client couldn't be accepted for want of a descriptor or of memory. Other failures are the client's own.
fn lacks_room(error: &Error) -> bool
    ensures { IsTrue result ↔ LacksRoom error.now }
{
    matches!(
        error.raw_os_error(),
        Some(ENOMEM | ENFILE | EMFILE | ENOBUFS)
    )
}

impl Listener<TcpStream> for TcpListener {
    // Nothing is said of what the system answers.
    ghost failed = { λ _. ⊤ };

    ghost looked = { λ _. ⊤ };

    fn accept_client(&self) -> Result<TcpStream, AcceptFault> {
        match accept_from(self) {
            Ok(stream) => Ok(stream),
            Err(error) if lacks_room(&error) => Err(AcceptFault::Lacks),
            Err(_) => Err(AcceptFault::Other),
        }
    }

    fn has_client(&self) -> bool {
        let mut waits = [pollfd {
            fd: self.as_raw_fd(),
            events: c::POLLIN,
            revents: 0,
        }];
        c::poll(&mut waits, 0) > 0
    }
}
