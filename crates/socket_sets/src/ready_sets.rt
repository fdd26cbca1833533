//! The set of sockets that one worker waits on, as the system has it.
use crate::traits::{MOST_TOLD, Ready, SocketSet, Told, Waits};
use libc::net as c;
use os::{EpollEvent, FromRawFd};
use std::io;
use std::io::ErrorKind;
use std::net::{TcpListener, TcpStream};
use std::os::fd::{AsRawFd, OwnedFd};
use worker_connections::Interest;

/// The number of the listener in a set, and that of its waker. The connections have those of their places.
const LISTENER: u64 = u64::MAX;

const WAKER: u64 = u64::MAX - 1;

/// Of all sets that have the listener, one is told of a client, or a few. It goes with no other flag, and can't be changed: it is removed and added
/// (EPOLLEXCLUSIVE).
const EXCLUSIVE: u32 = 1 << 28;

/// A set of sockets, each with a number, that one worker waits on. It tells of a socket as long as that is ready, whether anything was done or not. Another
/// thread can end the wait. The set lasts as long as the process does.
#[derive(Drop)]
pub struct ReadySet {
    descriptor: i32,
    // A counter of the system (eventfd).
    waker: OwnedFd,
}

/// The events that the system is asked for.
fn events_of(interest: Interest) -> u32 {
    match interest {
        Interest::Read => c::EPOLLIN,
        Interest::Write => c::EPOLLOUT,
        Interest::Either => c::EPOLLIN | c::EPOLLOUT,
    }
}

/// What the number of a socket says.
fn told_by(number: u64) -> Told {
    match number {
        LISTENER => Told::Client,
        WAKER => Told::Woken,
        place => Told::Socket(place as usize),
    }
}

/// A counter of the system, which a wait can be ended by.
fn counter() -> io::Result<OwnedFd> {
    let descriptor = c::eventfd(0, c::EFD_CLOEXEC | c::EFD_NONBLOCK);
    if descriptor < 0 {
        return Err(io::Error::from(ErrorKind::Other));
    }
    // Nobody else has this descriptor.
    Ok(unsafe { OwnedFd::from_raw_fd(descriptor) })
}

impl ReadySet {
    /// A set that has its waker alone. It takes two descriptors.
    pub fn new() -> io::Result<ReadySet> {
        let descriptor = c::epoll_create1(c::EPOLL_CLOEXEC);
        if descriptor < 0 {
            return Err(io::Error::from(ErrorKind::Other));
        }
        let set = ReadySet {
            descriptor,
            waker: counter()?,
        };
        if !set.tell(c::EPOLL_CTL_ADD, &set.waker, c::EPOLLIN, WAKER) {
            return Err(io::Error::from(ErrorKind::Other));
        }
        Ok(set)
    }

    fn tell<S: AsRawFd>(&self, how: i32, socket: &S, events: u32, number: u64) -> bool {
        os::epoll_ctl(self.descriptor, how, socket.as_raw_fd(), events, number) == 0
    }
}

impl Waits for ReadySet {
    fn wait(&self, milliseconds: i32) -> Ready {
        let mut events = [EpollEvent { events: 0, data: 0 }; 64];
        let count = os::epoll_wait(self.descriptor, &mut events, milliseconds);
        let mut ready = Ready::new();
        for at in 0..MOST_TOLD {
            if at < count {
                ready.add(told_by(events[at].data));
            }
        }
        ready
    }

    fn wake(&self) {
        // If the counter is full, the wait ends anyway.
        let _ = libc::write(self.waker.as_raw_fd(), &1_u64.to_ne_bytes());
    }

    fn calm(&self) {
        let _ = libc::read(self.waker.as_raw_fd(), &mut [0_u8; 8]);
    }
}

impl SocketSet<TcpStream, TcpListener> for ReadySet {
    fn listen(&self, listener: &TcpListener) -> bool {
        self.tell(c::EPOLL_CTL_ADD, listener, c::EPOLLIN | EXCLUSIVE, LISTENER)
    }

    fn deafen(&self, listener: &TcpListener) -> bool {
        self.tell(c::EPOLL_CTL_DEL, listener, 0, 0)
    }

    fn add(&self, socket: &TcpStream, place: usize, interest: Interest) -> bool {
        self.tell(c::EPOLL_CTL_ADD, socket, events_of(interest), place as u64)
    }

    fn change(&self, socket: &TcpStream, place: usize, interest: Interest) -> bool {
        self.tell(c::EPOLL_CTL_MOD, socket, events_of(interest), place as u64)
    }

    fn remove(&self, socket: &TcpStream) -> bool {
        self.tell(c::EPOLL_CTL_DEL, socket, 0, 0)
    }
}
