//! A listener, the sockets of clients, and the set that a worker waits on, by what they do.
ghost use Rattle.std.specs.Prelude.{◌≤◌, Bool, IfErr, IfOk, length};
ghost use Rattle.socket_sets.specs.Accepting.{IsReason};

use std::io;
use worker_connections::Interest;

/// How many sockets one wait tells of at most.
pub(crate) const MOST_TOLD: usize = 64;

/// The socket of a client. It is closed where it is dropped.
pub trait ClientSocket {
    /// Reads what is there to the front of `buffer`, and answers how many bytes it was: 0 only at the end of what the client sends.
    fn read_some(&self, buffer: &mut [u8]) -> io::Result<usize>
        ensures few { IfOk result (λ count. count ≤ length buffer.new) };

    /// Closes our side: the client is told that no more comes. Answers whether that was done.
    fn shut_down(&self) -> bool;
}

/// Why the system accepted no client.
#[derive(Clone, Copy, Debug, PartialEq, Eq)]
pub enum AcceptFault {
    /// A descriptor or memory is lacking. The system may say so whether a client waits or not.
    Lacks,
    /// None waits, or the one that did has failed.
    Other,
}

/// What clients connect to.
pub trait Listener<K> {
    ghost use Rattle.socket_sets.specs.declared.traits.AcceptFault.{AcceptFault};

    /// What a call of the system that failed shows, and what a look for a client shows. Each listener chooses them. Whoever has any listener can show them only
    /// by making the call.
    ghost failed: { AcceptFault → Type 0 };

    ghost looked: { Bool → Type 0 };

    /// Accepts a client by one call of the system. It doesn't wait for one, and no call of the client's socket waits.
    fn accept_client(&self) -> Result<K, AcceptFault>
        ensures failed { IfErr result (λ why. failed why) };

    /// Whether a client waits to be accepted.
    fn has_client(&self) -> bool
        ensures looked { looked result };
}

/// Why no client was accepted.
#[derive(Clone, Copy, Debug, PartialEq, Eq)]
pub enum NotAccepted {
    /// A descriptor or memory is lacking, which another connection can give, and a client waits.
    Lacks,
    /// None is there any more, or it has gone.
    Gone,
}

/// Accepts a client that has come. It doesn't wait for one. Where a descriptor lacks, the system says so before it looks for a client; so this looks.
pub fn accept_one<K, L: Listener<K>>(listener: &L) -> Result<K, NotAccepted>
    ensures reason { IfErr result (λ why. IsReason L.failed L.looked why) }
{
    match listener.accept_client() {
        Ok(socket) => Ok(socket),
        Err(AcceptFault::Lacks) if listener.has_client() => Err(NotAccepted::Lacks),
        Err(_) => Err(NotAccepted::Gone),
    }
}

/// What a wait tells of.
#[derive(Clone, Copy, Debug, PartialEq, Eq)]
pub enum Told {
    /// A client can be accepted.
    Client,
    /// Another thread has ended the wait.
    Woken,
    /// The socket that has this place is ready.
    Socket(usize),
}

/// The numbers by which `Ready` holds what isn't a socket. A socket has that of its place.
const CLIENT: u32 = u32::MAX;

const WOKEN: u32 = u32::MAX - 1;

/// What one wait told of. It is small, since it is made and handed on in each turn.
#[derive(Clone, Copy, Debug)]
pub struct Ready {
    count: usize,
    told: [u32; 64],
}

impl Ready {
    /// Nothing yet.
    pub fn new() -> Ready {
        Ready {
            count: 0,
            told: [WOKEN; 64],
        }
    }

    /// How many it tells of.
    pub fn len(&self) -> usize {
        self.count
    }

    /// It tells of this too, unless it is full: the next wait tells of what is ready still.
    pub fn add(&mut self, told: Told) {
        if self.count < MOST_TOLD {
            self.told[self.count] = match told {
                Told::Client => CLIENT,
                Told::Woken => WOKEN,
                // No worker has as many places. A wait that seems to be ended does no harm.
                Told::Socket(place) => u32::try_from(place).unwrap_or(WOKEN),
            };
            self.count += 1;
        }
    }

    /// What it tells of at this place.
    pub fn at(&self, place: usize) -> Option<Told> {
        if place >= self.count || place >= MOST_TOLD {
            return None;
        }
        Some(match self.told[place] {
            CLIENT => Told::Client,
            WOKEN => Told::Woken,
            number => Told::Socket(number as usize),
        })
    }
}

/// What a worker waits on, and others end its wait by.
pub trait Waits {
    /// Waits until something is ready, for at most so many milliseconds. What is ready is told again as long as it is, whether anything was done or not.
    fn wait(&self, milliseconds: i32) -> Ready;

    /// Ends the wait that goes on, or else the next one. Several of these may end one wait.
    fn wake(&self);

    /// Takes note that a wait was ended: only a later one ends a wait again.
    fn calm(&self);
}

/// The set of sockets that a worker waits for. Each of its calls answers whether it was done.
pub trait SocketSet<K, L> {
    /// Waits for clients. Other sets may have the same listener: of all that wait, one is told of a client, or a few.
    fn listen(&self, listener: &L) -> bool;

    /// Waits for clients no longer.
    fn deafen(&self, listener: &L) -> bool;

    /// Waits for a socket, which has this place.
    fn add(&self, socket: &K, place: usize, interest: Interest) -> bool;

    /// Waits for something else of a socket.
    fn change(&self, socket: &K, place: usize, interest: Interest) -> bool;

    /// Waits for a socket no longer.
    fn remove(&self, socket: &K) -> bool;
}
