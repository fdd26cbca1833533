//! What is known of the input of a connection when it is over.
ghost use Rattle.std.specs.Prelude.{◌≡◌, ◌&&◌, not};

use shared_house::Answered;
use tcp_socket::Socket;
use worker_connections::Next;

/// What is known of what a client sends.
#[derive(Clone, Copy, Debug, PartialEq, Eq)]
pub(crate) struct Input {
    /// Whether its last request asked for the end of the connection, so that it sends no other.
    asks_end: bool,
    /// Whether the last read took all that was there.
    is_drained: bool,
    /// Whether all that it sends was read.
    is_at_end: bool,
}

impl Input {
    /// Nothing is known yet.
    pub(crate) fn new() -> Input {
        Input {
            asks_end: false,
            is_drained: false,
            is_at_end: false,
        }
    }

    /// Notes what a step over a socket read, and the request that it answered.
    pub(crate) fn note(&mut self, socket: &Socket<'_>, answered: Option<Answered>) {
        if let Some(request) = answered {
            self.asks_end = request.asks_end;
        }
        if socket.read() > 0 {
            self.is_drained = socket.is_drained();
        }
        self.is_at_end = socket.is_at_end();
    }

    /// Whether some input may be unread, or still come. A request that is refused by its head, whose body isn't read, is never answered, and so it isn't one
    /// that asked for the end; nor is the hundredth of a connection, unless its client asked.
    fn may_go_on(&self) -> bool
        ensures { result ≡ (not self.now.is_at_end && not (self.now.asks_end && self.now.is_drained)) }
    {
        !self.is_at_end && !(self.asks_end && self.is_drained)
    }

    /// What follows if the connection is over. A client that asked for the end has nothing more to be told, so the socket is closed with no further call.
    pub(crate) fn end(&self) -> Next {
        if self.may_go_on() {
            Next::Closes
        } else {
            Next::Ends
        }
    }
}
