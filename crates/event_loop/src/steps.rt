//! The steps of connections.
use socket_sets::ClientSocket;
use std::alloc::{AllocError, Global};
use worker_connections::Step;

/// Why a connection over a socket doesn't begin, or doesn't go on.
#[derive(Clone, Copy, Debug, PartialEq, Eq)]
pub enum NotBegun {
    /// Whoever connects isn't served.
    Refused,
    /// There is no memory for it.
    OutOfMemory,
}

impl From<AllocError> for NotBegun {
    ghost use Rattle.std.specs.Prelude.{◌≡◌};
    ghost use Rattle.event_loop.specs.declared.steps.NotBegun.TheVariants.{OutOfMemory};

    ghost from_gives = { λ _ why. why ≡ OutOfMemory };

    fn from(_error: AllocError) -> NotBegun {
        NotBegun::OutOfMemory
    }
}

/// What goes on with connections: each worker of a node has one. None of its steps waits.
pub trait Steps {
    /// What it reads from and writes to.
    type Socket: ClientSocket + Drop;

    /// What a connection takes along from step to step, beside its socket.
    type Connection: Drop;

    /// A connection over a socket of which nothing was read.
    fn begin(&mut self, alloc: Global, socket: &Self::Socket) -> Result<Self::Connection, NotBegun>;

    /// Goes on with a connection over its socket, until it would have to wait or has done enough for a turn. If there is no memory for that, it makes no step, and
    /// the connection ends.
    fn go_on(
        &mut self,
        alloc: Global,
        connection: &mut Self::Connection,
        socket: &Self::Socket,
    ) -> Option<Step>;
}

/// What goes on with connections that a worker handed over: each thread for errands has one. Its steps may wait, and have no socket.
pub trait SlowSteps {
    /// What a connection takes along.
    type Connection: Drop;

    /// Makes the step that a worker couldn't make without waiting.
    fn go_on(&mut self, alloc: Global, connection: &mut Self::Connection) -> Step;
}
