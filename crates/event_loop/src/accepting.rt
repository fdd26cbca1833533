//! How a worker takes clients, and what it does if there is no place or no descriptor for one.
ghost use Rattle.std.specs.Prelude.{◌≡◌};

use crate::lines::Message;
use crate::nodes::milliseconds;
use crate::serving::{Kept, Worker};
use crate::steps::{NotBegun, Steps};
use connection_rules::Standing;
use operator_notices::Kind as About;
use socket_sets::{Listener, NotAccepted, SocketSet, Waits, accept_one};
use std::sync::Wait;
use std::thread;
use std::time::{Clock, Duration};
use worker_connections::{Interest, Want};

/// How many clients a worker accepts in a turn at most, so that those of its connections that are ready aren't kept waiting.
const MOST_ACCEPTED: u32 = 16;

/// How many milliseconds a worker pauses where there is no descriptor, and no connection that could give one.
const PAUSE: u64 = 10;

impl<
    R: Wait + Clock,
    S: Steps + Drop,
    L: Listener<S::Socket> + Drop,
    P: Waits + SocketSet<S::Socket, L> + Drop,
> Worker<'_, R, S, L, P> {
    /// Accepts the clients that have come, some at a time.
    pub(crate) fn accept(&mut self)
        ensures { self.new.done ≡ self.old.done }
    {
        for _ in 0..MOST_ACCEPTED {
            // A call that finds nobody holds a descriptor meanwhile, which another one may lack.
            if !self.accept_next() || !self.node.listener.has_client() {
                return;
            }
        }
    }

    /// Accepts a client, if one is still to come. Answers whether to try the next.
    fn accept_next(&mut self) -> bool
        ensures { self.new.done ≡ self.old.done }
    {
        // The wait may have told of it before the listener was taken out of the set, in the same turn.
        if self.is_deaf {
            return false;
        }
        if self.node.drains() || !self.node.shares.lock(self.rt).let_in() {
            self.deafen();
            return false;
        }
        match accept_one(&self.node.listener) {
            Ok(socket) => {
                self.place(socket);
                true
            }
            Err(failed) => {
                self.node.shares.lock(self.rt).let_out();
                if failed == NotAccepted::Lacks {
                    self.asks_descriptor = true;
                    self.deafen();
                    self.ask_place();
                }
                false
            }
        }
    }

    /// Gives a client a place: with the worker that has the fewest connections, or, if none is free, that of one that goes for it.
    fn place(&mut self, socket: S::Socket)
        ensures { self.new.done ≡ self.old.done }
    {
        let given = self.node.shares.lock(self.rt).give_place();
        match given {
            Some(worker) => self.begin_with(worker, socket),
            None => {
                self.newcomer = Some(socket);
                self.deafen();
                self.ask_place();
            }
        }
    }

    /// A client has a place with a worker.
    fn begin_with(&mut self, worker: usize, socket: S::Socket)
        ensures { self.new.done ≡ self.old.done }
    {
        if worker == self.worker {
            self.begin(socket);
        } else if !self.node.send(self.rt, worker, Message::Came(socket)) {
            self.node.shares.lock(self.rt).give_back(worker);
            self.node.count_gone(self.rt);
        }
    }

    /// Asks for a connection to go, for a place or a descriptor.
    fn ask_place(&mut self)
        ensures { self.new.done ≡ self.old.done }
    {
        self.say(milliseconds(self.rt));
        let tries = self.node.most_tries();
        if !self
            .node
            .ask(self.rt, Want::Place, Some(self.worker), tries)
        {
            self.take_refusal();
        }
    }

    /// A connection has gone for what was asked.
    pub(crate) fn take_given(&mut self)
        ensures { self.new.done ≡ self.old.done }
    {
        if self.asks_descriptor {
            self.asks_descriptor = false;
            let text = "none is left, so the connection ends that has least to lose";
            self.node.notices.tell(About::Descriptors, text, "");
        }
        if let Some(socket) = self.newcomer.take() {
            self.place(socket);
        }
        self.listen_again();
    }

    /// No connection could go for what was asked. If some have ended meanwhile, a place may be free all the same.
    pub(crate) fn take_refusal(&mut self)
        ensures { self.new.done ≡ self.old.done }
    {
        if self.asks_descriptor {
            self.asks_descriptor = false;
            thread::sleep(self.rt, Duration::from_millis(PAUSE));
        }
        if let Some(socket) = self.newcomer.take() {
            let given = self.node.shares.lock(self.rt).give_place();
            match given {
                Some(worker) => self.begin_with(worker, socket),
                None => self.node.count_gone(self.rt),
            }
        }
        self.listen_again();
    }

    /// Waits for clients no longer.
    fn deafen(&mut self)
        ensures { self.new.done ≡ self.old.done }
    {
        if let Some(line) = self.node.lines.get(self.worker) {
            let _ = line.set.deafen(&self.node.listener);
        }
        self.is_deaf = true;
    }

    /// Waits for clients again, unless one waits for a place or none is to come. If that can't be done, it is tried again at the next look through the
    /// connections.
    pub(crate) fn listen_again(&mut self)
        ensures { self.new.done ≡ self.old.done }
    {
        let may_come = self.node.shares.lock(self.rt).may_come();
        if !self.is_deaf
            || self.newcomer.is_some()
            || self.asks_descriptor
            || self.node.drains()
            || !may_come
        {
            return;
        }
        let Some(line) = self.node.lines.get(self.worker) else {
            return;
        };
        self.is_deaf = !line.set.listen(&self.node.listener);
        if self.is_deaf {
            let text = "clients can't be waited for, and it is tried again each second";
            self.node.notices.tell(About::Listener, text, "");
        }
    }

    /// Begins with a client that has a place here, and waits for its first bytes. One that comes while the node drains isn't served.
    pub(crate) fn begin(&mut self, socket: S::Socket)
        ensures { self.new.done ≡ self.old.done }
    {
        if self.node.drains() || !self.begins(socket) {
            self.node.shares.lock(self.rt).give_back(self.worker);
            self.node.count_gone(self.rt);
        }
    }

    /// Begins with a client. Answers whether it is served, or has ended since.
    fn begins(&mut self, socket: S::Socket) -> bool
        ensures { self.new.done ≡ self.old.done }
    {
        let connection = match self.steps.begin(self.alloc, &socket) {
            Ok(connection) => connection,
            Err(NotBegun::Refused) => return false,
            Err(NotBegun::OutOfMemory) => return self.tell_memory(),
        };
        let kept = Kept {
            socket,
            connection: Some(connection),
        };
        let now = milliseconds(self.rt);
        let limits = self.node.limits;
        let Ok(name) = self.connections.come(kept, &limits, now) else {
            return self.tell_memory();
        };
        let line = self.node.lines.get(self.worker);
        let is_watched = match (line, self.connections.kept(name.place)) {
            (Some(line), Some(kept)) => { line.set.add(&kept.socket, name.place, Interest::Read) }
            _ => false,
        };
        if is_watched {
            // The number that it has if new ones crowd. Whether they do is looked at once a connection is asked for.
            self.say_also(Standing::Crowding.turn(now));
        } else {
            self.end(name);
        }
        true
    }

    /// Tells the operator that there is no memory for a connection.
    pub(crate) fn tell_memory(&self) -> bool {
        let text = "there is none for a connection, so it ends";
        self.node.notices.tell(About::Memory, text, "");
        false
    }
}
