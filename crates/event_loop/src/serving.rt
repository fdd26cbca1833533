//! What a worker of a node does in its turns.
ghost use Rattle.std.specs.Prelude.{◌≡◌};

use crate::lines::Message;
use crate::nodes::{Node, milliseconds};
use crate::steps::Steps;
use crate::workers::Takes;
use socket_sets::{Listener, Ready, SocketSet, Told, Waits};
use std::alloc::Global;
use std::sync::Wait;
use std::time::Clock;
use worker_connections::{Connections, Name, Turn};

/// How far apart the first numbers of the connections of two workers are: no worker has so many.
const NUMBERS: u64 = 72_057_594_037_927_936;

/// How many sockets one wait tells of at most.
const MOST_TOLD: usize = 64;

/// How many messages a worker hears in a turn.
const MOST_MESSAGES: u32 = 1_024;

/// What a worker keeps of a connection: its socket, and what it takes along from step to step, unless a thread that may wait has that or the connection
/// closes.
#[derive(Drop)]
pub(crate) struct Kept<C, K> {
    pub(crate) socket: K,
    pub(crate) connection: Option<C>,
}

/// The numbers of the connections that are to go first for each want.
#[derive(Clone, Copy, Debug)]
pub(crate) struct Said {
    pub(crate) place: Option<u64>,
    pub(crate) body: Option<u64>,
    pub(crate) reply: Option<u64>,
}

/// A worker of a node. It alone owns its connections.
#[derive(Drop)]
pub struct Worker<'a, R, S: Steps + Drop, L: Drop, P: Drop> {
    pub(crate) rt: &'a R,
    pub(crate) alloc: Global,
    pub(crate) node: &'a Node<S::Connection, S::Socket, L, P>,
    pub(crate) worker: usize,
    pub(crate) steps: S,
    pub(crate) connections: Connections<Kept<S::Connection, S::Socket>>,
    /// What it said last.
    pub(crate) said: Said,
    /// A client that came when no place was free: a connection of some worker is asked for it.
    pub(crate) newcomer: Option<S::Socket>,
    /// Whether the listener isn't in the set.
    pub(crate) is_deaf: bool,
    /// Whether a descriptor was asked for.
    pub(crate) asks_descriptor: bool,
    /// When the connections were looked through last, and behind which place bodies that wait are let go on next.
    pub(crate) swept: u64,
    pub(crate) woken: usize,
    /// Whether a body has gone in this turn, and whether a reply came to be held.
    pub(crate) gave_room: bool,
    pub(crate) took_room: bool,
    done: u64,
}

impl<
    'a,
    R: Wait + Clock,
    S: Steps + Drop,
    L: Listener<S::Socket> + Drop,
    P: Waits + SocketSet<S::Socket, L> + Drop,
> Worker<'a, R, S, L, P> {
    /// A worker that has done nothing yet. Its number is that of its turns.
    pub fn new(
        rt: &'a R,
        alloc: Global,
        node: &'a Node<S::Connection, S::Socket, L, P>,
        worker: usize,
        steps: S,
    ) -> Worker<'a, R, S, L, P>
        ensures { result.done ≡ 0 }
    {
        Worker {
            rt,
            alloc,
            node,
            worker,
            steps,
            connections: Connections::new(alloc, (worker as u64).saturating_mul(NUMBERS)),
            said: Said {
                place: None,
                body: None,
                reply: None,
            },
            newcomer: None,
            is_deaf: false,
            asks_descriptor: false,
            swept: 0,
            woken: 0,
            gave_room: false,
            took_room: false,
            done: 0,
        }
    }

    /// How many turns it did.
    pub fn done(&self) -> u64
        ensures { result ≡ self.now.done }
    {
        self.done
    }

    /// The names of the connections that are ready, before any of them changes: what is told of one is for no other that has its place later in the turn.
    fn names(&self, ready: &Ready) -> [Option<Name>; 64] {
        let mut names = [None; 64];
        for at in 0..MOST_TOLD {
            if let Some(Told::Socket(place)) = ready.at(at) {
                names[at] = self.connections.places().name_at(place);
            }
        }
        names
    }

    /// Does what a wait told of.
    fn serve(&mut self, ready: &Ready)
        ensures { self.new.done ≡ self.old.done }
    {
        if ready.len() > 1 {
            self.serve_all(ready);
            return;
        }
        // Most waits of a node that isn't busy tell of one socket alone.
        match ready.at(0) {
            Some(Told::Woken) => self.hear(),
            Some(Told::Client) => self.accept(),
            Some(Told::Socket(place)) => {
                if let Some(name) = self.connections.places().name_at(place) {
                    self.go_on(name);
                }
            }
            None => {}
        }
    }

    /// Does what a wait told of that told of several.
    fn serve_all(&mut self, ready: &Ready)
        ensures { self.new.done ≡ self.old.done }
    {
        let names = self.names(ready);
        for at in 0..MOST_TOLD {
            match (ready.at(at), names[at]) {
                (Some(Told::Woken), _) => self.hear(),
                (Some(Told::Client), _) => self.accept(),
                (Some(Told::Socket(_)), Some(name)) => self.go_on(name),
                (Some(Told::Socket(_)), None) => {}
                (None, _) => return,
            }
        }
    }

    /// Hears what other threads told.
    fn hear(&mut self)
        ensures { self.new.done ≡ self.old.done }
    {
        let Some(line) = self.node.lines.get(self.worker) else {
            return;
        };
        line.set.calm();
        for _ in 0..MOST_MESSAGES {
            match line.next(self.rt) {
                Some(message) => self.take_message(message),
                None => return,
            }
        }
        line.set.wake();
    }

    /// Does what another thread told.
    fn take_message(&mut self, message: Message<S::Connection, S::Socket>)
        ensures { self.new.done ≡ self.old.done }
    {
        match message {
            Message::Came(socket) => self.begin(socket),
            Message::Back(errand, step) => self.come_back(errand, &step),
            Message::Room => self.wake(),
            Message::Asked(ask) => self.answer_ask(&ask),
            Message::Given => self.take_given(),
            Message::Refused => self.take_refusal(),
        }
    }

    /// Goes on with a connection whose turn it is.
    pub(crate) fn go_on(&mut self, name: Name)
        ensures { self.new.done ≡ self.old.done }
    {
        match self.connections.places().turn(name) {
            Turn::Nothing => {}
            Turn::Drop => self.drop_input(name),
            Turn::Step => self.step(name, false),
            Turn::IfRoom(held) => {
                if self.has_room(name, held) {
                    self.step(name, true);
                }
            }
        }
    }

    /// What is left to do at the end of a turn: bodies that wait try again where one has gone, and replies end where they hold too much.
    fn balance(&mut self)
        ensures { self.new.done ≡ self.old.done }
    {
        if self.gave_room {
            self.gave_room = false;
            self.wake();
            self.tell_waiting();
        }
        if self.took_room {
            self.took_room = false;
            self.end_slow_replies();
        }
    }
}

impl<
    R: Wait + Clock,
    S: Steps + Drop,
    L: Listener<S::Socket> + Drop,
    P: Waits + SocketSet<S::Socket, L> + Drop,
> Takes<Ready> for Worker<'_, R, S, L, P> {
    ghost done = { λ worker. worker.done };

    fn take(&mut self, turn: Ready) {
        self.serve(&turn);
        self.sweep(milliseconds(self.rt));
        self.balance();
        self.done += 1;
    }
}
