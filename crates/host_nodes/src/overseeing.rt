//! What the main thread does while the others serve.
use crate::lines::{Failure, say};
use crate::nodes::Shared;
use crate::ports::Ports;
use crate::tasks::end_all;
use chunk_group::Tidy;
use connection_rules::Least;
use event_loop::TcpNode;
use found_host::OpenFault;
use http_wire::Sink;
use node_process::{EndsSeen, Process, Start, Stop, Surroundings, Teller};
use operator_notices::Notices;
use std::alloc::Global;
use std::sync::{Arc, Mutex, Wait};
use std::time::Clock;

/// How many milliseconds pass between two looks at what is to be told and at the signals.
const TICK: u64 = 250;

/// How many workers are asked for one descriptor at most. Eight nodes have 80.
const MOST_ASKED: u32 = 128;

/// The nodes, as the main thread sees them.
#[derive(Drop)]
pub(crate) struct Overseen<'a, G, N: Drop, M: Drop> {
    pub(crate) groups: &'a [G],
    pub(crate) nodes: &'a [TcpNode<N>],
    pub(crate) peers: &'a [TcpNode<M>],
    pub(crate) ports: &'a [Ports],
    pub(crate) stop: &'a Stop,
    pub(crate) notices: &'a Arc<Notices>,
}

impl<'a, G, N: Drop, M: Drop> Overseen<'a, G, N, M> {
    /// The nodes that these threads work for, at these ports.
    pub(crate) fn new<R, A, B, P, Q, T>(
        shared: &Shared<'a, R, A, B, G, TcpNode<N>, TcpNode<M>>,
        ports: &'a [Ports],
        around: &Surroundings<'a, R, P, Q, T>,
    ) -> Overseen<'a, G, N, M> {
        Overseen {
            groups: shared.groups,
            nodes: shared.nodes,
            peers: shared.peers,
            ports,
            stop: around.stop,
            notices: around.notices,
        }
    }
}

impl<G: Tidy, N: Drop, M: Drop> Overseen<'_, G, N, M> {
    /// Begins to take clients at each node, and says so.
    fn open<O: Sink>(&self, alloc: Global, lines: &mut O) -> Result<(), Failure> {
        for node in self.peers {
            if !node.open() {
                return Err(Failure::CannotListen);
            }
        }
        for (number, (node, ports)) in self.nodes.iter().zip(self.ports.iter()).enumerate() {
            if !node.open() {
                return Err(Failure::CannotListen);
            }
            let address = ports.client_address;
            let line = format!(in alloc; "node {number} listening on {address}\n")?;
            say(lines, line.as_str());
        }
        Ok(())
    }

    /// Lets all nodes drain until this time.
    fn drain(&self, by: u64) {
        for node in self.nodes {
            node.drain(by);
        }
    }

    /// Gives a descriptor to the threads that lack one: that of the connection that is to go first, of all clients and other nodes. A worker's word may be old.
    /// If it refuses, it says anew, and all are looked at again.
    fn give<R: Wait + Clock>(&self, rt: &R) {
        for _ in 0..MOST_ASKED {
            if self.gives(rt) {
                break;
            }
        }
        self.stop.gave();
    }

    /// Asks for the connection that is to go first, as the workers last said. Answers whether it was given, or there is none.
    fn gives<R: Wait + Clock>(&self, rt: &R) -> bool {
        match (first_to_go(rt, self.nodes), first_to_go(rt, self.peers)) {
            (Some((node, turn)), Some((_, other))) if turn <= other => node.give_up_first(rt),
            (_, Some((node, _))) => node.give_up_first(rt),
            (Some((node, _)), None) => node.give_up_first(rt),
            (None, None) => true,
        }
    }

    /// Frees what the nodes keep for nobody.
    fn tidy<R: Wait>(&self, rt: &R) {
        for group in self.groups {
            group.tidy(rt);
        }
    }

    /// Tells the operator what happens, and tidies, until the nodes have ended. Once the program is asked to end, the nodes drain; once it is asked a second
    /// time, they end.
    fn watch<R: Wait + Clock, P: Process, T: Sink>(
        &self,
        rt: &R,
        process: &P,
        teller: &mut Teller<'_, T>,
    ) {
        let mut seen = EndsSeen::new();
        for _ in rt.forever() {
            if self.stop.waits(rt, TICK) {
                teller.tell(rt, self.notices);
                return;
            }
            if self.stop.is_asked(rt) {
                self.give(rt);
            }
            teller.tell(rt, self.notices);
            self.tidy(rt);
            if let Some(end) = seen.look(process.ends_asked(), milliseconds(rt)) {
                self.drain(end);
            }
        }
        unreachable!()
    }

    /// Waits until all threads have begun, takes clients, and watches over the nodes until they have ended.
    pub(crate) fn oversee<R: Wait + Clock, P: Process, O: Sink, T: Sink>(
        &self,
        rt: &R,
        alloc: Global,
        start: &Start,
        process: &P,
        told: &Mutex<T>,
        lines: &mut O,
    ) -> Result<(), Failure> {
        if !start.runs(rt) {
            return Err(Failure::NotOpened(OpenFault::OutOfMemory));
        }
        let opened = self.open(alloc, lines);
        if opened.is_err() {
            end_all(rt, self.nodes, self.peers);
        }
        let mut teller = Teller::new(alloc, told);
        self.watch(rt, process, &mut teller);
        opened
    }
}

/// Of these nodes the one that has the connection which is to go first, and its number among all that may.
fn first_to_go<'n, R: Wait, N: Drop>(
    rt: &R,
    nodes: &'n [TcpNode<N>],
) -> Option<(&'n TcpNode<N>, u64)> {
    let mut least = Least::new();
    for (at, node) in nodes.iter().enumerate() {
        if let Some(turn) = node.first_to_go(rt) {
            least.look(at, turn);
        }
    }
    let (at, turn) = least.found()?;
    Some((nodes.get(at)?, turn))
}

/// The time of the clock, in milliseconds; 0 where it can't be told.
fn milliseconds<R: Clock>(rt: &R) -> u64 {
    match rt.monotonic() {
        Ok(time) => u64::try_from(time.as_millis()).unwrap_or(u64::MAX),
        Err(_) => 0,
    }
}
