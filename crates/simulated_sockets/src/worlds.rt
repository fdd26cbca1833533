//! What a simulated node has around it: its clients, the time, and how many descriptors there are.
use crate::rooms::First;
use connection_rules::Limits;
use event_loop::NotBegun;
use simulated_clients::{Caller, Doing, Draws, Fault, Plan, Seen, Whereabouts};
use socket_sets::AcceptFault;
use std::alloc::{AllocError, Global};
use worker_connections::Step;

/// Of how many calls of the system one fails, where some do.
const CALLS: u64 = 128;

/// What the set of a worker is told beside its sockets.
#[derive(Clone, Copy, Debug, PartialEq, Eq)]
pub(crate) struct Ear {
    pub(crate) listens: bool,
    /// When it last refused to wait for clients.
    pub(crate) unheard: Option<u64>,
    pub(crate) is_woken: bool,
    /// When its worker took a turn last, and whether its last wait told of anything: then it looks anew whether the node is over before it waits again.
    pub(crate) turned: u64,
    pub(crate) has_told: bool,
}

/// The set of a worker that has done nothing.
const NEW: Ear = Ear {
    listens: false,
    unheard: None,
    is_woken: false,
    turned: 0,
    has_told: false,
};

/// What is around a node, and what was seen of it.
#[derive(Drop)]
pub struct World {
    pub(crate) plan: Plan,
    pub(crate) limits: Limits,
    pub(crate) now: u64,
    pub(crate) callers: Vec<Caller>,
    pub(crate) ears: Vec<Ear>,
    pub(crate) descriptors: u64,
    pub(crate) drained_by: Option<u64>,
    /// How many connections a thread that may wait can take, and whether its next step fails.
    pub(crate) errands: u64,
    pub(crate) slow_fails: bool,
    /// How many clients were accepted, how often a place or a descriptor was wanted, and how many connections went for that.
    pub(crate) order: u64,
    pub(crate) accepted: u64,
    pub(crate) wanted: u64,
    /// Whether the last call that was to accept a client found no descriptor.
    pub(crate) lacks: bool,
    pub(crate) given: u64,
    /// How many bodies may go to give room, and when that was last one more.
    pub(crate) bodies_to_go: u64,
    pub(crate) wanted_room: u64,
    /// When a body went last to give room.
    pub(crate) given_room: u64,
    /// Which body may always go on.
    pub(crate) first: First,
    /// What the replies held at most since this turn began: a worker counts what its step lets go of a moment later, and others may take turns before it does.
    pub(crate) most_replies: u64,
    /// When all workers looked through their connections.
    pub(crate) settled: u64,
    pub(crate) draws: Draws,
    pub seen: Seen,
    /// How often clients may do something in the middle of turns until the next event: else they could send without end, and no worker would come to rest.
    pub(crate) stirs: u64,
    /// How often others may go on there until then.
    pub(crate) inners: u64,
    /// Whether they do nothing there any more.
    pub is_quiet: bool,
    pub is_over: bool,
    pub fault: Option<Fault>,
}

impl World {
    /// One in which nobody has come.
    pub fn new(alloc: Global, plan: Plan) -> Result<World, AllocError> {
        let mut ears = Vec::new(alloc);
        for _ in 0..plan.workers {
            ears.push(NEW)?;
        }
        let limits = Limits::with_second(1_000);
        Ok(World {
            plan,
            limits,
            // So that nothing began at 0.
            now: 1_000_000,
            callers: Vec::new(alloc),
            ears,
            descriptors: u64::MAX,
            drained_by: None,
            errands: 0,
            slow_fails: false,
            order: 0,
            accepted: 0,
            wanted: 0,
            lacks: false,
            given: 0,
            bodies_to_go: 0,
            wanted_room: 0,
            given_room: 0,
            settled: 0,
            first: First::Nobody,
            most_replies: 0,
            draws: Draws::new(plan.seed),
            seen: Seen::new(),
            stirs: 0,
            inners: 0,
            is_quiet: false,
            is_over: false,
            fault: None,
        })
    }

    /// Notes a fault, if it is the first.
    pub fn blame(&mut self, fault: Fault) {
        if self.fault.is_none() {
            self.fault = Some(fault);
        }
    }

    /// Whether a call of the system fails for once. None does before the first client came: then nobody would be served.
    pub(crate) fn fails(&mut self) -> bool {
        let may_fail = self.plan.is_faulty && !self.is_quiet && self.accepted > 0;
        let fails = may_fail && self.draws.below(CALLS) == 0;
        if fails {
            self.seen.failed = self.seen.failed.saturating_add(1);
        }
        fails
    }

    /// A client, if it is there.
    pub(crate) fn caller(&self, at: usize) -> Option<Caller> {
        self.callers.get(at).copied()
    }

    /// How many sockets of clients the node has.
    pub fn open(&self) -> u64 {
        let mut count = 0_u64;
        for caller in &self.callers {
            if caller.is_open() {
                count = count.saturating_add(1);
            }
        }
        count
    }

    /// The first client that waits to be accepted.
    pub(crate) fn first_to_come(&self) -> Option<usize> {
        for at in 0..self.callers.len() {
            if self.callers[at].whereabouts == Whereabouts::Comes {
                return Some(at);
            }
        }
        None
    }

    /// How many clients have been accepted or have begun, with one more.
    fn next_order(&mut self) -> u64 {
        self.order = self.order.saturating_add(1);
        self.order
    }

    /// Accepts a client. As the system does, it takes a descriptor before it looks whether one waits.
    pub(crate) fn accept(&mut self) -> Result<usize, AcceptFault> {
        self.stir();
        let open = self.open();
        self.lacks = open >= self.descriptors;
        if self.lacks {
            return Err(AcceptFault::Lacks);
        }
        let Some(at) = self.first_to_come() else {
            return Err(AcceptFault::Other);
        };
        if self.fails() {
            return Err(AcceptFault::Other);
        }
        let order = self.next_order();
        if let Some(caller) = self.callers.get_mut(at) {
            caller.whereabouts = Whereabouts::Accepted;
            caller.order = order;
        }
        self.accepted = self.accepted.saturating_add(1);
        self.seen.accepted = self.seen.accepted.saturating_add(1);
        if open >= self.plan.places {
            self.wanted = self.wanted.saturating_add(1);
        }
        if self.accepted > self.plan.clients {
            self.blame(Fault::TooManyClients);
        }
        Ok(at)
    }

    /// Whether a client waits. If so, and a descriptor lacks for it, a connection is to go.
    pub(crate) fn has_client(&mut self) -> bool {
        self.stir();
        let waits = self.first_to_come().is_some();
        if waits && self.lacks {
            self.wanted = self.wanted.saturating_add(1);
            self.seen.lacks = self.seen.lacks.saturating_add(1);
        }
        waits
    }

    /// The connection of a client begins, unless there is no memory for it or the client is one of those that aren't served.
    pub(crate) fn begin(&mut self, at: usize) -> Result<(), NotBegun> {
        let now = self.now;
        let (lacks, order) = (self.fails(), self.next_order());
        let Some(caller) = self.callers.get_mut(at) else {
            return Err(NotBegun::Refused);
        };
        caller.is_refused = lacks || caller.seed % 32 == 0;
        if lacks {
            return Err(NotBegun::OutOfMemory);
        }
        if caller.is_refused {
            return Err(NotBegun::Refused);
        }
        caller.begin(now);
        caller.begun = order;
        Ok(())
    }

    /// A worker has made a step of a client's connection.
    pub(crate) fn step_made(&mut self, at: usize, step: &Step, begins: bool) {
        let now = self.now;
        if self
            .callers
            .get(at)
            .is_some_and(|caller| caller.holds.is_body())
        {
            self.appoint(at);
        }
        self.most_replies = self.most_replies.max(self.replies());
        let Some(caller) = self.callers.get_mut(at) else {
            return;
        };
        let is_its_turn = caller.is_told && matches!(caller.doing, Doing::Waits(_));
        let may_step = caller.is_begun() && is_its_turn;
        caller.is_told = false;
        caller.note(step, begins, now);
        if !may_step {
            self.blame(Fault::StepOutOfTurn);
        }
        self.release_first();
    }

    /// Whether a connection is there that a thread may take which may wait. It makes a step then, which fails or doesn't.
    pub fn takes_errand(&mut self, fails: bool) -> bool {
        let is_there = self.errands > 0;
        self.errands = self.errands.saturating_sub(1);
        self.slow_fails = fails;
        is_there
    }

    /// A thread that may wait has made a step of a client's connection.
    pub(crate) fn slow_made(&mut self, at: usize, step: &Step) {
        let Some(caller) = self.callers.get_mut(at) else {
            return;
        };
        if caller.doing != Doing::Away {
            self.blame(Fault::StepOutOfTurn);
            return;
        }
        caller.doing = Doing::Made(*step);
        // What it holds of one that is gone counts until its worker takes note.
        if !caller.is_begun() && self.first == First::Known(at) {
            self.first = First::Unsure;
        }
    }
}
