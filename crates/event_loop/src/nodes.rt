//! What the workers of a node share.
use crate::errands::Errands;
use crate::lines::{Ask, Line, Message};
use connection_rules::Limits;
use operator_notices::{Kind as About, Notices};
use socket_sets::{ReadySet, SocketSet, Waits};
use std::alloc::{AllocError, Global};
use std::net::{TcpListener, TcpStream};
use std::sync::atomic::{AtomicBool, AtomicU64, Ordering};
use std::sync::{Arc, Mutex, Wait};
use std::thread;
use std::time::{Clock, Duration};
use worker_connections::{Shares, Want};

/// The time of a drain that was not asked for.
const NEVER: u64 = u64::MAX;

/// How many messages a worker may be told beside one of each place.
const MORE: usize = 64;

/// How many milliseconds the overseeing thread waits for a connection to be given up, and how often.
const LOOKS: u32 = 100;

/// What the workers of a node share: its listener, how each is reached, and one struct behind a lock.
#[derive(Drop)]
pub struct Node<C: Drop, K: Drop, L: Drop, P: Drop> {
    pub(crate) listener: L,
    pub(crate) lines: Vec<Line<C, K, P>>,
    pub(crate) limits: Limits,
    pub(crate) notices: Arc<Notices>,
    pub(crate) errands: Errands<C>,
    pub(crate) shares: Mutex<Shares>,
    // How many workers have begun, when a body went last to give room, how many connections the overseeing thread was given and how often it was refused one,
    // by when the node ends if it drains, and whether it is over.
    begun: AtomicU64,
    pub(crate) given_room: AtomicU64,
    given_up: AtomicU64,
    refused: AtomicU64,
    drained_by: AtomicU64,
    is_over: AtomicBool,
}

/// A node whose clients come over TCP.
pub type TcpNode<C> = Node<C, TcpStream, TcpListener, ReadySet>;

/// What a node is made with.
#[derive(Drop)]
pub struct NodePlan {
    /// How many connections it has at most.
    pub places: usize,
    pub limits: Limits,
    /// After how many clients it ends.
    pub clients: u64,
    /// Where its operator is told what happens.
    pub notices: Arc<Notices>,
}

/// The time of a clock, in milliseconds; 0 where it can't be told.
pub(crate) fn milliseconds<R: Clock>(rt: &R) -> u64 {
    match rt.monotonic() {
        Ok(time) => u64::try_from(time.as_millis()).unwrap_or(u64::MAX),
        Err(_) => 0,
    }
}

impl<C: Drop, K: Drop, L: Drop, P: Waits + Drop> Node<C, K, L, P> {
    /// A node that serves the clients of a listener that doesn't block, with a worker for each of these sets.
    pub fn new(
        alloc: Global,
        listener: L,
        sets: Vec<P>,
        plan: NodePlan,
    ) -> Result<Node<C, K, L, P>, AllocError> {
        let NodePlan {
            places,
            limits,
            clients,
            notices,
        } = plan;
        let mut lines = Vec::new(alloc);
        for set in sets {
            lines.push(Line::new(alloc, set, places.saturating_add(MORE))?)?;
        }
        let shares = Shares::new(alloc, lines.len(), places as u64, clients)?;
        Ok(Node {
            listener,
            lines,
            limits,
            notices,
            errands: Errands::new(alloc, places)?,
            shares: Mutex::new(shares),
            begun: AtomicU64::new(0),
            given_room: AtomicU64::new(0),
            given_up: AtomicU64::new(0),
            refused: AtomicU64::new(0),
            drained_by: AtomicU64::new(NEVER),
            is_over: AtomicBool::new(false),
        })
    }

    /// The number of one more worker, if there is a set for it.
    pub fn next_worker(&self) -> Option<usize> {
        let number = self.begun.fetch_add(1, Ordering::SeqCst) as usize;
        if number < self.lines.len() {
            Some(number)
        } else {
            None
        }
    }

    /// Ends the waits of all workers.
    fn wake_all(&self) {
        for line in &self.lines {
            line.set.wake();
        }
    }

    /// Tells a worker something. Answers whether there was memory for that.
    pub(crate) fn send<R: Wait>(&self, rt: &R, worker: usize, message: Message<C, K>) -> bool {
        match self.lines.get(worker) {
            Some(line) => line.send(rt, message).is_ok(),
            None => false,
        }
    }

    /// Whether all the clients that it serves have come and gone, or it has drained.
    pub(crate) fn is_over<R: Wait + Clock>(&self, rt: &R) -> bool {
        self.is_over.load(Ordering::SeqCst) || self.drains() && self.is_drained(rt)
    }

    /// Whether it has no connection any more, or no more time.
    fn is_drained<R: Wait + Clock>(&self, rt: &R) -> bool {
        let by = self.drained_by.load(Ordering::SeqCst);
        milliseconds(rt) >= by || self.shares.lock(rt).present() == 0
    }

    /// Begins to drain: no client is accepted any more, connections between two requests end, and the others have until this time.
    pub fn drain(&self, by: u64) {
        self.drained_by.store(by.min(NEVER - 1), Ordering::SeqCst);
        self.wake_all();
    }

    /// Whether it drains.
    pub(crate) fn drains(&self) -> bool {
        self.drained_by.load(Ordering::SeqCst) != NEVER
    }

    /// A connection has ended, or a client went that had no place yet.
    pub(crate) fn count_gone<R: Wait>(&self, rt: &R) {
        let mut shares = self.shares.lock(rt);
        shares.leave();
        let are_gone = shares.are_gone();
        drop(shares);
        if are_gone {
            self.is_over.store(true, Ordering::SeqCst);
        }
        if are_gone || self.drains() {
            self.wake_all();
        }
    }

    /// Ends: its workers stop, and so do its threads for errands once none is left.
    pub fn end_all<R: Wait>(&self, rt: &R) {
        self.is_over.store(true, Ordering::SeqCst);
        self.wake_all();
        self.errands.end(rt);
    }

    /// The least number of a connection that is to go first, as its worker last said. Of several nodes, the one with the least number gives one up.
    pub fn first_to_go<R: Wait>(&self, rt: &R) -> Option<u64> {
        let (_, number) = self.shares.lock(rt).least_said(Want::Place)?;
        Some(number)
    }

    /// Asks the worker that said the least number. Answers whether one was asked.
    pub(crate) fn ask<R: Wait>(
        &self,
        rt: &R,
        want: Want,
        asker: Option<usize>,
        tries: u64,
    ) -> bool {
        if tries == 0 {
            return false;
        }
        let said = self.shares.lock(rt).least_said(want);
        match said {
            Some((worker, most)) => {
                let ask = Ask {
                    want,
                    most,
                    asker,
                    tries: tries - 1,
                };
                self.send(rt, worker, Message::Asked(ask))
            }
            None => false,
        }
    }

    /// How many workers may be asked for one connection. One refuses if what it said is too little by now: new ones no longer crowd, its first one was given to
    /// another asker, or was answered since. So with several askers at once it may be asked again and again.
    pub(crate) fn most_tries(&self) -> u64 {
        16 * (self.lines.len() as u64).min(64) + 16
    }

    /// No body could go to give room, so another look may ask again.
    pub(crate) fn give_no_room(&self) {
        self.given_room.store(0, Ordering::SeqCst);
    }

    /// The overseeing thread asked for a connection: one was given, or not.
    pub(crate) fn count_answer(&self, is_given: bool) {
        if is_given {
            self.given_up.fetch_add(1, Ordering::SeqCst);
        } else {
            self.refused.fetch_add(1, Ordering::SeqCst);
        }
    }

    /// Asks the worker that said the least number to give that connection up, for its descriptor, and waits for a tenth of a second at most. Answers false if it
    /// was refused: then the worker has none any more that loses as little, and has said its number anew, so that of another node may be the least.
    pub fn give_up_first<R: Wait + Clock>(&self, rt: &R) -> bool {
        let given = self.given_up.load(Ordering::SeqCst);
        let refused = self.refused.load(Ordering::SeqCst);
        if !self.ask(rt, Want::Place, None, 1) {
            return false;
        }
        for _ in 0..LOOKS {
            if self.given_up.load(Ordering::SeqCst) != given {
                break;
            }
            if self.refused.load(Ordering::SeqCst) != refused {
                return false;
            }
            thread::sleep(rt, Duration::from_millis(1));
        }
        let text = "none is left, so the connection ends that has least to lose";
        self.notices.tell(About::Descriptors, text, "");
        true
    }
}

impl<C: Drop, K: Drop, L: Drop, P: Waits + SocketSet<K, L> + Drop> Node<C, K, L, P> {
    /// Begins to wait for clients. Answers whether that was done.
    pub fn open(&self) -> bool {
        for line in &self.lines {
            if !line.set.listen(&self.listener) {
                return false;
            }
        }
        true
    }
}
