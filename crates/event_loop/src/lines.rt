//! How other threads reach a worker.
use crate::errands::Errand;
use socket_sets::Waits;
use std::alloc::{AllocError, Global};
use std::collections::VecDeque;
use std::sync::{Mutex, Wait};
use worker_connections::{Step, Want};

/// A connection is asked for: the one that is to go first, of the worker that said the least number.
#[derive(Clone, Copy, Debug)]
pub(crate) struct Ask {
    pub(crate) want: Want,
    /// What the worker said: if its first one has a greater number by now, it refuses.
    pub(crate) most: u64,
    /// Which worker asks, if it waits for an answer.
    pub(crate) asker: Option<usize>,
    /// How many more workers may be asked.
    pub(crate) tries: u64,
}

/// What a worker is told by other threads.
#[derive(Drop)]
pub(crate) enum Message<C, K> {
    /// A client came, and has a place among its connections.
    Came(K),
    /// A thread that may wait is done with a connection.
    Back(Errand<C>, Step),
    /// There is room for bodies that wait.
    Room,
    /// A connection is asked for.
    Asked(Ask),
    /// What it asked for was given, or nobody has it.
    Given,
    Refused,
}

/// How other threads reach a worker: its set, whose wait they can end, and what they tell it.
#[derive(Drop)]
pub(crate) struct Line<C, K, P> {
    pub(crate) set: P,
    queue: Mutex<VecDeque<Message<C, K>>>,
}

impl<C: Drop, K: Drop, P: Waits + Drop> Line<C, K, P> {
    /// That of a worker which waits on this set. There is room for so many messages: so they are told also where no memory is left.
    pub(crate) fn new(alloc: Global, set: P, room: usize) -> Result<Line<C, K, P>, AllocError> {
        Ok(Line {
            set,
            queue: Mutex::new(VecDeque::with_capacity(alloc, room)?),
        })
    }

    /// Tells the worker something. If there is neither room nor memory, it gives the message back. The message is there before the wait ends: so no worker waits
    /// while it has one.
    pub(crate) fn send<R: Wait>(
        &self,
        rt: &R,
        message: Message<C, K>,
    ) -> Result<(), Message<C, K>> {
        let sent = self.queue.lock(rt).push_back(message);
        match sent {
            Ok(()) => {
                self.set.wake();
                Ok(())
            }
            Err(failed) => Err(failed.value),
        }
    }

    /// The next message.
    pub(crate) fn next<R: Wait>(&self, rt: &R) -> Option<Message<C, K>> {
        self.queue.lock(rt).pop_front()
    }
}
