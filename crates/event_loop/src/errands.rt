//! What the workers of a node hand over to threads that may wait.
ghost use Rattle.std.specs.Prelude.{◌≡◌, [], ◌∷◌, ◌++◌, IfNone, IfSome, OnErr, OnOk};

use std::alloc::{AllocError, Global};
use std::collections::VecDeque;
use std::sync::{Condvar, Mutex, Wait};
use worker_connections::Name;

/// A connection that goes on in another thread, since its next step may wait: for a disk, for another node, or for a body to be parsed. Its socket stays with
/// its worker.
#[derive(Drop)]
pub struct Errand<C> {
    /// Which worker handed it over, and the connection's name there.
    pub(crate) line: usize,
    pub(crate) name: Name,
    /// The connection.
    pub connection: C,
}

/// The errands that nobody has taken yet, the oldest first.
#[derive(Drop)]
struct Queue<C> {
    waiting: VecDeque<Errand<C>>,
    is_over: bool,
}

impl<C: Drop> Queue<C> {
    /// Adds an errand behind those that wait. If there is neither room nor memory, it is dropped.
    fn add(&mut self, errand: Errand<C>) -> Result<(), AllocError>
        ensures added { OnOk result (self.new.waiting.items ≡ self.old.waiting.items ++ errand ∷ []) }
        ensures same { OnErr result (self.new.waiting.items ≡ self.old.waiting.items) }
    {
        match self.waiting.push_back(errand) {
            Ok(()) => Ok(()),
            Err(_) => Err(AllocError),
        }
    }

    /// Takes the one that has waited longest, if one waits.
    fn next(&mut self) -> Option<Errand<C>>
        ensures first { IfSome result (λ errand. self.old.waiting.items ≡ errand ∷ self.new.waiting.items) }
        ensures none { IfNone result (self.old.waiting.items ≡ []) }
    {
        self.waiting.pop_front()
    }
}

/// The errands of a node, which its threads for them share.
#[derive(Drop)]
pub(crate) struct Errands<C> {
    queue: Mutex<Queue<C>>,
    is_new: Condvar,
}

impl<C: Drop> Errands<C> {
    /// There are none, and there is room for so many: so a connection that leaves finds it also where no memory is left.
    pub(crate) fn new(alloc: Global, room: usize) -> Result<Errands<C>, AllocError> {
        Ok(Errands {
            queue: Mutex::new(Queue {
                waiting: VecDeque::with_capacity(alloc, room)?,
                is_over: false,
            }),
            is_new: Condvar::new(),
        })
    }

    /// Hands an errand over. If there is neither room nor memory, it is dropped, and its connection with it.
    pub(crate) fn give<R: Wait>(&self, rt: &R, errand: Errand<C>) -> Result<(), AllocError> {
        self.queue.lock(rt).add(errand)?;
        self.is_new.notify_one();
        Ok(())
    }

    /// Waits for an errand, and takes it. There is none once the node has ended.
    pub(crate) fn take<R: Wait>(&self, rt: &R) -> Option<Errand<C>> {
        let mut queue = self.queue.lock(rt);
        for _ in rt.forever() {
            if let Some(errand) = queue.next() {
                return Some(errand);
            }
            if queue.is_over {
                return None;
            }
            queue = self.is_new.wait(rt, queue);
        }
        unreachable!()
    }

    /// Ends the threads that take errands, once none is left.
    pub(crate) fn end<R: Wait>(&self, rt: &R) {
        self.queue.lock(rt).is_over = true;
        self.is_new.notify_all();
    }
}
