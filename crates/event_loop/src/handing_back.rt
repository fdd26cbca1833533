//! What a thread for errands does.
ghost use Rattle.std.specs.Prelude.{◌≡◌, None, true};

use crate::errands::Errand;
use crate::lines::Message;
use crate::nodes::Node;
use crate::steps::SlowSteps;
use crate::workers::{Takes, Turns};
use socket_sets::Waits;
use std::alloc::Global;
use std::sync::Wait;
use std::thread;
use std::time::{Clock, Duration};
use worker_connections::Step;

/// How many milliseconds pass before a connection is given back again if there was no memory for that.
const PAUSE: u64 = 10;

/// The errands that a thread takes.
#[derive(Drop)]
pub struct ErrandTurns<'a, R, C: Drop, K: Drop, L: Drop, P: Drop> {
    rt: &'a R,
    node: &'a Node<C, K, L, P>,
    taken: u64,
    is_over: bool,
}

impl<'a, R, C: Drop, K: Drop, L: Drop, P: Drop> ErrandTurns<'a, R, C, K, L, P> {
    /// The errands of a node, of which this thread has taken none.
    pub fn new(rt: &'a R, node: &'a Node<C, K, L, P>) -> ErrandTurns<'a, R, C, K, L, P>
        ensures { result.taken ≡ 0 }
    {
        ErrandTurns {
            rt,
            node,
            taken: 0,
            is_over: false,
        }
    }

    /// Ends the turns.
    fn end(&mut self) -> Option<Errand<C>>
        ensures none { result ≡ None }
        ensures taken { self.new.taken ≡ self.old.taken }
        ensures over { self.new.is_over ≡ true }
    {
        self.is_over = true;
        None
    }
}

impl<R: Wait, C: Drop, K: Drop, L: Drop, P: Drop> Turns for ErrandTurns<'_, R, C, K, L, P> {
    type Turn = Errand<C>;

    ghost taken = { λ turns. turns.taken };

    ghost ended = { λ turns. turns.is_over ≡ true };

    fn next(&mut self) -> Option<Errand<C>> {
        if self.taken == u64::MAX {
            return self.end();
        }
        match self.node.errands.take(self.rt) {
            Some(errand) => {
                self.taken += 1;
                Some(errand)
            }
            None => self.end(),
        }
    }
}

/// A thread for errands. It makes the step of each connection that it is given, and gives the connection back to its worker.
#[derive(Drop)]
pub struct ErrandWorker<'a, R, S: SlowSteps + Drop, K: Drop, L: Drop, P: Drop> {
    rt: &'a R,
    alloc: Global,
    node: &'a Node<S::Connection, K, L, P>,
    steps: S,
    done: u64,
}

impl<'a, R: Wait + Clock, S: SlowSteps + Drop, K: Drop, L: Drop, P: Waits + Drop> ErrandWorker<
    'a,
    R,
    S,
    K,
    L,
    P,
> {
    /// A thread that has done nothing yet.
    pub fn new(
        rt: &'a R,
        alloc: Global,
        node: &'a Node<S::Connection, K, L, P>,
        steps: S,
    ) -> ErrandWorker<'a, R, S, K, L, P>
        ensures { result.done ≡ 0 }
    {
        ErrandWorker {
            rt,
            alloc,
            node,
            steps,
            done: 0,
        }
    }

    /// How many errands it did.
    pub fn done(&self) -> u64
        ensures { result ≡ self.now.done }
    {
        self.done
    }

    /// Gives a connection back to its worker, with what its step came to. As long as there is no memory for that, it is tried again.
    fn hand_back(&self, errand: Errand<S::Connection>, step: Step) {
        let Some(line) = self.node.lines.get(errand.line) else {
            return;
        };
        let mut message = Message::Back(errand, step);
        for _ in self.rt.forever() {
            match line.send(self.rt, message) {
                Ok(()) => return,
                Err(failed) => message = failed,
            }
            thread::sleep(self.rt, Duration::from_millis(PAUSE));
        }
    }
}

impl<R: Wait + Clock, S: SlowSteps + Drop, K: Drop, L: Drop, P: Waits + Drop> Takes<
    Errand<S::Connection>,
> for ErrandWorker<'_, R, S, K, L, P> {
    ghost done = { λ worker. worker.done };

    fn take(&mut self, errand: Errand<S::Connection>) {
        let mut errand = errand;
        let step = self.steps.go_on(self.alloc, &mut errand.connection);
        self.hand_back(errand, step);
        self.done += 1;
    }
}
