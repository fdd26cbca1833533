//! The turns of a node's workers.
ghost use Rattle.std.specs.Prelude.{◌≡◌, None, true};

use crate::nodes::Node;
use crate::workers::Turns;
use socket_sets::{Ready, Waits};
use std::sync::Wait;
use std::time::Clock;

/// How many milliseconds a worker waits at most before it looks through the connections.
const LONGEST_TICK: i32 = 1_000;

/// The turns that a worker of a node takes: each is what one wait told.
#[derive(Drop)]
pub struct NodeTurns<'a, R, C: Drop, K: Drop, L: Drop, P: Drop> {
    rt: &'a R,
    node: &'a Node<C, K, L, P>,
    worker: usize,
    taken: u64,
    // Whether the node was seen to be over.
    is_over: bool,
}

impl<'a, R, C: Drop, K: Drop, L: Drop, P: Drop> NodeTurns<'a, R, C, K, L, P> {
    /// The turns of a worker that has taken none.
    pub fn new(rt: &'a R, node: &'a Node<C, K, L, P>, worker: usize) -> NodeTurns<'a, R, C, K, L, P>
        ensures { result.taken ≡ 0 }
    {
        NodeTurns {
            rt,
            node,
            worker,
            taken: 0,
            is_over: false,
        }
    }

    /// Ends the turns.
    fn end(&mut self) -> Option<Ready>
        ensures none { result ≡ None }
        ensures taken { self.new.taken ≡ self.old.taken }
        ensures over { self.new.is_over ≡ true }
    {
        self.is_over = true;
        None
    }
}

impl<R: Wait + Clock, C: Drop, K: Drop, L: Drop, P: Waits + Drop> NodeTurns<'_, R, C, K, L, P> {
    /// Waits for the next turn; there is none once the node is over. Even if nothing is ready in time, it is a turn.
    fn wait(&self) -> Option<Ready> {
        if self.node.is_over(self.rt) {
            return None;
        }
        let tick = i32::try_from(self.node.limits.sweep).unwrap_or(LONGEST_TICK);
        let line = self.node.lines.get(self.worker)?;
        Some(line.set.wait(tick))
    }
}

impl<R: Wait + Clock, C: Drop, K: Drop, L: Drop, P: Waits + Drop> Turns
    for NodeTurns<'_, R, C, K, L, P> {
    type Turn = Ready;

    ghost taken = { λ turns. turns.taken };

    ghost ended = { λ turns. turns.is_over ≡ true };

    fn next(&mut self) -> Option<Ready> {
        if self.taken == u64::MAX {
            return self.end();
        }
        match self.wait() {
            Some(turn) => {
                self.taken += 1;
                Some(turn)
            }
            None => self.end(),
        }
    }
}
