//! What a worker does once a second, and where room is free or lacks.
ghost use Rattle.std.specs.Prelude.{◌≡◌};

use crate::lines::Message;
use crate::nodes::milliseconds;
use crate::serving::Worker;
use crate::steps::Steps;
use socket_sets::{Listener, SocketSet, Waits};
use std::sync::Wait;
use std::sync::atomic::Ordering;
use std::time::Clock;
use worker_connections::Want;

/// How many bodies that wait are let go on in a turn.
const MOST_WOKEN: u64 = 16;

impl<
    R: Wait + Clock,
    S: Steps + Drop,
    L: Listener<S::Socket> + Drop,
    P: Waits + SocketSet<S::Socket, L> + Drop,
> Worker<'_, R, S, L, P> {
    /// Ends the connections that are late, if the connections weren't looked through for a while or the node begins to drain.
    pub(crate) fn sweep(&mut self, now: u64)
        ensures { self.new.done ≡ self.old.done }
    {
        let begins_to_drain = self.node.drains() && !self.connections.places().drains();
        if begins_to_drain {
            self.connections.drain();
        }
        if !begins_to_drain && now.saturating_sub(self.swept) < self.node.limits.sweep {
            return;
        }
        self.swept = now;
        self.end_due(now);
        self.listen_again();
        self.say(now);
        self.make_room(now);
        self.wake();
        self.took_room = true;
    }

    /// Ends the connections that are late, or idle while the node drains.
    fn end_due(&mut self, now: u64)
        ensures { self.new.done ≡ self.old.done }
    {
        let mut from = 0;
        for _ in 0..usize::MAX {
            let limits = self.node.limits;
            let Some(at) = self.connections.places().first_due(from, &limits, now) else {
                return;
            };
            if let Some(name) = self.connections.places().name_at(at) {
                self.end(name);
            }
            from = at.saturating_add(1);
        }
    }

    /// Lets bodies that wait for room try again, each time others first, until one finds none. If some still wait for whom there may be room, they try again in a
    /// later turn.
    pub(crate) fn wake(&mut self)
        ensures { self.new.done ≡ self.old.done }
    {
        if self.connections.places().first_waiting(0).is_none() {
            return;
        }
        // How many may go on can't be told before: one that goes on may end, or be the first from then on, and what it holds is room for others.
        let mut has_room = true;
        for _ in 0..MOST_WOKEN {
            if has_room {
                has_room = self.wake_next();
            }
        }
        self.note_waiting(has_room);
    }

    /// Lets the next body that waits for room try again. Answers whether one waited and went on.
    fn wake_next(&mut self) -> bool
        ensures { self.new.done ≡ self.old.done }
    {
        let places = self.connections.places();
        let next = match places.first_waiting(self.woken) {
            Some(at) => Some(at),
            None => places.first_waiting(0),
        };
        let Some(at) = next else {
            return false;
        };
        self.woken = at.saturating_add(1);
        if let Some(name) = self.connections.places().name_at(at) {
            self.go_on(name);
        }
        self.connections.places().first_waiting(at) != Some(at)
    }

    /// Notes whether bodies still wait. If there is room for one of them, they try again in a later turn.
    fn note_waiting(&mut self, has_room: bool)
        ensures { self.new.done ≡ self.old.done }
    {
        let waits = self.connections.places().first_waiting(0).is_some();
        self.node.shares.lock(self.rt).wait(self.worker, waits);
        if waits && has_room {
            let _ = self.node.send(self.rt, self.worker, Message::Room);
        }
    }

    /// Tells the other workers whose bodies wait that there is room.
    pub(crate) fn tell_waiting(&mut self)
        ensures { self.new.done ≡ self.old.done }
    {
        for worker in 0..self.node.lines.len() {
            if worker != self.worker && self.node.shares.lock(self.rt).waits(worker) {
                let _ = self.node.send(self.rt, worker, Message::Room);
            }
        }
    }

    /// Where a body has waited for room too long, the one that moved least of late goes.
    fn make_room(&mut self, now: u64)
        ensures { self.new.done ≡ self.old.done }
    {
        let Some((_, since)) = self.connections.places().longest_waiting() else {
            return;
        };
        let given = self.node.given_room.load(Ordering::SeqCst);
        let waited = now.saturating_sub(since).min(now.saturating_sub(given));
        if waited < self.node.limits.wait {
            return;
        }
        // Of several workers one asks.
        let noted = self
            .node
            .given_room
            .compare_exchange(given, now, Ordering::SeqCst, Ordering::SeqCst);
        let tries = self.node.most_tries();
        if noted.is_ok() && !self.node.ask(self.rt, Want::Body, None, tries) {
            self.node.give_no_room();
        }
    }

    /// Asks for the reply to end that moved least of late, as long as all together hold too much.
    pub(crate) fn end_slow_replies(&mut self)
        ensures { self.new.done ≡ self.old.done }
    {
        if self.node.shares.lock(self.rt).are_replies_too_many() {
            self.say(milliseconds(self.rt));
            let tries = self.node.most_tries();
            let _ = self.node.ask(self.rt, Want::Reply, None, tries);
        }
    }
}
