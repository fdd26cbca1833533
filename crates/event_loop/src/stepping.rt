//! How a worker goes on with one connection.
ghost use Rattle.std.specs.Prelude.{◌≡◌};

use crate::closing::close_on;
use crate::errands::Errand;
use crate::nodes::milliseconds;
use crate::serving::{Kept, Worker};
use crate::steps::Steps;
use connection_rules::{Stage, Standing};
use operator_notices::Kind as About;
use socket_sets::{ClientSocket, Listener, SocketSet, Waits};
use std::sync::Wait;
use std::time::Clock;
use worker_connections::{Change, Fate, Holding, Name, Next, Step};

/// The step of a connection that can't go on.
fn lost() -> Step {
    Step {
        next: Next::Ends,
        stage: Stage::Closing,
        read: 0,
        written: 0,
        answers: false,
        holds: Holding::Nothing,
    }
}

impl<
    R: Wait + Clock,
    S: Steps + Drop,
    L: Listener<S::Socket> + Drop,
    P: Waits + SocketSet<S::Socket, L> + Drop,
> Worker<'_, R, S, L, P> {
    /// Whether there is room for a step of a body, which holds so much. Without room it waits, and has no deadline meanwhile.
    pub(crate) fn has_room(&mut self, name: Name, held: u64) -> bool
        ensures { self.new.done ≡ self.old.done }
    {
        let mut shares = self.node.shares.lock(self.rt);
        let has_room = shares.reserve(name.number, held);
        if !has_room {
            shares.wait(self.worker, true);
        }
        drop(shares);
        let now = milliseconds(self.rt);
        if let Some(change) = self.connections.answer(name, has_room, now) {
            self.watch(name, &change, has_room);
            if !has_room && change.waits != change.waited {
                let text = "bodies wait, since others hold as much as they may";
                self.node.notices.tell(About::Bodies, text, "");
            }
        }
        has_room
    }

    /// The step of a connection over its socket. Without memory for one it ends.
    fn step_of(&mut self, connection: &mut Option<S::Connection>, socket: &S::Socket) -> Step
        ensures { self.new.done ≡ self.old.done }
    {
        let Some(connection) = connection else {
            return lost();
        };
        match self.steps.go_on(self.alloc, connection, socket) {
            Some(step) => step,
            None => {
                self.tell_memory();
                lost()
            }
        }
    }

    /// Takes a step with a connection; room was kept for it, or needn't be.
    pub(crate) fn step(&mut self, name: Name, is_kept: bool)
        ensures { self.new.done ≡ self.old.done }
    {
        let Some(
            Kept {
                socket,
                mut connection,
            },
        ) = self.connections.lend(name)
        else {
            return;
        };
        let step = self.step_of(&mut connection, &socket);
        let leaving = match step.next {
            Next::Leaves | Next::Closes => connection.take(),
            Next::Waits(_) | Next::Ends => None,
        };
        let kept = Kept { socket, connection };
        let now = milliseconds(self.rt);
        let limits = self.node.limits;
        let Some(change) = self.connections.step_ended(name, kept, &step, &limits, now) else {
            return;
        };
        self.follow(name, &change, &step, is_kept);
        if change.fate == Fate::Leaves {
            self.hand_over(name, leaving);
        }
    }

    /// Drops what the client of a connection sends that closes.
    pub(crate) fn drop_input(&mut self, name: Name)
        ensures { self.new.done ≡ self.old.done }
    {
        let Some(kept) = self.connections.lend(name) else {
            return;
        };
        let step = close_on(&kept.socket);
        let now = milliseconds(self.rt);
        let limits = self.node.limits;
        if let Some(change) = self.connections.step_ended(name, kept, &step, &limits, now) {
            self.follow(name, &change, &step, false);
        }
    }

    /// Takes back a connection from a thread that may wait. If it ended meanwhile, it is dropped.
    pub(crate) fn come_back(&mut self, errand: Errand<S::Connection>, step: &Step)
        ensures { self.new.done ≡ self.old.done }
    {
        let Errand {
            name,
            connection,
            ..
        } = errand;
        let goes_on = matches!(step.next, Next::Waits(_));
        let kept = self.connections.lend(name).map(|kept| Kept {
            socket: kept.socket,
            connection: if goes_on { Some(connection) } else { None },
        });
        self.give_back(name, kept, step);
    }

    /// Notes that a thread that may wait is done with a connection.
    fn give_back(&mut self, name: Name, kept: Option<Kept<S::Connection, S::Socket>>, step: &Step)
        ensures { self.new.done ≡ self.old.done }
    {
        let now = milliseconds(self.rt);
        let limits = self.node.limits;
        if let Some(change) = self.connections.come_back(name, kept, step, &limits, now) {
            self.follow(name, &change, step, false);
        }
    }

    /// Hands a connection over to the threads that may wait. Without memory for that it ends.
    fn hand_over(&mut self, name: Name, connection: Option<S::Connection>)
        ensures { self.new.done ≡ self.old.done }
    {
        if let Some(connection) = connection {
            let errand = Errand {
                line: self.worker,
                name,
                connection,
            };
            if self.node.errands.give(self.rt, errand).is_ok() {
                return;
            }
            let text = "there is none for an errand, so its connection ends";
            self.node.notices.tell(About::Memory, text, "");
        }
        let kept = self.connections.lend(name);
        self.give_back(name, kept, &lost());
    }

    /// Does what a change asks for that a step made: what is held is counted, the set is told, our side is closed, and a place is free again.
    fn follow(&mut self, name: Name, change: &Change, step: &Step, is_kept: bool)
        ensures { self.new.done ≡ self.old.done }
    {
        if !self.count(name, change, is_kept) {
            self.hold_nothing(name, step);
        }
        self.count_end(change);
        self.watch(name, change, false);
        if change.fate == Fate::ClosesSide {
            self.close_side(name);
        }
        if self.said.place.is_none() && change.fate != Fate::Ends {
            // This one may go for a place by now. Whether it does is looked at once one is asked for.
            self.say_also(u64::MAX);
        }
    }

    /// A connection whose reply there was no memory to count is as one that holds nothing. Its next step says anew what it holds, and that counts then.
    fn hold_nothing(&mut self, name: Name, step: &Step)
        ensures { self.new.done ≡ self.old.done }
    {
        let Some(kept) = self.connections.lend(name) else {
            return;
        };
        let nothing = Step {
            read: 0,
            written: 0,
            answers: false,
            holds: Holding::Nothing,
            ..*step
        };
        let now = milliseconds(self.rt);
        let limits = self.node.limits;
        let _ = self
            .connections
            .step_ended(name, kept, &nothing, &limits, now);
    }

    /// Ends a connection, if it has not ended.
    pub(crate) fn end(&mut self, name: Name)
        ensures { self.new.done ≡ self.old.done }
    {
        self.end_before(name, false);
    }

    /// Ends a connection, if it has not ended, before a step for which room was kept, or needn't be.
    fn end_before(&mut self, name: Name, is_kept: bool)
        ensures { self.new.done ≡ self.old.done }
    {
        if let Some(change) = self.connections.end(name) {
            let _ = self.count(name, &change, is_kept);
            self.count_end(&change);
        }
    }

    /// Counts what a connection holds now. Answers whether there was memory for that.
    fn count(&mut self, name: Name, change: &Change, is_kept: bool) -> bool
        ensures { self.new.done ≡ self.old.done }
    {
        if !is_kept && change.held == change.holds {
            return true;
        }
        let mut shares = self.node.shares.lock(self.rt);
        let counted = shares.recount(name.number, change.held, change.holds, is_kept);
        drop(shares);
        if change.held.is_body() && !change.holds.is_body() {
            self.gave_room = true;
        }
        if matches!(change.holds, Holding::Reply(_)) {
            self.took_room = true;
        }
        counted.is_ok()
    }

    /// If a connection has ended, its place is free again.
    fn count_end(&mut self, change: &Change)
        ensures { self.new.done ≡ self.old.done }
    {
        if change.fate == Fate::Ends {
            self.node.shares.lock(self.rt).give_back(self.worker);
            self.node.count_gone(self.rt);
        }
    }

    /// Closes our side of a connection. If that can't be done, it ends.
    fn close_side(&mut self, name: Name)
        ensures { self.new.done ≡ self.old.done }
    {
        let is_closed = match self.connections.kept(name.place) {
            Some(kept) => kept.socket.shut_down(),
            None => false,
        };
        if is_closed {
            // It goes before all others that don't close.
            self.say_also(Standing::Closing.turn(milliseconds(self.rt)));
        } else {
            self.end(name);
        }
    }

    /// Tells the set what a socket is waited for now, where that has changed. If that can't be done, the connection ends, and the room that was kept for a step
    /// is free again.
    fn watch(&mut self, name: Name, change: &Change, is_kept: bool)
        ensures { self.new.done ≡ self.old.done }
    {
        if change.waited == change.waits || change.fate == Fate::Ends {
            return;
        }
        let line = self.node.lines.get(self.worker);
        let is_told = match (line, self.connections.kept(name.place)) {
            (Some(line), Some(kept)) => match (change.waited, change.waits) {
                (_, None) => line.set.remove(&kept.socket),
                (None, Some(interest)) => line.set.add(&kept.socket, name.place, interest),
                (_, Some(interest)) => line.set.change(&kept.socket, name.place, interest),
            },
            _ => change.waits.is_none(),
        };
        if !is_told {
            let text = "a connection can't be waited for, so it ends";
            self.node.notices.tell(About::Listener, text, "");
            self.end_before(name, is_kept);
        }
    }
}
