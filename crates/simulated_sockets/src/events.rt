//! What happens to a simulated node, one event after another.
use crate::worlds::World;
use simulated_clients::{Caller, draw_piece};
use std::alloc::AllocError;

/// An event. Clients are named by the order in which those came that are there; a number past the last begins anew at the first.
#[derive(Clone, Copy, Debug, PartialEq, Eq)]
pub enum Event {
    /// A client connects, whose requests are drawn from this number.
    Connects(u64),
    /// It sends so many bytes more, or takes so many more.
    Sends(usize, u64),
    Takes(usize, u64),
    /// It closes its side, or resets the connection.
    Ends(usize),
    Resets(usize),
    /// So many milliseconds pass.
    Passes(u64),
    /// A worker takes a turn, or waits and doesn't do yet what that told.
    Turn(usize),
    Wait(usize),
    /// A thread that may wait makes a step, which fails or doesn't.
    Slow(bool),
    /// The workers take turns until none has anything to do.
    Settles,
    /// The system has descriptors for so many clients.
    Descriptors(u64),
    /// The node has so many milliseconds to come to its end.
    Drains(u64),
    /// A file finds no descriptor: the overseeing thread asks for a connection to go.
    GivesUp,
}

/// How often clients do something in the middle of the turns of one event at most.
const STIRS: u64 = 16;

/// How often others go on there at most.
const INNERS: u64 = 4;

impl World {
    /// How many clients can still do something.
    fn count_there(&self) -> usize {
        let mut there = 0_usize;
        for caller in &self.callers {
            if caller.is_there() {
                there = there.saturating_add(1);
            }
        }
        there
    }

    /// Which client an event names, if one is there.
    fn place_named(&self, number: usize) -> Option<usize> {
        let mut left = number.checked_rem(self.count_there())?;
        for at in 0..self.callers.len() {
            if self.callers[at].is_there() {
                if left == 0 {
                    return Some(at);
                }
                left = left.saturating_sub(1);
            }
        }
        None
    }

    /// The client that an event names, if one is there.
    fn named(&mut self, number: usize) -> Option<&mut Caller> {
        let at = self.place_named(number)?;
        self.callers.get_mut(at)
    }

    /// A client sends more.
    fn send(&mut self, number: usize, bytes: u64) {
        if let Some(caller) = self.named(number) {
            if !caller.is_ended {
                caller.incoming = caller.incoming.saturating_add(bytes);
            }
        }
    }

    /// A client takes more.
    fn take(&mut self, number: usize, bytes: u64) {
        if let Some(caller) = self.named(number) {
            caller.room = caller.room.saturating_add(bytes);
        }
    }

    /// A client closes its side, or resets its connection.
    fn end(&mut self, number: usize, is_reset: bool) {
        if let Some(caller) = self.named(number) {
            caller.is_ended = true;
            caller.is_reset = is_reset;
        }
    }

    /// Whether others have gone on in the middle of a turn of this event.
    pub(crate) fn had_inners(&self) -> bool {
        self.inners < INNERS
    }

    /// In the middle of a turn a client does something, or none does.
    pub(crate) fn stir(&mut self) {
        if self.is_quiet || self.stirs == 0 || self.draws.below(16) != 0 {
            return;
        }
        self.stirs = self.stirs.saturating_sub(1);
        let number = self.draws.below(64) as usize;
        let piece = draw_piece(&mut self.draws, self.plan.taste);
        match self.draws.below(256) {
            0 => self.end(number, false),
            1 => self.end(number, true),
            n if n < 130 => self.send(number, piece),
            _ => self.take(number, piece),
        }
    }

    /// The time, which may have passed since it was told last.
    pub(crate) fn tick(&mut self) -> u64 {
        if self.draws.below(16) == 0 {
            let more = self.draws.below(3).saturating_add(1);
            self.pass(more);
        }
        self.now
    }

    /// So many milliseconds pass.
    pub(crate) fn pass(&mut self, milliseconds: u64) {
        self.now = self.now.saturating_add(milliseconds);
        self.note_rooms();
    }

    /// What doesn't need the node happens.
    pub fn happen(&mut self, event: &Event) -> Result<(), AllocError> {
        self.stirs = STIRS;
        self.inners = INNERS;
        self.begin_turn();
        match *event {
            Event::Connects(seed) => self.callers.push(Caller::new(seed))?,
            Event::Sends(number, bytes) => self.send(number, bytes),
            Event::Takes(number, bytes) => self.take(number, bytes),
            Event::Ends(number) => self.end(number, false),
            Event::Resets(number) => self.end(number, true),
            Event::Passes(milliseconds) => self.pass(milliseconds),
            Event::Descriptors(count) => self.descriptors = count,
            Event::Drains(_)
            | Event::GivesUp
            | Event::Slow(_)
            | Event::Turn(_)
            | Event::Wait(_)
            | Event::Settles => {}
        }
        Ok(())
    }
}
