//! A connection of a simulated node, whose heads, bodies and replies have drawn lengths.
use crate::callers::Moved;
use crate::draws::Draws;
use crate::parts::{broken, joined, step_to};
use crate::plans::Taste;
use connection_rules::{HeldReply, Stage};
use worker_connections::{Holding, Interest, Next, Step};

/// How many bytes a head has.
const HEAD: u64 = 40;

/// How many bytes a read of heads takes at most: several heads that came together lie there.
const BUFFER: u64 = 8_192;

/// How many bytes a step moves at most, and how many parts it has at most.
const MOST: u64 = 262_144;

const PARTS: u32 = 1_024;

/// The longest body, and the longest reply.
const BODY: u64 = 16_777_216;

const REPLY: u64 = 67_108_864;

/// How many files the clients ask for, and how many bytes each has.
pub const FILES: u8 = 4;

pub const FILE: u64 = 104_857_600;

/// What moves the bytes of a client's socket.
pub trait Bytes {
    /// Reads at most so many bytes of what a client sent.
    fn read(&mut self, caller: usize, most: u64) -> Moved;

    /// Writes at most so many bytes to it.
    fn write(&mut self, caller: usize, most: u64) -> Moved;
}

/// A reply: how many bytes are left of it, what it holds, and whether the connection is over with it.
#[derive(Clone, Copy, Debug, PartialEq, Eq)]
struct Reply {
    left: u64,
    holds: Holding,
    is_last: bool,
}

/// How far a connection is.
#[derive(Clone, Copy, Debug, PartialEq, Eq)]
enum Phase {
    /// So much of a head has come.
    Head(u64),
    /// So much of a body has come, of so much.
    Body(u64, u64),
    /// A thread that may wait makes this reply.
    Slow(Reply),
    Reply(Reply),
}

/// A connection.
#[derive(Clone, Copy, Debug, PartialEq, Eq)]
pub struct Talk {
    pub caller: usize,
    draws: Draws,
    taste: Taste,
    phase: Phase,
    /// How many bytes were read of which nothing was taken.
    buffered: u64,
    /// How many heads, bodies, replies and waits for heads have begun.
    pub begun: u64,
}

impl Talk {
    /// That of a client that begins.
    pub fn new(caller: usize, seed: u64, taste: Taste) -> Talk {
        Talk {
            caller,
            draws: Draws::new(seed),
            taste,
            phase: Phase::Head(0),
            buffered: 0,
            begun: 0,
        }
    }

    fn enter(&mut self, phase: Phase) {
        self.phase = phase;
        self.begun = self.begun.saturating_add(1);
    }

    /// How long something is, which is longer in runs of that taste.
    fn draw_length(&mut self, most: u64, taste: Taste) -> u64 {
        if self.taste == taste {
            most.saturating_sub(self.draws.below(most / 2))
        } else {
            self.draws.below(most).saturating_add(1)
        }
    }

    /// A reply of some bytes, of which it may hold a file.
    fn draw_reply(&mut self) -> Reply {
        let kind = self.draws.below(4);
        let is_small = self.taste != Taste::Replies && kind < 2;
        if is_small || self.taste == Taste::Small {
            return Reply {
                left: self.draws.one_of(&[100, 100, 3_000, 50_000]),
                holds: Holding::Nothing,
                is_last: self.draws.below(8) == 0,
            };
        }
        let length = self.draw_length(REPLY, Taste::Replies);
        let file = u8::try_from(self.draws.below(u64::from(FILES))).unwrap_or(0);
        Reply {
            left: length,
            holds: Holding::Reply(HeldReply {
                file: [file; 20],
                length,
                size: FILE,
            }),
            is_last: kind == 2,
        }
    }

    /// The step that begins a reply.
    fn answer(&mut self, reply: Reply) -> Step {
        self.enter(Phase::Reply(reply));
        Step {
            answers: true,
            ..step_to(Next::Waits(Interest::Either), Stage::Reply, reply.holds)
        }
    }

    /// A head has come: what is asked for is drawn.
    fn asked(&mut self) -> Step {
        let reply = self.draw_reply();
        let has_body = match self.taste {
            Taste::Bodies => self.draws.below(6) < 5,
            Taste::Small => self.draws.below(6) < 1,
            Taste::Mixed | Taste::Replies => self.draws.below(6) < 2,
        };
        if has_body {
            let length = self.draw_length(BODY, Taste::Bodies);
            self.enter(Phase::Body(0, length));
            step_to(Next::Waits(Interest::Either), Stage::Body, Holding::Body(0))
        } else if self.draws.below(4) == 0 {
            self.phase = Phase::Slow(reply);
            step_to(Next::Leaves, Stage::Head, Holding::Nothing)
        } else {
            self.answer(reply)
        }
    }

    /// Takes what is there of a head.
    fn take_head(&mut self, got: u64) -> Step {
        let taken = self.buffered.min(HEAD.saturating_sub(got));
        self.buffered = self.buffered.saturating_sub(taken);
        let all = got.saturating_add(taken);
        if all == HEAD {
            return self.asked();
        }
        if got == 0 {
            self.enter(Phase::Head(all));
        } else {
            self.phase = Phase::Head(all);
        }
        step_to(Next::Waits(Interest::Read), Stage::Head, Holding::Nothing)
    }

    fn read_head(&mut self, world: &mut impl Bytes, got: u64, most: u64) -> Step {
        let stage = if got == 0 { Stage::Idle } else { Stage::Head };
        if self.buffered > 0 {
            return self.take_head(got);
        }
        match world.read(self.caller, most.min(BUFFER)) {
            Moved::Failed | Moved::Bytes(0) => broken(),
            Moved::WouldWait => step_to(Next::Waits(Interest::Read), stage, Holding::Nothing),
            Moved::Bytes(count) => {
                self.buffered = count;
                Step {
                    read: count,
                    ..self.take_head(got)
                }
            }
        }
    }

    /// So much more of a body is there.
    fn take_body(&mut self, more: u64, held: u64, length: u64) -> Step {
        let held = held.saturating_add(more);
        let next = if held < length {
            self.phase = Phase::Body(held, length);
            Next::Waits(Interest::Either)
        } else {
            self.phase = Phase::Slow(self.draw_reply());
            Next::Leaves
        };
        step_to(next, Stage::Body, Holding::Body(held))
    }

    fn read_body(&mut self, world: &mut impl Bytes, held: u64, length: u64) -> Step {
        let most = length.saturating_sub(held).min(MOST);
        if self.buffered > 0 {
            let taken = self.buffered.min(most);
            self.buffered = self.buffered.saturating_sub(taken);
            return self.take_body(taken, held, length);
        }
        match world.read(self.caller, most) {
            Moved::Failed | Moved::Bytes(0) => broken(),
            Moved::WouldWait => {
                step_to(
                    Next::Waits(Interest::Read),
                    Stage::Body,
                    Holding::Body(held),
                )
            }
            Moved::Bytes(count) => Step {
                read: count,
                ..self.take_body(count, held, length)
            },
        }
    }

    fn write_reply(&mut self, world: &mut impl Bytes, reply: Reply, most: u64) -> Step {
        match world.write(self.caller, reply.left.min(most)) {
            Moved::Failed => broken(),
            Moved::WouldWait => step_to(Next::Waits(Interest::Write), Stage::Reply, reply.holds),
            Moved::Bytes(count) => Step {
                written: count,
                ..self.written(reply, count)
            },
        }
    }

    /// So much of a reply was written.
    fn written(&mut self, reply: Reply, count: u64) -> Step {
        let left = reply.left.saturating_sub(count);
        if left > 0 {
            self.phase = Phase::Reply(Reply { left, ..reply });
            step_to(Next::Waits(Interest::Write), Stage::Reply, reply.holds)
        } else if reply.is_last {
            step_to(Next::Closes, Stage::Closing, Holding::Nothing)
        } else {
            self.enter(Phase::Head(0));
            step_to(Next::Waits(Interest::Read), Stage::Idle, Holding::Nothing)
        }
    }

    /// A part of a step, which moves so many bytes at most.
    fn part(&mut self, world: &mut impl Bytes, most: u64) -> Step {
        match self.phase {
            Phase::Head(got) => self.read_head(world, got, most),
            Phase::Body(held, length) => self.read_body(world, held, length),
            Phase::Reply(reply) => self.write_reply(world, reply, most),
            // A worker doesn't have it then.
            Phase::Slow(_) => broken(),
        }
    }

    /// Whether its step goes on after a part: as long as a head may lie there, and else as drawn.
    fn goes_on(&mut self, step: &Step, is_stuck: bool) -> bool {
        if step.holds.is_body() || !matches!(step.next, Next::Waits(_)) {
            return false;
        }
        let is_head = matches!(self.phase, Phase::Head(_));
        is_head && self.buffered > 0 || !is_stuck && self.draws.below(2) == 0
    }

    /// A step that its worker makes.
    pub fn step(&mut self, world: &mut impl Bytes) -> Step {
        let mut step = self.part(world, MOST);
        let mut is_stuck = step.read.saturating_add(step.written) == 0;
        for _ in 0..PARTS {
            let left = MOST.saturating_sub(step.read).saturating_sub(step.written);
            if left == 0 && self.buffered == 0 || !self.goes_on(&step, is_stuck) {
                break;
            }
            let more = self.part(world, left);
            is_stuck = more.read.saturating_add(more.written) == 0;
            step = joined(&step, &more);
        }
        step
    }

    /// What a thread that may wait makes of it: a reply, or, where it fails, an end, at once or after what the client still sends.
    pub fn slow_step(&mut self, fails: bool) -> Step {
        match self.phase {
            Phase::Slow(reply) if !fails => self.answer(reply),
            _ if self.draws.below(2) == 0 => {
                step_to(Next::Closes, Stage::Closing, Holding::Nothing)
            }
            _ => broken(),
        }
    }
}
