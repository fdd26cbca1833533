//! A connection between two events: what its steps gave it, and what follows from that.
ghost use Rattle.std.specs.Prelude.{◌≡◌, IfSome};
ghost use Rattle.worker_connections.specs.Clients as spec;

use crate::steps::{Holding, Interest, Next, Step};
use connection_rules::{Limits, Pace, Recent, Stage};

/// What a connection waits for.
#[derive(Clone, Copy, Debug, PartialEq, Eq)]
pub enum State {
    /// Its socket.
    Waits(Interest),
    /// Room for its body, since this time.
    ForRoom(u64),
    /// A thread that may wait, which has it.
    Away,
    /// Its socket. It came back at this time from a thread that may wait, and no step was tried since.
    Back(u64, Interest),
    /// The end of what its client sends, which is dropped: our side is closed.
    Closing,
    /// A thread that may wait. The connection ended meanwhile, and what that thread has of it counts until it is back.
    Left,
}

/// What is to be done for a connection whose turn it is.
#[derive(Clone, Copy, Debug, PartialEq, Eq)]
pub enum Turn {
    /// Nothing: it has ended, or a thread that may wait has it.
    Nothing,
    /// A step, if there is room for its body, which holds so much.
    IfRoom(u64),
    /// A step.
    Step,
    /// What its client sends is dropped.
    Drop,
}

/// What is known of a connection between two events.
#[derive(Clone, Copy, Debug, PartialEq, Eq)]
pub struct Client {
    /// Its number, which no other connection of the worker has or had.
    pub number: u64,
    /// When it came.
    pub came: u64,
    pub state: State,
    pub pace: Pace,
    /// Whether a request was answered.
    pub is_answered: bool,
    /// When bytes moved last.
    pub active: u64,
    /// How many moved of late.
    pub recent: Recent,
    pub holds: Holding,
    /// When its last body began.
    pub body_since: u64,
}

/// The number of the span of time that goes on: what moved of late moved in it and in the one before.
pub(crate) fn span_of(limits: &Limits, now: u64) -> u64
    ensures { result ≡ spec.span_of limits.now now }
{
    if limits.wait == 0 {
        0
    } else {
        now / limits.wait
    }
}

/// Where a step leads that ended like this; nowhere if the connection is over.
fn state_after(state: State, next: Next) -> Option<State>
    ensures { result ≡ spec.state_after state next }
{
    match (next, state) {
        (Next::Ends, _) => None,
        (_, State::Closing) => Some(State::Closing),
        (Next::Waits(interest), _) => Some(State::Waits(interest)),
        (Next::Leaves, _) => Some(State::Away),
        (Next::Closes, _) => Some(State::Closing),
    }
}

/// Where the step leads that a thread made which may wait.
fn state_back(next: Next, now: u64) -> Option<State>
    ensures { result ≡ spec.state_back next now }
{
    match next {
        Next::Waits(interest) => Some(State::Back(now, interest)),
        Next::Closes => Some(State::Closing),
        Next::Leaves | Next::Ends => None,
    }
}

/// What a connection is doing in this state after a step that says what it is doing.
fn stage_in(state: State, stage: Stage) -> Stage
    ensures { result ≡ spec.stage_in state stage }
{
    match state {
        State::Closing => Stage::Closing,
        _ => stage,
    }
}

impl Client {
    /// The connection of a client that comes now.
    pub(crate) fn new(number: u64, limits: &Limits, now: u64) -> Client
        ensures { result ≡ spec.begun_client number limits.now now }
    {
        Client {
            number,
            came: now,
            state: State::Waits(Interest::Read),
            pace: Pace::new(now),
            is_answered: false,
            active: now,
            recent: Recent::new(span_of(limits, now)),
            holds: Holding::Nothing,
            body_since: now,
        }
    }

    /// The same after a step that ended now and led to this state.
    fn noted(&self, state: State, step: &Step, limits: &Limits, now: u64) -> Client
        ensures { result ≡ spec.noted state step.now limits.now now self.now }
    {
        let mut next = *self;
        next.state = state;
        next.pace
            .step(stage_in(state, step.stage), step.read, step.written, now);
        next.is_answered = self.is_answered || step.answers;
        if step.moved() > 0 {
            next.active = now;
        }
        next.recent.add(step.moved(), span_of(limits, now));
        if step.holds.is_body() && !self.holds.is_body() {
            next.body_since = now;
        }
        next.holds = step.holds;
        next
    }

    /// The same after a step that ended now; none if it is over. While a thread that may wait has it, its worker makes none.
    pub(crate) fn after(&self, step: &Step, limits: &Limits, now: u64) -> Option<Client>
        ensures is { result ≡ spec.after step.now limits.now now self.now }
        ensures number { IfSome result (λ client. client.number ≡ self.now.number) }
    {
        match self.state {
            State::Away | State::Left => Some(*self),
            _ => {
                let state = state_after(self.state, step.next)?;
                Some(self.noted(state, step, limits, now))
            }
        }
    }

    /// The same after a thread that may wait made its step; none if it is over, or has ended meanwhile.
    pub(crate) fn back(&self, step: &Step, limits: &Limits, now: u64) -> Option<Client>
        ensures { result ≡ spec.back step.now limits.now now self.now }
    {
        match self.state {
            State::Away => {
                let state = state_back(step.next, now)?;
                Some(self.noted(state, step, limits, now))
            }
            State::Left => None,
            _ => Some(*self),
        }
    }

    /// The same where its worker ends it: none, or what a thread that may wait has of it.
    pub(crate) fn ended(&self) -> Option<Client>
        ensures { result ≡ spec.ended self.now }
    {
        match self.state {
            State::Away | State::Left => Some(Client {
                state: State::Left,
                ..*self
            }),
            _ => None,
        }
    }

    /// The same where it was asked for room for a step of its body. Its time begins anew where it goes on after it has waited.
    pub(crate) fn answered(&self, has_room: bool, now: u64) -> Client
        ensures { result ≡ spec.answered has_room now self.now }
    {
        let mut next = *self;
        match (has_room, self.state) {
            (true, State::ForRoom(_)) => {
                next.state = State::Waits(Interest::Either);
                next.pace.begin_again(now);
            }
            (false, State::Waits(_) | State::Back(_, _)) => next.state = State::ForRoom(now),
            _ => {}
        }
        next
    }

    /// What is to be done in its turn.
    pub(crate) fn turn(&self) -> Turn
        ensures { result ≡ spec.turn_of self.now }
    {
        match (self.state, self.holds) {
            (State::Away | State::Left, _) => Turn::Nothing,
            (State::Closing, _) => Turn::Drop,
            (_, Holding::Body(held)) => Turn::IfRoom(held),
            _ => Turn::Step,
        }
    }

    /// What its socket is waited for. The set doesn't have one that waits for room or for a thread.
    pub(crate) fn interest(&self) -> Option<Interest>
        ensures { result ≡ spec.interest_of self.now }
    {
        match self.state {
            State::Waits(interest) | State::Back(_, interest) => Some(interest),
            State::Closing => Some(Interest::Read),
            State::ForRoom(_) | State::Away | State::Left => None,
        }
    }

    /// Whether it has not ended.
    pub(crate) fn is_live(&self) -> bool
        ensures { result ≡ spec.is_live self.now }
    {
        self.state != State::Left
    }

    /// Whether it is between two requests, or before the first.
    fn is_idle(&self) -> bool
        ensures { result ≡ spec.is_idle self.now }
    {
        self.pace.stage == Stage::Idle && self.runs()
    }

    /// Whether its time runs.
    pub(crate) fn runs(&self) -> bool
        ensures { result ≡ spec.runs self.now.state }
    {
        match self.state {
            State::Waits(_) | State::Back(_, _) | State::Closing => true,
            State::ForRoom(_) | State::Away | State::Left => false,
        }
    }

    /// The same after a step, where the node drains or not: one that is idle then ends if it drains.
    pub(crate) fn unless_drained(self, drains: bool) -> Option<Client>
        ensures is { result ≡ spec.unless_drained drains self }
        ensures number { IfSome result (λ client. client.number ≡ self.number) }
    {
        if drains && self.is_idle() {
            None
        } else {
            Some(self)
        }
    }

    /// Whether it has to end now: it is late, or idle while the node drains.
    pub(crate) fn is_due(&self, drains: bool, limits: &Limits, now: u64) -> bool
        ensures { result ≡ spec.is_due drains limits.now now self.now }
    {
        drains && self.is_idle() || self.runs() && self.pace.is_late(limits, now)
    }
}
