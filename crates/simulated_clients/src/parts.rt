//! The parts of a step of a simulated connection.
use connection_rules::Stage;
use worker_connections::{Holding, Next, Step};

/// A step after which this comes.
pub fn step_to(next: Next, stage: Stage, holds: Holding) -> Step {
    Step {
        next,
        stage,
        read: 0,
        written: 0,
        answers: false,
        holds,
    }
}

/// The step of a connection that is broken off.
pub fn broken() -> Step {
    step_to(Next::Ends, Stage::Closing, Holding::Nothing)
}

/// Two parts of a step, one after the other.
pub fn joined(first: &Step, second: &Step) -> Step {
    Step {
        read: first.read.saturating_add(second.read),
        written: first.written.saturating_add(second.written),
        answers: first.answers || second.answers,
        ..*second
    }
}
