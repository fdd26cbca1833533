//! What an event changes at a connection.
ghost use Rattle.std.specs.Prelude.{◌≡◌};
ghost use Rattle.worker_connections.specs.Places as spec;

use crate::clients::{Client, State};
use crate::steps::{Holding, Interest};

/// Which connection is meant: its place, and its number, which no other connection of the worker has or had.
#[derive(Clone, Copy, Debug, PartialEq, Eq)]
pub struct Name {
    pub place: usize,
    pub number: u64,
}

/// What is to be done with a connection.
#[derive(Clone, Copy, Debug, PartialEq, Eq)]
pub enum Fate {
    /// Nothing more.
    Stays,
    /// A thread that may wait is to go on with it.
    Leaves,
    /// Our side of it is closed.
    ClosesSide,
    /// It has ended.
    Ends,
}

/// What an event changed at a connection.
#[derive(Clone, Copy, Debug, PartialEq, Eq)]
pub struct Change {
    pub fate: Fate,
    /// What its socket was waited for, and is waited for from now on.
    pub waited: Option<Interest>,
    pub waits: Option<Interest>,
    /// What counted for it, and what counts from now on.
    pub held: Holding,
    pub holds: Holding,
}

/// What is to be done with a connection that was in one state and is in another.
fn fate_of(old: State, new: State) -> Fate
    ensures { result ≡ spec.fate_in old new }
{
    match (new, old) {
        (State::Closing, State::Closing) => Fate::Stays,
        (State::Closing, _) => Fate::ClosesSide,
        (State::Away, State::Away) => Fate::Stays,
        (State::Away, _) => Fate::Leaves,
        (State::Left, State::Left) => Fate::Stays,
        (State::Left, _) => Fate::Ends,
        _ => Fate::Stays,
    }
}

impl Change {
    /// The change from one connection to another.
    pub(crate) fn between(old: &Client, new: &Option<Client>) -> Change
        ensures { result ≡ spec.change_between old.now new.now }
    {
        match new {
            None => Change {
                fate: if old.is_live() {
                    Fate::Ends
                } else {
                    Fate::Stays
                },
                waited: old.interest(),
                waits: None,
                held: old.holds,
                holds: Holding::Nothing,
            },
            Some(new) => Change {
                fate: fate_of(old.state, new.state),
                waited: old.interest(),
                waits: new.interest(),
                held: old.holds,
                holds: new.holds,
            },
        }
    }
}
