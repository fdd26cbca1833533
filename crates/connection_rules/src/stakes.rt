//! Which connection goes first if a place is needed.
ghost use Rattle.std.specs.Prelude.{◌≡◌};
ghost use Rattle.connection_rules.specs.Standings as spec;

use crate::paces::Stage;
use crate::standings::Standing;

/// With so many bytes that moved of late, a connection that is in a reply goes for no place: 256 KiB.
const MOVING: u64 = 262_144;

/// What is known of a connection that may go for a place. Times are milliseconds of one clock.
#[derive(Clone, Copy, Debug, PartialEq, Eq)]
pub struct Stake {
    pub stage: Stage,
    /// Whether a thread has one of its requests, and whether one was answered.
    pub is_at_work: bool,
    pub is_answered: bool,
    /// Whether it came less than a second ago.
    pub is_young: bool,
    /// When it came, and when bytes moved last.
    pub came: u64,
    pub active: u64,
    /// How many bytes moved of late.
    pub moved: u64,
}

/// Whether so many new connections are more than a quarter of so many in all: then they crowd the others.
pub fn are_crowding(new: u64, all: u64) -> bool
    ensures { result ≡ spec.are_crowding new all }
{
    (all as u128) < 4 * (new as u128)
}

// Whether a connection in this stage goes for no place, since so many bytes moved of late.
fn keeps_place(stage: Stage, moved: u64) -> bool
    ensures { result ≡ spec.keeps_place stage moved }
{
    stage == Stage::Reply && moved >= MOVING
}

// What one has to lose that doesn't close, and of which no thread has a request.
fn standing_between(stage: Stage, is_answered: bool, is_young: bool, crowds: bool) -> Standing
    ensures { result ≡ spec.standing_between stage is_answered is_young crowds }
{
    if !is_answered {
        return match (is_young, crowds) {
            (false, _) => Standing::Unanswered,
            (true, true) => Standing::Crowding,
            (true, false) => Standing::New,
        };
    }
    if stage == Stage::Idle {
        Standing::Idle
    } else {
        Standing::Busy
    }
}

impl Stake {
    /// Whether it is new: it came less than a second ago, doesn't close, and none of its requests was answered or is with a thread.
    pub fn is_new(&self) -> bool
        ensures { result ≡ spec.is_new self.now }
    {
        self.stage != Stage::Closing && !self.is_at_work && !self.is_answered && self.is_young
    }

    // What it has to lose, where new ones crowd the others or don't.
    fn standing(&self, crowds: bool) -> Standing
        ensures { result ≡ spec.standing_of crowds self.now }
    {
        if self.stage == Stage::Closing {
            return Standing::Closing;
        }
        if self.is_at_work {
            return Standing::AtWork;
        }
        standing_between(self.stage, self.is_answered, self.is_young, crowds)
    }

    // What counts among those that have as much to lose.
    fn counted(&self, standing: Standing) -> u64
        ensures { result ≡ spec.counted standing self.now }
    {
        match standing {
            Standing::Crowding | Standing::New => self.came,
            Standing::Busy => self.moved,
            _ => self.active,
        }
    }

    /// Its number among those that go for a place, if new ones crowd the others or don't: the least goes first. It has none if it is in a reply, and 256 KiB or
    /// more moved on it of late, in both directions.
    pub fn number(&self, crowds: bool) -> Option<u64>
        ensures { result ≡ spec.number_of crowds self.now }
    {
        if keeps_place(self.stage, self.moved) {
            return None;
        }
        let standing = self.standing(crowds);
        Some(standing.turn(self.counted(standing)))
    }
}
