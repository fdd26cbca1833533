//! What a connection has to lose if it goes for a place.
ghost use Rattle.std.specs.Prelude.{◌≡◌};
ghost use Rattle.connection_rules.specs.Standings as spec;

/// How many numbers each standing has: those of the next begin after them. No clock shows so many milliseconds, and nobody moves so many bytes.
const SPAN: u64 = 1_152_921_504_606_846_976;

/// What a connection has to lose if it goes.
#[derive(Clone, Copy, Debug, PartialEq, Eq)]
pub enum Standing {
    /// It is over, and closes.
    Closing,
    /// None of its requests was answered, no thread has one, and it came a second ago or earlier.
    Unanswered,
    /// None was answered yet, and it came less than a second ago. More than a quarter of the connections are like it.
    Crowding,
    /// One was answered, and nothing has come of the next.
    Idle,
    /// One was answered, and it is in the middle of a request or of a reply.
    Busy,
    /// None was answered yet, and it came less than a second ago. A quarter of the connections, or fewer, are like it.
    New,
    /// A thread has one of its requests, and answers it.
    AtWork,
}

impl Standing {
    // How many standings go before it.
    fn rank(self) -> u64
        ensures { result ≡ spec.rank_of self }
    {
        match self {
            Standing::Closing => 0,
            Standing::Unanswered => 1,
            Standing::Crowding => 2,
            Standing::Idle => 3,
            Standing::Busy => 4,
            Standing::New => 5,
            Standing::AtWork => 6,
        }
    }

    /// The number of a connection among those that go for a place, by what counts within its standing: when it came, if it is new; how many bytes it moved of
    /// late, if it is busy; else when bytes moved last. The connection with the least number goes first.
    pub fn turn(self, by: u64) -> u64
        ensures { result ≡ spec.turn_of self by }
    {
        self.rank() * SPAN + by.min(SPAN - 1)
    }
}
