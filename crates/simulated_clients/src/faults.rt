//! What a node may not do.

/// What was seen that docs/WIRE.md excludes.
#[derive(Clone, Copy, Debug, PartialEq, Eq)]
pub enum Fault {
    TooManyClients,
    NotAccepted,
    NewcomerWaits,
    StepOutOfTurn,
    NotHeard,
    NotWaitedFor,
    PlaceIsTaken,
    InputIsReadFirst,
    CutBeforeItsTime,
    MoreGoThanAreWanted,
    AnotherHasLessToLose,
    ReplyMoves,
    AnotherMovedLess,
    CutThoughOneMayGo,
    StaysTooLong,
    IdleStays,
    BodiesHoldTooMuch,
    RepliesHoldTooMuch,
    WaitsThoughThereIsRoom,
    NoBodyGoesOn,
    NobodyGivesRoom,
    TooManyPlaces,
    Spins,
    EndsTooEarly,
    DoesNotEnd,
    SocketStaysOpen,
}

impl Fault {
    /// The same in words.
    pub fn words(self) -> &'static str {
        match self {
            Fault::TooManyClients => "a client is accepted though all have come",
            Fault::NotAccepted => "a client isn't accepted",
            Fault::NewcomerWaits => "a client that was accepted has no place",
            Fault::StepOutOfTurn => "a step is made of a connection that waits for something else",
            Fault::NotHeard => "a step of a thread that may wait isn't taken note of",
            Fault::NotWaitedFor => "a connection isn't waited for as its step says",
            Fault::PlaceIsTaken => "two connections of a worker have one place",
            Fault::InputIsReadFirst => "input is dropped though our side isn't closed",
            Fault::CutBeforeItsTime => "a connection is cut before its time",
            Fault::MoreGoThanAreWanted => "more connections go than places were wanted",
            Fault::AnotherHasLessToLose => "a connection goes though another one has less to lose",
            Fault::ReplyMoves => "a reply that moves goes for a place",
            Fault::AnotherMovedLess =>
                "a connection goes to give room though another one moved less",
            Fault::CutThoughOneMayGo => "a client is cut though a connection may go for it",
            Fault::StaysTooLong => "a late connection stays",
            Fault::IdleStays => "an idle connection stays while the node drains",
            Fault::BodiesHoldTooMuch => "the bodies hold too much",
            Fault::RepliesHoldTooMuch => "the replies hold too much",
            Fault::WaitsThoughThereIsRoom => "a body waits though there is room",
            Fault::NoBodyGoesOn => "all bodies wait for room",
            Fault::NobodyGivesRoom => "a body waits for long and none goes to give room",
            Fault::TooManyPlaces => "there are more connections than places",
            Fault::Spins => "the workers don't come to rest",
            Fault::EndsTooEarly => "the node ends too early",
            Fault::DoesNotEnd => "the node doesn't end",
            Fault::SocketStaysOpen => "a socket stays open",
        }
    }
}
