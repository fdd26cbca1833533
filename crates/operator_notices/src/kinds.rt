//! The kinds of notices.
ghost use Rattle.std.specs.Prelude.{◌≡◌};
ghost use Rattle.operator_notices.specs.Kinds as spec;

/// What a notice is about. Of each kind one line a second is written at most.
#[derive(Clone, Copy, Debug, PartialEq, Eq)]
pub enum Kind {
    /// The journal is broken, so no change is taken until the program is started again.
    Journal,
    /// A file of the store can't be read or written.
    Device,
    /// No descriptor is left for a connection or a file.
    Descriptors,
    /// There is no memory for a connection.
    Memory,
    /// A listener or a connection can't be waited for.
    Listener,
    /// Another node is passed over, or answers again.
    Peer,
    /// Bodies wait, since they hold as much as they may.
    Bodies,
    /// Replies end, since they hold more than they may.
    Replies,
}

impl Kind {
    /// The word for it in a line.
    pub fn word(self) -> &'static str
        ensures { result.now ≡ spec.word_of self }
    {
        match self {
            Kind::Journal => "journal",
            Kind::Device => "device",
            Kind::Descriptors => "descriptors",
            Kind::Memory => "memory",
            Kind::Listener => "listener",
            Kind::Peer => "peer",
            Kind::Bodies => "bodies",
            Kind::Replies => "replies",
        }
    }
}
