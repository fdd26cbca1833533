//! How what is asked for is played.

/// How what is asked for is played.
#[derive(Clone, Copy, Debug, PartialEq, Eq)]
pub(crate) enum Stage {
    /// In one thread, in the order of the lines. After each, its deployer looks.
    Steps,
    /// Each deployer in a thread of its own, and as many readers.
    Threads,
    /// Each deployer in a thread of its own, and a reader who looks while a sync is held back.
    Look,
    /// Each deployer in a thread of its own, and one who reads the chunk `hello`, and asks for that while a put is held back.
    Read,
}

/// The stage of a word.
pub(crate) fn stage_of(word: &str) -> Option<Stage> {
    match word {
        "steps" => Some(Stage::Steps),
        "threads" => Some(Stage::Threads),
        "look" => Some(Stage::Look),
        "read" => Some(Stage::Read),
        _ => None,
    }
}
