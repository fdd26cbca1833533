//! Finds the end of a head.
ghost use Rattle.std.specs.Prelude.{◌≡◌, ℕ, ◌≤◌, ◌⊎◌, List, ◌++◌, length, drop, true};
ghost use Rattle.http_wire.specs.Scanning.{HasSearched, ScansTo, step_of, is_done, rest_from};

use memchr::memchr;

/// What the bytes of a head that were read so far end in.
#[derive(Clone, Copy, Debug, PartialEq, Eq)]
pub enum State {
    /// No bytes yet, or only empty lines.
    Before,
    /// Any number of empty lines, and a CR.
    BeforeReturn,
    /// Part of a line of text.
    Text,
    /// A whole line of text.
    Between,
    /// A whole line of text, and a CR.
    BetweenReturn,
    /// The whole head.
    Done,
}

impl State {
    /// Whether the head is whole.
    pub fn is_done(self) -> bool
        ensures { result ≡ is_done self }
    {
        matches!(self, State::Done)
    }

    fn step(self, byte: u8) -> State
        ensures { result ≡ step_of self byte }
    {
        match (self, byte) {
            (State::Before | State::BeforeReturn, b'\n') => State::Before,
            (State::Text, b'\n') => State::Between,
            (State::Between | State::BetweenReturn, b'\n') => State::Done,
            (State::Before, b'\r') => State::BeforeReturn,
            (State::Between, b'\r') => State::BetweenReturn,
            (State::Done, _) => State::Done,
            _ => State::Text,
        }
    }
}

/// The progress of a search for the end of a head: the state after the first `scanned` bytes of the buffer.
#[derive(Clone, Copy, Debug, PartialEq, Eq)]
pub struct Search {
    pub state: State,
    pub scanned: usize,
}

impl Search {
    /// Returns a search that has scanned no bytes.
    pub fn new() -> Search
        ensures { (bytes : List ℕ) → HasSearched bytes result.state result.scanned }
    {
        Search {
            state: State::Before,
            scanned: 0,
        }
    }

    /// Scans the rest of the buffer's bytes, up to the end of the head.
    pub fn go_on(&mut self, bytes: &[u8])
        requires { HasSearched bytes.now self.old.state self.old.scanned }
        ensures searched { HasSearched bytes.now self.new.state self.new.scanned }
        ensures through { (is_done self.new.state ≡ true) ⊎ (self.new.scanned ≡ length bytes.now) }
    {
        let (state, more) = scan(self.state, &bytes[self.scanned..]);
        self.state = state;
        self.scanned += more;
    }
}

// Skips the leading bytes that leave the state unchanged: within a line of text, those before its end.
fn after_text(state: State, bytes: &[u8]) -> &[u8]
    ensures { ScansTo state bytes.now state result.now }
{
    match state {
        State::Text => match memchr(b'\n', bytes) {
            Some(end) => &bytes[end..],
            None => &[],
        },
        _ => bytes,
    }
}

/// Scans `bytes` up to the end of the head, and returns the state there and the number of bytes scanned. Within a line the scan looks
/// only for the end of the line, many bytes at once.
pub fn scan(state: State, bytes: &[u8]) -> (State, usize)
    ensures within { result.1 ≤ length bytes.now }
    ensures through { (is_done result.0 ≡ true) ⊎ (result.1 ≡ length bytes.now) }
    ensures same { (more : List ℕ) → rest_from state (bytes.now ++ more) ≡ rest_from result.0 (drop result.1 bytes.now ++ more) }
{
    let mut state = state;
    let mut rest = bytes;
    while let Some((byte, others)) = rest.split_first() {
        if state.is_done() {
            return (state, bytes.len() - rest.len());
        }
        state = state.step(*byte);
        rest = after_text(state, others);
    }
    (state, bytes.len())
}
