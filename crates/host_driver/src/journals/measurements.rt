//! What a run may do with a journal.
ghost use Rattle.std.specs.Prelude.{◌≡◌};

use crate::journals::entries::{cancelling, opening_text};
use crate::journals::files::{open, put_numbered, put_same};
use crate::numbers::{each, say, speed};
use anyhow::{Result, anyhow};
use entry_texts::decode;
use std::time::{Duration, Instant};

/// What is to be done.
#[derive(Clone, Copy)]
pub(crate) enum JournalRun<'a> {
    Put(&'a str, u64),
    Write(&'a str, u64),
    Open(&'a str, u64),
    Decode(u32, usize),
}

impl<'a> JournalRun<'a> {
    /// What these words ask for, if they ask for something.
    pub(crate) fn read(name: &str, one: &'a str, other: &str) -> Option<JournalRun<'a>> {
        let count = other.parse::<u64>().ok()?;
        match name {
            "put" => Some(JournalRun::Put(one, count)),
            "write" => Some(JournalRun::Write(one, count)),
            "open" => Some(JournalRun::Open(one, count)),
            "decode" => Some(JournalRun::Decode(one.parse::<u32>().ok()?, count as usize)),
            _ => None,
        }
    }

    /// Does it, and prints what came of it.
    pub(crate) fn run(self, rt: &HostRuntime) -> Result<()> {
        match self {
            JournalRun::Put(path, entries) => put(rt, path, entries),
            JournalRun::Write(path, entries) => write(rt, path, entries),
            JournalRun::Open(path, times) => opened(rt, path, times),
            JournalRun::Decode(paths, bytes) => decoded(rt, paths, bytes),
        }
    }
}

/// Puts the same small entry so often, and prints the time of a put.
fn put(rt: &HostRuntime, path: &str, entries: u64) -> Result<()> {
    let entry = cancelling(1)?;
    let took = put_same(rt, path, &entry, entries)?;
    say(rt, each(took, entries))
}

/// Puts so many entries of all kinds, and prints how many there are when the journal is opened again.
fn write(rt: &HostRuntime, path: &str, entries: u64) -> Result<()> {
    put_numbered(rt, path, entries)?;
    let (said, _) = open(rt, path)?;
    Ok(println!(rt; "{said}")?)
}

/// Opens a journal so often, at least once, and prints the time of the last opening, and what was opened.
fn opened(rt: &HostRuntime, path: &str, times: u64) -> Result<()> {
    let (mut said, mut took) = open(rt, path)?;
    for _ in 1..times {
        (said, took) = open(rt, path)?;
    }
    Ok(println!(rt; "{} {said}", took.as_nanos())?)
}

/// How long it takes to read the text of an entry.
fn time_decode(rt: &HostRuntime, text: &[u8]) -> Result<Duration> {
    let begun = Instant::now(rt)?;
    let entry = decode(rt.alloc(), text);
    let took = begun.elapsed(rt)?;
    if entry.is_err() {
        return Err(anyhow!("the text is that of no entry"));
    }
    Ok(took)
}

/// Reads the text of an opening of a deploy, and prints how fast that was.
fn decoded(rt: &HostRuntime, paths: u32, bytes: usize) -> Result<()> {
    let text = opening_text(rt.alloc(), paths, bytes)?;
    let took = time_decode(rt, text.as_slice())?;
    say(rt, speed(text.len(), took))
}
