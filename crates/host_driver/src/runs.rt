//! What a run does, by its words.
ghost use Rattle.std.specs.Prelude.{◌≡◌};

use crate::journals::measurements::JournalRun;
use crate::measurements::Measurement;
use crate::{calls, journals, replies, steps, worlds};
use anyhow::{Result, anyhow};
use std::io::{BufRead, BufReader};

/// What a run can do beside measurements and journals, a line each.
const LIST: &str = "list             prints this
steps            serves the connection of each line that it reads, in steps or at once, and prints what was written
world            takes the steps of a world that it reads, a line each, and prints what visitors then have
gate             what the gate runs: prints this, and then does steps, and after an empty line world";

/// What a run does.
#[derive(Clone, Copy)]
enum Run<'a> {
    List,
    Steps,
    World,
    Gate,
    Measure(Measurement),
    Journal(JournalRun<'a>),
}

impl<'a> Run<'a> {
    /// What one word names.
    fn plain(word: &str) -> Option<Run<'a>> {
        match word {
            "list" => Some(Run::List),
            "steps" => Some(Run::Steps),
            "world" => Some(Run::World),
            "gate" => Some(Run::Gate),
            _ => None,
        }
    }

    /// What these words name, if they name something.
    fn read(words: &'a [String]) -> Option<Run<'a>> {
        match words {
            [word] => Run::plain(word.as_str()),
            [name, count] => Some(Run::Measure(Measurement::read(name.as_str(), count.as_str())?)),
            [word, name, one, other] if word.as_str() == "journal" => {
                Some(Run::Journal(JournalRun::read(name.as_str(), one.as_str(), other.as_str())?))
            }
            _ => None,
        }
    }

    /// Does it, and prints what came of it.
    fn go(self, rt: &HostRuntime) -> Result<()> {
        match self {
            Run::List => list(rt),
            Run::Steps => steps::serve_all(rt),
            Run::World => worlds::play(rt, rt.alloc(), read_lines(rt)?.as_slice()),
            Run::Gate => gate(rt, read_lines(rt)?.as_slice()),
            Run::Measure(measurement) => measurement.run(rt),
            Run::Journal(journal) => journal.run(rt),
        }
    }
}

/// Prints what a run can do.
fn list(rt: &HostRuntime) -> Result<()> {
    for part in [LIST, calls::LIST, replies::LIST, journals::LIST] {
        println!(rt; "{part}")?;
    }
    Ok(())
}

/// The lines on standard input.
fn read_lines(rt: &HostRuntime) -> Result<Vec<String>> {
    let alloc = rt.alloc();
    let mut lines = Vec::new(alloc);
    for line in BufReader::new(alloc, rt.reader())?.lines(alloc) {
        lines.push(line?)?;
    }
    Ok(lines)
}

/// Does what the gate runs: it serves the connections of the lines up to an empty one, and takes the steps of the others.
fn gate(rt: &HostRuntime, lines: &[String]) -> Result<()> {
    let end = lines.iter().position(|line| line.as_str().is_empty());
    let end = end.unwrap_or(lines.len());
    list(rt)?;
    steps::serve_each(rt, lines.get(..end).unwrap_or(&[]))?;
    worlds::play(
        rt,
        rt.alloc(),
        lines.get(end.saturating_add(1)..).unwrap_or(&[]),
    )
}

/// Does what these words name.
pub(crate) fn answer(rt: &HostRuntime, words: &[String]) -> Result<()> {
    let run = Run::read(words).ok_or(anyhow!("no run has these words; list names them all"))?;
    run.go(rt)
}
