//! Lists of steps in a world, and what visitors then have: a line for each step, and one for each time that this is told. test_worlds.py draws the
//! lists, and compares what is told with a plain model: so the plain models of histories and of replies serve it too, and no model has to be proved.
mod played;
mod requests;
mod steps;
mod told;

use anyhow::Result;
use played::Played;
use std::alloc::Global;
use std::io::Print;

/// Reads a line of a world, and prints what it asks for.
fn answer(rt: &impl Print, alloc: Global, played: &mut Played, line: &str) -> Result<()> {
    match played.read(alloc, line)? {
        Some(text) => Ok(println!(rt; "{text}")?),
        None => Ok(()),
    }
}

/// Reads these lines of a world.
fn answer_all(rt: &impl Print, alloc: Global, played: &mut Played, lines: &[String]) -> Result<()> {
    for line in lines {
        answer(rt, alloc, played, line.as_str())?;
    }
    Ok(())
}

/// Begins a world by the first line, and reads the others.
pub(crate) fn play(rt: &impl Print, alloc: Global, lines: &[String]) -> Result<()> {
    let Some((first, rest)) = lines.split_first() else {
        return Ok(());
    };
    let mut played = Played::begin(alloc, first.as_str())?;
    answer_all(rt, alloc, &mut played, rest)
}
