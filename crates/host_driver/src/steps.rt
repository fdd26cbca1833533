//! Connections in steps or at once, each over a server of its own: a line for each. test_steps.py has the lines, and compares what is written.
mod pieces;
mod scripts;
pub(crate) mod serving;

use crate::servers::{Asked, ask};
use anyhow::Result;
use std::io::{BufRead, BufReader};

/// Serves the connection of each line of standard input, and prints what was written.
pub(crate) fn serve_all(rt: &HostRuntime) -> Result<()> {
    let alloc = rt.alloc();
    for line in BufReader::new(alloc, rt.reader())?.lines(alloc) {
        let line = line?;
        ask(rt, Asked::Serve(line.as_str()))?;
    }
    Ok(())
}

/// Serves the connection of each of these lines.
pub(crate) fn serve_each(rt: &HostRuntime, lines: &[String]) -> Result<()> {
    for line in lines {
        ask(rt, Asked::Serve(line.as_str()))?;
    }
    Ok(())
}
