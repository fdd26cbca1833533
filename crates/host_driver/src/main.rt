//! Calls a host, its parts and its journal, and a world, for tests and measurements: a run does what its words name. bench/README.md has the measurements;
//! test_steps.py, test_worlds.py, test_journal.py and test_journal_files.py have the rest.
#![tactic(auto)]

mod calls;
mod contents;
mod journals;
mod measurements;
mod numbers;
mod replies;
mod runs;
mod servers;
mod steps;
mod worlds;

use anyhow::Result;
use runs::answer;
use std::env;

fn main(rt: HostRuntime) -> Result<()> {
    let words: Vec<String> = env::args(&rt)?.skip(1).collect(rt.alloc())?;
    answer(&rt, words.as_slice())
}
