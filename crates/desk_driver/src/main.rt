//! Threads at one desk, and threads at nodes and lists, for tests and measurements: a run does what its words name. test_desk.py has what is played at
//! a desk, and bench/README.md has the measurements.
#![tactic(auto)]

ghost use Rattle.std.specs.Prelude.{◌≡◌};

mod desk;
mod group;

use anyhow::Result;
use desk::desks::play_in;
use desk::gates::Gates;
use desk::{open_folder, play_of, read_lines};
use std::env;

fn main(rt: HostRuntime) -> Result<()> {
    let words: Vec<String> = env::args(&rt)?.skip(1).collect(rt.alloc())?;
    let [word, stage, folder] = words.as_slice() else {
        return group::answer(&rt, rt.alloc(), words.as_slice());
    };
    let lines = read_lines(&rt)?;
    let store = open_folder(&rt, folder.as_str())?;
    let gates = Gates::new();
    let play = play_of(word.as_str(), stage.as_str(), &gates, lines.as_slice())?;
    // Only here has the runtime threads.
    play_in(&rt, rt.alloc(), &play, store)
}
