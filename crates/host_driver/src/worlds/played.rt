//! A world that takes the steps which it is given.
ghost use Rattle.std.specs.Prelude.{◌≤◌};

use crate::worlds::steps::step_of;
use crate::worlds::told::told_of;
use anyhow::{Result, anyhow};
use host_world::{Step, World};
use std::alloc::Global;

/// The world that a line asks for.
fn begin(alloc: Global, line: &str) -> Result<World> {
    let words: Vec<&str> = line.split_whitespace().collect(alloc)?;
    world_of(alloc, words.as_slice())
}

/// The world of these words: the limits of its log and of its caches, and how many nodes and visitors it has.
fn world_of(alloc: Global, words: &[&str]) -> Result<World> {
    let [entries, cache, nodes, visitors] = words else {
        return Err(anyhow!("a world has two limits, nodes and visitors"));
    };
    world(
        alloc,
        entries.parse::<u64>()?,
        cache.parse::<usize>()?,
        nodes.parse::<usize>()?,
        visitors.parse::<usize>()?,
    )
}

fn world(
    alloc: Global,
    entries: u64,
    cache: usize,
    nodes: usize,
    visitors: usize,
) -> Result<World> {
    if entries == 0 || entries > 1_000_000 || nodes == 0 {
        return Err(anyhow!("there is no such world"));
    }
    Ok(World::new(alloc, entries, cache, nodes, visitors)?)
}

/// A world, and the steps that it is to take next.
#[derive(Drop)]
pub(crate) struct Played {
    world: World,
    steps: Vec<Step>,
}

impl Played {
    /// The world that a line asks for, before its first step.
    pub(crate) fn begin(alloc: Global, line: &str) -> Result<Played> {
        Ok(Played {
            world: begin(alloc, line)?,
            steps: Vec::new(alloc),
        })
    }

    /// Reads a line: a step, which is to be taken; or the word `show` and a visitor, of whom is told after all steps so far.
    pub(crate) fn read(&mut self, alloc: Global, line: &str) -> Result<Option<String>> {
        let words: Vec<&str> = line.split_whitespace().collect(alloc)?;
        match words.as_slice() {
            [word, visitor] if *word == "show" => {
                Ok(Some(self.show(alloc, visitor.parse::<usize>()?)?))
            }
            words => {
                self.steps.push(step_of(alloc, words)?)?;
                Ok(None)
            }
        }
    }

    /// Takes the steps, and tells what a visitor then has.
    fn show(&mut self, alloc: Global, visitor: usize) -> Result<String> {
        self.world.run(self.steps.as_slice())?;
        self.steps.clear();
        told_of(alloc, &self.world, visitor)
    }
}
