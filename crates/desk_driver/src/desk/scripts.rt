//! What deployers ask for, by lines: the number of the deployer, and an entry by the hexadecimal digits of its text; or a site, the number of a deploy there
//! or `last`, a path and a text, which is uploaded. docs/STORAGE.md describes the texts of entries.

use anyhow::{Result, anyhow};
use entry_texts::decode;
use host_names::{FilePath, SiteName};
use site_change::Entry;
use std::alloc::Global;

/// How many deployers there are.
pub(crate) const DEPLOYERS: usize = 8;

/// What a deployer asks for.
#[derive(Drop)]
pub(crate) enum Task {
    /// An entry.
    Enter(Entry),
    /// That a file is taken.
    Upload(Upload),
}

/// A file of a deploy: of the deploy of this number, or else of the one that the deployer's last entry opened.
#[derive(Drop)]
pub(crate) struct Upload {
    pub(crate) site: SiteName,
    pub(crate) number: Option<u64>,
    pub(crate) path: FilePath,
    pub(crate) text: String,
}

/// What a deployer asks for, and which deployer.
#[derive(Drop)]
pub(crate) struct Step {
    pub(crate) deployer: usize,
    pub(crate) task: Task,
}

/// The entry of these digits.
fn entry_of(alloc: Global, digits: &str) -> Result<Entry> {
    let text = hex::decode(alloc, digits)?;
    Ok(decode(alloc, text.as_slice())?)
}

/// The upload of these words.
fn upload_of(alloc: Global, site: &str, number: &str, path: &str, text: &str) -> Result<Upload> {
    Ok(Upload {
        site: SiteName::new(site)?,
        number: number.parse::<u64>().ok(),
        path: FilePath::read(alloc, path)?,
        text: String::from_str(alloc, text)?,
    })
}

/// What a line asks for.
fn step_of(alloc: Global, line: &str) -> Result<Step> {
    let words: Vec<&str> = line.split(' ').collect(alloc)?;
    match words.as_slice() {
        [deployer, digits] => Ok(Step {
            deployer: deployer.parse::<usize>()?,
            task: Task::Enter(entry_of(alloc, digits)?),
        }),
        [deployer, site, number, path, text] => Ok(Step {
            deployer: deployer.parse::<usize>()?,
            task: Task::Upload(upload_of(alloc, site, number, path, text)?),
        }),
        _ => Err(anyhow!("a line has two words or five")),
    }
}

/// What all lines ask for, in their order.
pub(crate) fn read(alloc: Global, lines: &[String]) -> Result<Vec<Step>> {
    let mut steps = Vec::new(alloc);
    for line in lines {
        steps.push(step_of(alloc, line.as_str())?)?;
    }
    Ok(steps)
}

/// No tasks of each deployer.
fn no_tasks(alloc: Global) -> Result<Vec<Vec<Task>>> {
    let mut scripts = Vec::new(alloc);
    for _ in 0..DEPLOYERS {
        scripts.push(Vec::new(alloc))?;
    }
    Ok(scripts)
}

/// The tasks of each deployer.
pub(crate) fn deal(alloc: Global, steps: Vec<Step>) -> Result<Vec<Vec<Task>>> {
    let mut scripts = no_tasks(alloc)?;
    for step in steps {
        let Step { deployer, task } = step;
        match scripts.get_mut(deployer) {
            Some(script) => script.push(task)?,
            None => return Err(anyhow!("there is no such deployer")),
        }
    }
    Ok(scripts)
}
