//! Threads at one desk.

use crate::desk::asked::AskedDesk;
use crate::desk::deployers::{Deployer, Reader};
use crate::desk::gates::Gates;
use crate::desk::scripts::{DEPLOYERS, Task};
use crate::desk::stages::Stage;
use crate::desk::works::{Shared, Tally, Work, do_work};
use anyhow::{Result, anyhow};
use site_desk::DeskName;
use std::alloc::{AllocError, Global};
use std::io::Print;
use std::sync::{Mutex, Wait};
use std::thread;
use std::thread::Threads;

/// How many readers there are.
const READERS: usize = 8;

/// Deployers that threads share.
pub(crate) fn shared_of<J: DeskName>(
    alloc: Global,
    deployers: Vec<Deployer<J>>,
) -> Result<Vec<Mutex<Deployer<J>>>, AllocError> {
    let mut shared = Vec::new(alloc);
    for deployer in deployers {
        shared.push(Mutex::new(deployer))?;
    }
    Ok(shared)
}

/// Deployers that threads share no more.
pub(crate) fn unshared_of<J: DeskName>(
    alloc: Global,
    shared: Vec<Mutex<Deployer<J>>>,
) -> Result<Vec<Deployer<J>>, AllocError> {
    let mut deployers = Vec::new(alloc);
    for deployer in shared {
        deployers.push(deployer.into_inner())?;
    }
    Ok(deployers)
}

/// Adds the works of readers.
fn add_watches<J: DeskName>(
    works: &mut Vec<Work<J>>,
    reader: &Reader<J>,
) -> Result<(), AllocError> {
    for number in 0..READERS {
        works.push(Work::Watch(number, reader.again()?))?;
    }
    Ok(())
}

/// Adds what others than deployers do, and shuts the gate that is for that.
fn add_others<J: DeskName>(
    works: &mut Vec<Work<J>>,
    stage: Stage,
    reader: &Reader<J>,
    gates: &Gates,
) -> Result<(), AllocError> {
    match stage {
        Stage::Steps => Ok(()),
        Stage::Threads => add_watches(works, reader),
        Stage::Look => {
            gates.syncs.shut();
            Ok(works.push(Work::Look(reader.again()?))?)
        }
        Stage::Read => {
            gates.puts.shut();
            Ok(works.push(Work::Read)?)
        }
    }
}

/// What each thread does. A gate that is for that is shut.
pub(crate) fn works_of<J: DeskName>(
    alloc: Global,
    scripts: Vec<Vec<Task>>,
    stage: Stage,
    reader: &Reader<J>,
    gates: &Gates,
) -> Result<Vec<Work<J>>, AllocError> {
    let mut works = Vec::new(alloc);
    for (number, tasks) in scripts.into_iter().enumerate() {
        works.push(Work::Deploy(number, tasks))?;
    }
    add_others(&mut works, stage, reader, gates)?;
    Ok(works)
}

/// Does these works, each in a thread of its own, over what they share, and joins each thread. It knows no type of what is shared: so it is shown of each by itself
/// that threads may share it.
fn share_out<
    R: Threads + Sync,
    A: Sync,
    B: Sync,
    H: Send + Drop,
    F: Fn(&Shared<'_, R, A, B>, H) + Sync,
>(rt: &R, shared: &Shared<'_, R, A, B>, works: Vec<H>, work: &F) -> Result<(), AllocError>
    requires { F.IsAlwaysCallable work.now }
{
    thread::map_vec(rt, works, &|one: H| work(shared, one))?;
    Ok(())
}

/// Does these works at a desk, each in a thread of its own.
fn do_all<J: DeskName + Send + Sync, A: AskedDesk<J> + Sync, W: Threads + Wait + Print + Sync>(
    shared: &Shared<'_, W, A, Mutex<Deployer<J>>>,
    works: Vec<Work<J>>,
) -> Result<(), AllocError> {
    share_out(
        shared.rt,
        shared,
        works,
        &|shared, work| do_work(shared, work),
    )?;
    Ok(())
}

/// Does these works at a desk, each in a thread of its own. Fails if one of them does.
pub(crate) fn work_at_once<
    J: DeskName + Send + Sync,
    A: AskedDesk<J> + Sync,
    W: Threads + Wait + Print + Sync,
>(
    rt: &W,
    desk: &A,
    gates: &Gates,
    deployers: &[Mutex<Deployer<J>>],
    works: Vec<Work<J>>,
) -> Result<()> {
    let tally = Tally::new(DEPLOYERS as u64);
    let shared = Shared {
        rt,
        desk,
        deployers,
        gates,
        tally: &tally,
    };
    do_all(&shared, works)?;
    match tally.failed() {
        0 => Ok(()),
        failed => Err(anyhow!("{failed} threads failed")),
    }
}
