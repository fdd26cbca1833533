//! What each thread does at a desk.

use crate::desk::asked::AskedDesk;
use crate::desk::deployers::{Deployer, Reader};
use crate::desk::gates::{Gate, Gates};
use crate::desk::scripts::Task;
use anyhow::{Result, anyhow};
use site_desk::DeskName;
use std::io::Print;
use std::sync::atomic::{AtomicU64, Ordering};
use std::sync::{Mutex, Wait};
use std::thread;

/// What a thread does.
#[derive(Drop)]
pub(crate) enum Work<J: DeskName> {
    /// The deployer of this number asks for all of these.
    Deploy(usize, Vec<Task>),
    /// The reader of this number looks until all deployers are done.
    Watch(usize, Reader<J>),
    /// A reader looks while a sync is held back.
    Look(Reader<J>),
    /// The chunk `hello` is read, which is asked for while a put is held back.
    Read,
}

/// Of the threads: how many deployers are at work, and how many of all failed.
#[derive(Drop)]
pub(crate) struct Tally {
    at_work: AtomicU64,
    failed: AtomicU64,
}

impl Tally {
    /// None has failed yet.
    pub(crate) fn new(deployers: u64) -> Tally {
        Tally {
            at_work: AtomicU64::new(deployers),
            failed: AtomicU64::new(0),
        }
    }

    /// How many failed.
    pub(crate) fn failed(&self) -> u64 {
        self.failed.load(Ordering::SeqCst)
    }

    /// A thread is done.
    fn end(&self, done: Result<()>) {
        if done.is_err() {
            self.failed.fetch_add(1, Ordering::SeqCst);
        }
    }
}

/// Does all tasks of a deployer.
fn deploy<J: DeskName, A: AskedDesk<J>, W: Wait + Print>(
    rt: &W,
    desk: &A,
    deployer: &mut Deployer<J>,
    tasks: Vec<Task>,
) -> Result<()> {
    for task in tasks {
        deployer.ask(rt, desk, task)?;
    }
    Ok(())
}

/// How many entries a look shows.
fn entries_seen<J: DeskName>(reader: &mut Reader<J>) -> Result<u64> {
    match reader.look() {
        Ok(snap) => Ok(snap.log().len()),
        Err(_) => Err(anyhow!("a look has no memory")),
    }
}

/// Looks until all deployers are done, and prints each look that shows another number of entries than the one before.
fn watch<J: DeskName, R: Wait + Print>(
    rt: &R,
    number: usize,
    reader: &mut Reader<J>,
    tally: &Tally,
) -> Result<()> {
    let mut seen = 0;
    for _ in rt.forever() {
        let is_last = tally.at_work.load(Ordering::SeqCst) == 0;
        let entries = entries_seen(reader)?;
        if entries != seen {
            println!(rt; "reader {number} saw {entries}")?;
            seen = entries;
        }
        if is_last {
            return Ok(());
        }
        thread::yield_now();
    }
    unreachable!()
}

/// Looks while a call is held back, and prints what is seen.
fn look_meanwhile<J: DeskName>(rt: &impl Print, gate: &Gate, reader: &mut Reader<J>) -> Result<()> {
    let is_held = gate.await_held();
    let seen = entries_seen(reader);
    gate.open();
    println!(rt; "held {is_held} saw {}", seen?)?;
    Ok(())
}

/// Reads the chunk `hello`, which is asked for while a put is held back, and prints how many puts there were until then.
fn read_meanwhile<J: DeskName, A: AskedDesk<J>, W: Wait + Print>(
    rt: &W,
    gate: &Gate,
    desk: &A,
) -> Result<()> {
    let is_held = gate.await_held();
    gate.open();
    let (is_right, puts) = desk.read(rt, gate, b"hello");
    println!(rt; "held {is_held} read {is_right} after {puts} puts")?;
    Ok(())
}

/// What the threads share: a desk, its deployers, the gates of its store, and how far they are.
#[derive(Drop)]
pub(crate) struct Shared<'a, R, A, B> {
    pub(crate) rt: &'a R,
    pub(crate) desk: &'a A,
    pub(crate) deployers: &'a [B],
    pub(crate) gates: &'a Gates,
    pub(crate) tally: &'a Tally,
}

/// A deployer's thread.
fn deploy_at<J: DeskName, A: AskedDesk<J>, W: Wait + Print>(
    shared: &Shared<'_, W, A, Mutex<Deployer<J>>>,
    number: usize,
    tasks: Vec<Task>,
) {
    let (rt, desk, tally) = (shared.rt, shared.desk, shared.tally);
    if let Some(deployer) = shared.deployers.get(number) {
        let mut deployer = deployer.lock(rt);
        tally.end(deploy(rt, desk, &mut *deployer, tasks));
    }
    tally.at_work.fetch_sub(1, Ordering::SeqCst);
}

/// Does the work of a thread.
pub(crate) fn do_work<J: DeskName, A: AskedDesk<J>, W: Wait + Print>(
    shared: &Shared<'_, W, A, Mutex<Deployer<J>>>,
    work: Work<J>,
) {
    let (rt, desk, gates, tally) = (shared.rt, shared.desk, shared.gates, shared.tally);
    match work {
        Work::Deploy(number, tasks) => deploy_at(shared, number, tasks),
        Work::Watch(number, mut reader) => tally.end(watch(rt, number, &mut reader, tally)),
        Work::Look(mut reader) => tally.end(look_meanwhile(rt, &gates.syncs, &mut reader)),
        Work::Read => tally.end(read_meanwhile(rt, &gates.puts, desk)),
    }
}
