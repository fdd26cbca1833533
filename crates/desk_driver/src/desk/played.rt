//! Deployers play at a desk, one after the other or all at once.

use crate::desk::asked::AskedDesk;
use crate::desk::deployers::{Deployer, Reader};
use crate::desk::gates::Gates;
use crate::desk::scripts::{DEPLOYERS, Step, deal, read};
use crate::desk::stages::Stage;
use crate::desk::threads::{shared_of, unshared_of, work_at_once, works_of};
use anyhow::{Result, anyhow};
use site_desk::{DeskName, Seat, Seats};
use std::alloc::{AllocError, Global};
use std::io::Print;
use std::sync::Wait;
use std::thread::Threads;

/// What is played.
#[derive(Drop)]
pub(crate) struct Play<'a> {
    pub(crate) stage: Stage,
    pub(crate) gates: &'a Gates,
    pub(crate) lines: &'a [String],
}

/// The deployers, one from each seat.
fn deployers_of<J: DeskName>(
    alloc: Global,
    seats: &mut Seats<J>,
    reader: &Reader<J>,
) -> Result<Vec<Deployer<J>>> {
    let mut deployers = Vec::new(alloc);
    for number in 0..DEPLOYERS {
        let seat = seats.take().ok_or(anyhow!("no seat is left"))?;
        deployers.push(Deployer {
            number,
            seat,
            reader: reader.again()?,
            last: 0,
        })?;
    }
    Ok(deployers)
}

/// Plays a step: its deployer asks, looks, and compares that with what the desk has.
fn play_step<J: DeskName, A: AskedDesk<J>, W: Wait + Print>(
    rt: &W,
    alloc: Global,
    desk: &A,
    deployers: &mut Vec<Deployer<J>>,
    step: Step,
) -> Result<()> {
    let Step { deployer, task } = step;
    let Some(deployer) = deployers.get_mut(deployer) else {
        return Err(anyhow!("there is no such deployer"));
    };
    deployer.ask(rt, desk, task)?;
    deployer.look(rt, alloc)?;
    deployer.compare(rt, desk)
}

/// Plays these steps, one after the other.
fn play_steps<J: DeskName, A: AskedDesk<J>, W: Wait + Print>(
    rt: &W,
    alloc: Global,
    desk: &A,
    deployers: &mut Vec<Deployer<J>>,
    steps: Vec<Step>,
) -> Result<()> {
    for step in steps {
        play_step(rt, alloc, desk, deployers, step)?;
    }
    Ok(())
}

/// Prints how many entries were made from the seat of each.
fn tell_shares<J: DeskName>(rt: &impl Print, deployers: &[Deployer<J>]) -> Result<()> {
    for deployer in deployers {
        println!(rt; "share {}", deployer.seat.share())?;
    }
    Ok(())
}

/// The seats that deployers give back.
fn give_back<J: DeskName>(
    alloc: Global,
    deployers: Vec<Deployer<J>>,
) -> Result<Vec<Seat<J>>, AllocError> {
    let mut seats = Vec::new(alloc);
    for deployer in deployers {
        seats.push(deployer.seat)?;
    }
    Ok(seats)
}

/// Closes a desk with one seat missing, and then with all.
fn close<J: DeskName, A: AskedDesk<J>>(
    rt: &impl Print,
    desk: &mut A,
    seats: &mut Vec<Seat<J>>,
) -> Result<()> {
    let Some(last) = seats.pop() else {
        return Err(anyhow!("there are no seats"));
    };
    let (ended, count) = (desk.close(seats), seats.len());
    seats.push(last)?;
    println!(rt; "closed {ended:?} of {count}")?;
    Ok(println!(rt; "closed {:?}", desk.close(seats))?)
}

/// Plays these steps, each deployer in a thread of its own. Hands the deployers back.
fn play_at_once<
    J: DeskName + Send + Sync,
    A: AskedDesk<J> + Sync,
    W: Threads + Wait + Print + Sync,
>(
    rt: &W,
    alloc: Global,
    what: &Play<'_>,
    desk: &A,
    deployers: Vec<Deployer<J>>,
    reader: &Reader<J>,
    steps: Vec<Step>,
) -> Result<Vec<Deployer<J>>> {
    let scripts = deal(alloc, steps)?;
    let shared = shared_of(alloc, deployers)?;
    let works = works_of(alloc, scripts, what.stage, reader, what.gates)?;
    work_at_once(rt, desk, what.gates, shared.as_slice(), works)?;
    Ok(unshared_of(alloc, shared)?)
}

/// Plays what is asked for at a desk. Hands the deployers back.
fn play_all<J: DeskName + Send + Sync, A: AskedDesk<J> + Sync, W: Threads + Wait + Print + Sync>(
    rt: &W,
    alloc: Global,
    what: &Play<'_>,
    desk: &A,
    deployers: Vec<Deployer<J>>,
    reader: &Reader<J>,
) -> Result<Vec<Deployer<J>>> {
    let steps = read(alloc, what.lines)?;
    if what.stage != Stage::Steps {
        return play_at_once(rt, alloc, what, desk, deployers, reader, steps);
    }
    let mut deployers = deployers;
    play_steps(rt, alloc, desk, &mut deployers, steps)?;
    Ok(deployers)
}

/// Plays the lines at a desk, and hands the seats back.
fn play_to_the_seats<
    J: DeskName + Send + Sync,
    A: AskedDesk<J> + Sync,
    W: Threads + Wait + Print + Sync,
>(
    rt: &W,
    alloc: Global,
    what: &Play<'_>,
    desk: &A,
    deployers: Vec<Deployer<J>>,
    reader: &Reader<J>,
) -> Result<Vec<Seat<J>>> {
    let deployers = play_all(rt, alloc, what, desk, deployers, reader)?;
    tell_shares(rt, deployers.as_slice())?;
    Ok(give_back(alloc, deployers)?)
}

/// Plays the lines at a desk, and closes it.
pub(crate) fn play_and_close<
    J: DeskName + Send + Sync,
    A: AskedDesk<J> + Sync,
    W: Threads + Wait + Print + Sync,
>(
    rt: &W,
    alloc: Global,
    what: &Play<'_>,
    desk: &mut A,
    seats: Seats<J>,
    reader: &Reader<J>,
) -> Result<()> {
    let mut seats = seats;
    let deployers = deployers_of(alloc, &mut seats, reader)?;
    let mut seats = play_to_the_seats(rt, alloc, what, &*desk, deployers, reader)?;
    close(rt, desk, &mut seats)
}
