//! Simulated nodes: the workers of a node over a drawn listener, drawn sockets, sets and clock, beside a plain model of docs/WIRE.md. Each line of standard
//! input has three numbers: the first seed, how many seeds there are, and how many events each run has. A line is printed for each, and where a fourth word
//! stands there, whatever it is, also what the runs came to; for a run that fails its seed and what was seen, and for the first few of these also few events
//! that show it.
#![tactic(auto)]

mod events;
mod hands;
mod levels;
mod runs;
mod shorter;
mod telling;

use anyhow::{Result, anyhow};
use events::draw_events;
use runs::run;
use shorter::shorten;
use simulated_clients::{Draws, Fault, Plan, Seen};
use simulated_sockets::Event;
use std::alloc::Global;
use std::io::{BufRead, BufReader, Print};
use std::sync::Wait;
use telling::tell_seen;

/// How many runs of a line that fail are made shorter.
const MOST_SHORTENED: u64 = 3;

/// Prints a run that fails.
fn tell(rt: &impl Print, seed: u64, plan: &Plan, events: &[Event], fault: Fault) -> Result<()> {
    let words = fault.words();
    let count = events.len();
    println!(rt; "seed {seed}: {words}, after {count} events, {plan:?}")?;
    for event in events {
        println!(rt; "  {event:?}")?;
    }
    Ok(())
}

/// Makes the run of a seed, and adds to what was seen. Answers whether nothing was seen that may not be; else it is told, in few events or with none.
fn play<R: Wait + Print>(
    rt: &R,
    alloc: Global,
    seed: u64,
    count: usize,
    is_shortened: bool,
    seen: &mut Seen,
) -> Result<bool> {
    let mut draws = Draws::new(seed);
    let plan = Plan::draw(&mut draws);
    let events = draw_events(alloc, &mut draws, &plan, count)?;
    let outcome = run(rt, alloc, &plan, events.as_slice())?;
    *seen = seen.and(&outcome.seen);
    let Some(fault) = outcome.fault else {
        return Ok(true);
    };
    if !is_shortened {
        let words = fault.words();
        println!(rt; "seed {seed}: {words}")?;
        return Ok(false);
    }
    let (events, fault) = shorten(rt, alloc, &plan, events, fault)?;
    tell(rt, seed, &plan, events.as_slice(), fault)?;
    Ok(false)
}

/// Makes the runs that a line asks for.
fn answer<R: Wait + Print>(rt: &R, alloc: Global, line: &str) -> Result<()> {
    let words: Vec<&str> = line.split_whitespace().collect(alloc)?;
    let [first, seeds, count, ..] = words.as_slice() else {
        return Err(anyhow!("a line has three numbers"));
    };
    let (first, seeds) = (first.parse::<u64>()?, seeds.parse::<u64>()?);
    let count = count.parse::<usize>()?;
    let tells = words.len() > 3;
    let mut good = 0_u64;
    let mut seen = Seen::new();
    for offset in 0..seeds {
        let is_shortened = offset.saturating_sub(good) < MOST_SHORTENED;
        if play(
            rt,
            alloc,
            first.saturating_add(offset),
            count,
            is_shortened,
            &mut seen,
        )? {
            good = good.saturating_add(1);
        }
    }
    println!(rt; "{good} of {seeds} runs of {count} events, from seed {first} on, show no fault")?;
    if tells {
        tell_seen(rt, &seen)?;
    }
    Ok(())
}

fn main(rt: HostRuntime) -> Result<()> {
    let alloc = rt.alloc();
    for line in BufReader::new(alloc, rt.reader())?.lines(alloc) {
        answer(&rt, alloc, line?.as_str())?;
    }
    Ok(())
}
