//! Flights without contention.
use crate::group::Measured;
use anyhow::Result;
use host_names::Digest;
use single_flight::{Flights, Loads};
use std::alloc::Global;
use std::sync::Wait;
use std::time::{Clock, Instant};

/// Each number may be that of each key.
struct AnyNumber;

impl Loads<u64> for AnyNumber {
    ghost use Rattle.std.specs.Prelude.{⊤};

    ghost fits = { λ _ _. ⊤ };

    ghost clones_fit = { λ _ _ _ _ fits. fits };
}

pub(crate) fn time_runs<R: Wait + Clock>(
    rt: &R,
    alloc: Global,
    keys: &[Digest],
    rounds: u64,
) -> Result<Measured> {
    let flights: Flights<u64, AnyNumber> = Flights::new(alloc);
    let mut sum = 0u64;
    let begun = Instant::now(rt)?;
    for round in 0..rounds {
        for key in keys {
            sum = sum.wrapping_add(flights.run(rt, key, || round)?);
        }
    }
    Ok(Measured {
        took: begun.elapsed(rt)?,
        sum,
    })
}
