//! The numbers that are printed.
ghost use Rattle.std.specs.Prelude.{◌≡◌};

use anyhow::Result;
use std::io::Print;
use std::time::Duration;

/// Prints a number.
pub(crate) fn say(rt: &impl Print, number: u128) -> Result<()> {
    Ok(println!(rt; "{number}")?)
}

/// The nanoseconds of one of so many calls.
pub(crate) fn each(took: Duration, calls: u64) -> u128 {
    took.as_nanos().checked_div(u128::from(calls)).unwrap_or(0)
}

/// Megabytes a second, where so many bytes take so long.
pub(crate) fn speed(bytes: usize, took: Duration) -> u128 {
    let thousandfold = (bytes as u128).saturating_mul(1_000);
    thousandfold.checked_div(took.as_nanos()).unwrap_or(0)
}
