//! Measures how long a script takes to be read, and the same bytes as CSV records alone.
//!
//! The script has about BYTES bytes, of `add` records over 1,000 names, in which each record names the histogram STEP
//! places after the one before. It prints what the script has, and for each of TURNS turns of both ways the time of
//! each, in microseconds.

mod reading;
mod sample;

use anyhow::{Result, bail};
use std::rt::Clock;

/// Measures turns, and prints what the script has and the times of each turn.
pub(crate) fn run<R: Clock + Print + AllocGlobal>(rt: &R, words: &[String]) -> Result<()> {
    let [bytes, step, turns] = words else {
        bail!("give BYTES STEP TURNS");
    };
    let script = sample::script(rt.alloc(), bytes.parse::<usize>()?, step.parse::<usize>()?)?;
    reading::show_contents(rt, &script)?;
    reading::show_times(rt, &script, turns.parse::<u32>()?)
}
