//! Measures how long a world takes for its steps, if one actor adds sample after sample.
//!
//! The actor adds ADDS samples of count 1 to a histogram whose counts are in use, one event a step, and what it began
//! and ended grows with each. It prints how many events that takes, and then the least times of TURNS turns, in
//! picoseconds an add: of all adds, of the first tenth of them, and of the last.

mod adding;
mod turn;

use anyhow::{Result, bail};
use std::rt::Clock;

/// Measures turns, and prints how many events a turn takes and the least times.
pub(crate) fn run<R: Clock + Print + AllocGlobal>(rt: &R, words: &[String]) -> Result<()> {
    let [adds, turns] = words else {
        bail!("give ADDS TURNS");
    };
    let (adds, turns) = (adds.parse::<u32>()?, turns.parse::<u32>()?);
    let events = turn::count_events(rt.alloc(), adds)?;
    println!(rt; "{adds} adds, {events} events")?;
    let (mut all, mut first, mut last) = (u128::MAX, u128::MAX, u128::MAX);
    for _ in 0..turns {
        let (of_all, of_first, of_last) = turn::time(rt, adds)?;
        all = all.min(of_all);
        first = first.min(of_first);
        last = last.min(of_last);
    }
    if turns > 0 {
        println!(rt; "{all} {first} {last}")?;
    }
    Ok(())
}
