//! One turn: a new world, and the time that its adds take.

use crate::timing::step::adding::Adding;
use anyhow::Result;
use std::alloc::Global;
use std::rt::Clock;
use std::time::Instant;

// How many parts of the adds are timed.
const PARTS: u32 = 10;

/// Returns how many events this many adds take.
pub(crate) fn count_events(alloc: Global, adds: u32) -> Result<u64> {
    Adding::new(alloc)?.add(adds / PARTS * PARTS)
}

// Nanoseconds for this many adds, as picoseconds for each.
fn for_each(nanoseconds: u128, adds: u32) -> u128 {
    nanoseconds.saturating_mul(1000) / u128::from(adds.max(1))
}

/// The picoseconds an add in a turn: of all adds, of the first tenth of them, and of the last.
pub(crate) fn time<R: Clock + AllocGlobal>(rt: &R, adds: u32) -> Result<(u128, u128, u128)> {
    let mut adding = Adding::new(rt.alloc())?;
    let part = adds / PARTS;
    let (mut first, mut last, mut all): (u128, u128, u128) = (0, 0, 0);
    for i in 0..PARTS {
        let start = Instant::now(rt)?;
        adding.add(part)?;
        last = start.elapsed(rt)?.as_nanos();
        all = all.saturating_add(last);
        if i == 0 {
            first = last;
        }
    }
    Ok((
        for_each(all, part.saturating_mul(PARTS)),
        for_each(first, part),
        for_each(last, part),
    ))
}
