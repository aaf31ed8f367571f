//! How long the calls of the libraries take, for the scripts of `bench/`.

mod adopt;
mod record;
mod script;
mod sparse;
mod step;

use anyhow::{Result, bail};
use bucket_ranges::limits::MAX_PACKED;
use std::rt::{Clock, Files};
use std::thread::Threads;

/// A count that no single word holds.
pub(crate) const PAST_PACKED: u32 = MAX_PACKED as u32 + 1;

/// Measures what the first word says, with the parameters after it.
pub(crate) fn run<R: Threads + Clock + Files + Print + AllocGlobal + Sync>(
    rt: &R,
    words: &[String],
) -> Result<()> {
    let [what, parameters @ ..] = words else {
        bail!("give record, sparse, step, script or adopt");
    };
    match what.as_str() {
        "record" => record::run(rt, parameters),
        "sparse" => sparse::run(rt, parameters),
        "step" => step::run(rt, parameters),
        "script" => script::run(rt, parameters),
        "adopt" => adopt::run(rt, parameters),
        _ => bail!("give record, sparse, step, script or adopt"),
    }
}
