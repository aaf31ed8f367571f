//! Runs for measurements and one test: calls that are timed, and calls whose memory is refused from outside.
//!
//! `trials time record FORM SHARING THREADS BURSTS`: how long threads take to record samples into a running segment.
//! `trials time sparse VALUES BURSTS`: how long a thread takes for a sample of a sparse histogram.
//! `trials time step ADDS TURNS`: how long a world takes for its steps.
//! `trials time script BYTES STEP TURNS`: how long a script takes to be read.
//! `trials time adopt IMAGE TURNS`: how long an image takes to be adopted.
//!
//! `trials growths`: calls that the library for C does not have are made, and again if they are refused. The module
//! `growths` has what it prints.
#![tactic(auto)]

mod growths;
mod timing;

use anyhow::{Result, bail};
use std::env;

fn main(rt: HostRuntime) -> Result<()> {
    let mut words = Vec::new(rt.alloc());
    for word in env::args(&rt)?.skip(1) {
        words.push(word)?;
    }
    let [what, parameters @ ..] = words.as_slice() else {
        bail!("give time or growths");
    };
    match what.as_str() {
        "time" => timing::run(&rt, parameters),
        "growths" => growths::show(&rt),
        _ => bail!("give time or growths"),
    }
}
