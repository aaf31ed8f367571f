//! Measures how long threads take to record samples into a running segment.
//!
//! FORM is `packed` or `mounted`, SHARING is `shared` or `own`. Each of THREADS threads records as many samples of
//! count 1: into histograms that all of them share, or into its own. It prints what each thread does, and then the
//! least time of BURSTS bursts, in picoseconds for each sample of a thread.
//!
//! `packed`: all samples have one value, and each histogram takes as many as its single word can hold, so every sample
//! is packed. `mounted`: one histogram with counts, and values that fall into its buckets in no order.

mod burst;
mod plan;

use anyhow::{Result, bail};
use plan::Plan;
use std::rt::Clock;
use std::thread::Threads;

// What is measured, and how often.
struct Parameters {
    plan: Plan,
    bursts: u32,
}

fn read_parameters(words: &[String]) -> Result<Parameters> {
    let [form, sharing, threads, bursts] = words else {
        bail!("give FORM SHARING THREADS BURSTS");
    };
    let packed = match form.as_str() {
        "packed" => true,
        "mounted" => false,
        _ => bail!("give packed or mounted"),
    };
    let shared = match sharing.as_str() {
        "shared" => true,
        "own" => false,
        _ => bail!("give shared or own"),
    };
    Ok(Parameters {
        plan: Plan {
            packed,
            shared,
            threads: threads.parse::<u8>()?,
        },
        bursts: bursts.parse::<u32>()?,
    })
}

/// Measures bursts, and prints what each thread does and the least time.
pub(crate) fn run<R: Threads + Clock + Print + AllocGlobal + Sync>(
    rt: &R,
    words: &[String],
) -> Result<()> {
    let Parameters { plan, bursts } = read_parameters(words)?;
    let values = plan.values();
    let mut least = u128::MAX;
    for _ in 0..bursts {
        least = least.min(burst::time(rt, plan, &values)?);
    }
    let (histograms, samples) = (plan.histograms(), plan.samples());
    println!(rt; "each thread: {histograms} histograms, {samples} samples of each")?;
    if bursts > 0 {
        let all = u128::from(histograms) * u128::from(samples);
        println!(rt; "{}", least.saturating_mul(1000) / all.max(1))?;
    }
    Ok(())
}
