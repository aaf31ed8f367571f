//! Measures how long a thread takes for a sample of a value that a sparse histogram has.
//!
//! The histogram has VALUES values. It prints the least time of BURSTS bursts of a million samples of count 1, whose
//! values are of these in no order, in picoseconds for each sample.

ghost use Rattle.std.specs.Prelude.{◌<◌};
ghost use Rattle.live_segment.specs.RecorderState.{Knows};

use anyhow::{Result, bail};
use live_segment::{Hist, Recorder, Refusal, Segment, Spec, VERSION_FROZEN};
use std::rt::Clock;
use std::time::Instant;

const SAMPLES: u32 = 1_000_000;

// The value of a number. No two numbers have the same.
fn value_of(number: u32) -> i32 {
    number.wrapping_mul(2_654_435_761).cast_signed()
}

// Records a sample of each value.
fn record_each(recorder: &mut Recorder, histogram: Hist, values: u32) -> Result<(), Refusal>
    requires { Knows recorder.old.state histogram }
    ensures { Knows recorder.new.state histogram }
{
    for number in 0..values {
        recorder.add(histogram, value_of(number), 1)?;
    }
    Ok(())
}

// Records samples of these values, in no order.
fn record_some(recorder: &mut Recorder, histogram: Hist, values: u32) -> Result<(), Refusal>
    requires known { Knows recorder.old.state histogram }
    requires some { 0 < values }
{
    let mut state: u32 = 1;
    for _ in 0..SAMPLES {
        state = state.wrapping_mul(1_664_525).wrapping_add(1_013_904_223);
        recorder.add(histogram, value_of((state >> 4) % values), 1)?;
    }
    Ok(())
}

// The nanoseconds of one burst.
fn burst(rt: &(impl Clock + AllocGlobal), values: u32) -> Result<u128>
    requires { 0 < values }
{
    let (segment, mut opener) = Segment::create(
        rt.alloc(),
        1 << 20,
        1 << 16,
        7,
        0,
        VERSION_FROZEN,
    )?;
    let mut recorder = opener.recorder(&segment, SAMPLES.saturating_add(values))?;
    let histogram = recorder.hist(b"values", &Spec::Sparse)?;
    record_each(&mut recorder, histogram, values)?;
    let start = Instant::now(rt)?;
    record_some(&mut recorder, histogram, values)?;
    Ok(start.elapsed(rt)?.as_nanos())
}

/// Measures bursts, and prints the least time.
pub(crate) fn run(rt: &(impl Clock + Print + AllocGlobal), words: &[String]) -> Result<()> {
    let [values, bursts] = words else {
        bail!("give VALUES BURSTS");
    };
    let values = values.parse::<u32>()?;
    if values == 0 {
        bail!("give a value at least");
    }
    let mut least = u128::MAX;
    for _ in 0..bursts.parse::<u32>()? {
        least = least.min(burst(rt, values)?);
    }
    println!(rt; "{}", least.saturating_mul(1000) / u128::from(SAMPLES))?;
    Ok(())
}
