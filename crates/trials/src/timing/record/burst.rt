//! One burst: threads record at the same time, and the time from their start to the end of the last.

ghost use Rattle.live_segment.specs.Holders.{IsMadeWith};
ghost use Rattle.live_segment.specs.RecorderState.{Knows};

use crate::timing::PAST_PACKED;
use crate::timing::record::plan::{Plan, VALUES};
use anyhow::{Result, bail};
use live_segment::{Hist, Opener, Recorder, Refusal, Segment, VERSION_MOVING};
use std::alloc::Global;
use std::rt::Clock;
use std::thread;
use std::thread::Threads;
use std::time::Instant;

// What a thread records with, and into what.
#[derive(Drop)]
struct Job<'a> {
    recorder: Recorder<'a>,
    histograms: Vec<Hist>,
}

// A recorder that knows the histograms of a thread. If they are to have counts, it has counted a sample that no single
// word holds.
fn prepare<'a>(
    alloc: Global,
    plan: Plan,
    mut recorder: Recorder<'a>,
    thread: u8,
) -> Result<Job<'a>> {
    let mut histograms = Vec::new(alloc);
    let of = if plan.shared { 0 } else { thread };
    for i in 0..plan.histograms() {
        let name = format!(in alloc; "H{of}.{i}")?;
        let histogram = recorder.hist(name.as_bytes(), &plan.spec())?;
        if !plan.packed {
            recorder.add(histogram, 1, PAST_PACKED)?;
        }
        histograms.push(histogram)?;
    }
    Ok(Job {
        recorder,
        histograms,
    })
}

// What each thread records with.
fn prepare_all<'a>(
    alloc: Global,
    plan: Plan,
    segment: &'a Segment,
    opener: &mut Opener,
    units: u32,
) -> Result<Vec<Job<'a>>>
    requires { IsMadeWith segment.now opener.old }
{
    let mut jobs = Vec::new(alloc);
    for thread in 0..plan.threads {
        let recorder = opener.recorder(segment, units)?;
        jobs.push(prepare(alloc, plan, recorder, thread)?)?;
    }
    Ok(jobs)
}

// Records this many samples, whose values are repeated.
fn record_into(
    recorder: &mut Recorder,
    histogram: Hist,
    samples: u32,
    values: &[i32; VALUES],
) -> Result<(), Refusal>
    requires { Knows recorder.old.state histogram }
{
    for i in 0..samples as usize {
        recorder.add(histogram, values[i % VALUES], 1)?;
    }
    Ok(())
}

// Records the samples of a thread.
fn record(plan: Plan, values: &[i32; VALUES], job: Job) -> Result<(), Refusal> {
    let Job {
        mut recorder,
        histograms,
    } = job;
    for histogram in histograms.iter() {
        if recorder.knows(*histogram) {
            record_into(&mut recorder, *histogram, plan.samples(), values)?;
        }
    }
    Ok(())
}

/// The nanoseconds of one burst.
pub(crate) fn time<R: Threads + Clock + AllocGlobal + Sync>(
    rt: &R,
    plan: Plan,
    values: &[i32; VALUES],
) -> Result<u128> {
    let alloc = rt.alloc();
    let (segment, mut opener) = Segment::create(alloc, 1 << 20, 1 << 16, 7, 0, VERSION_MOVING)?;
    let samples = plan.histograms().saturating_mul(plan.samples());
    let units = samples.saturating_add(PAST_PACKED);
    let jobs = prepare_all(alloc, plan, &segment, &mut opener, units)?;
    let start = Instant::now(rt)?;
    let answers = thread::map_vec(rt, jobs, &|job| record(plan, values, job))?;
    let took = start.elapsed(rt)?.as_nanos();
    for answer in answers.iter() {
        if let Err(why) = answer {
            bail!("{why}");
        }
    }
    Ok(took)
}
