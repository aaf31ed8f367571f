//! A world, each kind of its calls, and a schedule.

use crate::growths::again::{again, show_refused, show_try};
use crate::growths::new_values::custom;
use anyhow::{Context, Result};
use bucket_ranges::Spec;
use hist_core::{Answer, Begun, Call, Move, Stepped, World, WorldFault, run_schedule};
use std::alloc::{AllocError, Global};
use std::io;

// No call has more events.
const MOST_EVENTS: u32 = 1000;

// With two others they are so many that the list of what a recorder knows grows more than once.
const BOOLEAN: [&str; 6] = ["boolean", "A", "B", "C", "D", "a_name_that_is_longer"];

fn bytes(alloc: Global, name: &str) -> Result<Vec<u8>, AllocError> {
    Vec::from_slice(alloc, name.as_bytes())
}

// All that is asked of a histogram, each with the name of the call. What comes after the delta is left for a merge: of
// a sparse histogram more values than its index of samples has room for at first.
fn calls_of(
    alloc: Global,
    name: &str,
    spec: Spec,
) -> Result<Vec<(&'static str, Call)>, AllocError> {
    let values = [(0, 2), (6, 3), (20, 1), (21, 1), (22, 1), (23, 1), (24, 1)];
    Ok(vec![in alloc;
        ("begin Hist", Call::Hist(bytes(alloc, name)?, spec)),
        ("begin Add", Call::Add(bytes(alloc, name)?, 1, 1)),
        ("begin Add", Call::Add(bytes(alloc, name)?, 12, 70_000)),
        ("begin Delta", Call::Delta(bytes(alloc, name)?)),
        (
            "begin Batch",
            Call::Batch(bytes(alloc, name)?, Vec::from_slice(alloc, &values)?, 128)
        ),
        ("begin Snapshot", Call::Snapshot(bytes(alloc, name)?)),
    ]?)
}

// The actor's call is stepped to its end.
fn finish(world: &mut World) -> Result<Option<Answer>, WorldFault> {
    for _ in 0..MOST_EVENTS {
        if let Stepped::Done(answer) = world.step(0)? {
            return Ok(Some(answer));
        }
    }
    Ok(None)
}

fn show_answer(rt: &impl Print, answer: &Answer) -> io::Result<()> {
    match answer {
        Answer::Hist(reference) => println!(rt; "histogram {reference}"),
        Answer::Added => println!(rt; "added"),
        Answer::Delta(delta) => println!(rt; "{:?}, sum {}", delta.counts, delta.sum),
        Answer::Snapshot(snapshot) => println!(rt;
            "{:?}, sum {}, redundant {}",
            snapshot.counts, snapshot.sum, snapshot.redundant
        ),
        Answer::Flagged => println!(rt; "flagged"),
        Answer::Refused(why) => println!(rt; "{why}"),
        Answer::BatchRefused(refusal) => println!(rt; "{}, {} added", refusal.why, refusal.added),
    }
}

// Its words, and how much its first actor has begun, ended and taken.
fn show_world(rt: &impl Print, world: &World) -> io::Result<()> {
    println!(rt;
        "{:?}, {} begun, {} ended, {} taken",
        world.words(),
        world.begun(0).len(),
        world.ended(0).len(),
        world.taken(0).len()
    )
}

// The actor makes a call, and begins it again if it is refused.
fn show_call(rt: &impl Print, world: &mut World, name: &str, call: &Call) -> Result<()> {
    let answer = match again!(rt, name, world.begin(0, call)) {
        Begun::Ended(answer) => answer,
        Begun::Going => {
            show_try(rt, "step")?;
            finish(world)?.context("a call has no end")?
        }
    };
    show_answer(rt, &answer)?;
    Ok(show_world(rt, world)?)
}

// Makes each call for a histogram of this name.
fn show_histogram(
    rt: &(impl Print + AllocGlobal),
    world: &mut World,
    name: &str,
    spec: Spec,
) -> Result<()> {
    let calls = calls_of(rt.alloc(), name, spec)?;
    for (name, call) in calls.iter() {
        show_call(rt, world, name, call)?;
    }
    Ok(())
}

fn show_schedule(rt: &impl Print, alloc: Global) -> Result<()> {
    let call = Call::Hist(bytes(alloc, "A")?, Spec::Boolean);
    let moves = [Move::Begin(0, call), Move::Step(0), Move::Step(0)];
    let world = again!(
        rt,
        "run_schedule",
        run_schedule(alloc, 128, 64, 7, 2, 1, &moves)
    );
    Ok(show_world(rt, &world)?)
}

/// The world in which all calls were made.
pub(super) fn show(rt: &(impl Print + AllocGlobal)) -> Result<World> {
    let alloc = rt.alloc();
    show_schedule(rt, alloc)?;
    let mut world = again!(rt, "world", World::new(alloc, 512, 128, 7, 2, 2));
    show_world(rt, &world)?;
    show_histogram(rt, &mut world, "custom", custom(alloc)?)?;
    show_histogram(rt, &mut world, "sparse", Spec::Sparse)?;
    for i in 0..BOOLEAN.len() {
        show_histogram(rt, &mut world, BOOLEAN[i], Spec::Boolean)?;
    }
    show_call(rt, &mut world, "begin SetCorrupt", &Call::SetCorrupt)?;
    Ok(world)
}
