//! The sum of many inputs, which workers read and add up.
//!
//! The inputs are opened by the caller's thread, and each worker is given inputs that follow one another, which it adds
//! up. The sums are appended in the order of the inputs, with those that no worker reads between them. All this is done
//! in rounds, since only a limited number of inputs can be open at once.

ghost use Rattle.std.specs.Prelude.{◌≡◌, ◌≤◌, ◌<◌, ◌+◌, ℕ, length, All, IfOk, OnOk};
ghost use Rattle.sum_commands.specs.Sources.{IsSumBefore, IsOpenedRun, IsSumOfAllInputs, SumEndsWithin};

use crate::summing::{OpenInput, Progress, Source, Summed};
use std::alloc::{AllocError, Global};
use std::sync::Wait;
use std::thread::Threads;
use thread_jobs::{Job, run_within};

/// How inputs are added up.
#[derive(Clone, Copy)]
pub struct Manner {
    /// How many workers add them up; 0 counts as 1.
    pub workers: usize,
    /// Whether the sum ends at the first input that is left out.
    pub is_strict: bool,
}

// The most inputs that are open at once, for one worker and for all of them; each worker has at least one.
const OPEN_FOR_ONE: usize = 64;

const OPEN_FOR_ALL: usize = 512;

// The inputs of one worker, from a place on, which are open.
#[derive(Drop)]
struct Run<O> {
    alloc: Global,
    first: usize,
    opened: Vec<O>,
    is_strict: bool,
}

impl<O: OpenInput + Drop> Job for Run<O> {
    ghost use Rattle.std.specs.Prelude.{◌<◌, ◌+◌, ◌^◌, length, IfOk};
    ghost use Rattle.sum_commands.specs.Sources.{HasSummedRun};

    type Output = Result<Summed, AllocError>;

    ghost can_run = { λ run. run.first + length run.opened.items < 2 ^ 64 };

    ghost gives = { λ run result. IfOk result (HasSummedRun O.is_whole O.may_be run.first run.opened.items run.is_strict) };

    // Adds up the inputs, or those up to the first that is left out if the sum is strict.
    fn run(self) -> Result<Summed, AllocError> {
        let mut summed = Summed::none(self.alloc, self.first);
        for opened in self.opened {
            if summed.is_ended(self.is_strict) {
                break;
            }
            summed.add_opened(opened)?;
        }
        Ok(summed)
    }
}

// Opens the inputs from one place to another, up to the first that no worker reads.
fn open_run<S: Source>(
    alloc: Global,
    source: &S,
    part: (usize, usize),
    is_strict: bool,
) -> Result<Run<S::Opened>, AllocError>
    requires { part.0 ≤ part.1 }
    ensures first { IfOk result (λ run. run.first ≡ part.0) }
    ensures run { IfOk result (IsOpenedRun S.Opened.is_whole S.Opened.may_be (S.are_whole source.now) (S.may_be source.now) part.1 is_strict) }
{
    let mut opened = Vec::new(alloc);
    for place in part.0..part.1 {
        match source.open(place) {
            Some(input) => opened.push(input)?,
            None => break,
        }
    }
    Ok(Run {
        alloc,
        first: part.0,
        opened,
        is_strict,
    })
}

// How many of the inputs that are left a worker is given: as many as any other worker, in this round and in those after
// it.
fn share_of(left: usize, workers: usize) -> usize
    requires { 0 < workers }
    ensures { 0 < result }
{
    let most = OPEN_FOR_ONE.min(OPEN_FOR_ALL / workers).max(1);
    let rounds = left.div_ceil(most.saturating_mul(workers)).max(1);
    left.div_ceil(rounds.saturating_mul(workers)).max(1)
}

// The inputs that workers are given at once, of those from one place to another, and the place after them.
fn open_round<S: Source>(
    alloc: Global,
    source: &S,
    part: (usize, usize),
    how: Manner,
) -> Result<(Vec<Run<S::Opened>>, usize), AllocError>
    requires some { 0 < how.workers }
    requires left { part.0 < part.1 }
    ensures on { IfOk result (λ round. part.0 < round.1) }
    ensures within { IfOk result (λ round. round.1 ≤ part.1) }
    ensures runs { IfOk result (λ round. All (IsOpenedRun S.Opened.is_whole S.Opened.may_be (S.are_whole source.now) (S.may_be source.now) part.1 how.is_strict) round.0.items) }
{
    let share = share_of(part.1 - part.0, how.workers);
    let mut runs = Vec::new(alloc);
    let mut place = part.0;
    while place < part.1 && runs.len() < how.workers {
        let end = part.1.min(place.saturating_add(share));
        let run = open_run(alloc, source, (place, end), how.is_strict)?;
        place = end.min((place + run.opened.len()).saturating_add(1));
        if run.opened.len() > 0 {
            runs.push(run)?;
        }
    }
    Ok((runs, place))
}

// Adds what workers have added up to the sum of the inputs before it.
fn add_all<S: Source, P: Progress>(
    all: &mut Summed,
    source: &S,
    progress: &mut P,
    done: Vec<Result<Summed, AllocError>>,
    is_strict: bool,
) -> Result<(), AllocError>
    ensures sum { (inputs : ℕ) → All (λ one. IfOk one (SumEndsWithin (S.are_whole source.now) (S.may_be source.now) is_strict inputs)) done.items → OnOk result (IsSumBefore (S.are_whole source.now) (S.may_be source.now) is_strict inputs all.old → IsSumBefore (S.are_whole source.now) (S.may_be source.now) is_strict inputs all.new) }
{
    for summed in done {
        all.add_summed(source, progress, summed?, is_strict)?;
    }
    Ok(())
}

/// Returns the sum of the first `inputs` inputs of a source, from the one at 0 on. Workers read and add them up, each
/// in a thread of its own, or fewer if a thread cannot be started. For any number of workers it is the sum of all
/// inputs in their order, each taken as what it may be: the totals are those of the inputs that are added, `left` lists
/// those left out, in their order, each with its place and fault, and `is_damaged` says whether one is damaged. If
/// `how` is strict, the sum ends at the first input that is left out [sum]. With one worker the caller's thread adds
/// them up one by one.
///
/// The only error is that memory runs out.
pub fn sum_of_inputs<R: Threads + Wait, S: Source, P: Progress>(
    rt: &R,
    alloc: Global,
    source: &S,
    progress: &mut P,
    inputs: usize,
    how: Manner,
) -> Result<Summed, AllocError>
    ensures sum { IfOk result (IsSumOfAllInputs (S.are_whole source.now) (S.may_be source.now) how.is_strict inputs) }
{
    let mut all = Summed::none(alloc, 0);
    let mut place = 0;
    while how.workers > 1 && place < inputs && !all.is_ended(how.is_strict) {
        let (runs, end) = open_round(alloc, source, (place, inputs), how)?;
        let done = run_within(rt, alloc, runs)?;
        add_all(&mut all, source, progress, done, how.is_strict)?;
        place = end;
    }
    all.add_up_to(source, progress, inputs, how.is_strict)?;
    Ok(all)
}
