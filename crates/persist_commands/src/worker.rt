//! One worker of a run.

ghost use Rattle.std.specs.Prelude.{◌≡◌, ◌<◌, ◌==◌, ◌%◌, List, [], ◌∷◌, length, map, replicate, slice_get, Some, None, IfOk, IfErr, OnOk};
ghost use Rattle.live_segment.specs.Holders.{view_of_recorder};
ghost use Rattle.live_segment.specs.RecorderState.{IsNamed, IsSameRecorder, Knows};
ghost use Rattle.persist_report_core.specs.Script.{HistRecord, hist_view, script_view};
ghost use Rattle.persist_commands.specs.Entries.{deeds_in, deeds_of, deeds_of_call};
ghost use Rattle.persist_commands.specs.Parts.{part_from, part_of};
ghost use Rattle.persist_commands.specs.Recording.{WorkerHasEnded, HasRecorded, HasWorked, HaveMet};
ghost use Rattle.persist_commands.specs.Stop.{StopTellsWant};

use crate::gate::Gate;
use crate::stop::Stop;
use live_segment::{Hist, Recorder};
use persist_report_core::{CallKind, Script, ScriptCall, ScriptHist};
use segment_calls::Refusal;
use std::alloc::{AllocError, Global};
use thread_jobs::Job;

/// Which calls a worker makes: those whose number, from 0, leaves `part` when it is divided by the number of workers.
#[derive(Clone, Copy)]
pub(crate) struct Part {
    pub(crate) part: u32,
    pub(crate) workers: u32,
}

/// A worker that is to be started.
#[derive(Drop)]
pub(crate) struct Worker<'w, G> {
    pub(crate) alloc: Global,
    pub(crate) script: &'w Script,
    pub(crate) gate: &'w G,
    pub(crate) part: Part,
    pub(crate) recorder: Recorder<'w>,
}

/// A worker that has ended: its recorder, and how it ended.
#[derive(Drop)]
pub(crate) struct Ended<'w> {
    pub(crate) recorder: Recorder<'w>,
    pub(crate) outcome: Result<(), Stop>,
}

/// Returns the units of a worker's calls.
pub(crate) fn units_of(calls: &[ScriptCall], part: Part) -> u32
    requires { 0 < part.workers }
{
    let mut units: u32 = 0;
    for (number, call) in calls.iter().enumerate() {
        if let CallKind::Add { count, .. } = call.kind
            && is_in(number, part)
        {
            units = units.saturating_add(count);
        }
    }
    units
}

// Whether the call of a number is one of a worker's.
fn is_in(number: usize, part: Part) -> bool
    requires { 0 < part.workers }
    ensures { result ≡ (number % part.workers == part.part) }
{
    number % part.workers as usize == part.part as usize
}

// The histogram of a `hist` record. The recorder is asked for it at its first use.
fn meet(
    recorder: &mut Recorder,
    hists: &[ScriptHist],
    met: &mut [Option<Hist>],
    index: usize,
) -> Result<Hist, Refusal>
    requires len { length met.old ≡ length hists.now }
    requires met { HaveMet (map hist_view hists.now) recorder.old met.old }
    ensures kept { recorder.new.segment ≡ recorder.old.segment }
    ensures went { OnOk result (HasRecorded (map hist_view hists.now) [] (view_of_recorder recorder.old) (view_of_recorder recorder.new)) }
    ensures met { OnOk result (HaveMet (map hist_view hists.now) recorder.new met.new) }
    ensures found { IfOk result (λ histogram. (hist : HistRecord) × (slice_get (map hist_view hists.now) index ≡ Some hist) × IsNamed hist.name hist.spec recorder.new.state histogram) }
{
    let Some(hist) = hists.get(index) else {
        return Err(Refusal::BadName);
    };
    if let Some(histogram) = met[index] {
        return Ok(histogram);
    }
    let histogram = recorder.hist(&hist.name, &hist.spec)?;
    met[index] = Some(histogram);
    Ok(histogram)
}

// Makes a call on a histogram.
fn record_call(recorder: &mut Recorder, histogram: Hist, kind: CallKind) -> Result<(), Refusal>
    requires { Knows recorder.old.state histogram }
    ensures kept { recorder.new.segment ≡ recorder.old.segment }
    ensures same { IsSameRecorder recorder.old.state recorder.new.state }
    ensures went { OnOk result ((hists : List HistRecord) (hist : HistRecord) → IsNamed hist.name hist.spec recorder.old.state histogram → HasRecorded hists (deeds_in (Some hist) kind) (view_of_recorder recorder.old) (view_of_recorder recorder.new)) }
{
    match kind {
        CallKind::Add { value, count } => recorder.add(histogram, value, count),
        CallKind::Delta => {
            recorder.delta(histogram)?;
            Ok(())
        }
    }
}

// Makes a call of a worker between the two calls of the gate. `place` has the numbers of the worker and the call, from
// 1.
fn make_call<G: Gate>(
    recorder: &mut Recorder,
    hists: &[ScriptHist],
    met: &mut [Option<Hist>],
    gate: &G,
    place: (u32, u64),
    call: &ScriptCall,
) -> Result<(), Stop>
    requires len { length met.old ≡ length hists.now }
    requires met { HaveMet (map hist_view hists.now) recorder.old met.old }
    ensures kept { recorder.new.segment ≡ recorder.old.segment }
    ensures tells { IfErr result StopTellsWant }
    ensures went { OnOk result (HasRecorded (map hist_view hists.now) (deeds_of_call (map hist_view hists.now) call.now) (view_of_recorder recorder.old) (view_of_recorder recorder.new)) }
    ensures met { OnOk result (HaveMet (map hist_view hists.now) recorder.new met.new) }
{
    let histogram = match meet(recorder, hists, met, call.hist as usize) {
        Ok(histogram) => histogram,
        Err(why) => return Err(Stop::refused(call.number, why)),
    };
    if !gate.before(place.0, place.1) {
        return Err(Stop::Gate);
    }
    let answer = record_call(recorder, histogram, call.kind);
    gate.after(place.0, place.1);
    match answer {
        Ok(()) => Ok(()),
        Err(why) => Err(Stop::refused(call.number, why)),
    }
}

// Makes a call of a script, if it is one of a worker's.
fn make_if_own<G: Gate>(
    recorder: &mut Recorder,
    hists: &[ScriptHist],
    met: &mut [Option<Hist>],
    gate: &G,
    part: Part,
    number: usize,
    call: &ScriptCall,
) -> Result<(), Stop>
    requires part { part.part < part.workers }
    requires len { length met.old ≡ length hists.now }
    requires met { HaveMet (map hist_view hists.now) recorder.old met.old }
    ensures kept { recorder.new.segment ≡ recorder.old.segment }
    ensures tells { IfErr result StopTellsWant }
    ensures went { OnOk result (HasRecorded (map hist_view hists.now) (deeds_of (map hist_view hists.now) (part_from number part.workers part.part (call.now ∷ []))) (view_of_recorder recorder.old) (view_of_recorder recorder.new)) }
    ensures met { OnOk result (HaveMet (map hist_view hists.now) recorder.new met.new) }
{
    if !is_in(number, part) {
        return Ok(());
    }
    let place = (
        part.part + 1,
        (number as u64 / u64::from(part.workers)).saturating_add(1),
    );
    make_call(recorder, hists, met, gate, place, call)
}

// No histogram was asked for yet.
fn none_met(alloc: Global, hists: usize) -> Result<Vec<Option<Hist>>, AllocError>
    ensures { IfOk result (λ met. met.items ≡ replicate hists None) }
{
    vec![in alloc; None; hists]
}

// Makes those of some calls that are a worker's in their order, up to the first that stops it.
fn make_own<G: Gate>(
    recorder: &mut Recorder,
    hists: &[ScriptHist],
    met: &mut [Option<Hist>],
    gate: &G,
    part: Part,
    calls: &[ScriptCall],
) -> Result<(), Stop>
    requires part { part.part < part.workers }
    requires len { length met.old ≡ length hists.now }
    requires met { HaveMet (map hist_view hists.now) recorder.old met.old }
    ensures kept { recorder.new.segment ≡ recorder.old.segment }
    ensures tells { IfErr result StopTellsWant }
    ensures went { OnOk result (HasRecorded (map hist_view hists.now) (deeds_of (map hist_view hists.now) (part_of part.workers part.part calls.now)) (view_of_recorder recorder.old) (view_of_recorder recorder.new)) }
{
    for (number, call) in calls.iter().enumerate() {
        make_if_own(recorder, hists, met, gate, part, number, call)?;
    }
    Ok(())
}

// Makes the calls of a worker.
fn make_calls<G: Gate>(
    alloc: Global,
    recorder: &mut Recorder,
    script: &Script,
    gate: &G,
    part: Part,
) -> Result<(), Stop>
    requires { part.part < part.workers }
    ensures kept { recorder.new.segment ≡ recorder.old.segment }
    ensures tells { IfErr result StopTellsWant }
    ensures worked { OnOk result (HasWorked (script_view script.now) part.workers part.part (view_of_recorder recorder.old) (view_of_recorder recorder.new)) }
{
    let mut met = none_met(alloc, script.hists.len())?;
    make_own(recorder, &script.hists, &mut met, gate, part, &script.calls)
}

impl<'w, G: Gate> Job for Worker<'w, G> {
    type Output = Ended<'w>;

    ghost can_run = { λ worker. worker.part.part < worker.part.workers };

    ghost gives = { λ worker ended. WorkerHasEnded worker.script.now worker.part worker.recorder ended };

    fn run(self) -> Ended<'w> {
        let Worker {
            alloc,
            script,
            gate,
            part,
            mut recorder,
        } = self;
        let outcome = make_calls(alloc, &mut recorder, script, gate, part);
        Ended { recorder, outcome }
    }
}
