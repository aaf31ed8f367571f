//! What came of each histogram is added, one after the other.

ghost use Rattle.std.specs.Prelude.{◌≡◌, ◌+◌, ◌≤◌, ◌<◌, [], None, IfOk, length, map, vec_capacity, vec_len};
ghost use Rattle.std.specs.List.{All};
ghost use Rattle.image_reader.specs.Views.{histogram_view};
ghost use Rattle.live_segment.specs.Holders.{view_of_recorder};
ghost use Rattle.live_segment.specs.RecorderState.{KnowsOn};
ghost use Rattle.segment_merge.specs.Cut.{cut_at};
ghost use Rattle.segment_merge.specs.Follow.{AreFollowed, FollowsNext, IsCutReported, concerns_one as concerns_one_alone, has_new as has_something_new};
ghost use Rattle.segment_merge.specs.Steps.{HasItsPart, HasRoomFor, ToldAlike, hists_of};

use crate::costs::Above;
use crate::merging::{MergeStop, Part, merge_next, part_of};
use crate::noting::noted_cut;
use image_reader::HistReading;
use live_segment::Recorder;
use segment_calls::Refusal;
use std::alloc::{AllocError, Global};

/// What a follower added of a reading, and what the reading had above what was noted before.
#[derive(Drop)]
pub struct FollowReport {
    /// The name of each histogram that had something new and was reached, in the order of their names, each with the
    /// units that were added to it.
    pub added: Vec<(Vec<u8>, u64)>,
    /// Those of these that were passed over, in the same order, each with why.
    pub passed: Vec<MergeStop>,
    /// Why no histogram after that one was reached.
    pub stopped: Option<MergeStop>,
    /// The units that the reading has above what was noted, in all its histograms, or 18,446,744,073,709,551,615 if there
    /// are more. Those that are left are these less what was added.
    pub units: u64,
    /// What it costs to add all these, with the sums less those that were noted, or 18,446,744,073,709,551,615 if it costs
    /// more.
    pub cost: u64,
}

// A report of nothing that was added, with room for this many histograms, and of what they have above what was noted.
pub(crate) fn report_for(
    alloc: Global,
    hists: usize,
    above: Above,
) -> Result<FollowReport, AllocError>
    ensures room { IfOk result (HasRoomFor hists) }
    ensures units { IfOk result (λ report. report.units ≡ above.units) }
    ensures cost { IfOk result (λ report. report.cost ≡ above.cost) }
    ensures added { IfOk result (λ report. report.added.items ≡ []) }
    ensures passed { IfOk result (λ report. report.passed.items ≡ []) }
    ensures stopped { IfOk result (λ report. report.stopped ≡ None) }
{
    Ok(FollowReport {
        added: Vec::with_capacity(alloc, hists)?,
        passed: Vec::with_capacity(alloc, hists)?,
        stopped: None,
        units: above.units,
        cost: above.cost,
    })
}

// A histogram with what is noted of it as its marks, and what is needed to add what it has above them.
#[derive(Drop)]
pub(crate) struct FollowStep {
    hist: HistReading,
    part: Part,
}

// The steps of these histograms, in their order.
pub(crate) fn steps_of(
    alloc: Global,
    hists: Vec<HistReading>,
) -> Result<Vec<FollowStep>, AllocError>
    ensures steps { IfOk result (λ steps. All HasItsPart steps.items) }
    ensures hists { IfOk result (λ steps. hists_of steps.items ≡ map histogram_view hists.items) }
{
    let mut steps = Vec::with_capacity(alloc, hists.len())?;
    for hist in hists {
        let part = part_of(alloc, &hist)?;
        steps.push_reserved(FollowStep { hist, part });
    }
    Ok(steps)
}

// Whether a refusal concerns one histogram alone.
fn concerns_one(why: Refusal) -> bool
    ensures { result ≡ concerns_one_alone why }
{
    match why {
        Refusal::BadName
        | Refusal::BadSpec(_)
        | Refusal::TooLarge
        | Refusal::OtherSpec
        | Refusal::Full => true,
        Refusal::ZeroCount
        | Refusal::NoUnits
        | Refusal::TooMany
        | Refusal::NoMemory
        | Refusal::Corrupt => false,
    }
}

impl FollowStep {
    ghost use Rattle.std.specs.Prelude.{◌≡◌};
    ghost use Rattle.image_reader.specs.Views.{histogram_view};
    ghost use Rattle.segment_merge.specs.Follow.{has_new as has_something_new};
    ghost use Rattle.segment_merge.specs.Steps.{HasItsPart};

    // Whether there is something to be added.
    fn has_new(&self) -> bool
        requires { HasItsPart self.now }
        ensures { result ≡ has_something_new (histogram_view self.now.hist) }
    {
        match &self.part.left {
            Some(left) => !left.items.is_empty() || left.sum != 0,
            None => true,
        }
    }
}

// Puts where a histogram was cut short into a report, and returns what is noted of it.
fn cut_short(stop: MergeStop, hist: HistReading, report: &mut FollowReport) -> HistReading
    requires { vec_len report.old.passed < vec_capacity report.old.passed }
    ensures told { ToldAlike report.old report.new }
    ensures noted { histogram_view result ≡ cut_at stop.items (histogram_view hist) }
    ensures added { report.new.added ≡ report.old.added }
    ensures passed { (vec_len report.new.passed ≤ vec_len report.old.passed + 1) × (vec_capacity report.new.passed ≡ vec_capacity report.old.passed) }
    ensures reported { IsCutReported stop report.old report.new }
{
    let items = stop.items;
    if concerns_one(stop.why) {
        report.passed.push_reserved(stop);
    } else {
        report.stopped = Some(stop);
    }
    noted_cut(hist, items)
}

// Adds what came of the next histogram, if something did, and returns what is noted of it from then on.
fn follow_next(recorder: &mut Recorder, step: FollowStep, report: &mut FollowReport) -> HistReading
    requires step { HasItsPart step }
    requires room { HasRoomFor 1 report.old }
    ensures told { ToldAlike report.old report.new }
    ensures kept { recorder.new.segment ≡ recorder.old.segment }
    ensures same { KnowsOn recorder.old.state recorder.new.state }
    ensures added { (vec_len report.new.added ≤ vec_len report.old.added + 1) × (vec_capacity report.new.added ≡ vec_capacity report.old.added) }
    ensures passed { (vec_len report.new.passed ≤ vec_len report.old.passed + 1) × (vec_capacity report.new.passed ≡ vec_capacity report.old.passed) }
    ensures answer { FollowsNext (histogram_view step.hist) report.old report.new (histogram_view result) (view_of_recorder recorder.old) (view_of_recorder recorder.new) }
{
    if report.stopped.is_some() {
        let FollowStep { hist, .. } = step;
        return noted_cut(hist, 0);
    }
    if !step.has_new() {
        let FollowStep { hist, .. } = step;
        return hist;
    }
    let FollowStep { hist, part } = step;
    match merge_next(recorder, &hist, part, &mut report.added) {
        None => hist,
        Some(stop) => cut_short(stop, hist, report),
    }
}

// Adds what came of each histogram, and what is noted of it from then on to what is noted.
pub(crate) fn follow_all(
    recorder: &mut Recorder,
    steps: Vec<FollowStep>,
    report: &mut FollowReport,
    noted: &mut Vec<HistReading>,
)
    requires steps { All HasItsPart steps.items }
    requires room { HasRoomFor (vec_len steps) report.old }
    requires report { (report.old.added.items ≡ []) × (report.old.passed.items ≡ []) × (report.old.stopped ≡ None) }
    requires noted { (noted.old.items ≡ []) × (vec_len steps ≤ vec_capacity noted.old) }
    ensures told { ToldAlike report.old report.new }
    ensures kept { recorder.new.segment ≡ recorder.old.segment }
    ensures same { KnowsOn recorder.old.state recorder.new.state }
    ensures answer { AreFollowed (hists_of steps.items) report.new (map histogram_view noted.new.items) (view_of_recorder recorder.old) (view_of_recorder recorder.new) }
{
    for step in steps {
        let hist = follow_next(recorder, step, report);
        noted.push_reserved(hist);
    }
}
