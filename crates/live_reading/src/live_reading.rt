//! The reading of a running segment.

ghost use Rattle.std.specs.Prelude.{◌≡◌, ◌++◌, IfOk, MatchResult};
ghost use Rattle.segment_calls.specs.declared.refusal.Refusal.TheVariants.{NoMemory};
ghost use Rattle.live_segment.specs.RecorderState.{KnowsOn, Knows};
ghost use Rattle.live_segment.specs.Holders.{view_of_recorder};
ghost use Rattle.live_reading.specs.Reading.{GoesOnLooking, IsOutcome, KnowsEachOnce, OnlyLooks, ReadsList, read_of};

use bucket_ranges::{CustomValues, Spec};
use live_segment::Recorder;
use segment_calls::{Refusal, Snapshot};
use std::alloc::{AllocError, Global};

/// A histogram of a running segment.
#[derive(Drop)]
pub struct LiveHistogram {
    /// Its name.
    pub name: Vec<u8>,
    /// Its spec.
    pub spec: Spec,
    /// Its counts, its sum and its redundant count.
    pub snapshot: Snapshot,
}

/// The histograms of a running segment. They are not of one moment, and have no marks: what deltas took is not known.
#[derive(Drop)]
pub struct LiveReading {
    /// The histograms, in the order of their records on the list.
    pub hists: Vec<LiveHistogram>,
}

/// Returns the histograms of a running segment, while others record: it calls `open` for each record on the list, and
/// `snapshot` for each histogram that this returned. Their names need not be known before.
///
/// On `Ok` the list had exactly the records that `records` returned first, in a kept state of the segment. For each of
/// them, in order, the reading has the histogram: its name, its spec, and what a snapshot of it returned, with no more
/// keys than [`Recorder::most_keys`] says. For each key that is at least what the recorder had accepted, or seen,
/// before, with the exception that [`Recorder::delta`] has, and at most what was counted in a kept state to which the
/// segment came before that snapshot returned. Or `open` returned none, for one of the reasons that [`Recorder::open`]
/// has [each]. The recorder knows all of these histograms then, and no two of them have the same
/// name [names].
///
/// The recorder records into the same segment [kept], and still knows each histogram that it knew, at the same place
/// [same]. It has counted, taken, claimed and published nothing, even if the call was refused: it has only seen more,
/// come to know histograms, and noted its snapshots [looks].
///
/// The only error is `NoMemory`, possibly after loads [each]. It asks for memory as [`Recorder::records`], `open` and
/// `snapshot` do, and for the name and the spec of each histogram.
pub fn reading(alloc: Global, recorder: &mut Recorder) -> Result<LiveReading, Refusal>
    ensures kept { recorder.new.segment ≡ recorder.old.segment }
    ensures same { KnowsOn recorder.old.state recorder.new.state }
    ensures looks { OnlyLooks (view_of_recorder recorder.old) (view_of_recorder recorder.new) }
    ensures each { MatchResult result (λ reading. ReadsList recorder.new.segment.now recorder.old.state reading.hists.items recorder.new.state) (λ why. why ≡ NoMemory) }
    ensures names { IfOk result (λ reading. KnowsEachOnce reading.hists.items recorder.new.state) }
{
    let records = recorder.records()?;
    let mut hists = Vec::new(alloc);
    for reference in records.iter() {
        let found = read_record(alloc, recorder, *reference)?;
        push_found(&mut hists, found)?;
    }
    Ok(LiveReading { hists })
}

// Reads the histogram of a record, if it has one.
fn read_record(
    alloc: Global,
    recorder: &mut Recorder,
    reference: u64,
) -> Result<Option<LiveHistogram>, Refusal>
    ensures kept { recorder.new.segment ≡ recorder.old.segment }
    ensures onward { GoesOnLooking recorder.old.state recorder.new.state }
    ensures answer { MatchResult result (IsOutcome recorder.new.segment.now recorder.old.state recorder.new.state reference) (λ why. why ≡ NoMemory) }
{
    let Some(histogram) = recorder.open(reference)? else {
        return Ok(None);
    };
    let snapshot = recorder.snapshot(histogram)?;
    let name = Vec::from_slice(alloc, recorder.name(histogram))?;
    let spec = copy_of(alloc, recorder.spec(histogram))?;
    Ok(Some(LiveHistogram {
        name,
        spec,
        snapshot,
    }))
}

// Puts a histogram that was found at the end.
fn push_found(
    hists: &mut Vec<LiveHistogram>,
    found: Option<LiveHistogram>,
) -> Result<(), AllocError>
    ensures { IfOk result (λ _. hists.new.items ≡ hists.old.items ++ read_of found) }
{
    if let Some(histogram) = found {
        hists.push(histogram)?;
    }
    Ok(())
}

// A copy of a spec.
fn copy_of(alloc: Global, spec: &Spec) -> Result<Spec, AllocError>
    ensures { IfOk result (λ copy. copy ≡ spec.now) }
{
    Ok(match spec {
        Spec::Linear { min, max, n } => Spec::Linear {
            min: *min,
            max: *max,
            n: *n,
        },
        Spec::Boolean => Spec::Boolean,
        Spec::Custom(values) => {
            Spec::Custom(CustomValues::from(Vec::from_slice(alloc, values.as_slice())?))
        }
        Spec::Sparse => Spec::Sparse,
    })
}
