//! What a dead segment counted is added to a live one.

ghost use Rattle.std.specs.Prelude.{◌≡◌, ◌+◌, ◌≤◌, ◌<◌, ◌∷◌, [], vec_len, vec_capacity, IfOk, MatchResult};
ghost use Rattle.bucket_ranges.specs.Tally.{units_of};
ghost use Rattle.segment_calls.specs.declared.refusal.Refusal.TheVariants.{NoMemory};
ghost use Rattle.image_reader.specs.Views.{histogram_view, reading_view};
ghost use Rattle.live_segment.specs.Holders.{view_of_recorder};
ghost use Rattle.live_segment.specs.RecorderState.{KnowsOn};
ghost use Rattle.segment_merge.specs.Merge.{IsMerged, Reports, StopsAt, units_left};
ghost use Rattle.segment_merge.specs.Parts.{ArePartsOf, IsPartOf, Merges};
ghost use Rattle.segment_merge.specs.Remainder.{IsLeftOf};

use crate::remainder::{Remainder, remainder_of};
use image_reader::{HistReading, Reading};
use live_segment::Recorder;
use segment_calls::{BatchRefusal, Refusal};
use std::alloc::{AllocError, Global};

/// Why a merge stopped at a histogram.
#[derive(Drop)]
pub struct MergeStop {
    /// The name of the histogram.
    pub name: Vec<u8>,
    /// How many of its items are counted: its first ones. Its sum is not added.
    pub items: usize,
    /// Why it was refused.
    pub why: Refusal,
}

/// What a merge added.
#[derive(Drop)]
pub struct MergeReport {
    /// The name of each histogram that was reached, in order, each with the units that were added to it.
    pub added: Vec<(Vec<u8>, u64)>,
    /// Why the merge went no further. What was added before stays.
    pub stopped: Option<MergeStop>,
}

// What a merge needs for a histogram: its name twice, for the report and for where it stops, and what is left of it.
#[derive(Drop)]
pub(crate) struct Part {
    name: Vec<u8>,
    stop_name: Vec<u8>,
    pub(crate) left: Option<Remainder>,
}

/// Adds what deltas have not taken of a reading to a recorder's segment: for each of its histograms in order, `hist`
/// of its name and spec, and then one `batch` of the units above their marks, with the sum less its mark. The first
/// that is refused stops the merge, also if memory runs out in its `hist`; what was added before stays. So merging
/// a reading twice adds it twice. Any reading may be given.
///
/// The log of the recorder grew by the batches of the histograms, one after the other in the order of the reading;
/// if one stopped the merge, by those of the histograms before it, and by its own first items, as many as the report
/// says. Their costs are taken from the share, and spent for each name. The recorder knows a histogram of each
/// of these names, with the same spec. If nothing stopped the merge, it has not set the full flag. The report names
/// each histogram that was reached, in order, with the units that were added to it. The one that stopped the merge
/// has a cause: its `hist` was refused, for what a `hist` is refused for; or its batch costs more than the share has,
/// as it does if [`remainder_of`] returns none, and no item is counted; or its next item needed a block, and none
/// could be claimed. The recorder's deltas and snapshots, and what shared cursors gave it, are unchanged, and it has
/// seen and done no less. The histograms that it has come to know are of the reading [answer].
///
/// It records into the same segment [kept], and each histogram that it knew it knows at the same place [same].
///
/// The only error is `NoMemory`, if memory runs out for the report: the recorder is then unchanged [answer]. It asks
/// for 120 bytes for each histogram, for its name twice, and for eight bytes for each of its keys; then for what the
/// `hist` of each asks for.
pub fn merge(
    alloc: Global,
    recorder: &mut Recorder,
    reading: &Reading,
) -> Result<MergeReport, Refusal>
    ensures kept { recorder.new.segment ≡ recorder.old.segment }
    ensures same { KnowsOn recorder.old.state recorder.new.state }
    ensures answer { MatchResult result (λ report. Reports (reading_view reading.now).hists report (view_of_recorder recorder.old) (view_of_recorder recorder.new)) (λ why. (why ≡ NoMemory) × (recorder.new ≡ recorder.old)) }
{
    let parts = parts_of(alloc, reading)?;
    let mut added = Vec::with_capacity(alloc, reading.hists.len())?;
    for part in parts {
        let histogram = &reading.hists[added.len()];
        let stopped = merge_next(recorder, histogram, part, &mut added);
        if stopped.is_some() {
            return Ok(MergeReport { added, stopped });
        }
    }
    Ok(MergeReport {
        added,
        stopped: None,
    })
}

// What it needs for each histogram of a reading, in order.
fn parts_of(alloc: Global, reading: &Reading) -> Result<Vec<Part>, AllocError>
    ensures { IfOk result (λ parts. ArePartsOf reading.now.hists.items parts.items) }
{
    let mut parts = Vec::with_capacity(alloc, reading.hists.len())?;
    for histogram in reading.hists.iter() {
        parts.push(part_of(alloc, histogram)?)?;
    }
    Ok(parts)
}

// What it needs for one.
pub(crate) fn part_of(alloc: Global, histogram: &HistReading) -> Result<Part, AllocError>
    ensures { IfOk result (IsPartOf histogram.now) }
{
    Ok(Part {
        name: Vec::from_slice(alloc, histogram.name.as_slice())?,
        stop_name: Vec::from_slice(alloc, histogram.name.as_slice())?,
        left: remainder_of(alloc, histogram)?,
    })
}

// Merges the next histogram, and puts its line at the end of the report; why the merge stops there, if it does.
pub(crate) fn merge_next(
    recorder: &mut Recorder,
    histogram: &HistReading,
    part: Part,
    added: &mut Vec<(Vec<u8>, u64)>,
) -> Option<MergeStop>
    requires part { IsPartOf histogram.now part }
    requires room { vec_len added.old < vec_capacity added.old }
    ensures kept { recorder.new.segment ≡ recorder.old.segment }
    ensures same { KnowsOn recorder.old.state recorder.new.state }
    ensures room { (vec_len added.new ≡ vec_len added.old + 1) × (vec_capacity added.new ≡ vec_capacity added.old) }
    ensures answer { Merges (histogram_view histogram.now) added.old.items result added.new.items (view_of_recorder recorder.old) (view_of_recorder recorder.new) }
{
    let Part {
        name,
        stop_name,
        left,
    } = part;
    let share = recorder.units();
    match add_left(recorder, histogram, left) {
        Ok(units) => {
            added.push_reserved((name, units));
            None
        }
        Err(BatchRefusal { added: items, why }) => {
            added.push_reserved((name, u64::from(share - recorder.units())));
            Some(MergeStop {
                name: stop_name,
                items,
                why,
            })
        }
    }
}

// Adds what is left of a histogram, and returns the units that were added.
fn add_left(
    recorder: &mut Recorder,
    histogram: &HistReading,
    left: Option<Remainder>,
) -> Result<u64, BatchRefusal>
    requires left { IsLeftOf histogram.now left }
    requires few { (view_of_recorder recorder.old).units.share ≤ 4294967295 }
    ensures kept { recorder.new.segment ≡ recorder.old.segment }
    ensures same { KnowsOn recorder.old.state recorder.new.state }
    ensures answer { MatchResult result (λ units. IsMerged (histogram_view histogram.now ∷ []) (view_of_recorder recorder.old) (view_of_recorder recorder.new) × (units ≡ units_left (histogram_view histogram.now))) (λ refusal. StopsAt (histogram_view histogram.now) refusal.added refusal.why (view_of_recorder recorder.old) (view_of_recorder recorder.new)) }
{
    let known = match recorder.hist(&histogram.name, &histogram.spec) {
        Ok(known) => known,
        Err(why) => return Err(BatchRefusal { added: 0, why }),
    };
    let Some(remainder) = left else {
        let why = Refusal::NoUnits;
        return Err(BatchRefusal { added: 0, why });
    };
    recorder.batch(known, &remainder.items, remainder.sum)?;
    Ok(units_in(&remainder.items))
}

// The units of all items.
fn units_in(items: &[(i32, u32)]) -> u64
    requires { units_of items.now ≤ 4294967295 }
    ensures { result ≡ units_of items.now }
{
    let mut units = 0;
    for item in items {
        units += u64::from(item.1);
    }
    units
}
