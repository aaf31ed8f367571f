//! What came of a running segment is added by a recorder that C holds.

ghost use Rattle.std.specs.Prelude.{◌≡◌, ◌↔◌, IsTrue, length};
ghost use Rattle.povundiri_c.specs.Following.{AreHeadsOfOneSegment, FollowsReading, IsFollowReported, IsFollowReturned, follow_totals, status_of_follow_fault};
ghost use Rattle.povundiri_c.specs.Merging.{IsNamePut};
ghost use Rattle.povundiri_c.specs.Status.{status_of_refusal};

use crate::image_units::unspent;
use crate::merging::{put_name, units_in};
use crate::status::{COSTS_MORE, DONE, FELL, NO_MEMORY, OTHER_SEGMENT, of_refusal};
use crate::types::MergeTotals;
use image_reader::Reading;
use live_segment::{Recorder, Refusal};
use owned_recorder::OwnedRecorder;
use segment_image::SegmentHead;
use segment_merge::{FollowFault, FollowReport, Follower, MergeStop};

/// What a recorder is to follow, with the follower that does it; and how many units that may cost at most.
#[derive(Drop)]
pub(crate) struct FollowAsked {
    pub(crate) follower: Follower,
    pub(crate) reading: Reading,
    pub(crate) most: u64,
}

/// Whether two headers are of one segment.
pub(crate) fn is_same(one: &SegmentHead, other: &SegmentHead) -> bool
    ensures { IsTrue result ↔ AreHeadsOfOneSegment one.now other.now }
{
    one.id == other.id
        && one.shape.size() == other.shape.size()
        && one.shape.page() == other.shape.page()
        && one.version == other.version
}

/// The status of a reading that is not followed.
pub(crate) fn of_follow_fault(fault: FollowFault) -> u32
    ensures { result ≡ status_of_follow_fault fault }
{
    match fault {
        FollowFault::OtherSegment => OTHER_SEGMENT,
        FollowFault::Fell => FELL,
        FollowFault::TooMany { .. } => COSTS_MORE,
        FollowFault::NoMemory => NO_MEMORY,
    }
}

/// Adds what came of a reading by a recorder, and returns the recorder and the follower.
pub(crate) fn followed(
    owned: OwnedRecorder,
    asked: FollowAsked,
) -> (OwnedRecorder, (Follower, Result<FollowReport, FollowFault>))
    ensures { FollowsReading asked.reading asked.most asked.follower owned result.1.1 result.1.0 result.0 }
{
    let FollowAsked {
        mut follower,
        reading,
        most,
    } = asked;
    let (segment, state) = owned.into_parts();
    let mut recorder = Recorder::of_state(&segment, state);
    let answer = follower.merge(&mut recorder, reading, most);
    let state = recorder.into_state();
    (OwnedRecorder::of_parts(segment, state), (follower, answer))
}

/// What is returned of a reading of which nothing was added.
pub(crate) fn totals_of_reading(reading: &Reading) -> MergeTotals
    ensures { result ≡ follow_totals reading.now }
{
    MergeTotals {
        added: 0,
        left: 0,
        cost: 0,
        unspent: unspent(&reading.hists),
        items: 0,
        passed: 0,
        name_length: 0,
        full: reading.full,
        corrupt: reading.corrupt,
    }
}

// Puts where a histogram was cut short into totals, and its name into an array. Returns the status.
fn put_stop(stop: &MergeStop, name: &mut [u8], totals: &mut MergeTotals) -> u32
    ensures status { result ≡ status_of_refusal stop.now.why }
    ensures totals { totals.new ≡ record totals.old { items = stop.now.items; name_length = length stop.now.name.items } }
    ensures name { IsNamePut stop.now.name.items name.old name.new }
{
    totals.items = stop.items;
    totals.name_length = stop.name.len();
    put_name(&stop.name, name);
    of_refusal(stop.why)
}

// Puts a report into totals. Returns the status: of what stopped the merge, or else of what was passed over first.
fn put_follow_report(report: &FollowReport, name: &mut [u8], totals: &mut MergeTotals) -> u32
    requires { (totals.old.items ≡ 0) × (totals.old.name_length ≡ 0) }
    ensures { IsFollowReported totals.old report.now result totals.new name.old name.new }
{
    totals.added = units_in(&report.added);
    totals.left = report.units.saturating_sub(totals.added);
    totals.cost = report.cost;
    totals.passed = report.passed.len();
    if let Some(stop) = &report.stopped {
        return put_stop(stop, name, totals);
    }
    match report.passed.first() {
        Some(stop) => put_stop(stop, name, totals),
        None => DONE,
    }
}

/// Puts what came of a reading into its totals: its report, or what it costs if that is too much. Returns the status.
pub(crate) fn put_answer(
    answer: Result<FollowReport, FollowFault>,
    most: u64,
    name: &mut [u8],
    totals: &mut MergeTotals,
) -> u32
    requires { (totals.old.items ≡ 0) × (totals.old.name_length ≡ 0) }
    ensures { IsFollowReturned totals.old most answer result totals.new name.old name.new }
{
    match answer {
        Ok(report) => put_follow_report(&report, name, totals),
        Err(FollowFault::TooMany { cost }) => {
            totals.cost = cost;
            if cost <= most {
                of_refusal(Refusal::NoUnits)
            } else {
                COSTS_MORE
            }
        }
        Err(fault) => of_follow_fault(fault),
    }
}
