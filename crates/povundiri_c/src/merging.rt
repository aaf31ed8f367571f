//! What a dead segment counted is added by a recorder that C holds.

ghost use Rattle.std.specs.Prelude.{◌≡◌, min, sum_by, IfOk, MatchResult};
ghost use Rattle.povundiri_c.specs.Merging.{IsNamePut, AreNotRead, IsReadWithin, IsMergeReported, MergesReading, merge_totals};

use crate::image_units::unspent;
use crate::status::{DONE, TOO_MANY_KEYS, of_image_fault, of_refusal};
use crate::types::MergeTotals;
use image_reader::{Reading, has_more_keys, read};
use live_segment::{Recorder, Refusal};
use owned_recorder::OwnedRecorder;
use segment_merge::{MergeReport, cost_of_all, merge, units_of_all};
use std::alloc::Global;

/// What a recorder is to add.
#[derive(Clone, Copy)]
pub(crate) struct MergeAsked<'a> {
    pub(crate) alloc: Global,
    pub(crate) reading: &'a Reading,
}

/// What the words read as, if that is at most so many keys; or the status says why not.
pub(crate) fn read_within(alloc: Global, words: &[u64], most_keys: u64) -> Result<Reading, u32>
    ensures { MatchResult result (IsReadWithin words.now most_keys) (AreNotRead words.now most_keys) }
{
    match has_more_keys(alloc, words, most_keys) {
        Ok(true) => return Err(TOO_MANY_KEYS),
        Ok(false) => {}
        Err(fault) => return Err(of_image_fault(fault)),
    }
    match read(alloc, words) {
        Ok(reading) => Ok(reading),
        Err(fault) => Err(of_image_fault(fault)),
    }
}

/// What is returned of a reading of which nothing was added.
pub(crate) fn totals_of(reading: &Reading) -> MergeTotals
    ensures { result ≡ merge_totals reading.now 0 0 0 }
{
    MergeTotals {
        added: 0,
        left: units_of_all(&reading.hists),
        cost: cost_of_all(&reading.hists),
        unspent: unspent(&reading.hists),
        items: 0,
        passed: 0,
        name_length: 0,
        full: reading.full,
        corrupt: reading.corrupt,
    }
}

/// Adds a reading by a recorder, and returns both.
pub(crate) fn merged(
    owned: OwnedRecorder,
    asked: MergeAsked<'_>,
) -> (OwnedRecorder, Result<MergeReport, Refusal>)
    ensures { MergesReading asked.entry.reading.now owned result.1 result.0 }
{
    let (segment, state) = owned.into_parts();
    let mut recorder = Recorder::of_state(&segment, state);
    let answer = merge(asked.alloc, &mut recorder, asked.reading);
    let state = recorder.into_state();
    (OwnedRecorder::of_parts(segment, state), answer)
}

/// The units that were added to all histograms, or the greatest `u64` if there are more.
pub(crate) fn units_in(lines: &[(Vec<u8>, u64)]) -> u64
    ensures { result ≡ min (sum_by (λ line. line.1) lines.now) 18446744073709551615 }
{
    let mut units: u64 = 0;
    for line in lines {
        units = units.saturating_add(line.1);
    }
    units
}

/// Puts as much of a name to the front of an array as that has room for.
pub(crate) fn put_name(found: &[u8], name: &mut [u8])
    ensures { IsNamePut found.now name.old name.new }
{
    let length = found.len().min(name.len());
    name[..length].copy_from_slice(&found[..length]);
}

/// Puts a report into the totals of its reading, and the name of what stopped the merge into an array. Returns the
/// status.
pub(crate) fn put_report(
    reading: &Reading,
    report: &MergeReport,
    name: &mut [u8],
    totals: &mut MergeTotals,
) -> u32
    requires { totals.old ≡ merge_totals reading.now 0 0 0 }
    ensures { IsMergeReported reading.now report.now result totals.new name.old name.new }
{
    totals.added = units_in(&report.added);
    totals.left = totals.left.saturating_sub(totals.added);
    let Some(stop) = &report.stopped else {
        return DONE;
    };
    totals.items = stop.items;
    totals.name_length = stop.name.len();
    put_name(&stop.name, name);
    of_refusal(stop.why)
}
