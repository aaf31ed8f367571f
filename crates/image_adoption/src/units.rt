//! The units that an image has used.

ghost use Rattle.std.specs.Prelude.{◌≡◌, ◌+◌, ◌/◌, ◌<◌, ◌^◌, Ok, min, sum_by, IfOk};
ghost use Rattle.segment_image.specs.Head.{header_of};
ghost use Rattle.bucket_ranges.specs.Reading.{reading_along};
ghost use Rattle.image_rules.specs.Adoption.{used_by as used_by_of, used_of as used_of_of};
ghost use Rattle.image_reader.specs.Survey.{IsSurvey};
ghost use Rattle.image_reader.specs.Views.{histogram_view};

use image_reader::{HistReading, Survey};
use segment_image::SegmentHead;
use std::alloc::{AllocError, Global};

// How much of the absolute value of a sum one unit pays for.
const UNIT_AMOUNT: u128 = 1 << 31;

// The units that an amount with this absolute value costs.
fn units_for(size: u128) -> u128
    ensures { result ≡ (size + 2147483647) / 2147483648 }
{
    size.div_ceil(UNIT_AMOUNT)
}

// All units of a histogram.
fn units(counts: &[(i32, u64)]) -> u64
    requires { sum_by (λ count. count.1) counts.now < 2 ^ 64 }
    ensures { result ≡ sum_by (λ count. count.1) counts.now }
{
    counts.iter().map(|count| count.1).sum()
}

// The units that a histogram has used: the greatest of its units, its redundant count, and the costs of its sum, its
// sum mark and the difference of these two.
fn used_by(hist: &HistReading) -> u128
    requires { sum_by (λ count. count.1) hist.now.counts.items < 2 ^ 64 }
    ensures { result ≡ used_by_of (histogram_view hist.now) }
{
    let sum = units_for(hist.sum.unsigned_abs());
    let mark = units_for(hist.sum_mark.unsigned_abs());
    let rest = units_for(hist.sum.abs_diff(hist.sum_mark));
    let counted = u128::from(units(&hist.counts));
    counted.max(u128::from(hist.redundant).max(sum.max(mark.max(rest))))
}

// The units used so far and some more, or 2^64 - 1 if there are more than that.
fn used_with(used: u64, more: u128) -> u64
    ensures { result ≡ min (used + more) 18446744073709551615 }
{
    match u64::try_from(more) {
        Ok(more) => used.saturating_add(more),
        Err(_) => u64::MAX,
    }
}

/// The units that the histograms of an image have used, or 2^64 - 1 if there are more. The counts are read and added up
/// one histogram at a time.
pub(crate) fn used_of(
    alloc: Global,
    words: &[u64],
    head: &SegmentHead,
    survey: &Survey,
) -> Result<u64, AllocError>
    requires header { header_of words.now ≡ Ok head.now }
    requires survey { IsSurvey words.now head.now survey.now }
    ensures { IfOk result (λ used. used ≡ min (used_of_of (reading_along words.now head.now survey.now.references.items)) 18446744073709551615) }
{
    let mut used: u64 = 0;
    for reference in &survey.hists {
        let hist = survey.hist(alloc, words, head, *reference)?;
        used = used_with(used, used_by(&hist));
    }
    Ok(used)
}
