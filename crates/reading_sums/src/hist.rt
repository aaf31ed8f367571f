//! The histograms of a sum.

ghost use Rattle.std.specs.Prelude.{◌≡◌, ◌∷◌, ◌++◌, ◌+◌, ◌<◌, ◌≤◌, ◌+ℤ◌, FitsSigned, true, drop, length, map, IfOk, IfErr, OnErr};
ghost use Rattle.std.specs.Int.{w128};
ghost use Rattle.std.specs.Ordering.{is_eq};
ghost use Rattle.image_reader.specs.Views.{histogram_view};
ghost use Rattle.reading_sums.specs.Fitting.{PartsDoNotFit, HavePairTooGreat, IfTooMany, PairDoesNotFit};
ghost use Rattle.reading_sums.specs.Totals.{part_from, IsBoth, SameTotals};
ghost use Rattle.std.specs.List.{All};
ghost use Rattle.reading_sums.specs.Orders.{hist_cmp, ComesNext};
ghost use Rattle.reading_sums.specs.Views.{part_of, IsSideOf};
ghost use Rattle.reading_sums.specs.Whole.{AreWhole, IsInRange, IsWholeHist};

use crate::fault::SumsFault;
use crate::key::{KeySum, fitting_keys_of_both, keys_of};
use crate::notes::number_of_both;
use crate::order::{Side, by_spec};
use bucket_ranges::{CustomValues, Spec};
use image_reader::HistReading;
use std::alloc::{AllocError, Global};
use std::cmp::Ordering;

/// What the histograms of one name and one spec have together.
#[derive(Drop)]
pub struct HistSum {
    /// The bytes of the name.
    pub name: Vec<u8>,
    /// How they split the values into buckets.
    pub spec: Spec,
    /// The buckets in order, each under its least value; or the values that a sparse histogram among them has,
    /// ascending.
    pub keys: Vec<KeySum>,
    /// The sum of the samples.
    pub sum: i128,
    /// The part of the sum that deltas have taken.
    pub sum_mark: i128,
    /// The units that were counted a second time, apart from the buckets.
    pub redundant: u64,
    /// How many images have such a histogram.
    pub images: u64,
    /// The least number of an image that has one.
    pub least: u64,
}

/// A copy of a spec.
pub(crate) fn copy_of_spec(alloc: Global, spec: &Spec) -> Result<Spec, AllocError>
    ensures { IfOk result (λ copy. copy ≡ spec.now) }
{
    Ok(match spec {
        Spec::Linear { min, max, n } => Spec::Linear {
            min: *min,
            max: *max,
            n: *n,
        },
        Spec::Boolean => Spec::Boolean,
        Spec::Custom(values) => {
            Spec::Custom(CustomValues::from(Vec::from_slice(alloc, values.as_slice())?))
        }
        Spec::Sparse => Spec::Sparse,
    })
}

/// What the histogram of one image has; the image has a number.
pub(crate) fn sum_of(alloc: Global, number: u64, hist: &HistReading) -> Result<HistSum, AllocError>
    ensures part { IfOk result (λ sum. part_of sum ≡ part_from number (histogram_view hist.now)) }
    ensures range { IfOk result IsInRange }
{
    // A proof knows the range of a number that is read into a variable.
    let redundant = hist.redundant;
    Ok(HistSum {
        name: Vec::from_slice(alloc, &hist.name)?,
        spec: copy_of_spec(alloc, &hist.spec)?,
        keys: keys_of(alloc, &hist.counts, &hist.marks)?,
        sum: hist.sum,
        sum_mark: hist.sum_mark,
        redundant,
        images: 1,
        least: number,
    })
}

/// A copy of a histogram.
pub(crate) fn copy_of(alloc: Global, hist: &HistSum) -> Result<HistSum, AllocError>
    ensures { IfOk result (λ copy. part_of copy ≡ part_of hist.now) }
{
    Ok(HistSum {
        name: Vec::from_slice(alloc, &hist.name)?,
        spec: copy_of_spec(alloc, &hist.spec)?,
        keys: Vec::from_slice(alloc, &hist.keys)?,
        sum: hist.sum,
        sum_mark: hist.sum_mark,
        redundant: hist.redundant,
        images: hist.images,
        least: hist.least,
    })
}

// The sum of two amounts, if it fits 128 bits.
fn amount_of_both(left: &i128, right: &i128) -> Result<i128, SumsFault>
    ensures sum { IfOk result (λ sum. sum ≡ left.now +ℤ right.now) }
    ensures fits { IfOk result (FitsSigned w128) }
    ensures too_many { OnErr result (¬ FitsSigned w128 (left.now +ℤ right.now)) }
{
    left.checked_add(*right).ok_or(SumsFault::TooMany)
}

// What two histograms of one name and one spec have together.
fn both(alloc: Global, left: &HistSum, right: &HistSum) -> Result<HistSum, SumsFault>
    ensures both { IfOk result (λ sum. IsBoth (part_of left.now) (part_of right.now) (part_of sum)) }
    ensures whole { IfOk result (λ sum. left.now.spec ≡ right.now.spec → IsWholeHist left.now → IsWholeHist right.now → IsWholeHist sum) }
    ensures range { IfOk result IsInRange }
    ensures too_many { IfErr result (λ fault. IfTooMany fault (PairDoesNotFit (part_of left.now) (part_of right.now))) }
{
    Ok(HistSum {
        name: Vec::from_slice(alloc, &left.name)?,
        spec: copy_of_spec(alloc, &left.spec)?,
        keys: fitting_keys_of_both(alloc, &left.keys, &right.keys)?,
        sum: amount_of_both(&left.sum, &right.sum)?,
        sum_mark: amount_of_both(&left.sum_mark, &right.sum_mark)?,
        redundant: number_of_both(left.redundant, right.redundant)?,
        images: number_of_both(left.images, right.images)?,
        least: left.least.min(right.least),
    })
}

/// The order of two histograms: by name, then by spec.
pub(crate) fn by_name_and_spec(left: &HistSum, right: &HistSum) -> Ordering
    ensures order { result ≡ hist_cmp left.now right.now }
    ensures name { is_eq result ≡ true → left.now.name.items ≡ right.now.name.items }
    ensures spec { is_eq result ≡ true → left.now.spec ≡ right.now.spec }
{
    match left.name.as_slice().cmp(right.name.as_slice()) {
        Ordering::Less => Ordering::Less,
        Ordering::Equal => by_spec(&left.spec, &right.spec),
        Ordering::Greater => Ordering::Greater,
    }
}

/// Which of two lists, each of which ascends, begins with the least.
pub(crate) fn side_of(left: &[HistSum], right: &[HistSum]) -> Side
    requires { 0 < length left.now + length right.now }
    ensures { IsSideOf left.now right.now result }
{
    if right.is_empty() {
        return Side::Left;
    }
    if left.is_empty() {
        return Side::Right;
    }
    match by_name_and_spec(&left[0], &right[0]) {
        Ordering::Less => Side::Left,
        Ordering::Equal => Side::Both,
        Ordering::Greater => Side::Right,
    }
}

// The least of two lists, and how many elements of each it takes.
fn next_hist(
    alloc: Global,
    left: &[HistSum],
    right: &[HistSum],
) -> Result<(HistSum, usize, usize), SumsFault>
    requires { 0 < length left.now + length right.now }
    ensures left { IfOk result (λ next. next.1 ≤ length left.now) }
    ensures right { IfOk result (λ next. next.2 ≤ length right.now) }
    ensures some { IfOk result (λ next. 0 < next.1 + next.2) }
    ensures same { IfOk result (λ next. SameTotals (part_of next.0 ∷ (map part_of (drop next.1 left.now) ++ map part_of (drop next.2 right.now))) (map part_of left.now ++ map part_of right.now)) }
    ensures ordered { IfOk result (λ next. ComesNext hist_cmp next.0 next.1 next.2 left.now right.now) }
    ensures whole { IfOk result (λ next. All IsWholeHist left.now → All IsWholeHist right.now → IsWholeHist next.0) }
    ensures range { IfOk result (λ next. All IsInRange left.now → All IsInRange right.now → IsInRange next.0) }
    ensures too_many { IfErr result (λ fault. IfTooMany fault (HavePairTooGreat left.now right.now)) }
{
    match side_of(left, right) {
        Side::Left => Ok((copy_of(alloc, &left[0])?, 1, 0)),
        Side::Right => Ok((copy_of(alloc, &right[0])?, 0, 1)),
        Side::Both => Ok((both(alloc, &left[0], &right[0])?, 1, 1)),
    }
}

/// What two lists have together. If both ascend by name and spec, so does the result, and it has each name and spec
/// once.
pub(crate) fn sums_of_both(
    alloc: Global,
    left: &[HistSum],
    right: &[HistSum],
) -> Result<Vec<HistSum>, SumsFault>
    ensures same { IfOk result (λ hists. SameTotals (map part_of hists.items) (map part_of left.now ++ map part_of right.now)) }
    ensures whole { IfOk result (λ hists. AreWhole left.now → AreWhole right.now → AreWhole hists.items) }
    ensures too_many { IfErr result (λ fault. IfTooMany fault (AreWhole left.now → AreWhole right.now → PartsDoNotFit (map part_of left.now ++ map part_of right.now))) }
{
    let mut hists = Vec::with_capacity(alloc, left.len().max(right.len()))?;
    let (mut left_rest, mut right_rest) = (left, right);
    while !(left_rest.is_empty() && right_rest.is_empty()) {
        let (hist, of_left, of_right) = next_hist(alloc, left_rest, right_rest)?;
        hists.push(hist)?;
        left_rest = left_rest.split_at(of_left).1;
        right_rest = right_rest.split_at(of_right).1;
    }
    Ok(hists)
}
