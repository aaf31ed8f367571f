//! Whether histograms are those of a sum: in order, and each with the keys of its spec.

ghost use Rattle.std.specs.Prelude.{◌≡◌, ◌↔◌, ◌∷◌, ◌<◌, ◌+◌, ◌-◌, ◌^◌, FitsSigned, true, pos, length, map, take, IfOk};
ghost use Rattle.std.specs.Int.{w128};
ghost use Rattle.std.specs.Ordering.{nat_cmp};
ghost use Rattle.std.specs.List.{All};
ghost use Rattle.std.specs.List.Sorted.{IsStrictlySortedBy};
ghost use Rattle.reading_sums.specs.Orders.{hist_cmp, key_cmp};
ghost use Rattle.reading_sums.specs.Whole.{values_of, AreWhole, HasItsBuckets, IsInForm, IsInRange, IsWholeHist};

use crate::hist::{HistSum, by_name_and_spec};
use crate::key::{KeySum, units_fit};
use bucket_ranges::{Ranges, Spec, SpecFault};
use std::alloc::{AllocError, Global};

// Whether each of these is above 0 and below the next.
fn ascend_above_zero(values: &[u32]) -> bool
    ensures { (result ≡ true) ↔ IsStrictlySortedBy nat_cmp (0 ∷ values.now) }
{
    let mut last = 0;
    for i in 0..values.len() {
        if values[i] <= last {
            return false;
        }
        last = values[i];
    }
    true
}

// Whether the values of a custom spec are in the form of a segment.
fn is_in_form(spec: &Spec) -> bool
    ensures { (result ≡ true) ↔ IsInForm spec.now }
{
    match spec {
        Spec::Custom(values) => ascend_above_zero(values.as_slice()),
        _ => true,
    }
}

// Whether the values of the keys ascend.
fn keys_ascend(keys: &[KeySum]) -> bool
    ensures { (result ≡ true) ↔ IsStrictlySortedBy key_cmp keys.now }
{
    for i in 1..keys.len() {
        if !keys[i - 1].value.cmp(&keys[i].value).is_lt() {
            return false;
        }
    }
    true
}

// Whether the keys are the buckets of these ranges.
fn are_buckets(ranges: &Ranges, keys: &[KeySum]) -> bool
    ensures { (result ≡ true) ↔ (values_of keys.now ≡ map pos (take (length ranges.now - 1) ranges.now)) }
{
    if keys.len() != ranges.len() {
        return false;
    }
    for i in 0..keys.len() {
        if keys[i].value != ranges.low(i) {
            return false;
        }
    }
    true
}

// Whether a spec is valid, and keys that ascend are its buckets.
fn has_its_buckets(alloc: Global, hist: &HistSum) -> Result<bool, AllocError>
    ensures { IfOk result (λ has. (has ≡ true) ↔ HasItsBuckets hist.now) }
{
    match Ranges::of(alloc, &hist.spec) {
        Ok(ranges) => Ok(match &hist.spec {
            Spec::Sparse => true,
            _ => are_buckets(&ranges, &hist.keys),
        }),
        Err(SpecFault::NoMemory) => Err(AllocError),
        Err(_) => Ok(false),
    }
}

// Shows that numbers of a histogram are in the ranges of their types. It does nothing: a proof knows this of each
// number that is passed.
fn are_in_range(sum: i128, sum_mark: i128, redundant: u64, images: u64)
    ensures sum { FitsSigned w128 sum }
    ensures sum_mark { FitsSigned w128 sum_mark }
    ensures redundant { redundant < 2 ^ 64 }
    ensures images { images < 2 ^ 64 }
{}

// Whether a histogram has a valid spec, the keys of that spec, and units that together fit 64 bits.
fn is_whole(alloc: Global, hist: &HistSum) -> Result<bool, AllocError>
    ensures whole { IfOk result (λ is. (is ≡ true) ↔ IsWholeHist hist.now) }
    ensures range { IfOk result (λ is. is ≡ true → IsInRange hist.now) }
{
    are_in_range(hist.sum, hist.sum_mark, hist.redundant, hist.images);
    if is_in_form(&hist.spec) && keys_ascend(&hist.keys) && units_fit(&hist.keys) {
        has_its_buckets(alloc, hist)
    } else {
        Ok(false)
    }
}

// Whether histograms ascend by name and spec.
fn hists_ascend(hists: &[HistSum]) -> bool
    ensures { (result ≡ true) ↔ IsStrictlySortedBy hist_cmp hists.now }
{
    for i in 1..hists.len() {
        if !by_name_and_spec(&hists[i - 1], &hists[i]).is_lt() {
            return false;
        }
    }
    true
}

// Whether each of the histograms is whole.
fn all_whole(alloc: Global, hists: &[HistSum]) -> Result<bool, AllocError>
    ensures whole { IfOk result (λ are. (are ≡ true) ↔ All IsWholeHist hists.now) }
    ensures range { IfOk result (λ are. are ≡ true → All IsInRange hists.now) }
{
    for i in 0..hists.len() {
        if !is_whole(alloc, &hists[i])? {
            return Ok(false);
        }
    }
    Ok(true)
}

/// Whether these histograms ascend by name and spec, and each has a valid spec, the keys of that spec, and units that
/// together fit 64 bits.
pub(crate) fn are_whole(alloc: Global, hists: &[HistSum]) -> Result<bool, AllocError>
    ensures { IfOk result (λ are. (are ≡ true) ↔ AreWhole hists.now) }
{
    if hists_ascend(hists) {
        all_whole(alloc, hists)
    } else {
        Ok(false)
    }
}
