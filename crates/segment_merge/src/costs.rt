//! What the histograms of a reading have above their marks, and what it costs to add that.

ghost use Rattle.std.specs.Prelude.{◌≡◌, ◌+◌, ◌/◌, ◌-ℤ◌, min, sum_by, unsigned_abs};
ghost use Rattle.image_reader.specs.Views.{histogram_view};
ghost use Rattle.segment_merge.specs.Merge.{cost_left, units_left};

use crate::remainder::mark_beside;
use image_reader::HistReading;

// The units of a histogram above its marks, or the greatest `u64` if there are more.
fn units_above(hist: &HistReading) -> u64
    ensures { result ≡ min (units_left (histogram_view hist.now)) 18446744073709551615 }
{
    let mut units: u64 = 0;
    for i in 0..hist.counts.len() {
        let (_key, counted) = hist.counts[i];
        let mark = mark_beside(hist, i);
        units = units.saturating_add(counted.saturating_sub(mark));
    }
    units
}

// The units that its sum less the sum mark spends at least, or the greatest `u64` if these are more.
fn cost_of_sum(hist: &HistReading) -> u64
    ensures { result ≡ min ((unsigned_abs (hist.now.sum -ℤ hist.now.sum_mark) + 2147483647) / 2147483648) 18446744073709551615 }
{
    let size = hist.sum.abs_diff(hist.sum_mark);
    u64::try_from(size.div_ceil(1 << 31)).unwrap_or(u64::MAX)
}

// What histograms have above their marks.
#[derive(Clone, Copy)]
pub(crate) struct Above {
    // The units, or the greatest `u64` if there are more.
    pub(crate) units: u64,
    // What it costs to add these and the sums, or the greatest `u64` if it costs more.
    pub(crate) cost: u64,
}

// What a histogram has above its marks.
fn above_marks(hist: &HistReading) -> Above
    ensures units { result.units ≡ min (units_left (histogram_view hist.now)) 18446744073709551615 }
    ensures cost { result.cost ≡ min (cost_left (histogram_view hist.now)) 18446744073709551615 }
{
    let units = units_above(hist);
    let cost = units.max(cost_of_sum(hist));
    Above { units, cost }
}

// What all histograms have above their marks.
pub(crate) fn above_all(hists: &[HistReading]) -> Above
    ensures units { result.units ≡ min (sum_by (λ h. units_left (histogram_view h)) hists.now) 18446744073709551615 }
    ensures cost { result.cost ≡ min (sum_by (λ h. cost_left (histogram_view h)) hists.now) 18446744073709551615 }
{
    let mut units: u64 = 0;
    let mut cost: u64 = 0;
    for hist in hists {
        let more = above_marks(hist);
        units = units.saturating_add(more.units);
        cost = cost.saturating_add(more.cost);
    }
    Above { units, cost }
}

/// Returns the units of all histograms above their marks, or 18,446,744,073,709,551,615 if there are more.
pub fn units_of_all(hists: &[HistReading]) -> u64
    ensures { result ≡ min (sum_by (λ h. units_left (histogram_view h)) hists.now) 18446744073709551615 }
{
    above_all(hists).units
}

/// Returns the units that it costs to add what all histograms have above their marks, or 18,446,744,073,709,551,615 if
/// these are more: of each histogram its units, or the size of its sum less its mark, divided by 2^31 and rounded up, if
/// that is more.
pub fn cost_of_all(hists: &[HistReading]) -> u64
    ensures { result ≡ min (sum_by (λ h. cost_left (histogram_view h)) hists.now) 18446744073709551615 }
{
    above_all(hists).cost
}
