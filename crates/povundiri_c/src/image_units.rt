//! The units that an image has left.

ghost use Rattle.std.specs.Prelude.{◌≡◌, ◌+◌, ◌/◌, ◌-◌, min, sum_by};
ghost use Rattle.image_reader.specs.Views.{histogram_view};
ghost use Rattle.image_rules.specs.Adoption.{used_by as used_by_of};
ghost use Rattle.povundiri_c.specs.Merging.{units_unspent};

use bucket_ranges::limits::MAX_UNITS;
use image_reader::HistReading;

// The units of all keys of a histogram, or the greatest `u64` if there are more.
fn counted(hist: &HistReading) -> u64
    ensures { result ≡ min (sum_by (λ count. count.1) hist.now.counts.items) 18446744073709551615 }
{
    let mut units: u64 = 0;
    for count in hist.counts.iter() {
        units = units.saturating_add(count.1);
    }
    units
}

// The units that an amount of this size costs, or the greatest `u64` if these are more.
fn units_for(size: u128) -> u64
    ensures { result ≡ min ((size + 2147483647) / 2147483648) 18446744073709551615 }
{
    u64::try_from(size.div_ceil(1 << 31)).unwrap_or(u64::MAX)
}

// The units that a histogram has used, as adoption counts them, or the greatest `u64` if these are more.
fn used_by(hist: &HistReading) -> u64
    ensures { result ≡ min (used_by_of (histogram_view hist.now)) 18446744073709551615 }
{
    let sum = units_for(hist.sum.unsigned_abs());
    let mark = units_for(hist.sum_mark.unsigned_abs());
    let rest = units_for(hist.sum.abs_diff(hist.sum_mark));
    counted(hist).max(hist.redundant.max(sum.max(mark.max(rest))))
}

/// The units that no histogram of an image has used.
pub(crate) fn unspent(hists: &[HistReading]) -> u64
    ensures { result ≡ units_unspent hists.now }
{
    let mut used: u64 = 0;
    for hist in hists {
        used = used.saturating_add(used_by(hist));
    }
    MAX_UNITS.saturating_sub(used)
}
