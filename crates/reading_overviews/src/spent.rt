//! The units that an image has used.

ghost use Rattle.std.specs.Prelude.{◌≡◌, ◌+◌, ◌/◌, ◌<◌, ◌^◌, All, map, min};
ghost use Rattle.image_reader.specs.Readable.{IsReadable};
ghost use Rattle.image_reader.specs.Views.{histogram_view};
ghost use Rattle.image_rules.specs.Adoption.{used_by as used_by_of};
ghost use Rattle.reading_overviews.specs.Spent.{is_frozen as is_frozen_of, spent_by as spent_by_of, spent_of, units_left as units_left_of};

use bucket_ranges::limits::MAX_UNITS;
use image_reader::HistReading;
use reading_texts::units;
use segment_image::SegmentHead;
use segment_image::layout::VERSION_FROZEN;

// How much of the absolute value of a sum one unit pays for.
const UNIT_AMOUNT: u128 = 1 << 31;

// Whether an image is of version 2.
pub(crate) fn is_frozen(head: &SegmentHead) -> bool
    ensures { result ≡ is_frozen_of head.now }
{
    head.version == VERSION_FROZEN
}

// The units that an amount with this absolute value costs.
fn units_for(size: u128) -> u128
    ensures { result ≡ (size + 2147483647) / 2147483648 }
{
    size.div_ceil(UNIT_AMOUNT)
}

// The units that a histogram has used as adoption counts them.
fn used_by(hist: &HistReading) -> u128
    requires { IsReadable (histogram_view hist.now) }
    ensures { result ≡ used_by_of (histogram_view hist.now) }
{
    let sum = units_for(hist.sum.unsigned_abs());
    let mark = units_for(hist.sum_mark.unsigned_abs());
    let rest = units_for(hist.sum.abs_diff(hist.sum_mark));
    let counted = u128::from(units(hist));
    counted.max(u128::from(hist.redundant).max(sum.max(mark.max(rest))))
}

// The units that a histogram has used: in version 2 those that adoption counts, in version 1 its units.
fn spent_by(frozen: bool, hist: &HistReading) -> u128
    requires { IsReadable (histogram_view hist.now) }
    ensures { result ≡ spent_by_of frozen (histogram_view hist.now) }
{
    if frozen {
        used_by(hist)
    } else {
        u128::from(units(hist))
    }
}

// The units used so far and some more, or 2^64 - 1 if there are more than that.
fn spent_with(spent: u64, more: u128) -> u64
    ensures { result ≡ min (spent + more) 18446744073709551615 }
{
    match u64::try_from(more) {
        Ok(more) => spent.saturating_add(more),
        Err(_) => u64::MAX,
    }
}

// The units that all histograms have used, or 2^64 - 1 if there are more.
pub(crate) fn spent(frozen: bool, hists: &[HistReading]) -> u64
    requires { All IsReadable (map histogram_view hists.now) }
    ensures { result ≡ spent_of frozen (map histogram_view hists.now) }
{
    let mut spent: u64 = 0;
    for hist in hists {
        spent = spent_with(spent, spent_by(frozen, hist));
    }
    spent
}

// The units that a segment has left when `spent` are used.
pub(crate) fn units_left(spent: u64) -> u64
    ensures { result ≡ units_left_of spent }
{
    MAX_UNITS.saturating_sub(spent)
}
