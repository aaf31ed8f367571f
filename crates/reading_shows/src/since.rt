//! What came to the histograms of a reading since an earlier one.

ghost use Rattle.std.specs.Prelude.{◌≡◌, ◌<◌, ◌-◌, ◌^◌, ◌++◌, ℤ, get_or, max, sum, IfOk, OnOk};
ghost use Rattle.std.specs.List.{fold};
ghost use Rattle.std.specs.Map.{count_at};
ghost use Rattle.std.specs.BTreeMap.{get};
ghost use Rattle.std.specs.Ordering.{int_cmp};
ghost use Rattle.image_reader.specs.Views.{histogram_view};
ghost use Rattle.reading_shows.specs.Since.{is_same as is_same_histogram, same_spec as is_same_spec, counts_before as counts_before_of, units_at, came_to as came_to_row, came_to_rows, came_text};
ghost use Rattle.reading_shows.specs.SinceViews.{since_view};

use bucket_ranges::Spec;
use image_reader::HistReading;
use reading_overviews::put_number;
use reading_texts::HistRow;
use std::alloc::{AllocError, Global};
use std::collections::BTreeMap;

// Whether a text says what came since an earlier reading, and the histograms of that reading.
#[derive(Clone, Copy)]
pub(crate) struct Since<'a> {
    pub(crate) is_told: bool,
    pub(crate) hists: &'a [HistReading],
}

// Whether two specs are the same.
fn same_spec(one: &Spec, other: &Spec) -> bool
    ensures { result ≡ is_same_spec one.now other.now }
{
    one.is_same(other)
}

// Whether an earlier histogram has the name and the spec of a histogram.
fn is_same(hist: &HistReading, earlier: &HistReading) -> bool
    ensures { result ≡ is_same_histogram (histogram_view hist.now) (histogram_view earlier.now) }
{
    earlier.name.as_slice() == hist.name.as_slice() && same_spec(&earlier.spec, &hist.spec)
}

// The counts that a histogram had.
pub(crate) fn counts_before<'a>(since: Since<'a>, hist: &HistReading) -> &'a [(i32, u64)]
    ensures { result.now ≡ counts_before_of (since_view since.entry).hists (histogram_view hist.now) }
{
    for earlier in since.hists {
        if is_same(hist, earlier) {
            return earlier.counts.as_slice();
        }
    }
    &[]
}

// The units of each value in counts.
fn units_by_value(alloc: Global, counts: &[(i32, u64)]) -> Result<BTreeMap<i32, u64>, AllocError>
    ensures { IfOk result (λ units. (value : ℤ) → count_at (get int_cmp units) value ≡ units_at counts.now value) }
{
    let mut units = BTreeMap::new(alloc);
    for (value, count) in counts {
        units.insert(*value, *count)?;
    }
    Ok(units)
}

// The units that came to a value, which has `units` now, since it had those in `before`.
fn came_to(before: &BTreeMap<i32, u64>, value: i32, units: u64) -> u64
    ensures { result ≡ units - count_at (get int_cmp before.now) value }
{
    let had = before.get(&value).copied().unwrap_or(0);
    units.saturating_sub(had)
}

// The units that came to each of these rows; none if the text does not say them.
pub(crate) fn cames_of(
    alloc: Global,
    is_told: bool,
    before: &[(i32, u64)],
    rows: &[HistRow],
) -> Result<Vec<u64>, AllocError>
    ensures { IfOk result (λ cames. cames.items ≡ came_to_rows is_told before.now rows.now) }
{
    let mut cames = Vec::new(alloc);
    if !is_told {
        return Ok(cames);
    }
    let units = units_by_value(alloc, before)?;
    for row in rows {
        cames.push(came_to(&units, row.low, row.units))?;
    }
    Ok(cames)
}

// What came to one of several rows; 0 if the text does not say it.
pub(crate) fn came_at(cames: &[u64], i: usize) -> u64
    ensures { result ≡ get_or cames.now i 0 }
{
    cames.get(i).copied().unwrap_or(0)
}

// What came to all of them.
pub(crate) fn came_in_all(cames: &[u64]) -> u64
    requires { sum cames.now < 2 ^ 64 }
    ensures { result ≡ sum cames.now }
{
    cames.iter().sum()
}

// The most that came to one of them.
pub(crate) fn most_that_came(cames: &[u64]) -> u64
    ensures { result ≡ fold max 0 cames.now }
{
    let mut most = 0;
    for came in cames {
        most = most.max(*came);
    }
    most
}

// Puts units that came, after all units.
pub(crate) fn put_came(text: &mut Vec<u8>, is_human: bool, came: u64) -> Result<(), AllocError>
    ensures { OnOk result (text.new.items ≡ text.old.items ++ came_text is_human came) }
{
    if came == 0 {
        return Ok(());
    }
    text.extend_from_slice(b" +")?;
    put_number(text, is_human, came)
}
