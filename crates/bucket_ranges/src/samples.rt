//! What samples add up to, counted one by one.

ghost use Rattle.std.specs.Prelude.{◌≡◌, if◌then◌else◌, ◌*◌, ◌+◌, ◌<◌, ◌≤◌, ℤ, [], length, IfOk, OnOk};
ghost use Rattle.std.specs.Ordering.{int_cmp, int_eq};
ghost use Rattle.std.specs.Map.{count_at};
ghost use Rattle.std.specs.BTreeMap.{get, IsOrdered};
ghost use Rattle.std.specs.Int.RustNames.{unsigned_abs};
ghost use Rattle.bucket_ranges.specs.Tally.{AreCounts, AreValueCounts, HaveUnits, bucket_counts as bucket_counts_of, units_of as units_of_samples, counted_value as counted_value_of, amount_of as amount_of_sample, sum_of as sum_of_amounts};

use crate::ranges::{Ranges, clamp};
use std::alloc::{AllocError, Global};
use std::collections::BTreeMap;

/// What samples add up to.
#[derive(Drop)]
pub struct Plain {
    /// The units of all buckets in order, each under its least value; of sparse ranges the values that have units,
    /// ascending.
    pub counts: Vec<(i32, u64)>,
    /// The units of all samples.
    pub units: u64,
    /// The sum of the values, each as often as it has units. Values are clamped first, unless the ranges are sparse.
    pub sum: i64,
}

/// Adds samples up, each a value and its units: the result that every histogram of the same samples has to have. It
/// has the units of each bucket under its least value or, if the ranges are sparse, of each value that has units
/// [counts]; the number of all units [units]; and the sum of the values, each as often as it has units [sum]. The
/// samples have at most 4,294,967,295 units.
///
/// The only error is that memory runs out for the counts.
pub fn tally(alloc: Global, ranges: &Ranges, samples: &[(i32, u32)]) -> Result<Plain, AllocError>
    requires { units_of_samples samples.now ≤ 4294967295 }
    ensures counts { IfOk result (λ plain. AreCounts ranges.now samples.now plain.counts.items) }
    ensures units { IfOk result (λ plain. plain.units ≡ units_of_samples samples.now) }
    ensures sum { IfOk result (λ plain. plain.sum ≡ sum_of_amounts ranges.now samples.now) }
{
    let counts = if ranges.len() > 0 {
        bucket_counts(alloc, ranges, samples)?
    } else {
        value_counts(alloc, samples)?
    };
    Ok(Plain {
        counts,
        units: units_of(samples),
        sum: sum_of(ranges, samples),
    })
}

/// Returns all buckets in order, each under its least value and without units. The only error is that memory runs out.
pub fn empty_buckets(alloc: Global, ranges: &Ranges) -> Result<Vec<(i32, u64)>, AllocError>
    ensures { IfOk result (λ counts. counts.items ≡ bucket_counts_of ranges.now []) }
{
    let mut counts = Vec::with_capacity(alloc, ranges.len())?;
    for i in 0..ranges.len() {
        counts.push_reserved((ranges.low(i), 0));
    }
    Ok(counts)
}

// All buckets in order, each with the units of the samples in it.
fn bucket_counts(
    alloc: Global,
    ranges: &Ranges,
    samples: &[(i32, u32)],
) -> Result<Vec<(i32, u64)>, AllocError>
    requires buckets { 1 < length ranges.now }
    requires few { units_of_samples samples.now ≤ 4294967295 }
    ensures { IfOk result (λ counts. counts.items ≡ bucket_counts_of ranges.now samples.now) }
{
    let mut counts = empty_buckets(alloc, ranges)?;
    for (value, units) in samples {
        let bucket = ranges.bucket(*value);
        counts[bucket].1 += u64::from(*units);
    }
    Ok(counts)
}

// The values that have units, ascending, each with its units.
fn value_counts(alloc: Global, samples: &[(i32, u32)]) -> Result<Vec<(i32, u64)>, AllocError>
    requires { units_of_samples samples.now ≤ 4294967295 }
    ensures { IfOk result (λ counts. AreValueCounts samples.now counts.items) }
{
    let mut counts = BTreeMap::new(alloc);
    for (value, units) in samples {
        add_units(&mut counts, *value, *units)?;
    }
    counts.into_iter().collect(alloc)
}

// Adds units to those of a value, which is inserted if it was not there. Nothing is inserted without units.
fn add_units(counts: &mut BTreeMap<i32, u64>, value: i32, units: u32) -> Result<(), AllocError>
    requires small { count_at (get int_cmp counts.old) value + units ≤ 4294967295 }
    requires ordered { IsOrdered int_cmp counts.old }
    requires some { HaveUnits counts.old }
    ensures added { OnOk result ((q : ℤ) → count_at (get int_cmp counts.new) q ≡ count_at (get int_cmp counts.old) q + (if int_eq q value then units else 0)) }
    ensures ordered { OnOk result (IsOrdered int_cmp counts.new) }
    ensures some { OnOk result (HaveUnits counts.new) }
{
    if units == 0 {
        return Ok(());
    }
    let so_far = counts.get(&value).copied().unwrap_or(0);
    counts.insert(value, so_far + u64::from(units))?;
    Ok(())
}

// The units of all samples.
fn units_of(samples: &[(i32, u32)]) -> u64
    requires { units_of_samples samples.now ≤ 4294967295 }
    ensures { result ≡ units_of_samples samples.now }
{
    samples.iter().map(|sample| u64::from(sample.1)).sum()
}

// A value as it counts for the sum.
fn counted_value(ranges: &Ranges, value: i32) -> i64
    ensures value { result ≡ counted_value_of ranges.now value }
    ensures small { unsigned_abs result ≤ 2147483648 }
{
    if ranges.len() > 0 {
        i64::from(clamp(value))
    } else {
        i64::from(value)
    }
}

/// Returns what a sample adds to the sum: its value as often as it has units [amount]. The value is clamped first,
/// unless the ranges are sparse. Its size is at most 2^31 for each unit [small].
pub fn amount_of(ranges: &Ranges, value: i32, units: u32) -> i64
    ensures amount { result ≡ amount_of_sample ranges.now (value, units) }
    ensures small { unsigned_abs result ≤ 2147483648 * units }
{
    counted_value(ranges, value) * i64::from(units)
}

// The sum of what the samples add.
fn sum_of(ranges: &Ranges, samples: &[(i32, u32)]) -> i64
    requires { units_of_samples samples.now ≤ 4294967295 }
    ensures { result ≡ sum_of_amounts ranges.now samples.now }
{
    let mut sum = 0;
    for (value, units) in samples {
        sum += amount_of(ranges, *value, *units);
    }
    sum
}
