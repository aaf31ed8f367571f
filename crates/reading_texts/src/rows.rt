//! The rows of a histogram, from which every text of it is made.

ghost use Rattle.std.specs.Prelude.{◌≡◌, ◌<◌, ◌^◌, IfOk, None, length, get_or, pos, ◌+ℤ◌};
ghost use Rattle.bucket_ranges.specs.Ranges.{boundaries_of};
ghost use Rattle.bucket_ranges.specs.Spec.{spec_fault};
ghost use Rattle.image_reader.specs.Views.{histogram_view};
ghost use Rattle.image_reader.specs.Readable.{IsReadable};
ghost use Rattle.reading_texts.specs.Rows.{highs_of, units_of, rows_of as rows_of_histogram};

use bucket_ranges::{Ranges, Spec, SpecFault};
use image_reader::HistReading;
use std::alloc::{AllocError, Global};

/// A bucket of a histogram, or a value of a sparse one.
#[derive(Clone, Copy, PartialEq, Eq)]
pub struct HistRow {
    /// Its least value.
    pub low: i32,
    /// The boundary after it: the least value of the next bucket, or 2,147,483,647; for a value, the value after it.
    pub high: i64,
    /// Its units.
    pub units: u64,
    /// Its units and those of all rows before it.
    pub up_to: u64,
}

// The ranges of a spec that is known to be valid.
fn ranges_of(alloc: Global, spec: &Spec) -> Result<Ranges, AllocError>
    requires { spec_fault spec.now ≡ None }
    ensures { IfOk result (λ ranges. ranges ≡ boundaries_of spec.now) }
{
    match Ranges::of(alloc, spec) {
        Ok(ranges) => Ok(ranges),
        Err(SpecFault::NoMemory) => Err(AllocError),
        Err(_) => unreachable!(),
    }
}

// The boundary after a value of a sparse histogram: the next value.
fn behind(value: i32) -> i64
    ensures { result ≡ value +ℤ pos 1 }
{
    i64::from(value) + 1
}

// The boundary after bucket `i`: the least value of the next one; in a sparse histogram, the value after it.
fn high(hist: &HistReading, ranges: &Ranges, i: usize) -> i64
    requires ranges { ranges.now ≡ boundaries_of hist.now.spec }
    requires readable { IsReadable (histogram_view hist.now) }
    requires within { i < length hist.now.counts.items }
    ensures { result ≡ get_or (highs_of hist.now.spec hist.now.counts.items) i (pos 0) }
{
    match hist.spec {
        Spec::Sparse => behind(hist.counts[i].0),
        _ => i64::from(ranges.high(i)),
    }
}

/// Returns the units of a histogram.
pub fn units(hist: &HistReading) -> u64
    requires { units_of (histogram_view hist.now) < 2 ^ 64 }
    ensures { result ≡ units_of (histogram_view hist.now) }
{
    hist.counts.iter().map(|(_, count)| *count).sum()
}

/// Returns all rows of a histogram, ascending, including those without units: for each bucket, or for each value of a
/// sparse histogram, its least value, the boundary after it, its units, and the units of it and of all rows before it.
/// The only error is that memory runs out.
pub fn rows_of(alloc: Global, hist: &HistReading) -> Result<Vec<HistRow>, AllocError>
    requires { IsReadable (histogram_view hist.now) }
    ensures { IfOk result (λ rows. rows.items ≡ rows_of_histogram (histogram_view hist.now)) }
{
    let ranges = ranges_of(alloc, &hist.spec)?;
    let mut rows = Vec::new(alloc);
    let mut up_to: u64 = 0;
    for (i, bucket) in hist.counts.iter().enumerate() {
        up_to += bucket.1;
        let high = high(hist, &ranges, i);
        rows.push(HistRow {
            low: bucket.0,
            high,
            units: bucket.1,
            up_to,
        })?;
    }
    Ok(rows)
}
