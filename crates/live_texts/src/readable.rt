//! Whether histograms can be those of a segment.

ghost use Rattle.std.specs.Prelude.{◌≡◌, ◌↔◌, ◌<◌, ◌^◌, true, false, length, map, sum_by, None, All, IfOk, IfErr, IsErrOf};
ghost use Rattle.bucket_ranges.specs.Spec.{spec_fault};
ghost use Rattle.image_reader.specs.Readable.{IsOnePerBucket, IsReadable};
ghost use Rattle.image_reader.specs.Views.{histogram_view};

use bucket_ranges::{Ranges, Spec, SpecFault};
use image_reader::HistReading;
use reading_texts::is_sparse;
use std::alloc::{AllocError, Global};

// Whether the sum of the units fits in a word.
fn fit(counts: &[(i32, u64)]) -> bool
    ensures { result ≡ true ↔ (sum_by (λ count. count.1) counts.now < 2 ^ 64) }
{
    let mut sum: u64 = 0;
    for (_, units) in counts {
        match sum.checked_add(*units) {
            Some(more) => sum = more,
            None => return false,
        }
    }
    true
}

// Whether there are as many counts as buckets, if the histogram has buckets.
fn is_one_per_bucket(alloc: Global, spec: &Spec, counts: usize) -> Result<bool, AllocError>
    ensures { IfOk result (λ is. is ≡ true ↔ ((spec_fault spec.now ≡ None) × IsOnePerBucket spec.now counts)) }
{
    match Ranges::of(alloc, spec) {
        Ok(ranges) => Ok(is_sparse(spec) || counts == ranges.len()),
        Err(SpecFault::NoMemory) => Err(AllocError),
        Err(_) => Ok(false),
    }
}

// Whether a histogram can be one of a segment.
fn is_readable(alloc: Global, hist: &HistReading) -> Result<bool, AllocError>
    ensures { IfOk result (λ is. is ≡ true ↔ IsReadable (histogram_view hist.now)) }
{
    let is_whole = is_one_per_bucket(alloc, &hist.spec, hist.counts.len())?;
    Ok(is_whole && fit(hist.counts.as_slice()))
}

// Whether each of these histograms can be one of a segment.
pub(crate) fn are_readable(alloc: Global, hists: &[HistReading]) -> Result<bool, AllocError>
    ensures { IfOk result (λ are. are ≡ true ↔ All IsReadable (map histogram_view hists.now)) }
{
    for hist in hists {
        if !is_readable(alloc, hist)? {
            return Ok(false);
        }
    }
    Ok(true)
}
