//! What a histogram of a reading has that its deltas have not taken.

ghost use Rattle.std.specs.Prelude.{◌≡◌, ◌-ℤ◌, slice_index, FitsSigned, IfOk, MatchOption};
ghost use Rattle.std.specs.Int.{w64};
ghost use Rattle.segment_merge.specs.Remainder.{IsLeftOf};

use image_reader::HistReading;
use std::alloc::{AllocError, Global};

/// What deltas have not taken of a histogram.
#[derive(Drop)]
pub struct Remainder {
    /// The keys of which there are units left, in their order, each with how many.
    pub items: Vec<(i32, u32)>,
    /// What is left of the sum.
    pub sum: i64,
}

/// Returns what deltas have not taken of a histogram: of each key that has more units than its mark, those above it,
/// in order, and the sum less its mark. A key without a mark has the mark 0.
///
/// None exactly if more than 4,294,967,295 units of a key are left, or if the sum less its mark does not fit 64 bits.
/// No histogram that was read from an image is like this: a batch of what is left of it would cost more units than a
/// segment has.
pub fn remainder_of(alloc: Global, histogram: &HistReading) -> Result<Option<Remainder>, AllocError>
    ensures { IfOk result (IsLeftOf histogram.now) }
{
    let Some(sum) = sum_left(histogram) else {
        return Ok(None);
    };
    let mut items = Vec::with_capacity(alloc, histogram.counts.len())?;
    for i in 0..histogram.counts.len() {
        let (key, units) = histogram.counts[i];
        let mark = mark_beside(histogram, i);
        if mark < units {
            let Ok(left) = u32::try_from(units - mark) else {
                return Ok(None);
            };
            items.push_reserved((key, left));
        }
    }
    Ok(Some(Remainder { items, sum }))
}

// What is left of the sum, if it fits 64 bits.
fn sum_left(histogram: &HistReading) -> Option<i64>
    ensures { MatchOption result (¬ (FitsSigned w64 (histogram.now.sum -ℤ histogram.now.sum_mark))) (λ left. left ≡ histogram.now.sum -ℤ histogram.now.sum_mark) }
{
    let left = histogram.sum.checked_sub(histogram.sum_mark)?;
    i64::try_from(left).ok()
}

// The mark of the key at an index, or 0.
pub(crate) fn mark_beside(histogram: &HistReading, index: usize) -> u64
    ensures { result ≡ slice_index histogram.now.marks.items index }
{
    histogram.marks.get(index).copied().unwrap_or(0)
}
