//! The blocks of a histogram.

use bucket_ranges::Spec;
use segment_calls::{Asked, Refusal};
use segment_image::Shape;
use segment_image::layout::{BLOCK_HEADER, MAX_PAGE, SAMPLE_LEAST};
use std::alloc::Global;

/// The words of the record of a value of a sparse histogram.
pub const SAMPLE_WORDS: u64 = SAMPLE_LEAST as u64;

/// The words of a histogram's blocks, their headers among them.
#[derive(Clone, Copy, PartialEq, Eq)]
pub struct Blocks {
    /// The words of its record.
    pub record: u64,
    /// The words of its counts; none for a sparse one, which has a record of `SAMPLE_WORDS` for each value.
    pub counts: Option<u64>,
}

impl Blocks {
    ghost use Rattle.std.specs.Prelude.{◌≡◌, IfOk};
    ghost use Rattle.size_texts.specs.Parts.{IsRecordSize, counts_size};

    /// Returns the blocks of the histogram of a name and a spec: its record [record] and its counts [counts].
    ///
    /// The error is why the histogram is refused in a segment with the widest pages, in which all blocks fit: `BadName`
    /// or `BadSpec`; or that memory ran out.
    pub fn of(alloc: Global, name: &[u8], spec: &Spec) -> Result<Blocks, Refusal>
        ensures record { IfOk result (λ blocks. IsRecordSize name.now spec.now blocks.record) }
        ensures counts { IfOk result (λ blocks. blocks.counts ≡ counts_size spec.now) }
    {
        let Ok(widest) = Shape::of(MAX_PAGE, MAX_PAGE) else {
            return Err(Refusal::TooLarge);
        };
        let asked = Asked::of(alloc, widest, name, spec)?;
        let record = BLOCK_HEADER as u64 + asked.payload.len() as u64;
        let counts = BLOCK_HEADER as u64 + 2 * asked.ranges.len() as u64;
        let counts = match spec {
            Spec::Sparse => None,
            _ => Some(counts),
        };
        Ok(Blocks { record, counts })
    }
}
