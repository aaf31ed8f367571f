//! What a delta and a snapshot know of counts that are in use.

ghost use Rattle.std.specs.Prelude.{◌≡◌, ◌%◌, ◌^◌};
ghost use Rattle.hist_core.specs.Mounted.{total_at};

use segment_image::layout::BLOCK_HEADER;

/// The counts of a histogram, as they were found in use.
#[derive(Clone, Copy, PartialEq, Eq)]
pub(crate) struct Mounted {
    // Where they are.
    pub(crate) counts: u64,
    // The packed bucket, if there is one, and the units of it that the single word keeps.
    pub(crate) packed: Option<usize>,
    pub(crate) kept: u64,
}

impl Mounted {
    ghost use Rattle.std.specs.Prelude.{◌+◌};
    ghost use Rattle.segment_image.specs.declared.layout.TheConstants.{BLOCK_HEADER};

    // The word of the count of a bucket.
    pub(crate) fn next_load(self, bucket: usize) -> usize
        ensures { result ≡ (self.counts + (BLOCK_HEADER + bucket)) % 2 ^ 64 }
    {
        let place = bucket.wrapping_add(BLOCK_HEADER);
        (self.counts as usize).wrapping_add(place)
    }

    // The units of a bucket with this count: for the packed bucket, also those that the single word keeps.
    pub(crate) fn total(self, bucket: usize, count: u64) -> u64
        ensures { result ≡ total_at self bucket count }
    {
        if self.packed == Some(bucket) {
            count.wrapping_add(self.kept)
        } else {
            count
        }
    }
}
