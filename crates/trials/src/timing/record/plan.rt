//! What a burst records.

use bucket_ranges::limits::MAX_PACKED;
use live_segment::Spec;

const MOUNTED_SAMPLES: u32 = 1_000_000;

/// How many values are repeated.
pub(crate) const VALUES: usize = 4096;

/// What a burst records.
#[derive(Clone, Copy)]
pub(crate) struct Plan {
    /// Whether every sample is packed.
    pub(crate) packed: bool,
    /// Whether all threads record into the same histograms.
    pub(crate) shared: bool,
    /// How many threads there are.
    pub(crate) threads: u8,
}

impl Plan {
    /// How many histograms a thread records into.
    pub(crate) fn histograms(&self) -> u32 {
        if self.packed { 16 } else { 1 }
    }

    /// How many samples a thread records into each of them.
    pub(crate) fn samples(&self) -> u32 {
        match (self.packed, self.shared) {
            (false, _) => MOUNTED_SAMPLES,
            (true, false) => MAX_PACKED as u32,
            (true, true) => MAX_PACKED as u32 / u32::from(self.threads).max(1),
        }
    }

    /// The spec of every histogram.
    pub(crate) fn spec(&self) -> Spec {
        Spec::Linear {
            min: 1,
            max: 10_000,
            n: 50,
        }
    }

    /// The values of the samples, which are repeated: one value, which is not in the first or last bucket, if every
    /// sample is packed; else values in no order, for every bucket.
    pub(crate) fn values(&self) -> [i32; VALUES] {
        let mut values = [5000; VALUES];
        let mut state: u32 = 1;
        for value in values.iter_mut() {
            state = state.wrapping_mul(1_664_525).wrapping_add(1_013_904_223);
            if !self.packed {
                *value = ((state >> 8) % 10_100) as i32;
            }
        }
        values
    }
}
