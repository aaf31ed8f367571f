//! What can be asked of a segment.

use bucket_ranges::Spec;

/// A call on a segment.
#[derive(Drop)]
pub enum Call {
    /// The histogram of a name and a spec, which is made if there is none.
    Hist(Vec<u8>, Spec),
    /// Counts a value in the histogram of a name, as many times as the last number says.
    Add(Vec<u8>, i32, u32),
    /// What was counted in the histogram of a name since the deltas before.
    Delta(Vec<u8>),
    /// What is counted in the histogram of a name.
    Snapshot(Vec<u8>),
    /// Counts values in the histogram of a name, each as often as the number with it says, and adds to its sum.
    Batch(Vec<u8>, Vec<(i32, u32)>, i64),
    /// Marks the segment as corrupt.
    SetCorrupt,
}
