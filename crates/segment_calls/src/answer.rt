//! What a delta and a snapshot return.

/// What a delta took of a histogram: what was counted since the deltas before it.
#[derive(Drop)]
pub struct Delta {
    /// The keys of which it took units, ascending, each with how many it took.
    pub counts: Vec<(i32, u64)>,
    /// What it took of the sum.
    pub sum: i64,
}

/// What a snapshot saw of a histogram.
#[derive(Drop)]
pub struct Snapshot {
    /// The key and the units of each bucket, in order; of a sparse histogram the values that have units, ascending.
    pub counts: Vec<(i32, u64)>,
    /// The sum of the samples.
    pub sum: i64,
    /// The units that are counted a second time, apart from the buckets.
    pub redundant: u64,
}
