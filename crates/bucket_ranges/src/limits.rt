//! The limits of histograms, which every crate takes from here.

/// The boundary after the last bucket of every histogram; every value that a bucket counts is below it.
pub const LAST_BOUNDARY: u32 = 2_147_483_647;

/// The greatest value that a bucket counts.
pub const MAX_VALUE: u32 = 2_147_483_646;

/// The most buckets of a histogram.
pub const MAX_BUCKETS: u32 = 1000;

/// The most values of a custom spec.
pub const MAX_CUSTOM_VALUES: usize = 999;

/// The most bytes of a histogram's name.
pub const MAX_NAME: u64 = 128;

/// The most units that a single word holds for its bucket.
pub const MAX_PACKED: u64 = 65_535;

/// The most units of a segment, of a bucket and of a sample.
pub const MAX_UNITS: u64 = 4_294_967_295;

/// The most that a sum can be above or below 0: `MAX_UNITS` units of a value of 2^31 in size.
pub const MAX_SUM: u64 = 9_223_372_034_707_292_160;
