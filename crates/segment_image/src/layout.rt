//! The words of a segment by name: the header, a block, and each record (Chromium's `persistent_memory_allocator`
//! and `PersistentHistogramData`, in 64-bit words); and how many there may be.
//!
//! The words of the header are at these indexes of a segment; those of blocks and records count from the first
//! word of their block.

/// The words of the header; blocks begin after them.
pub const HEADER_WORDS: usize = 16;

/// The fewest words of a page.
pub const MIN_PAGE: u64 = 64;

/// The most words of a page.
pub const MAX_PAGE: u64 = 65_536;

/// The number of words of a page is a multiple of this.
pub const PAGE_STEP: u64 = 16;

/// The most words of a segment.
pub const MAX_SIZE: u64 = 1_048_576;

/// The header's word with the segment's cookie.
pub const COOKIE_WORD: usize = 0;

/// The header's word with the version of the format.
pub const VERSION_WORD: usize = 1;

/// The header's word with the number of words of the segment.
pub const SIZE_WORD: usize = 2;

/// The header's word with the number of words of a page.
pub const PAGE_WORD: usize = 3;

/// The header's word with the segment's id.
pub const ID_WORD: usize = 4;

/// The header's word with the segment's state, `STATE_READY` or `STATE_DELETED`.
pub const STATE_WORD: usize = 5;

/// The header's word with the flags.
pub const FLAGS_WORD: usize = 6;

/// The header's word with the free pointer.
pub const FREE_WORD: usize = 7;

/// The header's word with the tail of the list of records.
pub const TAIL_WORD: usize = 8;

/// Where the queue block is, from which the list of records starts; and the next of the last record of the list.
pub const QUEUE: u64 = 12;

/// The cookie of a segment.
pub const SEGMENT_COOKIE: u64 = 0x4083_05DC;

/// The version of the format in which the units of a packed single word move to the counts.
pub const VERSION_MOVING: u64 = 1;

/// The version of the format in which they stay in the single word for good, which is frozen.
pub const VERSION_FROZEN: u64 = 2;

/// The state of a segment that is in use.
pub const STATE_READY: u64 = 1;

/// The state of a segment that nothing reads any more.
pub const STATE_DELETED: u64 = 2;

/// The flag of a segment that was found corrupt.
pub const FLAG_CORRUPT: u64 = 1;

/// The flag of a segment in which an allocation did not fit.
pub const FLAG_FULL: u64 = 2;

/// The size and the cookie of the queue block; its type is `TYPE_PURGED`.
pub const QUEUE_SIZE: u64 = 4;

/// The cookie of the queue block.
pub const QUEUE_COOKIE: u64 = 1;

/// A block's word with the number of its words, those of its header included.
pub const BLOCK_SIZE: usize = 0;

/// A block's word with its cookie.
pub const BLOCK_COOKIE: usize = 1;

/// A block's word with its type.
pub const BLOCK_TYPE: usize = 2;

/// A block's word with the reference of the next record on the list.
pub const BLOCK_NEXT: usize = 3;

/// The words of a block's header; its payload begins after them.
pub const BLOCK_HEADER: usize = 4;

/// The least number of words of a block.
pub const BLOCK_LEAST: usize = 5;

/// The cookie of a block that was claimed.
pub const CLAIMED_COOKIE: u64 = 0xC879_9269;

/// The cookie of the rest of a page that was wasted.
pub const WASTED_COOKIE: u64 = u64::MAX;

/// The type of a block that nobody uses.
pub const TYPE_PURGED: u64 = 0;

/// The type of a histogram's record.
pub const TYPE_HISTOGRAM: u64 = 1;

/// The type of a block of counts and marks.
pub const TYPE_COUNTS: u64 = 2;

/// The type of a sparse sample's record.
pub const TYPE_SAMPLE: u64 = 3;

/// A histogram's word with its kind.
pub const HISTOGRAM_KIND: usize = 4;

/// A histogram's word with its minimum; of a custom one the first boundary above 0.
pub const HISTOGRAM_MIN: usize = 5;

/// A histogram's word with its maximum; of a custom one the last boundary below 2,147,483,647.
pub const HISTOGRAM_MAX: usize = 6;

/// A histogram's word with the number of its buckets.
pub const HISTOGRAM_BUCKETS: usize = 7;

/// A histogram's word with the reference of its block of counts, 0 until there is one.
pub const HISTOGRAM_COUNTS: usize = 8;

/// A histogram's single word.
pub const HISTOGRAM_SINGLE: usize = 9;

/// From this word on, a single word says that the counts are in use: it is disabled, or frozen.
pub const DISABLED_BIT: u64 = 1 << 63;

/// The weight of the bucket in a single word that packs units of it: the units are below this, and the bucket above.
pub const BUCKET_WEIGHT: u64 = 1 << 32;

/// What a disabled word of version 1 has in place of a bucket if none was packed.
pub const NO_BUCKET: u64 = 65_535;

/// A histogram's word with the mark of its packed bucket.
pub const HISTOGRAM_SINGLE_MARK: usize = 10;

/// A histogram's word with its sum, in two's complement.
pub const HISTOGRAM_SUM: usize = 11;

/// A histogram's word with its sum mark, in two's complement.
pub const HISTOGRAM_SUM_MARK: usize = 12;

/// A histogram's word with its redundant count.
pub const HISTOGRAM_REDUNDANT: usize = 13;

/// A histogram's word with the number of bytes of its name.
pub const HISTOGRAM_NAME_LENGTH: usize = 14;

/// The first word of a histogram's name; after the name come the boundaries of a custom one.
pub const HISTOGRAM_NAME: usize = 15;

/// The least number of words of a histogram's record.
pub const HISTOGRAM_LEAST: usize = 16;

/// The kind of a linear histogram.
pub const KIND_LINEAR: u64 = 1;

/// The kind of a boolean histogram.
pub const KIND_BOOLEAN: u64 = 2;

/// The kind of a custom histogram.
pub const KIND_CUSTOM: u64 = 3;

/// The kind of a sparse histogram.
pub const KIND_SPARSE: u64 = 4;

/// A sample's word with the reference of its histogram.
pub const SAMPLE_HISTOGRAM: usize = 4;

/// A sample's word with its value, in two's complement.
pub const SAMPLE_VALUE: usize = 5;

/// A sample's word with its count.
pub const SAMPLE_COUNT: usize = 6;

/// A sample's word with its mark.
pub const SAMPLE_MARK: usize = 7;

/// The least number of words of a sample's record.
pub const SAMPLE_LEAST: usize = 8;
