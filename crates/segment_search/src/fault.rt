//! Why no segment was found, or why it was not written.

use thiserror::Error;

/// Why no segment was found, or why it was not written.
#[derive(Clone, Copy, Debug, PartialEq, Eq, Error)]
pub enum SearchFault {
    /// Memory ran out for the words of a segment, or for a block.
    #[error("NoMemory")]
    NoMemory = 1,
    /// A read failed.
    #[error("Device")]
    Device = 2,
    /// There are fewer segments among the bytes.
    #[error("NoSegment")]
    NoSegment = 3,
    /// There are 2^64 bytes or more, and the segment was not found in the first 2^64.
    #[error("TooLong")]
    TooLong = 4,
    /// A write failed, or the flush did. Part of the segment may have been written.
    #[error("Write")]
    Write = 5,
}
