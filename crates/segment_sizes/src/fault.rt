//! Why no size is known for blocks.

use thiserror::Error;

/// Why no size is known for blocks.
#[derive(Clone, Copy, Debug, PartialEq, Eq, Error)]
pub enum SizeFault {
    /// The page is no multiple of 16 words from 64 to 65,536.
    #[error("BadPage")]
    BadPage = 1,
    /// A block has fewer than five words, which none has.
    #[error("TooSmall")]
    TooSmall = 2,
    /// A block has more words than a page.
    #[error("TooLarge")]
    TooLarge = 3,
    /// There are more blocks than any segment has room for.
    #[error("TooMany")]
    TooMany = 4,
    /// The blocks may take more words than a segment can have.
    #[error("NoSize")]
    NoSize = 5,
}
