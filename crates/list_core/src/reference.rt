//! The references that a list can have.

ghost use Rattle.std.specs.Prelude.{◌≡◌};
ghost use Rattle.list_core.specs.Chain.{is_reference as is_reference_of};

use segment_image::layout::{BLOCK_LEAST, HEADER_WORDS, QUEUE};

/// Whether a word can be a next or the tail: the queue block, or a place where a smallest block fits in `count` words.
pub(crate) fn is_reference(reference: u64, count: usize) -> bool
    ensures { result ≡ is_reference_of count reference }
{
    reference == QUEUE
        || (reference >= HEADER_WORDS as u64
            && count >= BLOCK_LEAST
            && reference <= (count - BLOCK_LEAST) as u64)
}
