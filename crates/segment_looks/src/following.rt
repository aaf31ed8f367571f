//! The records that are followed.

ghost use Rattle.std.specs.Prelude.{◌≡◌, ◌≤◌, true, length, All, IfOk};
ghost use Rattle.segment_image.specs.Blocks.{is_placed as is_placed_in};
ghost use Rattle.segment_looks.specs.Looks.{followed_records as followed_of};

use segment_image::SegmentHead;
use segment_image::layout::{BLOCK_LEAST, BLOCK_NEXT, HEADER_WORDS, QUEUE};
use std::alloc::{AllocError, Global};

/// The records that the nexts of the second copy give from the queue block on, at most as many as there can be blocks
/// after the header [records]. There is room for a block at each of them [placed].
pub(crate) fn followed_records(
    alloc: Global,
    two: &[u64],
    head: &SegmentHead,
) -> Result<Vec<u64>, AllocError>
    requires long { HEADER_WORDS ≤ length two.now }
    requires free { head.now.free ≤ length two.now }
    ensures records { IfOk result (λ records. records.items ≡ followed_of head.now two.now) }
    ensures placed { IfOk result (λ records. All (λ at. is_placed_in head.now at ≡ true) records.items) }
{
    let most = (two.len() - HEADER_WORDS) / BLOCK_LEAST;
    let mut records = Vec::new(alloc);
    let mut next = two[QUEUE as usize + BLOCK_NEXT];
    while records.len() < most && is_placed(head, next) {
        records.push(next)?;
        next = two[next as usize + BLOCK_NEXT];
    }
    Ok(records)
}

// Whether the smallest block, if it is at a reference, lies after the header and below the free pointer.
fn is_placed(head: &SegmentHead, reference: u64) -> bool
    ensures { result ≡ is_placed_in head.now reference }
{
    let least = BLOCK_LEAST as u64;
    reference >= HEADER_WORDS as u64 && head.free >= least && reference <= head.free - least
}
