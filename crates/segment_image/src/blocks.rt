//! The blocks of an image.

use crate::fault::ImageFault;

/// What a block's header says.
#[derive(Clone, Copy, PartialEq, Eq)]
pub struct BlockHead {
    /// The words of the block, its header of four included.
    pub size: u64,
    /// The type: 0 purged, 1 histogram, 2 counts, 3 sparse sample.
    pub tag: u64,
    /// The reference of the next record on the list; the queue's, 12, ends the list.
    pub next: u64,
}

ghost use Rattle.std.specs.Prelude.{◌≡◌, Ok, true};
ghost use Rattle.segment_image.specs.Head.{header_of};
ghost use Rattle.segment_image.specs.Blocks.{block_of, is_placed, is_claimed};

use crate::head::SegmentHead;
use crate::layout::{
    BLOCK_COOKIE, BLOCK_LEAST, BLOCK_NEXT, BLOCK_SIZE, BLOCK_TYPE, CLAIMED_COOKIE, HEADER_WORDS,
};

const LEAST: u64 = BLOCK_LEAST as u64;

/// Returns the header of the block at a reference of an image whose header, read from the same words, is `head`; or
/// the first fault of that block.
///
/// `BadRef` if the reference is below 16 or the smallest block, of five words, does not fit below the free pointer;
/// `BadBlock` if the cookie is another, the size is below five words, the block passes the free pointer, or its first
/// and last word lie in different pages. It takes no memory.
pub fn block(words: &[u64], head: &SegmentHead, reference: u64) -> Result<BlockHead, ImageFault>
    requires { header_of words.now ≡ Ok head.now }
    ensures { result ≡ block_of words.now head.now reference }
{
    if !lies_within(head, reference) {
        return Err(ImageFault::BadRef);
    }
    if !was_claimed(words, head, reference) {
        return Err(ImageFault::BadBlock);
    }
    let at = reference as usize;
    Ok(BlockHead {
        size: words[at + BLOCK_SIZE],
        tag: words[at + BLOCK_TYPE],
        next: words[at + BLOCK_NEXT],
    })
}

// Whether the smallest block fits at a reference, after the header and below the free pointer.
fn lies_within(head: &SegmentHead, reference: u64) -> bool
    ensures { result ≡ is_placed head.now reference }
{
    reference >= HEADER_WORDS as u64 && head.free >= LEAST && reference <= head.free - LEAST
}

// Whether the words there are a block that was claimed, whole in one page.
fn was_claimed(words: &[u64], head: &SegmentHead, reference: u64) -> bool
    requires header { header_of words.now ≡ Ok head.now }
    requires placed { is_placed head.now reference ≡ true }
    ensures { result ≡ is_claimed words.now head.now reference }
{
    let at = reference as usize;
    let size = words[at + BLOCK_SIZE];
    if words[at + BLOCK_COOKIE] != CLAIMED_COOKIE || size < LEAST || size > head.free - reference {
        return false;
    }
    let page = head.shape.page();
    reference / page == (reference + size - 1) / page
}
