//! The header of an image.

use crate::fault::ImageFault;
use crate::layout::{
    BLOCK_COOKIE, BLOCK_SIZE, BLOCK_TYPE, COOKIE_WORD, FLAG_CORRUPT, FLAG_FULL, FLAGS_WORD,
    FREE_WORD, HEADER_WORDS, ID_WORD, PAGE_WORD, QUEUE, QUEUE_COOKIE, QUEUE_SIZE, SEGMENT_COOKIE,
    SIZE_WORD, STATE_DELETED, STATE_READY, STATE_WORD, TAIL_WORD, TYPE_PURGED, VERSION_FROZEN,
    VERSION_MOVING, VERSION_WORD,
};
use crate::shape::Shape;

/// What an image's header says.
#[derive(Clone, Copy, PartialEq, Eq)]
pub struct SegmentHead {
    /// The words of the segment and of its pages.
    pub shape: Shape,
    /// The version of the format, 1 or 2.
    pub version: u64,
    /// The segment's id, any number.
    pub id: u64,
    /// The free pointer: the words from there on were never claimed.
    pub free: u64,
    /// The tail of the list of records as the last publisher left it; reading does not look at it.
    pub tail: u64,
    /// Whether some thread found the segment corrupt.
    pub corrupt: bool,
    /// Whether an allocation did not fit.
    pub full: bool,
}

ghost use Rattle.std.specs.Prelude.{◌≡◌, ◌==◌, ◌&&◌, not, [], ◌∷◌};
ghost use Rattle.segment_image.specs.Checks.{first_fault};
ghost use Rattle.segment_image.specs.Head.{header_of};

/// Returns the header of an image, or its first fault: `TooShort`, `BadCookie`, `BadVersion`, `BadPage`, `BadSize`,
/// `NotReady`, `Deleted`, `BadFree`, `BadQueue`, checked in this order. Versions 1 and 2 are valid. Any words may be
/// given. It takes no memory.
pub fn header(words: &[u64]) -> Result<SegmentHead, ImageFault>
    ensures { result ≡ header_of words.now }
{
    if words.len() < HEADER_WORDS {
        return Err(ImageFault::TooShort);
    }
    if words[COOKIE_WORD] != SEGMENT_COOKIE {
        return Err(ImageFault::BadCookie);
    }
    let version = words[VERSION_WORD];
    if version != VERSION_MOVING && version != VERSION_FROZEN {
        return Err(ImageFault::BadVersion);
    }
    let size = words[SIZE_WORD];
    let shape = match Shape::of(size, words[PAGE_WORD]) {
        Err(ImageFault::BadPage) => return Err(ImageFault::BadPage),
        Ok(shape) if size == words.len() as u64 => shape,
        _ => return Err(ImageFault::BadSize),
    };
    if let Some(fault) = state_fault(words[STATE_WORD]) {
        return Err(fault);
    }
    let free = words[FREE_WORD];
    if free < HEADER_WORDS as u64 || free > size {
        return Err(ImageFault::BadFree);
    }
    let queue = QUEUE as usize;
    if words[queue + BLOCK_SIZE] != QUEUE_SIZE
        || words[queue + BLOCK_COOKIE] != QUEUE_COOKIE
        || words[queue + BLOCK_TYPE] != TYPE_PURGED
    {
        return Err(ImageFault::BadQueue);
    }
    Ok(SegmentHead {
        shape,
        version,
        id: words[ID_WORD],
        free,
        tail: words[TAIL_WORD],
        corrupt: words[FLAGS_WORD] & FLAG_CORRUPT != 0,
        full: words[FLAGS_WORD] & FLAG_FULL != 0,
    })
}

// `NotReady` or `Deleted`, if a segment's state is one of these.
fn state_fault(state: u64) -> Option<ImageFault>
    ensures { result ≡ first_fault ((not (state == 1) && not (state == 2), ImageFault.NotReady) ∷ (state == 2, ImageFault.Deleted) ∷ []) }
{
    if state != STATE_READY && state != STATE_DELETED {
        return Some(ImageFault::NotReady);
    }
    if state == STATE_DELETED {
        return Some(ImageFault::Deleted);
    }
    None
}
