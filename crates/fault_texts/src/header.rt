//! Which word of the header of an image is wrong, and what it has to be.

ghost use Rattle.std.specs.Prelude.{◌≡◌};
ghost use Rattle.fault_texts.specs.Header.{word_of};

use segment_image::ImageFault;
use segment_image::layout::{
    COOKIE_WORD, FREE_WORD, PAGE_WORD, QUEUE, SIZE_WORD, STATE_WORD, VERSION_WORD,
};

/// Returns the index of the word that has this fault, if one has it; for the queue block, that of the first of its
/// three words.
pub fn word_of(fault: ImageFault) -> Option<usize>
    ensures { result ≡ word_of fault }
{
    match fault {
        ImageFault::BadCookie => Some(COOKIE_WORD),
        ImageFault::BadVersion => Some(VERSION_WORD),
        ImageFault::BadPage => Some(PAGE_WORD),
        ImageFault::BadSize => Some(SIZE_WORD),
        ImageFault::NotReady | ImageFault::Deleted => Some(STATE_WORD),
        ImageFault::BadFree => Some(FREE_WORD),
        ImageFault::BadQueue => Some(QUEUE as usize),
        ImageFault::TooShort
        | ImageFault::BadRef
        | ImageFault::BadBlock
        | ImageFault::Loop
        | ImageFault::NoMemory => None,
    }
}

/// What the word has to be that has this fault.
pub fn wanted_of(fault: ImageFault) -> &'static str {
    match fault {
        ImageFault::BadCookie => "0x408305dc; is this a Povundiri image?",
        ImageFault::BadVersion => "1 or 2",
        ImageFault::BadPage => "a multiple of 16 from 64 to 65536",
        ImageFault::BadSize => {
            "the number of the words that there are, in whole pages and at most 1048576"
        }
        ImageFault::NotReady => "1",
        ImageFault::Deleted => "1; the segment was deleted",
        ImageFault::BadFree => "from 16 to the number of words",
        ImageFault::BadQueue => "4, and the two after it 1 and 0",
        ImageFault::TooShort
        | ImageFault::BadRef
        | ImageFault::BadBlock
        | ImageFault::Loop
        | ImageFault::NoMemory => "valid",
    }
}
