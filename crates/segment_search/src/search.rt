//! The search for a segment among bytes.

ghost use Rattle.std.specs.Prelude.{◌≡◌, ◌≢◌, ◌≤◌, ◌<◌, ◌↔◌, false, true, IfSome, IfOk, IfErr, MatchResult, IsErrOf};
ghost use Rattle.segment_image.specs.Watched.{has_failed, watched_inner};
ghost use Rattle.segment_search.specs.Places.{words_in, IsNth, HasCause};

use crate::fault::SearchFault;
use crate::window::Window;
use segment_image::layout::HEADER_WORDS;
use segment_image::{Image, Watched};
use std::alloc::Global;
use std::io::Read;

// The number of words that are 2^64 bytes.
const MOST_WORDS: u64 = 2_305_843_009_213_693_952;

/// A segment that was found.
#[derive(Drop)]
pub struct Found {
    /// The number of words before it.
    pub word: u64,
    /// Its words.
    pub image: Image,
}

/// Returns the segment with the number `nth`, counted from 1, among the bytes that a reader has left. There is a
/// segment at each whole word at which there is a valid header, followed by all the words that it says; it also counts
/// inside another segment's words.
///
/// The reader must not have failed before. On `Ok` the segment is at the word that is returned, has exactly these
/// words, and `nth` - 1 segments begin before it. `NoSegment` is returned only if there are fewer than `nth`, `TooLong`
/// only if there are 2^64 bytes or more and the segment is not in the first 2^64 of them [answer]. The fault is
/// `Device` exactly if a read failed, whatever the failure is [device], and never `Write` [no_write]. It is `NoMemory`
/// if memory runs out for the words of a segment, or of what looks like one, and a block. The word is below 2^61
/// [within].
pub fn find_segment<R: Read>(
    alloc: Global,
    reader: &mut Watched<R>,
    nth: u64,
) -> Result<Found, SearchFault>
    requires first { 1 ≤ nth }
    requires went { has_failed reader.old ≡ false }
    ensures answer { IfSome (R.remaining (watched_inner reader.old)) (λ bytes. MatchResult result
        (λ found. IsNth (words_in bytes) nth found.word found.image) (HasCause bytes nth)) }
    ensures device { IsErrOf result SearchFault.Device ↔ (has_failed reader.new ≡ true) }
    ensures within { IfOk result (λ found. found.word < MOST_WORDS) }
    ensures no_write { IfErr result (λ fault. fault ≢ SearchFault.Write) }
{
    let mut window = Window::new(alloc);
    let mut left = nth;
    for word in 0..MOST_WORDS {
        if !window.has_words(reader, HEADER_WORDS)? {
            return Err(SearchFault::NoSegment);
        }
        if let Some(size) = window.segment_size(reader)? {
            if left == 1 {
                let image = window.into_image(size);
                return Ok(Found { word, image });
            }
            left -= 1;
        }
        window.pass();
    }
    Err(SearchFault::TooLong)
}
