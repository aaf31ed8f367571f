//! The words of an input: a closed image, or a mapped file with an image in it.

ghost use Rattle.std.specs.Prelude.{◌≡◌, ◌≢◌, ◌↔◌, true, false, IfOk, IfErr, IfSome, IsErrOf, if◌then◌else◌};
ghost use Rattle.segment_image.specs.Words.{bytes_of_words};
ghost use Rattle.segment_image.specs.Watched.{has_failed, watched_inner};
ghost use Rattle.persist_report_core.specs.Report.{IsCausedByImage};
ghost use Rattle.persist_report_core.specs.Input.{is_mapped, image_in};

use crate::fault::CliFault;
use segment_image::layout::{MAX_SIZE, SEGMENT_COOKIE, SIZE_WORD};
use segment_image::{ReadFault, Watched, fill, push_words, read_more_words};
use std::alloc::Global;
use std::io::Read;

/// The most words that an image has.
pub const MAX_WORDS: usize = MAX_SIZE as usize;

// The most words that a mapped file has.
const MAX_MAPPED_WORDS: usize = MAX_WORDS + 10;

// Whether words are those of a mapped file.
fn is_mapped(words: &[u64]) -> bool
    ensures { result ≡ is_mapped words.now }
{
    words.len() > 1 && words[0] == 0 && words[1] == SEGMENT_COOKIE
}

// The most words of an input that begins with these words.
fn most_words(words: &[u64]) -> usize
    ensures { result ≡ (if is_mapped words.now then MAX_MAPPED_WORDS else MAX_WORDS) }
{
    if is_mapped(words) {
        MAX_MAPPED_WORDS
    } else {
        MAX_WORDS
    }
}

/// Returns the image in the words of an input. A mapped file begins with a word of 0 and then the cookie of a segment;
/// its image is the words from the second on, as many as the header there says, or all if there are fewer. Of any other
/// input it is all words.
pub fn image_in(words: &[u64]) -> &[u64]
    ensures { result.now ≡ image_in words.now }
{
    if !is_mapped(words) {
        return words;
    }
    let segment = &words[1..];
    match segment.get(SIZE_WORD) {
        Some(size) if *size < segment.len() as u64 => &segment[..*size as usize],
        Some(_) => segment,
        None => &[],
    }
}

/// Reads all bytes that a reader has left, as the words of an input: a closed image or a mapped file.
///
/// The reader has not failed before. On `Ok` the words' bytes are all that it had left [words]. `TooLong` is returned
/// only if there are more than 8,388,608 bytes, or, in a mapped file, more than 8,388,688; `NotWords` only if there are
/// no more and their number is no multiple of eight [cause]. `Read` is returned exactly if a read failed [read], and
/// `NoMemory` if memory runs out for the words. There is no other fault [other].
pub fn read_input<R: Read>(alloc: Global, reader: &mut Watched<R>) -> Result<Vec<u64>, CliFault>
    requires { has_failed reader.old ≡ false }
    ensures words { IfOk result (λ words. IfSome (R.remaining (watched_inner reader.old)) (λ bytes. bytes_of_words words.items ≡ bytes)) }
    ensures cause { IfErr result (λ fault. IfSome (R.remaining (watched_inner reader.old)) (λ bytes. IsCausedByImage bytes fault)) }
    ensures read { IsErrOf result CliFault.Read ↔ (has_failed reader.new ≡ true) }
    ensures other { IfErr result (λ fault. fault ≢ CliFault.Write) }
{
    let mut words = Vec::new(alloc);
    let mut front = [0u8; 16];
    let came = fill(reader, &mut front)?;
    if came % 8 != 0 {
        return Err(CliFault::NotWords);
    }
    push_words(&mut words, &front[..came])?;
    if came == front.len() {
        let most = most_words(&words);
        read_more_words(&mut words, reader, most)?;
    }
    Ok(words)
}
