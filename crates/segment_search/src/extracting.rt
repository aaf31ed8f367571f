//! Writes a segment that was found as an image.

ghost use Rattle.std.specs.Prelude.{◌≡◌, ◌≢◌, ◌≤◌, ◌↔◌, false, true, IfSome, IfErr, OnOk, MatchResult, IsErrOf};
ghost use Rattle.segment_image.specs.Watched.{has_failed, is_flushed, watched_inner};
ghost use Rattle.segment_search.specs.Places.{IsExtracted, HasCause};

use crate::fault::SearchFault;
use crate::search::find_segment;
use segment_image::{Watched, write_words};
use std::alloc::Global;
use std::io::{Read, Write};

/// Writes the words of the segment with the number `nth`, counted from 1, among the bytes that a reader has left, and
/// flushes. Returns the number of bytes before the segment.
///
/// The reader and the writer must not have failed before. On `Ok` the segment is at that place, and exactly the bytes
/// of its words were appended to what the writer holds; `NoSegment` and `TooLong` have their cause in the bytes, as for
/// [`find_segment`] [answer]. On `Ok` the writer is flushed [flushed]. The fault is `Device` exactly if a read failed
/// [device], and `Write` exactly if the write or the flush failed [write]. After any other fault the writer is
/// unchanged [untouched].
pub fn extract<R: Read, W: Write>(
    alloc: Global,
    reader: &mut Watched<R>,
    nth: u64,
    out: &mut Watched<W>,
) -> Result<u64, SearchFault>
    requires first { 1 ≤ nth }
    requires went { has_failed reader.old ≡ false }
    requires sound { has_failed out.old ≡ false }
    ensures answer { IfSome (R.remaining (watched_inner reader.old)) (λ bytes. MatchResult result
        (λ place. IsExtracted bytes nth place (W.contents (watched_inner out.old)) (W.contents (watched_inner out.new))) (HasCause bytes nth)) }
    ensures device { IsErrOf result SearchFault.Device ↔ (has_failed reader.new ≡ true) }
    ensures write { IsErrOf result SearchFault.Write ↔ (has_failed out.new ≡ true) }
    ensures flushed { OnOk result (is_flushed out.new ≡ true) }
    ensures untouched { IfErr result (λ fault. fault ≢ SearchFault.Write → out.new ≡ out.old) }
{
    let found = find_segment(alloc, reader, nth)?;
    write_words(out, found.image.words()).map_err(|_| SearchFault::Write)?;
    out.flush().map_err(|_| SearchFault::Write)?;
    Ok(8 * found.word)
}
