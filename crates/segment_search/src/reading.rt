//! Words from a reader, a block at a time.

ghost use Rattle.std.specs.Prelude.{◌≡◌, ◌+◌, ◌<◌, ◌≤◌, ◌++◌, true, false, length, take, IfOk, IfErr, OnOk, OnErr, IsErrOf, ◌↔◌, ◌⊎◌};
ghost use Rattle.std.specs.Io.KnownBytes.{Consumes, IsAtEnd, Keeps};
ghost use Rattle.segment_image.specs.Watched.{has_failed, watched_inner};
ghost use Rattle.segment_search.specs.Places.{ahead, words_in};

use crate::fault::SearchFault;
use segment_image::layout::MAX_SIZE;
use segment_image::{Watched, fill, push_words};
use std::io::Read;

const BLOCK_WORDS: usize = 8192;

const BLOCK_BYTES: usize = 65_536;

/// Reads words until there are `count` of them, or the reader is at its end. There are fewer before the call, and these
/// stay in front.
///
/// The words, followed by what the reader has left, do not change [kept], and there are no fewer words than before
/// [longer]. If there are fewer than `count` after the call, the reader is at its end [end].
///
/// The reader must not have failed before. The fault is `Device` exactly if a read failed in this call [device];
/// otherwise it is `NoMemory`: memory ran out for the words, which are at most `count` and one block [other].
pub fn read_on<R: Read>(
    words: &mut Vec<u64>,
    reader: &mut Watched<R>,
    count: usize,
) -> Result<(), SearchFault>
    requires fewer { length words.old.items < count }
    requires few { count ≤ MAX_SIZE }
    requires went { has_failed reader.old ≡ false }
    ensures kept { OnOk result (Keeps (ahead words.old.items (R.remaining (watched_inner reader.old)))
        (ahead words.new.items (R.remaining (watched_inner reader.new)))) }
    ensures longer { OnOk result (length words.old.items ≤ length words.new.items) }
    ensures end { OnOk result (length words.new.items < count → IsAtEnd (R.remaining (watched_inner reader.new))) }
    ensures device { IsErrOf result SearchFault.Device ↔ (has_failed reader.new ≡ true) }
    ensures other { IfErr result (λ fault. (fault ≡ SearchFault.Device) ⊎ (fault ≡ SearchFault.NoMemory)) }
{
    let more = count + BLOCK_WORDS - words.len();
    words
        .reserve_exact(more)
        .map_err(|_| SearchFault::NoMemory)?;
    let mut block = [0u8; BLOCK_BYTES];
    while words.len() < count {
        let came = fill(reader, &mut block).map_err(|_| SearchFault::Device)?;
        push_words(words, &block[..came]).map_err(|_| SearchFault::NoMemory)?;
        if came < BLOCK_BYTES {
            break;
        }
    }
    Ok(())
}
