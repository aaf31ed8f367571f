//! Looks at a running segment.

ghost use Rattle.std.specs.Prelude.{◌≡◌, ◌≢◌, ◌⊎◌, ◌↔◌, ◌<◌, length, IfOk, IfErr};
ghost use Rattle.segment_looks.specs.Looks.{head_of_copies};
ghost use Rattle.std.specs.Prelude.{ℕ, List, Result};
ghost use Rattle.povundiri_c.specs.declared.status.Refused.{Refused as RefusedCall};
ghost use Rattle.povundiri_c.specs.Looks.{IsLookBy, IsLookCopied, IsLookWritten, status_of_look_fault};

use crate::handle::Handle;
use crate::status::{DONE, EMPTY, Refused, SHORT, of_look_fault};
use segment_looks::compose;
use std::alloc::Global;

/// Writes the image that three copies of the words of a segment give, taken one after the other, as the library's
/// `compose` does. It has as many words as the third copy.
///
/// - The status is 7 exactly if the array has fewer words than the third copy [short].
/// - Else it is that of the first fault of the copies, if they have one: 500 and the number of a header's fault,
///   which is 505 also for copies of different lengths, or 302 for a segment of version 1 [fault]. Where they have
///   none, it is 0; or 13, if memory runs out [valid].
/// - 0: the image is at the front of the array, and the words after it are unchanged [done]. On any other the array is
///   unchanged [untouched].
#[unsafe(no_mangle)]
pub extern "C" fn povundiri_proved_compose(
    alloc: Global,
    one: &[u64],
    two: &[u64],
    three: &[u64],
    image: &mut [u64],
) -> u32
    ensures short { (result ≡ 7) ↔ (length image.old < length three.now) }
    ensures fault { result ≢ 7 → IfErr (head_of_copies one.now two.now three.now) (λ fault. result ≡ status_of_look_fault fault) }
    ensures valid { result ≢ 7 → IfOk (head_of_copies one.now two.now three.now) (λ _. (result ≡ 0) ⊎ (result ≡ 13)) }
    ensures done { result ≡ 0 → IsLookWritten one.now two.now three.now image.old image.new }
    ensures untouched { result ≢ 0 → image.new ≡ image.old }
{
    if image.len() < three.len() {
        return SHORT;
    }
    match compose(alloc, one, two, three) {
        Ok(look) => {
            let words = look.words();
            image[..words.len()].copy_from_slice(words);
            DONE
        }
        Err(fault) => of_look_fault(fault),
    }
}

/// Writes a look at a handle's segment, into which other threads may record meanwhile, as the library's `Segment::look`
/// does. It has as many words as the segment. The handle holds the same [same].
///
/// 3 if the handle holds nothing, 5 if it holds no segment; 7 exactly if it holds a segment that has more
/// words than the array. Else 0, or that of the fault: 302 for a segment of version 1, 13 if memory runs out. On 0
/// the image is at the front of the array, what comes after it is unchanged, and its number of words is returned. On
/// any other the array is unchanged, and 0 is returned as that number, but on 7 the number of the segment's words
/// [answer].
#[unsafe(no_mangle)]
pub extern "C" fn povundiri_proved_segment_look(
    alloc: Global,
    segment: &mut Handle,
    image: &mut [u64],
    needed: &mut usize,
) -> u32
    ensures answer { (result_of : Result (List ℕ) RefusedCall) × IsLookBy (length image.old) segment.old.boxed.held result_of × IsLookCopied result_of result needed.new image.old image.new }
    ensures same { segment.new.boxed.held ≡ segment.old.boxed.held }
{
    let room = image.len();
    match segment.call(Err(Refused::of(EMPTY)), |held| held.look(alloc, room)) {
        Ok(look) => {
            let words = look.words();
            image[..words.len()].copy_from_slice(words);
            *needed = words.len();
            DONE
        }
        Err(refused) => {
            *needed = refused.length;
            refused.status
        }
    }
}
