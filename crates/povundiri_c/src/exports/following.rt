//! What came of a running segment is added to another one.

ghost use Rattle.povundiri_c.specs.Followers.{AnswersFollowCall, AnswersSkipCall, IsFollowerMade, IsFollowerOfMarksMade};
ghost use Rattle.povundiri_c.specs.Segments.{IntoEmpty};

use super::segments::fill;
use crate::contents::Contents;
use crate::handle::Handle;
use crate::held_follower::HeldFollower;
use crate::status::{DONE, EMPTY, NOT_EMPTY};
use crate::types::MergeTotals;
use std::alloc::Global;

/// Makes a follower that has followed nothing and reads images of at most so many keys, into a handle that is empty. 4
/// if the handle holds something, and it holds the same. Else 0, and it holds that follower; or 13, if memory runs out,
/// and it holds nothing.
#[unsafe(no_mangle)]
pub extern "C" fn povundiri_proved_follower_new(
    alloc: Global,
    most_keys: u64,
    out: &mut Handle,
) -> u32
    ensures { IntoEmpty (IsFollowerMade most_keys) out.old.boxed.held result out.new.boxed.held }
{
    if out.is_full() {
        return NOT_EMPTY;
    }
    fill(
        alloc,
        out,
        Contents::Follower(HeldFollower::new(alloc, most_keys)),
    )
}

/// Makes a follower that has noted what deltas took of an image, as the library's `Follower::of_marks` does, and reads images
/// of at most so many keys, into a handle that is empty. 4 if the handle holds something, and it holds the same. Else 0, and
/// it holds that follower; or the status of the header's first fault, 500 and the fault's number, if it has one; 17: the
/// words read as more keys; 13 or 513, if memory runs out. On any but 0 it holds nothing.
#[unsafe(no_mangle)]
pub extern "C" fn povundiri_proved_follower_of_marks(
    alloc: Global,
    most_keys: u64,
    words: &[u64],
    out: &mut Handle,
) -> u32
    ensures { IntoEmpty (IsFollowerOfMarksMade words.now most_keys) out.old.boxed.held result out.new.boxed.held }
{
    if out.is_full() {
        return NOT_EMPTY;
    }
    match HeldFollower::of_marks(alloc, most_keys, words) {
        Ok(held) => fill(alloc, out, Contents::Follower(held)),
        Err(status) => status,
    }
}

/// Adds what an image has above what a follower has noted to a recorder's segment, and notes it, as the library's
/// `Follower::merge` does, if that costs at most `most` units and the recorder may spend them.
///
/// - 3 if one of the handles holds nothing; 5 if the first holds no follower, or the other no recorder. The status of the
///   header's first fault, 500 and the fault's number, if it has one. 6: the image has another id, size, page or version
///   than the last one that was followed. 17: the words read as more keys than the follower allows. 513: memory ran out
///   for the reading. Then all is unchanged.
/// - 21: the reading has less than is noted. 22: what came costs more than `most`; 104, and no name: it costs more than
///   the recorder may spend. With these two the cost is returned. 13: memory ran out. 6: as above. Then both are
///   unchanged.
/// - 0: all that came is added. Any other status is that of the refusal that stopped the merge, or, if none did, of the
///   first histogram that was passed over; its name is at the front of the array, as far as there is room. What was
///   added is noted, and the rest is not.
#[unsafe(no_mangle)]
pub extern "C" fn povundiri_proved_follower_merge(
    alloc: Global,
    follower: &mut Handle,
    recorder: &mut Handle,
    words: &[u64],
    most: u64,
    name: &mut [u8],
    totals: &mut MergeTotals,
) -> u32
    ensures { AnswersFollowCall words.now most follower.old.boxed.held recorder.old.boxed.held result totals.old totals.new name.old name.new follower.new.boxed.held recorder.new.boxed.held }
{
    follower.follow(alloc, recorder, words, most, name, totals)
}

/// Notes an image, adds nothing, and returns 0 and the units that it has above what was noted, as the library's
/// `Follower::skip` does. 3 if the handle holds nothing, 5 if it holds no follower. Else the statuses 6, 13, 17, 21, 500
/// and more are those of a merge. On any but 0 all is unchanged.
#[unsafe(no_mangle)]
pub extern "C" fn povundiri_proved_follower_skip(
    alloc: Global,
    follower: &mut Handle,
    words: &[u64],
    units: &mut u64,
) -> u32
    ensures { AnswersSkipCall words.now follower.old.boxed.held result units.old units.new follower.new.boxed.held }
{
    match follower.call(Err(EMPTY), |held| held.skip(alloc, words)) {
        Ok(found) => {
            *units = found;
            DONE
        }
        Err(status) => status,
    }
}
