//! Segments and their recorders.

ghost use Rattle.std.specs.Prelude.{◌≡◌, ◌⊎◌, true, false, Some, None};
ghost use Rattle.live_segment.specs.Holders.{IsMadeWith};
ghost use Rattle.povundiri_c.specs.declared.contents.Contents.{Contents as SomeContents};
ghost use Rattle.povundiri_c.specs.Calls.{asked_of, IsWritten, outstanding_in, units_of};
ghost use Rattle.povundiri_c.specs.Joins.{AnswersPassed, AnswersJoinCall, AnswersLendCall, AnswersRecorderCall};
ghost use Rattle.povundiri_c.specs.OpaqueBoxes.{is_some};
ghost use Rattle.povundiri_c.specs.Segments.{AnswersCloseCall, InLentRoom, IntoEmpty, IsCreated, IsFilledWith, IsTakenUp};

use crate::contents::Contents;
use crate::handle::Handle;
use crate::owned_segment::{JoinOrLend, OwnedSegment};
use crate::status::{DONE, EMPTY, NO_MEMORY, NOT_EMPTY, of_adopt_fault, of_open_fault};
use crate::types::SegmentShape;
use live_segment::{Lender, Memory, Opener, Room, Segment};
use std::alloc::Global;

/// Fills a handle, which is empty.
pub(super) fn fill(alloc: Global, out: &mut Handle, held: Contents) -> u32
    ensures { ((result ≡ 0) × (out.new.boxed.held ≡ Some held)) ⊎ ((result ≡ 13) × (out.new.boxed.held ≡ out.old.boxed.held)) }
{
    match Box::new(alloc, held) {
        Ok(boxed) => {
            out.put(boxed);
            DONE
        }
        Err(_) => NO_MEMORY,
    }
}

// Fills a handle, which is empty, with a segment.
fn fill_with_segment(
    alloc: Global,
    out: &mut Handle,
    segment: Segment,
    opener: Opener,
    cursors: usize,
) -> u32
    requires made { IsMadeWith segment opener }
    requires counted { cursors ≡ segment.setting.cursors }
    ensures { IsFilledWith segment opener result out.old.boxed.held out.new.boxed.held }
{
    match OwnedSegment::new(alloc, segment, opener, cursors) {
        Ok(owned) => fill(alloc, out, Contents::Segment(owned)),
        Err(_) => NO_MEMORY,
    }
}

// A new segment in a memory.
fn create_in(alloc: Global, memory: Memory, shape: SegmentShape, out: &mut Handle) -> u32
    ensures { IsCreated shape result out.old.boxed.held out.new.boxed.held }
{
    let made = Segment::create_in(
        alloc,
        memory,
        shape.size,
        shape.page,
        shape.id,
        shape.cursors,
        shape.version,
    );
    match made {
        Ok((segment, opener)) => fill_with_segment(alloc, out, segment, opener, shape.cursors),
        Err(fault) => of_open_fault(fault),
    }
}

// A segment in a memory that continues from an image.
fn adopt_in(alloc: Global, memory: Memory, words: &[u64], cursors: usize, out: &mut Handle) -> u32
    ensures { IsTakenUp words.now cursors result out.old.boxed.held out.new.boxed.held }
{
    match Segment::adopt_in(alloc, memory, words, cursors) {
        Ok((segment, opener)) => fill_with_segment(alloc, out, segment, opener, cursors),
        Err(fault) => of_adopt_fault(fault),
    }
}

/// Makes a new segment in the heap, into a handle that is empty, as the library's `create` does. 4 if the handle
/// holds something, and it holds the same. 0: it holds the segment and its opener. Else it holds nothing: the status
/// is that of the shape's first fault, 200 and its number; if it has none, 203 or 13, if memory runs out.
#[unsafe(no_mangle)]
pub extern "C" fn povundiri_proved_create(
    alloc: Global,
    shape: SegmentShape,
    out: &mut Handle,
) -> u32
    ensures { IntoEmpty (IsCreated shape) out.old.boxed.held result out.new.boxed.held }
{
    if out.is_full() {
        return NOT_EMPTY;
    }
    create_in(alloc, Memory::of_heap(alloc), shape, out)
}

/// The same in a room, as the library's `create_in`: 13 comes also if memory runs out for what lends the room,
/// whatever the shape is.
#[unsafe(no_mangle)]
pub extern "C" fn povundiri_proved_create_in(
    alloc: Global,
    room: Room,
    shape: SegmentShape,
    out: &mut Handle,
) -> u32
    ensures { IntoEmpty (InLentRoom (IsCreated shape)) out.old.boxed.held result out.new.boxed.held }
{
    if out.is_full() {
        return NOT_EMPTY;
    }
    match Lender::lend(alloc, room) {
        Ok((memory, _lender)) => create_in(alloc, memory, shape, out),
        Err(_room) => NO_MEMORY,
    }
}

/// Makes a segment in the heap that continues from an image, into a handle that is empty, as the library's `adopt`
/// does. 4 if the handle holds something, and it holds the same. 0: it holds the segment and its opener. Else it
/// holds nothing: the status is that of the fault that is right for the words, 500 and the number of the header's
/// first fault or 300 and that of another; or 13, if memory runs out, and then the image may be adopted.
#[unsafe(no_mangle)]
pub extern "C" fn povundiri_proved_adopt(
    alloc: Global,
    words: &[u64],
    cursors: usize,
    out: &mut Handle,
) -> u32
    ensures { IntoEmpty (IsTakenUp words.now cursors) out.old.boxed.held result out.new.boxed.held }
{
    if out.is_full() {
        return NOT_EMPTY;
    }
    adopt_in(alloc, Memory::of_heap(alloc), words, cursors, out)
}

/// The same in a room, as the library's `adopt_in`: 13 comes also if memory runs out for what lends the room,
/// whatever the words are.
#[unsafe(no_mangle)]
pub extern "C" fn povundiri_proved_adopt_in(
    alloc: Global,
    room: Room,
    words: &[u64],
    cursors: usize,
    out: &mut Handle,
) -> u32
    ensures { IntoEmpty (InLentRoom (IsTakenUp words.now cursors)) out.old.boxed.held result out.new.boxed.held }
{
    if out.is_full() {
        return NOT_EMPTY;
    }
    match Lender::lend(alloc, room) {
        Ok((memory, _lender)) => adopt_in(alloc, memory, words, cursors, out),
        Err(_room) => NO_MEMORY,
    }
}

/// Ends a segment without recorders, and writes its image: its handle is empty then, and `none` is put in its place.
///
/// 4 if `none` holds something, and all is unchanged [full]. Else [answer]:
///
/// - 3 if the handle holds nothing, 5 if it holds no segment; 7 exactly if it holds a segment that has more
///   words than the array, whose number is returned. Else 0 or 11, if a recorder is left. On any but 0 the array
///   is unchanged, and the handle holds the same.
/// - 0: the image is at the front of the array, whole: it has as many words as the segment, which is returned. What
///   comes after it is unchanged, and the handle holds nothing. The clauses of the library's `close` hold of the
///   image, for the segment and the opener that the handle held.
#[unsafe(no_mangle)]
pub extern "C" fn povundiri_proved_close(
    segment: &mut Handle,
    none: Handle,
    words: &mut [u64],
    needed: &mut usize,
) -> u32
    ensures full { is_some none.boxed.held ≡ true → (result ≡ 4) × (needed.new ≡ needed.old) × (words.new ≡ words.old) × (segment.new ≡ segment.old) }
    ensures answer { is_some none.boxed.held ≡ false → AnswersCloseCall segment.old.boxed.held result needed.old needed.new words.old words.new segment.new.boxed.held }
{
    let mut boxed = match segment.take(none) {
        Ok(boxed) => boxed,
        Err(status) => return status,
    };
    match boxed.close(words.len()) {
        Ok(image) => {
            let found = image.words();
            words[..found.len()].copy_from_slice(found);
            *needed = found.len();
            DONE
        }
        Err(refused) => {
            segment.put(boxed);
            *needed = refused.length;
            refused.status
        }
    }
}

/// Gives up a segment, a recorder, a sum or a follower: its handle is empty then, and `none` is put in its place. 4 if
/// `none` holds something [full], 3 if the handle holds nothing [empty], and all is unchanged; else 0, and it holds
/// nothing from then on [done].
#[unsafe(no_mangle)]
pub extern "C" fn povundiri_proved_drop(handle: &mut Handle, none: Handle) -> u32
    ensures full { is_some none.boxed.held ≡ true → (result ≡ 4) × (handle.new ≡ handle.old) }
    ensures empty { is_some none.boxed.held ≡ false → is_some handle.old.boxed.held ≡ false → (result ≡ 3) × (handle.new ≡ handle.old) }
    ensures done { is_some none.boxed.held ≡ false → is_some handle.old.boxed.held ≡ true → (result ≡ 0) × (handle.new.boxed.held ≡ None) }
{
    match handle.take(none) {
        Ok(boxed) => {
            drop(boxed);
            DONE
        }
        Err(status) => status,
    }
}

/// Makes a recorder of a segment with this many units, into a handle that is empty, as `owned_recorder` does. 4 if
/// `out` holds something, and both handles are unchanged [full].
///
/// Else, by what the segment's handle holds: 3 if that is nothing, 5 if it is no segment, and it holds the same. 0:
/// `out` holds a recorder of this segment with that many units. Else the status is the number of the first check that
/// fails, or 13, if memory runs out for what it is put into, which is made first; the segment is unchanged, and `out`
/// is still empty [answer].
#[unsafe(no_mangle)]
pub extern "C" fn povundiri_proved_recorder(
    alloc: Global,
    segment: &mut Handle,
    units: u32,
    out: &mut Handle,
) -> u32
    ensures full { is_some out.old.boxed.held ≡ true → (result ≡ 4) × (segment.new ≡ segment.old) × (out.new ≡ out.old) }
    ensures answer { is_some out.old.boxed.held ≡ false → AnswersRecorderCall units segment.old.boxed.held result segment.new.boxed.held out.new.boxed.held }
{
    if out.is_full() {
        return NOT_EMPTY;
    }
    let Ok(place) = Box::new(alloc, Contents::Nothing) else {
        return NO_MEMORY;
    };
    match segment.call(Err(EMPTY), |held| held.recorder(units)) {
        Ok(joinable) => {
            out.put(Contents::Recorder(joinable).put_into(place));
            DONE
        }
        Err(status) => status,
    }
}

// Passes a recorder to a segment. `none` takes its place in its handle; if the recorder comes back, it is put there
// again.
fn pass(segment: &mut Handle, recorder: &mut Handle, none: Handle, request: JoinOrLend) -> u32
    ensures full { is_some none.boxed.held ≡ true → (result ≡ 4) × (segment.new ≡ segment.old) × (recorder.new ≡ recorder.old) }
    ensures empty { is_some none.boxed.held ≡ false → recorder.old.boxed.held ≡ None → (result ≡ 3) × (segment.new ≡ segment.old) × (recorder.new ≡ recorder.old) }
    ensures answer { is_some none.boxed.held ≡ false → (passed : SomeContents) → recorder.old.boxed.held ≡ Some passed → AnswersPassed request passed segment.old.boxed.held (result, recorder.new.boxed.held) segment.new.boxed.held }
{
    let passed = match recorder.take(none) {
        Ok(passed) => passed,
        Err(status) => return status,
    };
    match segment.serve(passed, request) {
        (status, Some(passed)) => {
            recorder.put(passed);
            status
        }
        (status, None) => status,
    }
}

/// Lends units of its segment to a running recorder. 4 if `none` holds something [full], 3 if the recorder's handle
/// holds nothing [empty], and all is unchanged. Else [answer]: 3 if the segment's handle holds nothing, 5 if it holds
/// no segment or the other no recorder, and all is unchanged; otherwise:
///
/// - 104 exactly if the segment has fewer units, whichever segment the recorder is of: all is unchanged, and the
///   recorder is in its handle.
/// - A recorder of this segment: 0, the segment has lent it that many units, as the library's `lend` does, and it is
///   in the handle. Or 13 or 15, and all is unchanged.
/// - A recorder of another segment: 6, 13, 14 and 15 as with `povundiri_proved_join`. With 0 another recorder, which
///   is of this segment and was lent the units, is in the handle.
#[unsafe(no_mangle)]
pub extern "C" fn povundiri_proved_lend(
    segment: &mut Handle,
    recorder: &mut Handle,
    units: u32,
    none: Handle,
) -> u32
    ensures full { is_some none.boxed.held ≡ true → (result ≡ 4) × (segment.new ≡ segment.old) × (recorder.new ≡ recorder.old) }
    ensures empty { is_some none.boxed.held ≡ false → recorder.old.boxed.held ≡ None → (result ≡ 3) × (segment.new ≡ segment.old) × (recorder.new ≡ recorder.old) }
    ensures answer { is_some none.boxed.held ≡ false → (passed : SomeContents) → recorder.old.boxed.held ≡ Some passed → AnswersLendCall units passed segment.old.boxed.held (result, recorder.new.boxed.held) segment.new.boxed.held }
{
    pass(segment, recorder, none, JoinOrLend::Lend(units))
}

/// Takes a recorder back: its handle is empty then, and `none` is put in its place. 4 if `none` holds something
/// [full], 3 if the recorder's handle holds nothing [empty], and all is unchanged. Else [answer]: 3 if the
/// segment's handle holds nothing, 5 if it holds no segment or the other no recorder, and all is unchanged; otherwise
/// by the mailbox that a segment shares with the recorders that it has made, and with no others:
///
/// - A recorder of this segment: 0, its handle is empty, and the segment has joined it, as the library's `join` does.
///   Or 15, and all is unchanged: the recorder is still in its handle. So none is lost, and 6 and 14 are never returned
///   for one.
/// - A recorder of another segment: 6, it is in its handle, the same one, and the segment is unchanged, or has joined
///   another of its own that a thread passed to another segment. Or 15, and all is unchanged. Or the recorder's handle
///   is empty: the recorder was put into its own mailbox, and its own segment took it from there; the owned segment
///   has a proof of that. With 14 the segment is otherwise unchanged, with 0 it has joined another recorder of its own.
///   The clause of the call that took the recorder says what its own segment did with it.
#[unsafe(no_mangle)]
pub extern "C" fn povundiri_proved_join(
    segment: &mut Handle,
    recorder: &mut Handle,
    none: Handle,
) -> u32
    ensures full { is_some none.boxed.held ≡ true → (result ≡ 4) × (segment.new ≡ segment.old) × (recorder.new ≡ recorder.old) }
    ensures empty { is_some none.boxed.held ≡ false → recorder.old.boxed.held ≡ None → (result ≡ 3) × (segment.new ≡ segment.old) × (recorder.new ≡ recorder.old) }
    ensures answer { is_some none.boxed.held ≡ false → (passed : SomeContents) → recorder.old.boxed.held ≡ Some passed → AnswersJoinCall passed segment.old.boxed.held (result, recorder.new.boxed.held) segment.new.boxed.held }
{
    pass(segment, recorder, none, JoinOrLend::Join)
}

/// Returns 0 and the units that no recorder of a segment has, or those that a recorder may still spend; 3 if the
/// handle holds nothing, 5 if it is of another kind, and what was there is unchanged [answer]. The handle holds
/// the same [same].
#[unsafe(no_mangle)]
pub extern "C" fn povundiri_proved_units(handle: &mut Handle, units: &mut u32) -> u32
    ensures answer { IsWritten (asked_of units_of handle.old.boxed.held) result units.old units.new }
    ensures same { handle.new.boxed.held ≡ handle.old.boxed.held }
{
    match handle.call(Err(EMPTY), |held| held.units()) {
        Ok(found) => {
            *units = found;
            DONE
        }
        Err(status) => status,
    }
}

/// Returns 0 and how many recorders of a segment were made and are not joined; 3 if the handle holds nothing, 5
/// if it holds no segment, and what was there is unchanged [answer]. The handle holds the same [same].
#[unsafe(no_mangle)]
pub extern "C" fn povundiri_proved_outstanding(segment: &mut Handle, outstanding: &mut u32) -> u32
    ensures answer { IsWritten (asked_of outstanding_in segment.old.boxed.held) result outstanding.old outstanding.new }
    ensures same { segment.new.boxed.held ≡ segment.old.boxed.held }
{
    match segment.call(Err(EMPTY), |held| held.outstanding()) {
        Ok(found) => {
            *outstanding = found;
            DONE
        }
        Err(status) => status,
    }
}
