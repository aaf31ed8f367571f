//! What a recorder reads.

ghost use Rattle.std.specs.Prelude.{◌≡◌, ◌≤◌, length};
ghost use Rattle.povundiri_c.specs.Asking.{AnswersDeltaCall, AnswersNextCall, AnswersRecordsCall, AnswersSnapshotCall, AreGiven};
ghost use Rattle.povundiri_c.specs.Recorders.{AtPlaceInRoom, TakesDelta, TakesSnapshot};

use crate::handle::Handle;
use crate::status::{DONE, EMPTY, OTHER_KIND, Refused, SHORT};
use crate::types::{Count, Totals};

// Writes counts to the front of an array that has room for them.
fn write_counts(counts: &[(i32, u64)], out: &mut [Count])
    requires { length counts.now ≤ length out.old }
    ensures { AreGiven counts.now out.old out.new }
{
    for i in 0..counts.len() {
        let (key, count) = counts[i];
        out[i] = Count { key, count };
    }
}

/// Takes a delta, if there is room for all keys of the histogram, as the library's `delta` does.
///
/// 0: all counts are at the front of the array in their order, each key with its units, and what comes after them is
/// unchanged; how many they are, the sum, and 0 as the redundant count are returned. 7 and the number of keys that
/// the histogram may have, if the array has less room: nothing is taken. 8 if the recorder knows no histogram
/// at that place; 3 if the handle holds nothing, 5 if it holds no recorder; then it holds the same. Else the
/// number of the refusal. On any status but 0 the array, the sum and the redundant count are unchanged, and the
/// length is 0, or with 7 what is needed.
#[unsafe(no_mangle)]
pub extern "C" fn povundiri_proved_delta(
    recorder: &mut Handle,
    hist: usize,
    counts: &mut [Count],
    totals: &mut Totals,
) -> u32
    ensures { AnswersDeltaCall hist recorder.old.boxed.held result totals.old totals.new counts.old counts.new recorder.new.boxed.held }
{
    let room = counts.len();
    match recorder.call_recorder(
        Err(Refused::of(EMPTY)),
        Err(Refused::of(OTHER_KIND)),
        |joinable|
            ensures kept { joinable.new.mailbox ≡ joinable.old.mailbox }
            ensures answer { AtPlaceInRoom hist room TakesDelta joinable.old.owned result joinable.new.owned }
        { joinable.delta(hist, room) },
    ) {
        Ok(delta) => {
            write_counts(&delta.counts, counts);
            *totals = Totals {
                length: delta.counts.len(),
                sum: delta.sum,
                redundant: 0,
            };
            DONE
        }
        Err(refused) => {
            totals.length = refused.length;
            refused.status
        }
    }
}

/// Returns what a histogram has, if there is room for all of its keys, as the library's `snapshot` does: with the
/// redundant count, and otherwise with the statuses and the array of a delta.
#[unsafe(no_mangle)]
pub extern "C" fn povundiri_proved_snapshot(
    recorder: &mut Handle,
    hist: usize,
    counts: &mut [Count],
    totals: &mut Totals,
) -> u32
    ensures { AnswersSnapshotCall hist recorder.old.boxed.held result totals.old totals.new counts.old counts.new recorder.new.boxed.held }
{
    let room = counts.len();
    match recorder.call_recorder(
        Err(Refused::of(EMPTY)),
        Err(Refused::of(OTHER_KIND)),
        |joinable|
            ensures kept { joinable.new.mailbox ≡ joinable.old.mailbox }
            ensures answer { AtPlaceInRoom hist room TakesSnapshot joinable.old.owned result joinable.new.owned }
        { joinable.snapshot(hist, room) },
    ) {
        Ok(snapshot) => {
            write_counts(&snapshot.counts, counts);
            *totals = Totals {
                length: snapshot.counts.len(),
                sum: snapshot.sum,
                redundant: snapshot.redundant,
            };
            DONE
        }
        Err(refused) => {
            totals.length = refused.length;
            refused.status
        }
    }
}

/// Returns the references of all records of the list and how many they are, as the library's `records` does.
///
/// 0: they are at the front of the array, and what comes after them is unchanged. 7 if the array has no room for
/// them: how many they are is returned, and it is unchanged. 3 if the handle holds nothing, 5 if it holds no
/// recorder; then it holds the same. Else the number of the refusal.
#[unsafe(no_mangle)]
pub extern "C" fn povundiri_proved_records(
    recorder: &mut Handle,
    records: &mut [u64],
    needed: &mut usize,
) -> u32
    ensures { AnswersRecordsCall recorder.old.boxed.held result needed.old needed.new records.old records.new recorder.new.boxed.held }
{
    let found = match recorder.call_recorder(
        Err(EMPTY),
        Err(OTHER_KIND),
        |joinable| joinable.records(),
    ) {
        Ok(found) => found,
        Err(status) => return status,
    };
    *needed = found.len();
    if records.len() < found.len() {
        return SHORT;
    }
    records[..found.len()].copy_from_slice(&found);
    DONE
}

/// Returns the next record of a cursor that all recorders share, as the library's `next_shared` does: 0 and the
/// record; 12 if the list ends. 9 if the segment has no such cursor, and the recorder is unchanged; 3 if the
/// handle holds nothing, 5 if it holds no recorder; then it holds the same.
#[unsafe(no_mangle)]
pub extern "C" fn povundiri_proved_next_shared(
    recorder: &mut Handle,
    cursor: usize,
    record: &mut u64,
) -> u32
    ensures { AnswersNextCall cursor recorder.old.boxed.held result «record».old «record».new recorder.new.boxed.held }
{
    match recorder.call_recorder(
        Err(EMPTY),
        Err(OTHER_KIND),
        |joinable| joinable.next_shared(cursor),
    ) {
        Ok(next) => {
            *record = next;
            DONE
        }
        Err(status) => status,
    }
}
