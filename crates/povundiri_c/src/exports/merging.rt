//! What a dead segment counted is added to a live one.

ghost use Rattle.std.specs.Prelude.{◌≡◌};
ghost use Rattle.povundiri_c.specs.Asking.{AnswersMergeCall};
ghost use Rattle.povundiri_c.specs.Merging.{MergesForCost};

use crate::handle::Handle;
use crate::merging::{put_report, read_within, totals_of};
use crate::status::{EMPTY, OTHER_KIND};
use crate::types::MergeTotals;
use std::alloc::Global;

/// Adds what no delta took of an image to a recorder's segment, as the library's `merge` does, if the image reads as
/// no more keys than `most_keys`, and the recorder may spend the units that it costs.
///
/// - 3 if the handle holds nothing. The status of the header's first fault, 500 and the fault's number, if it has one.
///   17: the words read as more keys. 513: memory ran out for the reading. Then all is unchanged.
/// - 5 if the handle holds no recorder; 104, if it may spend fewer units than the merge costs; 13, if memory runs out
///   for the report of the merge. Then the recorder is unchanged, and the totals are those of the image, of which
///   nothing was added.
/// - 0: all is added. Any other status is that of the refusal which stopped the merge: what was added before stays, and
///   the name of the histogram that stopped it is at the front of the array, as far as there is room.
#[unsafe(no_mangle)]
pub extern "C" fn povundiri_proved_merge(
    alloc: Global,
    recorder: &mut Handle,
    words: &[u64],
    most_keys: u64,
    name: &mut [u8],
    totals: &mut MergeTotals,
) -> u32
    ensures { AnswersMergeCall words.now most_keys recorder.old.boxed.held result totals.old totals.new name.old name.new recorder.new.boxed.held }
{
    if !recorder.is_full() {
        return EMPTY;
    }
    let reading = match read_within(alloc, words, most_keys) {
        Ok(reading) => reading,
        Err(status) => return status,
    };
    *totals = totals_of(&reading);
    let cost = totals.cost;
    match recorder.call_recorder(
        Err(EMPTY),
        Err(OTHER_KIND),
        |joinable|
            ensures kept { joinable.new.mailbox ≡ joinable.old.mailbox }
            ensures answer { MergesForCost reading cost joinable.old.owned result joinable.new.owned }
        { joinable.merge(alloc, &reading, cost) },
    ) {
        Ok(report) => put_report(&reading, &report, name, totals),
        Err(status) => status,
    }
}
