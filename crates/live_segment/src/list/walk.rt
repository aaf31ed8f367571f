//! How a recorder walks along the list.

ghost use Rattle.std.specs.Prelude.{◌≡◌, ◌-◌, ◌/◌, ◌≤◌, [], false, drop, length, vec_capacity};
ghost use Rattle.live_segment.specs.List.Prelude.{HasCome, is_bound, WalksOn};

use crate::rule::Pass;
use crate::segment::Segment;
use segment_image::layout::QUEUE;

/// Where a walk along the list is.
#[derive(Clone, Copy)]
pub(crate) struct WalkPlace {
    /// How many records it has given.
    pub(crate) given: usize,
    /// The last of these, or the queue block.
    pub(crate) at: u64,
}

impl WalkPlace {
    ghost use Rattle.segment_image.specs.declared.layout.TheConstants.{QUEUE};

    // At the start of the list.
    pub(crate) fn start() -> WalkPlace
        ensures { (result.given ≡ 0) × (result.at ≡ QUEUE) }
    {
        WalkPlace {
            given: 0,
            at: QUEUE,
        }
    }
}

impl Segment {
    ghost use Rattle.live_segment.specs.List.Prelude.{HasList, IsSame, IsSeated, opened_with};

    // Walks along the list from a place to its end, and lists the records after that place. There is room for as many
    // as fit in a segment.
    pub(crate) fn walk(&self, seat: &mut Pass, place: &mut WalkPlace, records: &mut Vec<u64>)
        requires seat { IsSeated self.now seat.old }
        requires free { is_bound seat.old.me.0.hand.place ≡ false }
        requires come { HasCome self.now.setting.shape.size seat.old.me.0.seen.chain place.old }
        requires room { (records.old.items ≡ []) × ((self.now.setting.shape.size - 16) / 5 ≤ vec_capacity records.old) }
        ensures same { IsSame seat.old seat.new }
        ensures walked { WalksOn self.now.setting.shape.size seat.old.me.0 place.old records.new.items seat.new.me.0 place.new }
        ensures all { HasList (opened_with self.now) seat.new.id seat.new.me.0 seat.new.me.0.seen.chain }
    {
        loop {
            let next = self.load_next(seat, place.at);
            if next == QUEUE {
                return;
            }
            records.push_reserved(next);
            place.given += 1;
            place.at = next;
        }
    }
}
