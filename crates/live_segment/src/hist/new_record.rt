//! How a recorder makes the record of a histogram.

ghost use Rattle.std.specs.Prelude.{◌≡◌, ◌≢◌, ◌+◌, ◌-◌, ◌≤◌, [], false, length, slice_index};
ghost use Rattle.live_segment.specs.Hist.Prelude.{HasBlock, HasFilled, is_opener, IsAsked, MakesRecord, MayTurn, SaysAsked};

use crate::rule::{Announcement, Pass};
use crate::segment::Segment;
use segment_calls::{Asked, Refusal};
use segment_image::layout::{BLOCK_HEADER, TYPE_HISTOGRAM};

impl Segment {
    ghost use Rattle.live_segment.specs.Hist.Prelude.{IsSame, IsSeated, table_of};

    // Stores the words of a payload, except those that are 0, in the block at a word that it claimed last. The last is
    // not 0.
    fn fill(&self, seat: &mut Pass, at: u64, payload: &[u64])
        requires seat { (seat.old.table_id ≡ table_of self.now) × (is_opener seat.old.me.0.role ≡ false) }
        requires block { HasBlock at (length payload.now) seat.old.me.0 }
        requires last { slice_index payload.now (length payload.now - 1) ≢ 0 }
        requires room { at + 4 + length payload.now ≤ self.now.setting.shape.size }
        ensures same { IsSame seat.old seat.new }
        ensures filled { HasFilled at payload.now seat.old.me.0 seat.new.me.0 }
    {
        for (i, word) in payload.iter().enumerate() {
            if *word != 0 {
                self.store_payload(seat, at, i, *word);
            }
        }
    }

    // Makes the record of what is asked for, and puts it on the list.
    //
    // `Corrupt` or `Full` if no block could be claimed for it.
    pub(crate) fn make_record(
        &self,
        seat: &mut Pass,
        asked: &Asked,
        said: &Announcement,
    ) -> Result<(), Refusal>
        requires seat { IsSeated self.now seat.old }
        requires rests { MayTurn seat.old.me.0 × (seat.old.me.0.entries.running ≡ []) }
        requires asked { IsAsked self.now.setting.shape asked.now }
        requires says { SaysAsked asked.now said.now }
        ensures same { IsSame seat.old seat.new }
        ensures outcome { MakesRecord asked.now seat.old.me.0 result seat.new.me.0 }
    {
        let size = (BLOCK_HEADER + asked.payload.len()) as u64;
        let at = self.allocate(seat, size, TYPE_HISTOGRAM)?;
        self.fill(seat, at, &asked.payload);
        self.publish(seat, at, said);
        Ok(())
    }
}
