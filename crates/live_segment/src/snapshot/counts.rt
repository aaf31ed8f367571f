//! How the counts of all buckets of a histogram are loaded.

ghost use Rattle.std.specs.Prelude.{◌≡◌, ◌+◌, ◌≤◌, length, map};
ghost use Rattle.segment_image.specs.declared.layout.TheConstants.{BLOCK_HEADER};
ghost use Rattle.live_segment.specs.Snapshot.Counts.{MayLookAt, HasLookedAt};

use crate::rule::Pass;
use crate::segment::Segment;
use segment_image::layout::BLOCK_HEADER;

impl Segment {
    ghost use Rattle.live_segment.specs.Steps.{IsSame};

    // The counts of all buckets, from those at a word, in order. The keys next to them are unchanged.
    pub(crate) fn look_at_counts(&self, seat: &mut Pass, counts: u64, totals: &mut [(i32, u64)])
        requires may { MayLookAt self.now seat.old counts (length totals.old) }
        requires room { counts + BLOCK_HEADER + length totals.old ≤ self.now.setting.shape.size }
        ensures same { IsSame seat.old seat.new }
        ensures keys { map (λ total. total.0) totals.new ≡ map (λ total. total.0) totals.old }
        ensures counts { HasLookedAt counts seat.old.me.0 (length totals.new) totals.new seat.new.me.0 }
    {
        for bucket in 0..totals.len() {
            let at = counts + BLOCK_HEADER as u64 + bucket as u64;
            totals[bucket].1 = self.load_count(seat, at);
        }
    }
}
