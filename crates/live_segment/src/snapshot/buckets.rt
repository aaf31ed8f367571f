//! How a snapshot looks at what is counted in the buckets of a histogram.

ghost use Rattle.std.specs.Prelude.{◌≤◌, length};
ghost use Rattle.live_segment.specs.Snapshot.Prelude.{All, HavePacked, IsUnits};

use crate::recorder::KnownHistogram;
use crate::rule::Pass;
use crate::segment::Segment;
use bucket_ranges::SingleWord;
use segment_calls::Snapshot;
use segment_calls::packing::DISABLED_BIT;

// The units that a single word holds are added to those of their bucket.
fn add_packed(version: u64, word: u64, totals: &mut [(i32, u64)])
    requires buckets { length totals.old ≤ 65535 }
    requires few { All (λ total. IsUnits total.1) totals.old }
    ensures { HavePacked version word totals.old totals.new }
{
    match SingleWord::of(version, word, totals.len()) {
        Some(SingleWord::Packed { bucket, units }) => totals[bucket].1 += units,
        Some(SingleWord::Frozen { bucket, units }) => totals[bucket].1 += units,
        _ => {}
    }
}

impl Segment {
    ghost use Rattle.std.specs.Prelude.{◌≡◌, map, true};
    ghost use Rattle.live_segment.specs.Snapshot.Prelude.{AreFewKeys, blank_totals, buckets_of, has_buckets, HasSeenBuckets, HasSnapshot, IsReadyFor, IsSame, known_view, opened_with, Standing};

    // Puts the units of all buckets of a histogram next to their keys.
    fn look_at_buckets(
        &self,
        seat: &mut Pass,
        histogram: &KnownHistogram,
        totals: &mut [(i32, u64)],
    )
        requires ready { IsReadyFor self.now histogram.now seat.old }
        requires bucketed { has_buckets histogram.now.spec ≡ true }
        requires buckets { (length totals.old ≡ buckets_of histogram.now.spec) × (length totals.old ≤ 65535) }
        requires blank { All (λ total. total.1 ≡ 0) totals.old }
        ensures same { IsSame seat.old seat.new }
        ensures keys { map (λ total. total.0) totals.new ≡ map (λ total. total.0) totals.old }
        ensures saw { HasSeenBuckets (known_view histogram.now) seat.old.me.0 totals.new seat.new.me.0 }
    {
        let word = self.look_single(seat, histogram.reference);
        if word >= DISABLED_BIT {
            let counts = self.load_counts(seat, histogram.reference);
            self.look_at_counts(seat, counts, totals);
        }
        add_packed(self.setting.version, word, totals);
    }

    /// What a histogram with buckets has: the totals are its buckets in order, with no units yet.
    pub(crate) fn snapshot_of_buckets(
        &self,
        seat: &mut Pass,
        histogram: &KnownHistogram,
        mut totals: Vec<(i32, u64)>,
    ) -> Snapshot
        requires ready { IsReadyFor self.now histogram.now seat.old }
        requires bucketed { has_buckets histogram.now.spec ≡ true }
        requires blank { totals.items ≡ blank_totals histogram.now.ranges }
        ensures same { IsSame seat.old seat.new }
        ensures answer { HasSnapshot (known_view histogram.now) seat.old.me.0 result seat.new.me.0 }
        ensures few { AreFewKeys self.now (known_view histogram.now) result.counts.items }
        ensures stands { Standing (opened_with self.now) seat.new.id seat.new.me.0 }
    {
        self.look_at_buckets(seat, histogram, totals.as_mut_slice());
        self.finish_snapshot(seat, histogram, totals)
    }
}
