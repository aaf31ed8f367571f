//! How a delta takes what is counted in the buckets of a histogram.

use crate::recorder::KnownHistogram;
use crate::rule::Pass;
use crate::segment::Segment;
use segment_calls::packing::{DISABLED_BIT, packed_in};
use segment_image::layout::BLOCK_HEADER;

// The counts of a histogram, as a delta found them in use.
#[derive(Drop)]
pub(crate) struct Mounted {
    // Where they are.
    counts: u64,
    // The bucket whose units were packed, if there was one, and the units of it that the single word keeps.
    packed: Option<usize>,
    kept: u64,
}

impl Segment {
    ghost use Rattle.std.specs.Prelude.{◌≡◌, ◌<◌, ◌+◌, ◌≤◌, true, false, ℕ, [], Some, length, vec_capacity};
    ghost use Rattle.live_segment.specs.Delta.Prelude.{AreFewKeys, AreUnits, bucket_key, buckets_of, has_buckets, HasTaken, HasTakenBuckets, is_off, IsReadyFor, IsSame, known_view, KnowsRight, opened_with, SaysPacked, Standing, TakesAt, TakesOn, TakesWord, TookBucket, units_of_key};

    // The units of a bucket that the delta takes: its count is loaded, and if that is not 0, the mark is raised to it.
    // The packed bucket has the single mark, and its total is the count with what the single word keeps.
    fn take_bucket(
        &self,
        seat: &mut Pass,
        histogram: &KnownHistogram,
        mounted: &Mounted,
        bucket: usize,
    ) -> u64
        requires bucket { bucket < buckets_of histogram.now.spec }
        requires buckets { length histogram.now.ranges ≡ buckets_of histogram.now.spec + 1 }
        requires room { histogram.now.reference + 15 ≤ self.now.setting.shape.size }
        requires takes { TakesAt self.now (known_view histogram.now) mounted.now seat.old }
        ensures same { IsSame seat.old seat.new }
        ensures stands { TakesAt self.now (known_view histogram.now) mounted.now seat.new }
        ensures took { TookBucket seat.new.me.0 (known_view histogram.now) bucket }
        ensures on { TakesOn (units_of_key (bucket_key (Some (known_view histogram.now)) bucket) result) seat.old.me.0 seat.new.me.0 }
    {
        let at = mounted.counts + BLOCK_HEADER as u64 + bucket as u64;
        let count = self.load_count(seat, at);
        if mounted.packed == Some(bucket) {
            let total = count + mounted.kept;
            if total == 0 {
                return 0;
            }
            total.saturating_sub(self.raise_single_mark(seat, histogram.reference, total))
        } else {
            if count == 0 {
                return 0;
            }
            let mark = at + histogram.ranges.len() as u64;
            count.saturating_sub(self.raise_mark(seat, mark, count))
        }
    }

    // The delta takes what is counted in all buckets, and lists it in the order of the buckets. There is room for all
    // of them.
    fn take_buckets(
        &self,
        seat: &mut Pass,
        histogram: &KnownHistogram,
        mounted: &Mounted,
        taken: &mut Vec<(i32, u64)>,
    )
        requires right { KnowsRight self.now.setting seat.old.me.0 histogram.now }
        requires bucketed { has_buckets histogram.now.spec ≡ true }
        requires takes { TakesAt self.now (known_view histogram.now) mounted.now seat.old }
        requires room { (taken.old.items ≡ []) × (buckets_of histogram.now.spec ≤ vec_capacity taken.old) }
        ensures same { IsSame seat.old seat.new }
        ensures stands { TakesAt self.now (known_view histogram.now) mounted.now seat.new }
        ensures took { (bucket : ℕ) → bucket < buckets_of histogram.now.spec → TookBucket seat.new.me.0 (known_view histogram.now) bucket }
        ensures on { TakesOn taken.new.items seat.old.me.0 seat.new.me.0 }
        ensures units { AreUnits taken.new.items }
        ensures few { length taken.new.items ≤ buckets_of histogram.now.spec }
    {
        for bucket in 0..histogram.ranges.len() {
            let units = self.take_bucket(seat, histogram, mounted, bucket);
            if units > 0 {
                taken.push_reserved((histogram.ranges.low(bucket), units));
            }
        }
    }

    // The delta takes the packed units: the single mark is raised to them, and what is new is listed.
    fn take_packed(
        &self,
        seat: &mut Pass,
        histogram: &KnownHistogram,
        bucket: usize,
        units: u64,
        taken: &mut Vec<(i32, u64)>,
    )
        requires right { KnowsRight self.now.setting seat.old.me.0 histogram.now }
        requires takes { (word : ℕ) × TakesWord self.now (known_view histogram.now) word seat.old × (is_off word ≡ false) × SaysPacked self.now.setting.version (buckets_of histogram.now.spec) word (Some bucket) units }
        requires room { (taken.old.items ≡ []) × (1 ≤ vec_capacity taken.old) }
        ensures same { IsSame seat.old seat.new }
        ensures taken { HasTakenBuckets (known_view histogram.now) taken.new.items seat.old.me.0 seat.new.me.0 }
    {
        let mark = self.raise_single_mark(seat, histogram.reference, units);
        if mark < units {
            taken.push_reserved((histogram.ranges.low(bucket), units - mark));
        }
    }

    // The delta takes what is new in all buckets, and lists it in the order of the buckets. There is room for all of
    // them.
    fn take_units(
        &self,
        seat: &mut Pass,
        histogram: &KnownHistogram,
        word: u64,
        taken: &mut Vec<(i32, u64)>,
    )
        requires right { KnowsRight self.now.setting seat.old.me.0 histogram.now }
        requires takes { TakesWord self.now (known_view histogram.now) word seat.old }
        requires room { (taken.old.items ≡ []) × (buckets_of histogram.now.spec ≤ vec_capacity taken.old) }
        ensures same { IsSame seat.old seat.new }
        ensures taken { HasTakenBuckets (known_view histogram.now) taken.new.items seat.old.me.0 seat.new.me.0 }
    {
        let (packed, kept) = packed_in(self.setting.version, word, histogram.ranges.len());
        if word >= DISABLED_BIT {
            let counts = self.load_counts(seat, histogram.reference);
            let mounted = Mounted {
                counts,
                packed,
                kept,
            };
            self.take_buckets(seat, histogram, &mounted, taken);
        } else if let Some(bucket) = packed {
            self.take_packed(seat, histogram, bucket, kept, taken);
        }
    }

    // A delta of a histogram with buckets. There is room for all of them. It returns what it took of the sum.
    pub(crate) fn delta_of_buckets(
        &self,
        seat: &mut Pass,
        histogram: &KnownHistogram,
        taken: &mut Vec<(i32, u64)>,
    ) -> i64
        requires ready { IsReadyFor self.now histogram.now seat.old }
        requires bucketed { has_buckets histogram.now.spec ≡ true }
        requires room { (taken.old.items ≡ []) × (buckets_of histogram.now.spec ≤ vec_capacity taken.old) }
        ensures same { IsSame seat.old seat.new }
        ensures taken { HasTaken (known_view histogram.now) taken.new.items result seat.old.me.0 seat.new.me.0 }
        ensures few { AreFewKeys self.now (known_view histogram.now) taken.new.items }
        ensures stands { Standing (opened_with self.now) seat.new.id seat.new.me.0 }
    {
        let word = self.take_single(seat, histogram.reference);
        self.take_units(seat, histogram, word, taken);
        self.take_sum(seat, histogram)
    }
}
