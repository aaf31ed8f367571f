//! How a recorder counts units of a bucket: it packs them into the single word, or makes room and adds them to a count.

use crate::recorder::KnownHistogram;
use crate::rule::Pass;
use crate::segment::Segment;
use segment_calls::Refusal;
use segment_calls::packing::{DISABLED_BIT, packed_with};
use segment_image::layout::BLOCK_HEADER;

// How an attempt to pack units ended.
pub(crate) enum PackAttempt {
    // They are packed.
    Packed,
    // The counts are in use.
    Off,
    // The single word cannot take them.
    Passed,
}

impl Segment {
    ghost use Rattle.std.specs.Prelude.{◌≡◌, ◌+◌, ◌<◌, ◌≤◌, Some, None, IfOk, MatchResult};
    ghost use Rattle.live_segment.specs.Add.Prelude.{bucket_entry, buckets_of, HasAddedTo, HasCounted, IsSame, IsSeated, IsSeatedAt, IsTurnedAway, known_view, KnowsRight, MayAddTo, MayCountInBucket, MountsAtMostOne, table_of, Tries};
    ghost use Rattle.segment_image.specs.declared.layout.TheConstants.{BLOCK_HEADER};

    // Packs units of a bucket of a histogram, if its single word can take them.
    fn pack_units(
        &self,
        seat: &mut Pass,
        histogram: &KnownHistogram,
        bucket: usize,
        units: u32,
    ) -> PackAttempt
        requires at { IsSeatedAt self.now histogram.now seat.old }
        requires bucket { (bucket < buckets_of histogram.now.spec) × (bucket ≤ 65535) }
        requires may { MayCountInBucket seat.old.me.0 (known_view histogram.now) bucket units }
        ensures same { IsSame seat.old seat.new }
        ensures outcome { Tries (known_view histogram.now) bucket units seat.old.me.0 result seat.new.me.0 }
    {
        loop {
            let word = self.load_single(seat, histogram.reference);
            if word >= DISABLED_BIT {
                return PackAttempt::Off;
            }
            let Some(packed) = packed_with(word, bucket, units) else {
                return PackAttempt::Passed;
            };
            if self.pack(seat, histogram.reference, word, packed) == word {
                return PackAttempt::Packed;
            }
        }
    }

    // Counts units of a bucket of a histogram: in its single word, or in its counts, which it makes if there are none.
    //
    // `Corrupt` or `Full` if no block could be claimed for the counts: then the call has ended.
    #[inline(always)]
    pub(crate) fn count_in_bucket(
        &self,
        seat: &mut Pass,
        histogram: &KnownHistogram,
        bucket: usize,
        units: u32,
    ) -> Result<(), Refusal>
        requires seat { IsSeated self.now seat.old }
        requires right { KnowsRight self.now.setting seat.old.me.0 histogram.now }
        requires bucket { bucket < buckets_of histogram.now.spec }
        requires may { MayCountInBucket seat.old.me.0 (known_view histogram.now) bucket units }
        ensures same { IsSame seat.old seat.new }
        ensures outcome { MatchResult result (λ _. HasCounted (bucket_entry (known_view histogram.now) bucket units) seat.old.me.0 seat.new.me.0) (λ why. IsTurnedAway why (known_view histogram.now) bucket units seat.old.me.0 seat.new.me.0) }
        ensures claims { IfOk result (λ _. MountsAtMostOne (known_view histogram.now) seat.old.me.0 seat.new.me.0) }
    {
        match self.pack_units(seat, histogram, bucket, units) {
            PackAttempt::Packed => {}
            PackAttempt::Off => {
                let counts = self.load_counts(seat, histogram.reference);
                self.add_to_bucket_count(seat, counts, bucket, units);
            }
            PackAttempt::Passed => {
                let counts = self.find_or_mount_counts(seat, histogram)?;
                self.disable_single(seat, histogram, counts);
                self.add_to_bucket_count(seat, counts, bucket, units);
            }
        }
        Ok(())
    }

    // Adds units to the count of a bucket among the counts at a word.
    fn add_to_bucket_count(&self, seat: &mut Pass, counts: u64, bucket: usize, units: u32) -> u64
        requires table { seat.old.table_id ≡ table_of self.now }
        requires room { counts + BLOCK_HEADER + bucket < self.now.setting.shape.size }
        requires may { MayAddTo seat.old (counts + BLOCK_HEADER + bucket) units }
        ensures { HasAddedTo seat.old (counts + BLOCK_HEADER + bucket) units result seat.new }
    {
        let at = counts + BLOCK_HEADER as u64 + bucket as u64;
        self.add_to_count(seat, at, u64::from(units))
    }
}
