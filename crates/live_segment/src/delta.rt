//! How a recorder takes a delta of a histogram: of each bucket the units that no delta has taken yet, and of the sum what is new.

mod buckets;
mod values;

use crate::recorder::KnownHistogram;
use crate::rule::Pass;
use crate::segment::Segment;
use segment_image::layout::{BLOCK_LEAST, HEADER_WORDS};

impl Segment {
    ghost use Rattle.std.specs.Prelude.{◌≡◌, ◌+◌, ◌≤◌, [], length, vec_capacity, IfSome, MatchOption};
    ghost use Rattle.live_segment.specs.Delta.Prelude.{Actor, AreFewKeys, AreMostKeys, AreOwn, HasTaken, HasTakenSum, HoldsKeys, IsReadyFor, IsSame, known_view, KnowsRight, MayTakeSum, NoRepeats, opened_with, SamplesStandBehind, Setting, Sparse, Standing};

    // The delta takes what is new of the sum, after all buckets or all samples, and ends.
    fn take_sum(&self, seat: &mut Pass, histogram: &KnownHistogram) -> i64
        requires may { MayTakeSum self.now (known_view histogram.now) seat.old }
        requires room { histogram.now.reference + 15 ≤ self.now.setting.shape.size }
        ensures same { IsSame seat.old seat.new }
        ensures taken { HasTakenSum (known_view histogram.now) result seat.old.me.0 seat.new.me.0 }
        ensures behind { SamplesStandBehind seat.old.me.0 }
        ensures once { NoRepeats seat.old.me.0.seen.chain }
        ensures stands { Standing (opened_with self.now) seat.new.id seat.new.me.0 }
    {
        let sum = self.load_sum(seat, histogram.reference).cast_signed();
        let mark = self
            .swap_sum_mark(seat, histogram.reference, sum)
            .cast_signed();
        self.stand(seat);
        sum - mark
    }

    // How many keys a histogram may have: its buckets, or as many values as records fit in a segment.
    pub(crate) fn keys_of(&self, histogram: &KnownHistogram) -> usize
        requires right { (setting : Setting) × (a : Actor) × KnowsRight setting a histogram.now }
        ensures { AreMostKeys self.now (known_view histogram.now) result }
    {
        if histogram.ranges.len() == 0 {
            (self.setting.shape.size() as usize - HEADER_WORDS) / BLOCK_LEAST
        } else {
            histogram.ranges.len()
        }
    }

    // How many keys are listed of a histogram at most: its samples if an index has all of them, or else as many as it
    // may have.
    pub(crate) fn most_keys(&self, histogram: &KnownHistogram, samples: Option<&[u64]>) -> usize
        requires right { (setting : Setting) × (a : Actor) × KnowsRight setting a histogram.now }
        ensures { MatchOption samples.entry (HoldsKeys self.now (known_view histogram.now) result) (λ own. length own.now ≤ result) }
    {
        match samples {
            Some(own) => own.len(),
            None => self.keys_of(histogram),
        }
    }

    // A delta of a histogram. There is room for as many keys as are listed of it at most. It returns what it took of the sum.
    pub(crate) fn take_delta(
        &self,
        seat: &mut Pass,
        histogram: &KnownHistogram,
        samples: Option<&[u64]>,
        taken: &mut Vec<(i32, u64)>,
    ) -> i64
        requires ready { IsReadyFor self.now histogram.now seat.old }
        requires own { IfSome samples (λ own. (histogram.now.spec ≡ Sparse) × AreOwn self.now.setting.shape.size seat.old.me.0.seen histogram.now.reference own.now) }
        requires begins { taken.old.items ≡ [] }
        requires room { MatchOption samples (HoldsKeys self.now (known_view histogram.now) (vec_capacity taken.old)) (λ own. length own.now ≤ vec_capacity taken.old) }
        ensures same { IsSame seat.old seat.new }
        ensures taken { HasTaken (known_view histogram.now) taken.new.items result seat.old.me.0 seat.new.me.0 }
        ensures few { AreFewKeys self.now (known_view histogram.now) taken.new.items }
        ensures stands { Standing (opened_with self.now) seat.new.id seat.new.me.0 }
    {
        if histogram.ranges.len() == 0 {
            self.delta_of_samples(seat, histogram, samples, taken)
        } else {
            self.delta_of_buckets(seat, histogram, taken)
        }
    }
}
