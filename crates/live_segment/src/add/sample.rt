//! How a sample is added: it is counted in its bucket, or in the sample of its value, and finished.

ghost use Rattle.std.specs.Prelude.{◌≡◌, ◌≤◌, IfOk, MatchResult};

use crate::list::index::RecordIndex;
use crate::recorder::KnownHistogram;
use crate::rule::Pass;
use crate::segment::Segment;
use bucket_ranges::amount_of;
use segment_calls::Refusal;

impl Segment {
    ghost use Rattle.live_segment.specs.Add.Prelude.{AnswersSample, ClaimsFor, CountsAlone, CountsFor, HasCounted, IsAtRest, IsIndexed, IsNotCounted, IsReadyFor, IsSame, item_of, known_view, Sparse};
    ghost use Rattle.live_segment.specs.declared.list.index.KeyKind.TheVariants.{Sample as OfSample};

    // Adds a sample.
    //
    // `Corrupt` or `Full` if a block was needed for it and none could be claimed.
    #[inline(always)]
    pub(crate) fn add_sample(
        &self,
        seat: &mut Pass,
        samples: &mut RecordIndex,
        histogram: &KnownHistogram,
        value: i32,
        units: u32,
    ) -> Result<(), Refusal>
        requires ready { IsReadyFor self.now histogram.now seat.old }
        requires indexed { IsIndexed OfSample self.now.setting.shape.size seat.old.me.0.seen samples.old }
        requires units { (1 ≤ units) × (units ≤ seat.old.me.0.units.share) }
        ensures same { IsSame seat.old seat.new }
        ensures indexed { IsIndexed OfSample self.now.setting.shape.size seat.new.me.0.seen samples.new }
        ensures rests { IsAtRest seat.new.me.0 }
        ensures outcome { AnswersSample (known_view histogram.now) value units seat.old.me.0 result seat.new.me.0 }
        ensures claims { IfOk result (λ _. ClaimsFor (known_view histogram.now) value seat.old.me.0 seat.new.me.0) }
    {
        let amount = amount_of(&histogram.ranges, value, units);
        self.count_value(seat, samples, histogram, value, units)?;
        self.finish_sample(seat, histogram, units, amount);
        Ok(())
    }

    // Counts units of a value.
    //
    // `Corrupt` or `Full` if a block was needed for them and none could be claimed: then the call has ended.
    #[inline(always)]
    pub(crate) fn count_value(
        &self,
        seat: &mut Pass,
        samples: &mut RecordIndex,
        histogram: &KnownHistogram,
        value: i32,
        units: u32,
    ) -> Result<(), Refusal>
        requires ready { CountsFor self.now histogram.now samples.old seat.old }
        requires may { CountsAlone seat.old.me.0 (known_view histogram.now) (item_of (known_view histogram.now) value units) }
        ensures same { IsSame seat.old seat.new }
        ensures indexed { IsIndexed OfSample self.now.setting.shape.size seat.new.me.0.seen samples.new }
        ensures outcome { MatchResult result (λ _. HasCounted (item_of (known_view histogram.now) value units) seat.old.me.0 seat.new.me.0) (λ why. IsNotCounted why (known_view histogram.now) value units seat.old.me.0 seat.new.me.0) }
        ensures claims { IfOk result (λ _. ClaimsFor (known_view histogram.now) value seat.old.me.0 seat.new.me.0) }
    {
        if histogram.ranges.len() == 0 {
            return self.count_in_sample(seat, samples, histogram, value, units);
        }
        let bucket = histogram.ranges.bucket(value);
        self.count_in_bucket(seat, histogram, bucket, units)
    }

    // Counts units of a value of a sparse histogram: in the first sample of the value, which it makes if there is none.
    fn count_in_sample(
        &self,
        seat: &mut Pass,
        samples: &mut RecordIndex,
        histogram: &KnownHistogram,
        value: i32,
        units: u32,
    ) -> Result<(), Refusal>
        requires ready { CountsFor self.now histogram.now samples.old seat.old }
        requires sparse { histogram.now.spec ≡ Sparse }
        requires may { CountsAlone seat.old.me.0 (known_view histogram.now) (item_of (known_view histogram.now) value units) }
        ensures same { IsSame seat.old seat.new }
        ensures indexed { IsIndexed OfSample self.now.setting.shape.size seat.new.me.0.seen samples.new }
        ensures outcome { MatchResult result (λ _. HasCounted (item_of (known_view histogram.now) value units) seat.old.me.0 seat.new.me.0) (λ why. IsNotCounted why (known_view histogram.now) value units seat.old.me.0 seat.new.me.0) }
        ensures claims { IfOk result (λ _. ClaimsFor (known_view histogram.now) value seat.old.me.0 seat.new.me.0) }
    {
        let sample = self.sample_of(seat, samples, histogram, value)?;
        self.add_to_sample(seat, sample, u64::from(units));
        Ok(())
    }
}
