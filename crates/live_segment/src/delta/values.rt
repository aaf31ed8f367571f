//! How a delta takes what is counted in the samples of a sparse histogram: by a walk along the list, or by an index
//! that has them all.

use crate::recorder::KnownHistogram;
use crate::rule::Pass;
use crate::segment::Segment;
use segment_calls::sort_by_key;
use segment_image::layout::{QUEUE, SAMPLE_MARK};

impl Segment {
    ghost use Rattle.std.specs.Prelude.{◌≡◌, ◌+◌, ◌-◌, ◌/◌, ◌≤◌, ℕ, ℤ, List, [], length, vec_capacity, IfSome, MatchOption};
    ghost use Rattle.live_segment.specs.Delta.Prelude.{AreFewKeys, AreOwn, ComesTo, Contains, HasTaken, HasTakenSample, IsReadyFor, IsSame, Known, known_view, KnowsRight, ListsAlong, ListsIndexed, ListsThrough, MayTakeSample, NoRepeats, OfDelta, opened_with, SamplesStandBehind, Sparse, Standing, TakesValue, TakesValues};
    ghost use Rattle.segment_image.specs.declared.layout.TheConstants.{QUEUE};

    // The units of a sample that the delta takes, whose count was loaded: its mark is raised to that.
    fn take_sample(&self, seat: &mut Pass, sample: u64, count: u64) -> u64
        requires room { sample + 8 ≤ self.now.setting.shape.size }
        requires may { (known : Known) × (value : ℤ) × MayTakeSample self.now known value sample count seat.old }
        ensures same { IsSame seat.old seat.new }
        ensures taken { (known : Known) (value : ℤ) → MayTakeSample self.now known value sample count seat.old → HasTakenSample self.now known value sample result seat.old seat.new }
    {
        count.saturating_sub(self.raise_mark(seat, sample + SAMPLE_MARK as u64, count))
    }

    // What the delta takes of a record that was visited, if it is a sample of the histogram with new units: the value
    // and these units.
    fn take_value(&self, seat: &mut Pass, histogram: &KnownHistogram, at: u64) -> Option<(i32, u64)>
        requires takes { TakesValues self.now (known_view histogram.now) seat.old }
        requires met { Contains seat.old.me.0.seen.chain at }
        requires room { at + 5 ≤ self.now.setting.shape.size }
        ensures same { IsSame seat.old seat.new }
        ensures takes { TakesValue self.now (known_view histogram.now) at result seat.old seat.new }
        ensures behind { SamplesStandBehind seat.old.me.0 }
        ensures once { NoRepeats seat.old.me.0.seen.chain }
    {
        let (value, count) = self.sample_at(seat, histogram, at)?;
        let units = self.take_sample(seat, at, count);
        if units == 0 {
            return None;
        }
        Some((value, units))
    }

    // The delta takes what is new of all samples, from the first record after the histogram's to the end of the list,
    // and lists the values in their order there. There is room for as many as fit in a segment.
    fn take_values(
        &self,
        seat: &mut Pass,
        histogram: &KnownHistogram,
        first: u64,
        taken: &mut Vec<(i32, u64)>,
    )
        requires takes { TakesValues self.now (known_view histogram.now) seat.old }
        requires comes { ComesTo histogram.now.reference [] first seat.old.me.0 }
        requires room { (taken.old.items ≡ []) × ((self.now.setting.shape.size - 16) / 5 ≤ vec_capacity taken.old) }
        ensures { (passed : List ℕ) × ListsAlong OfDelta self.now (known_view histogram.now) passed QUEUE taken.new.items seat.old seat.new }
    {
        let mut at = first;
        while at != QUEUE {
            if let Some(count) = self.take_value(seat, histogram, at) {
                taken.push_reserved(count);
            }
            at = self.load_next(seat, at);
        }
    }

    // The delta takes what is new of the samples of a sparse histogram, which an index has, and lists the values in their order there. There
    // is room for all of them.
    fn take_listed(
        &self,
        seat: &mut Pass,
        histogram: &KnownHistogram,
        samples: &[u64],
        taken: &mut Vec<(i32, u64)>,
    )
        requires takes { TakesValues self.now (known_view histogram.now) seat.old }
        requires right { KnowsRight self.now.setting seat.old.me.0 histogram.now }
        requires own { AreOwn self.now.setting.shape.size seat.old.me.0.seen histogram.now.reference samples.now }
        requires room { (taken.old.items ≡ []) × (length samples.now ≤ vec_capacity taken.old) }
        ensures { ListsIndexed OfDelta self.now (known_view histogram.now) samples.now taken.new.items seat.old seat.new }
    {
        for at in samples {
            if let Some(count) = self.take_value(seat, histogram, *at) {
                taken.push_reserved(count);
            }
        }
    }

    // A delta of a sparse histogram begins and takes what is new of all samples: of those that an index has, or else along the list. There
    // is room for all of them, or for as many values as fit in a segment.
    fn take_samples(
        &self,
        seat: &mut Pass,
        histogram: &KnownHistogram,
        samples: Option<&[u64]>,
        taken: &mut Vec<(i32, u64)>,
    )
        requires ready { IsReadyFor self.now histogram.now seat.old }
        requires sparse { histogram.now.spec ≡ Sparse }
        requires own { IfSome samples (λ own. AreOwn self.now.setting.shape.size seat.old.me.0.seen histogram.now.reference own.now) }
        requires begins { taken.old.items ≡ [] }
        requires room { MatchOption samples ((self.now.setting.shape.size - 16) / 5 ≤ vec_capacity taken.old) (λ own. length own.now ≤ vec_capacity taken.old) }
        ensures { ListsThrough OfDelta self.now (known_view histogram.now) taken.new.items seat.old seat.new }
    {
        if let Some(own) = samples {
            self.take_type(seat, histogram.reference);
            self.take_listed(seat, histogram, own, taken);
        } else {
            let first = self.take_next(seat, histogram.reference);
            self.take_values(seat, histogram, first, taken);
        }
    }

    // A delta of a sparse histogram, with room as for its samples. It returns what it took of the sum.
    pub(crate) fn delta_of_samples(
        &self,
        seat: &mut Pass,
        histogram: &KnownHistogram,
        samples: Option<&[u64]>,
        taken: &mut Vec<(i32, u64)>,
    ) -> i64
        requires ready { IsReadyFor self.now histogram.now seat.old }
        requires sparse { histogram.now.spec ≡ Sparse }
        requires own { IfSome samples (λ own. AreOwn self.now.setting.shape.size seat.old.me.0.seen histogram.now.reference own.now) }
        requires begins { taken.old.items ≡ [] }
        requires room { MatchOption samples ((self.now.setting.shape.size - 16) / 5 ≤ vec_capacity taken.old) (λ own. length own.now ≤ vec_capacity taken.old) }
        ensures same { IsSame seat.old seat.new }
        ensures taken { HasTaken (known_view histogram.now) taken.new.items result seat.old.me.0 seat.new.me.0 }
        ensures few { AreFewKeys self.now (known_view histogram.now) taken.new.items }
        ensures stands { Standing (opened_with self.now) seat.new.id seat.new.me.0 }
    {
        self.take_samples(seat, histogram, samples, taken);
        sort_by_key(taken);
        self.take_sum(seat, histogram)
    }
}
