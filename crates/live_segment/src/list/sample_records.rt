//! How a recorder visits the samples of a sparse histogram along the list.

ghost use Rattle.std.specs.Prelude.{◌≡◌, ◌+◌, ◌≤◌, true, IfSome};
ghost use Rattle.live_segment.specs.List.Prelude.{Contains, CountsSample, HasReadWords, known_view, LooksAtValues, NoRepeats, SamplesAreFew, SamplesStandBehind, SeesSample, ShowsSample, Sparse};

use crate::list::index::RecordIndex;
use crate::recorder::KnownHistogram;
use crate::rule::Pass;
use crate::segment::Segment;
use segment_image::layout::{SAMPLE_COUNT, SAMPLE_HISTOGRAM, SAMPLE_VALUE, TYPE_SAMPLE};

impl Segment {
    ghost use Rattle.live_segment.specs.List.Prelude.{Actor, has_buckets, HasMetRecord, HasPassedAll, HasSearched, IsIndexed, IsSame, KnowsRight, MayTurn, Setting, WalksWith};
    ghost use Rattle.live_segment.specs.declared.list.index.KeyKind.TheVariants.{Sample as OfSample};

    // The value of a record that was visited, if it is a sample of a histogram.
    pub(crate) fn shows_sample(&self, seat: &mut Pass, at: u64, histogram: u64) -> Option<i32>
        requires meets { HasMetRecord self.now at seat.old }
        ensures read { HasReadWords seat.old seat.new }
        ensures shown { ShowsSample histogram at result seat.new.me.0 }
        ensures behind { SamplesStandBehind seat.old.me.0 }
        ensures once { NoRepeats seat.old.me.0.seen.chain }
    {
        if self.load_type(seat, at) != TYPE_SAMPLE {
            return None;
        }
        let of = self.load_published(seat, at, SAMPLE_HISTOGRAM);
        let value = self.load_published(seat, at, SAMPLE_VALUE);
        if of != histogram {
            return None;
        }
        match i32::try_from(value.cast_signed()) {
            Ok(value) => Some(value),
            Err(_) => None,
        }
    }

    // The value and the units of a record that was visited, if it is a sample of a histogram and has units.
    pub(crate) fn sample_at(
        &self,
        seat: &mut Pass,
        histogram: &KnownHistogram,
        at: u64,
    ) -> Option<(i32, u64)>
        requires looks { LooksAtValues self.now (known_view histogram.now) seat.old }
        requires met { Contains seat.old.me.0.seen.chain at }
        requires room { at + 5 ≤ self.now.setting.shape.size }
        ensures same { IsSame seat.old seat.new }
        ensures view { SeesSample seat.old.me.0 seat.new.me.0 }
        ensures counts { CountsSample histogram.now.reference at result seat.new.me.0 }
        ensures few { IfSome result (λ count. SamplesAreFew seat.new.me.0) }
        ensures behind { SamplesStandBehind seat.old.me.0 }
        ensures once { NoRepeats seat.old.me.0.seen.chain }
    {
        let value = self.shows_sample(seat, at, histogram.reference)?;
        let count = self.load_count_of_sample(seat, at + SAMPLE_COUNT as u64);
        if count == 0 {
            return None;
        }
        Some((value, count))
    }

    // Looks further along the list for the samples of a histogram, if it is sparse. True if the index has all of them
    // then.
    pub(crate) fn look_for_own(
        &self,
        seat: &mut Pass,
        index: &mut RecordIndex,
        histogram: &KnownHistogram,
    ) -> bool
        requires walks { WalksWith OfSample self.now index.old seat.old }
        requires right { (setting : Setting) × (a : Actor) × KnowsRight setting a histogram.now }
        ensures same { IsSame seat.old seat.new }
        ensures view { HasSearched seat.old.me.0 seat.new.me.0 }
        ensures free { MayTurn seat.new.me.0 }
        ensures indexed { IsIndexed OfSample self.now.setting.shape.size seat.new.me.0.seen index.new }
        ensures passed { result ≡ true → HasPassedAll self.now.setting.shape.size seat.new.me.0.seen index.new × (histogram.now.spec ≡ Sparse) }
        ensures still { has_buckets histogram.now.spec ≡ true → (seat.new ≡ seat.old) × (index.new ≡ index.old) }
    {
        histogram.ranges.len() == 0 && self.look_on(seat, index)
    }
}
