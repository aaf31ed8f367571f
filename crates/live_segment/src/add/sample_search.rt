//! How a recorder finds the sample of a value of a sparse histogram, and makes one if there is none.

ghost use Rattle.std.specs.Prelude.{◌≡◌, ◌+◌, ◌≤◌, false, if◌then◌else◌, MatchResult, Some};
ghost use Rattle.live_segment.specs.Add.Prelude.{cast_unsigned, FindsSample, first_of, FoundEnd, HasMadeSample, HasNotMadeSample, HasReadWords, HasSampleOf, HasSearched, is_bound, Known, LacksSampleOf, MayTurn, NoRepeats, sample_key, SamplesStandBehind, ShowsValue, w64, WalksBehind};
ghost use Rattle.segment_machine.specs.Actor.{Sparse as KnowsSparse};

use crate::list::index::RecordIndex;
use crate::list::keys::value_key;
use crate::recorder::KnownHistogram;
use crate::rule::{Announcement, Pass};
use crate::segment::Segment;
use segment_calls::Refusal;
use segment_image::layout::{
    BLOCK_HEADER, QUEUE, SAMPLE_HISTOGRAM, SAMPLE_LEAST, SAMPLE_VALUE, TYPE_SAMPLE,
};

// How a walk from the record of a sparse histogram on ended.
pub(crate) enum SampleSearch {
    // At the first sample of the value.
    Met(u64),
    // At the end of the list, after this block: there is none.
    End(u64),
}

// Where a walk for a sample that the index does not have continues: at the place of the index if that has passed all
// records that were visited, or else at the record of the histogram.
fn start_behind(index: &RecordIndex, has_passed_all: bool, histogram: u64) -> u64
    ensures { result ≡ (if has_passed_all then index.now.place.at else histogram) }
{
    if has_passed_all {
        index.place.at
    } else {
        histogram
    }
}

impl Segment {
    ghost use Rattle.live_segment.specs.Add.Prelude.{CountsFor, HasMetRecord, IsIndexed, IsSame, IsSeated, known_view, MayGiveUp, Sparse};
    ghost use Rattle.live_segment.specs.declared.list.index.KeyKind.TheVariants.{Sample as OfSample};

    /// The first sample of a value of a sparse histogram. If the list has none, one is made and put on it.
    ///
    /// `Corrupt` or `Full` if no block could be claimed for it: a call that counts ends with that.
    pub(crate) fn sample_of(
        &self,
        seat: &mut Pass,
        index: &mut RecordIndex,
        histogram: &KnownHistogram,
        value: i32,
    ) -> Result<u64, Refusal>
        requires ready { CountsFor self.now histogram.now index.old seat.old }
        requires free { is_bound seat.old.me.0.hand.place ≡ false }
        requires sparse { histogram.now.spec ≡ Sparse }
        requires closes { MayGiveUp seat.old.me.0 }
        ensures same { IsSame seat.old seat.new }
        ensures indexed { IsIndexed OfSample self.now.setting.shape.size seat.new.me.0.seen index.new }
        ensures outcome { MatchResult result (λ sample. HasSampleOf (known_view histogram.now) value sample seat.old.me.0 seat.new.me.0) (λ why. LacksSampleOf why (known_view histogram.now) value seat.old.me.0 seat.new.me.0) }
    {
        let record = histogram.reference;
        let end = match self.search_sample(seat, index, histogram, value) {
            SampleSearch::Met(sample) => return Ok(sample),
            SampleSearch::End(at) => at,
        };
        self.make_sample(seat, record, value)?;
        match self.find_sample(seat, end, record, value) {
            SampleSearch::Met(sample) => Ok(sample),
            SampleSearch::End(_) => unreachable!(),
        }
    }

    // The first sample of a value of a sparse histogram: found by the index, or by a walk from its place on.
    fn search_sample(
        &self,
        seat: &mut Pass,
        index: &mut RecordIndex,
        histogram: &KnownHistogram,
        value: i32,
    ) -> SampleSearch
        requires ready { CountsFor self.now histogram.now index.old seat.old }
        requires free { MayTurn seat.old.me.0 }
        ensures same { IsSame seat.old seat.new }
        ensures view { HasSearched seat.old.me.0 seat.new.me.0 }
        ensures outcome { FindsSample histogram.now.reference value result seat.new.me.0 }
        ensures ended { FoundEnd result seat.old.me.0.seen seat.new.me.0.seen }
        ensures indexed { IsIndexed OfSample self.now.setting.shape.size seat.new.me.0.seen index.new }
    {
        let record = histogram.reference;
        let key = value_key(record, value);
        let has_passed_all = self.look_for(seat, index, key);
        match index.firsts.first(key) {
            None => {
                let from = start_behind(index, has_passed_all, record);
                self.find_sample(seat, from, record, value)
            }
            Some(at) => self.search_sample_at(seat, index, at, histogram, value),
        }
    }

    // The first sample of a value of a sparse histogram, by a walk from the first sample with the same key on.
    fn search_sample_at(
        &self,
        seat: &mut Pass,
        index: &RecordIndex,
        at: u64,
        histogram: &KnownHistogram,
        value: i32,
    ) -> SampleSearch
        requires ready { CountsFor self.now histogram.now index.now seat.old }
        requires free { MayTurn seat.old.me.0 }
        requires first { first_of index.now.firsts (sample_key histogram.now.reference (cast_unsigned w64 value)) ≡ Some at }
        ensures same { IsSame seat.old seat.new }
        ensures view { HasSearched seat.old.me.0 seat.new.me.0 }
        ensures outcome { FindsSample histogram.now.reference value result seat.new.me.0 }
        ensures ended { FoundEnd result seat.old.me.0.seen seat.new.me.0.seen }
    {
        let record = histogram.reference;
        if self.shows_value(seat, at, record, value) {
            return SampleSearch::Met(at);
        }
        self.find_sample(seat, record, record, value)
    }

    // Makes a sample of a value of a sparse histogram, and puts it on the list.
    //
    // `Corrupt` or `Full` if no block could be claimed for it: a call that counts ends with that.
    fn make_sample(&self, seat: &mut Pass, histogram: u64, value: i32) -> Result<(), Refusal>
        requires seat { IsSeated self.now seat.old }
        requires free { is_bound seat.old.me.0.hand.place ≡ false }
        requires sparse { (known : Known) × KnowsSparse seat.old.me.0 histogram known }
        requires page { 8 ≤ self.now.setting.shape.page }
        requires closes { MayGiveUp seat.old.me.0 }
        ensures same { IsSame seat.old seat.new }
        ensures outcome { MatchResult result (λ _. HasMadeSample histogram value seat.old.me.0 seat.new.me.0) (λ why. HasNotMadeSample why seat.old.me.0 seat.new.me.0) }
    {
        let at = self.allocate(seat, SAMPLE_LEAST as u64, TYPE_SAMPLE)?;
        self.store_payload(seat, at, SAMPLE_HISTOGRAM - BLOCK_HEADER, histogram);
        let word = i64::from(value).cast_unsigned();
        if word != 0 {
            self.store_payload(seat, at, SAMPLE_VALUE - BLOCK_HEADER, word);
        }
        self.publish(seat, at, &Announcement::Sample { histogram, value });
        Ok(())
    }

    // Continues a walk that is at the histogram's record or after it, up to the first sample of the value.
    pub(crate) fn find_sample(
        &self,
        seat: &mut Pass,
        from: u64,
        histogram: u64,
        value: i32,
    ) -> SampleSearch
        requires seat { IsSeated self.now seat.old }
        requires walks { WalksBehind histogram value from seat.old.me.0 }
        ensures same { IsSame seat.old seat.new }
        ensures view { HasSearched seat.old.me.0 seat.new.me.0 }
        ensures outcome { FindsSample histogram value result seat.new.me.0 }
        ensures ended { FoundEnd result seat.old.me.0.seen seat.new.me.0.seen }
    {
        let mut at = from;
        loop {
            let next = self.load_next(seat, at);
            if next == QUEUE {
                return SampleSearch::End(at);
            }
            if self.shows_value(seat, next, histogram, value) {
                return SampleSearch::Met(next);
            }
            at = next;
        }
    }

    // Whether a record that was visited is a sample of the value.
    fn shows_value(&self, seat: &mut Pass, at: u64, histogram: u64, value: i32) -> bool
        requires meets { HasMetRecord self.now at seat.old }
        ensures read { HasReadWords seat.old seat.new }
        ensures shown { ShowsValue histogram value at result seat.new.me.0 }
        ensures behind { SamplesStandBehind seat.old.me.0 }
        ensures once { NoRepeats seat.old.me.0.seen.chain }
    {
        match self.shows_sample(seat, at, histogram) {
            Some(shown) => shown == value,
            None => false,
        }
    }
}
