//! How the items of a batch are counted, one after the other.

ghost use Rattle.std.specs.Prelude.{◌≢◌, ◌≤◌, pos, IfOk, MatchResult};
ghost use Rattle.live_segment.specs.Add.Prelude.{All, batch_cost, units_of};

use crate::list::index::RecordIndex;
use crate::recorder::KnownHistogram;
use crate::rule::Pass;
use crate::segment::Segment;
use segment_calls::{BatchRefusal, Refusal};

impl Segment {
    ghost use Rattle.live_segment.specs.Add.Prelude.{ClaimsFor, ClaimsForAll, ClaimsForEach, CountsAlone, CountsFor, HasItems, HasNoted, IsAtRest, IsBatched, IsCutShort, IsIndexed, IsNotCounted, IsReadyFor, IsSame, item_of, known_view, StopsAtItem};
    ghost use Rattle.live_segment.specs.declared.list.index.KeyKind.TheVariants.{Sample as OfSample};

    // Counts a batch: its items, and then its sum if that is not 0.
    //
    // `Corrupt` or `Full` if a block was needed for an item and none could be claimed: then the items before it are
    // counted, and the sum is not added.
    pub(crate) fn count_batch(
        &self,
        seat: &mut Pass,
        samples: &mut RecordIndex,
        histogram: &KnownHistogram,
        items: &[(i32, u32)],
        sum: i64,
    ) -> Result<(), BatchRefusal>
        requires ready { IsReadyFor self.now histogram.now seat.old }
        requires indexed { IsIndexed OfSample self.now.setting.shape.size seat.old.me.0.seen samples.old }
        requires units { All (λ item. 1 ≤ item.1) items.now × (batch_cost items.now sum ≤ seat.old.me.0.units.share) }
        ensures same { IsSame seat.old seat.new }
        ensures indexed { IsIndexed OfSample self.now.setting.shape.size seat.new.me.0.seen samples.new }
        ensures rests { IsAtRest seat.new.me.0 }
        ensures outcome { MatchResult result (λ _. IsBatched (known_view histogram.now) items.now sum seat.old.me.0 seat.new.me.0) (λ refusal. IsCutShort (known_view histogram.now) items.now refusal seat.old.me.0 seat.new.me.0) }
        ensures claims { IfOk result (λ _. ClaimsForAll (known_view histogram.now) items.now seat.old.me.0 seat.new.me.0) }
    {
        if sum == 0 {
            self.count_unsummed(seat, samples, histogram, items)
        } else {
            self.count_summed(seat, samples, histogram, items, sum)
        }
    }

    // Counts a batch with a sum: its items, and then the sum.
    fn count_summed(
        &self,
        seat: &mut Pass,
        samples: &mut RecordIndex,
        histogram: &KnownHistogram,
        items: &[(i32, u32)],
        sum: i64,
    ) -> Result<(), BatchRefusal>
        requires ready { IsReadyFor self.now histogram.now seat.old }
        requires indexed { IsIndexed OfSample self.now.setting.shape.size seat.old.me.0.seen samples.old }
        requires units { All (λ item. 1 ≤ item.1) items.now × (batch_cost items.now sum ≤ seat.old.me.0.units.share) }
        requires some { sum ≢ pos 0 }
        ensures same { IsSame seat.old seat.new }
        ensures indexed { IsIndexed OfSample self.now.setting.shape.size seat.new.me.0.seen samples.new }
        ensures rests { IsAtRest seat.new.me.0 }
        ensures outcome { MatchResult result (λ _. IsBatched (known_view histogram.now) items.now sum seat.old.me.0 seat.new.me.0) (λ refusal. IsCutShort (known_view histogram.now) items.now refusal seat.old.me.0 seat.new.me.0) }
        ensures claims { IfOk result (λ _. ClaimsForAll (known_view histogram.now) items.now seat.old.me.0 seat.new.me.0) }
    {
        self.count_items(seat, samples, histogram, items)?;
        self.add_sum(seat, histogram.reference, sum);
        Ok(())
    }

    // Counts a batch without a sum: its last item ends it.
    fn count_unsummed(
        &self,
        seat: &mut Pass,
        samples: &mut RecordIndex,
        histogram: &KnownHistogram,
        items: &[(i32, u32)],
    ) -> Result<(), BatchRefusal>
        requires ready { IsReadyFor self.now histogram.now seat.old }
        requires indexed { IsIndexed OfSample self.now.setting.shape.size seat.old.me.0.seen samples.old }
        requires units { All (λ item. 1 ≤ item.1) items.now × (units_of items.now ≤ seat.old.me.0.units.share) }
        ensures same { IsSame seat.old seat.new }
        ensures indexed { IsIndexed OfSample self.now.setting.shape.size seat.new.me.0.seen samples.new }
        ensures rests { IsAtRest seat.new.me.0 }
        ensures outcome { MatchResult result (λ _. IsBatched (known_view histogram.now) items.now (pos 0) seat.old.me.0 seat.new.me.0) (λ refusal. IsCutShort (known_view histogram.now) items.now refusal seat.old.me.0 seat.new.me.0) }
        ensures claims { IfOk result (λ _. ClaimsForAll (known_view histogram.now) items.now seat.old.me.0 seat.new.me.0) }
    {
        let [front @ .., last] = items else {
            return Ok(());
        };
        self.count_items(seat, samples, histogram, front)?;
        if let Err(why) = self.count_value(seat, samples, histogram, last.0, last.1) {
            return Err(BatchRefusal {
                added: front.len(),
                why,
            });
        }
        self.finish_entry(seat, histogram.reference, u64::from(last.1));
        Ok(())
    }

    // Counts items of a histogram, in order. Their call continues.
    //
    // `Corrupt` or `Full` if a block was needed for one and none could be claimed: then the call has ended after the
    // items before it.
    fn count_items(
        &self,
        seat: &mut Pass,
        samples: &mut RecordIndex,
        histogram: &KnownHistogram,
        items: &[(i32, u32)],
    ) -> Result<(), BatchRefusal>
        requires ready { IsReadyFor self.now histogram.now seat.old }
        requires indexed { IsIndexed OfSample self.now.setting.shape.size seat.old.me.0.seen samples.old }
        requires units { All (λ item. 1 ≤ item.1) items.now × (units_of items.now ≤ seat.old.me.0.units.share) }
        ensures same { IsSame seat.old seat.new }
        ensures indexed { IsIndexed OfSample self.now.setting.shape.size seat.new.me.0.seen samples.new }
        ensures outcome { MatchResult result (λ _. HasItems (known_view histogram.now) items.now seat.old.me.0 seat.new.me.0) (λ refusal. StopsAtItem (known_view histogram.now) items.now refusal seat.old.me.0 seat.new.me.0) }
        ensures claims { IfOk result (λ _. ClaimsForEach (known_view histogram.now) items.now seat.old.me.0 seat.new.me.0) }
    {
        for (added, item) in items.iter().enumerate() {
            if let Err(why) = self.count_item(seat, samples, histogram, item.0, item.1) {
                return Err(BatchRefusal { added, why });
            }
        }
        Ok(())
    }

    // Counts an item, and notes its units. Its call continues.
    fn count_item(
        &self,
        seat: &mut Pass,
        samples: &mut RecordIndex,
        histogram: &KnownHistogram,
        value: i32,
        units: u32,
    ) -> Result<(), Refusal>
        requires ready { CountsFor self.now histogram.now samples.old seat.old }
        requires may { CountsAlone seat.old.me.0 (known_view histogram.now) (item_of (known_view histogram.now) value units) }
        ensures same { IsSame seat.old seat.new }
        ensures indexed { IsIndexed OfSample self.now.setting.shape.size seat.new.me.0.seen samples.new }
        ensures outcome { MatchResult result (λ _. HasNoted (item_of (known_view histogram.now) value units) seat.old.me.0 seat.new.me.0) (λ why. IsNotCounted why (known_view histogram.now) value units seat.old.me.0 seat.new.me.0) }
        ensures claims { IfOk result (λ _. ClaimsFor (known_view histogram.now) value seat.old.me.0 seat.new.me.0) }
    {
        self.count_value(seat, samples, histogram, value, units)?;
        self.add_redundant(seat, histogram.reference, u64::from(units));
        Ok(())
    }
}
