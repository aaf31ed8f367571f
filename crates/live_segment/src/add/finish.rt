//! How a sample that is counted is finished: its amount is added to the sum, and its units to the redundant count.

use crate::recorder::KnownHistogram;
use crate::rule::Pass;
use crate::segment::Segment;

impl Segment {
    ghost use Rattle.std.specs.Prelude.{ℕ, ℤ, ◌≡◌, ◌≤◌, ◌+◌, ◌*◌, [], ◌∷◌, unsigned_abs};
    ghost use Rattle.live_segment.specs.Add.Prelude.{HasEnded, HasCountedSample, IsSame, IsSummed, item_with, known_view, MayReach};

    // Adds the amount of a sample that is counted to the sum, and its units to the redundant count. Its call ends.
    pub(crate) fn finish_sample(
        &self,
        seat: &mut Pass,
        histogram: &KnownHistogram,
        units: u32,
        amount: i64,
    )
        requires reach { MayReach self.now seat.old (histogram.now.reference + 15) }
        requires counted { (value : ℤ) × HasCountedSample (known_view histogram.now) value units seat.old.me.0 }
        requires small { unsigned_abs amount ≤ 2147483648 * units }
        ensures same { IsSame seat.old seat.new }
        ensures ended { (value : ℤ) → HasCountedSample (known_view histogram.now) value units seat.old.me.0 → HasEnded (item_with (known_view histogram.now) value units amount ∷ []) seat.old.me.0 seat.new.me.0 }
    {
        self.sum_sample(seat, histogram, amount);
        self.finish_entry(seat, histogram.reference, u64::from(units));
    }

    // Adds the amount of a sample that is counted to the sum, if it is not 0.
    fn sum_sample(&self, seat: &mut Pass, histogram: &KnownHistogram, amount: i64)
        requires reach { MayReach self.now seat.old (histogram.now.reference + 15) }
        requires counted { (value : ℤ) × (units : ℕ) × HasCountedSample (known_view histogram.now) value units seat.old.me.0 × unsigned_abs amount ≤ 2147483648 * units }
        ensures same { IsSame seat.old seat.new }
        ensures summed { (value : ℤ) (units : ℕ) → HasCountedSample (known_view histogram.now) value units seat.old.me.0 → unsigned_abs amount ≤ 2147483648 * units → IsSummed (item_with (known_view histogram.now) value units amount) [] seat.old.me.0 seat.new.me.0 }
    {
        if amount == 0 {
            return;
        }
        self.add_amount(seat, histogram.reference, amount);
    }
}
