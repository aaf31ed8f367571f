//! How a recorder puts the counts of a histogram in use: it mounts them if there are none, and disables the single
//! word.

ghost use Rattle.std.specs.Prelude.{◌≡◌, ◌==◌, ◌&&◌, nat_lt};

use crate::recorder::KnownHistogram;
use crate::rule::Pass;
use crate::segment::Segment;
use segment_calls::Refusal;
use segment_calls::packing::{DISABLED_BIT, off_word};
use segment_image::layout::{BLOCK_HEADER, BUCKET_WEIGHT, TYPE_COUNTS, VERSION_MOVING};

// Whether units of a single word are in transit once it is disabled: in version 1, if it has any.
fn moves_units(version: u64, word: u64) -> bool
    ensures { result ≡ ((version == 1) && nat_lt 0 word) }
{
    version == VERSION_MOVING && word > 0
}

impl Segment {
    ghost use Rattle.std.specs.Prelude.{◌≡◌, ◌+◌, ◌*◌, ◌≤◌, IfOk, MatchResult, None};
    ghost use Rattle.live_segment.specs.Add.Prelude.{block_words, boundaries_of, CountsWithin, HasBlank, HasDisabled, HasMounted, HasNotMounted, IsSame, IsSeated, IsSeatedAt, known_view, LooksAtCounts, MayGiveUp, MayMount, MountsAt, MountsAtMostOne, spec_fault};

    // Where the counts of a histogram are: those that are there, or those of a block that it claims for them.
    pub(crate) fn find_or_mount_counts(
        &self,
        seat: &mut Pass,
        histogram: &KnownHistogram,
    ) -> Result<u64, Refusal>
        requires at { IsSeatedAt self.now histogram.now seat.old }
        requires fits { block_words (known_view histogram.now) ≤ self.now.setting.shape.page }
        requires right { (spec_fault histogram.now.spec ≡ None) × (histogram.now.ranges ≡ boundaries_of histogram.now.spec) }
        requires may { MayMount seat.old.me.0 (known_view histogram.now) }
        requires closes { MayGiveUp seat.old.me.0 }
        ensures same { IsSame seat.old seat.new }
        ensures outcome { MatchResult result (λ counts. HasMounted (known_view histogram.now) seat.old.me.0 counts seat.new.me.0) (λ why. HasNotMounted why (known_view histogram.now) seat.old.me.0 seat.new.me.0) }
        ensures claims { IfOk result (λ counts. MountsAtMostOne (known_view histogram.now) seat.old.me.0 seat.new.me.0) }
    {
        let counts = self.load_counts(seat, histogram.reference);
        if counts != 0 {
            return Ok(counts);
        }
        let words = BLOCK_HEADER + 2 * histogram.ranges.len();
        let at = self.allocate(seat, words as u64, TYPE_COUNTS)?;
        Ok(self.mount(seat, histogram, at))
    }

    // A blank block of its own becomes the counts of a histogram. If another recorder's are there, the block is given
    // up.
    fn mount(&self, seat: &mut Pass, histogram: &KnownHistogram, at: u64) -> u64
        requires seat { IsSeated self.now seat.old }
        requires room { (histogram.now.reference + 15 ≤ self.now.setting.shape.size) × (at + 5 ≤ self.now.setting.shape.size) }
        requires may { MayMount seat.old.me.0 (known_view histogram.now) }
        requires blank { HasBlank seat.old.me.0 (known_view histogram.now) at }
        requires within { CountsWithin seat.old.me.0 (known_view histogram.now) at }
        ensures same { IsSame seat.old seat.new }
        ensures mounted { HasMounted (known_view histogram.now) seat.old.me.0 result seat.new.me.0 }
        ensures claims { MountsAt (known_view histogram.now) at seat.old.me.0 result seat.new.me.0 }
    {
        let found = self.mount_counts(seat, histogram.reference, at);
        if found == 0 {
            return at;
        }
        self.purge_block(seat, at);
        found
    }

    // Disables the single word of a histogram whose counts it looks at, and adds the units that this word had to their
    // count. If it is off already, nothing is left to do.
    pub(crate) fn disable_single(&self, seat: &mut Pass, histogram: &KnownHistogram, counts: u64)
        requires at { IsSeatedAt self.now histogram.now seat.old }
        requires may { MayMount seat.old.me.0 (known_view histogram.now) }
        requires stands { LooksAtCounts seat.old.me.0 (known_view histogram.now) counts }
        ensures same { IsSame seat.old seat.new }
        ensures disabled { HasDisabled (known_view histogram.now) counts seat.old.me.0 seat.new.me.0 }
    {
        loop {
            let word = self.load_single(seat, histogram.reference);
            if word >= DISABLED_BIT {
                return;
            }
            let off = off_word(self.setting.version, word);
            if self.disable(seat, histogram.reference, word, off) == word {
                if moves_units(self.setting.version, word) {
                    self.add_moved(seat, counts, word / BUCKET_WEIGHT, word % BUCKET_WEIGHT);
                }
                return;
            }
        }
    }
}
