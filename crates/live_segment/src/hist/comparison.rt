//! How a record is compared with what a `hist` asks for.

ghost use Rattle.std.specs.Prelude.{◌≡◌, ◌+◌, ◌<◌, ◌≤◌, ℕ, length, true, false};
ghost use Rattle.live_segment.specs.Hist.Prelude.{HasReadWords, is_opener, IsAsked, IsFixed, MayLoadRecord, ShowsName, ShowsSpec, ShowsWords};

use crate::rule::Pass;
use crate::segment::Segment;
use segment_calls::Asked;
use segment_image::layout::{
    BLOCK_HEADER, BLOCK_TYPE, HISTOGRAM_BUCKETS, HISTOGRAM_KIND, HISTOGRAM_NAME,
    HISTOGRAM_NAME_LENGTH, TYPE_HISTOGRAM,
};

// Where these begin in the payload of a histogram's record.
const NAME: usize = HISTOGRAM_NAME - BLOCK_HEADER;

const BUCKETS: usize = HISTOGRAM_BUCKETS - BLOCK_HEADER;

impl Segment {
    ghost use Rattle.live_segment.specs.Hist.Prelude.{HasMetRecord, IsSeated, table_of};

    // Whether a record that was visited has these words from a place on. They are loaded up to the first that differs.
    fn shows(&self, seat: &mut Pass, at: u64, first: usize, words: &[u64]) -> bool
        requires seat { (seat.old.table_id ≡ table_of self.now) × (is_opener seat.old.me.0.role ≡ false) }
        requires met { MayLoadRecord at seat.old.me.0 }
        requires fixed { (i : ℕ) → i < length words.now → IsFixed seat.old.me.0 at (first + i) }
        requires room { at + first + length words.now ≤ self.now.setting.shape.size }
        ensures read { HasReadWords seat.old seat.new }
        ensures shown { ShowsWords at first words.now result seat.new.me.0.seen }
    {
        for (i, word) in words.iter().enumerate() {
            if self.load_published(seat, at, first + i) != *word {
                return false;
            }
        }
        true
    }

    // Whether it has the name that is asked for.
    pub(crate) fn shows_name(&self, seat: &mut Pass, at: u64, asked: &Asked) -> bool
        requires meets { HasMetRecord self.now at seat.old }
        requires asked { IsAsked self.now.setting.shape asked.now }
        ensures read { HasReadWords seat.old seat.new }
        ensures shown { ShowsName asked.now at result seat.new.me.0 }
    {
        if self.load_published(seat, at, BLOCK_TYPE) != TYPE_HISTOGRAM {
            return false;
        }
        if self.load_published(seat, at, HISTOGRAM_NAME_LENGTH) != asked.name.len() as u64 {
            return false;
        }
        let letters = &asked.payload[NAME..NAME + asked.letters];
        self.shows(seat, at, HISTOGRAM_NAME, letters)
    }

    // Whether it has the spec that is asked for, once it has the name.
    pub(crate) fn shows_spec(&self, seat: &mut Pass, at: u64, asked: &Asked) -> bool
        requires seat { IsSeated self.now seat.old }
        requires asked { IsAsked self.now.setting.shape asked.now }
        requires met { MayLoadRecord at seat.old.me.0 }
        requires named { ShowsName asked.now at true seat.old.me.0 }
        ensures read { HasReadWords seat.old seat.new }
        ensures shown { ShowsSpec asked.now at result seat.new.me.0.seen }
    {
        if !self.shows(seat, at, HISTOGRAM_KIND, &asked.payload[..BUCKETS]) {
            return false;
        }
        if self.load_published(seat, at, HISTOGRAM_BUCKETS) != asked.payload[BUCKETS] {
            return false;
        }
        let ranges = &asked.payload[NAME + asked.letters..];
        self.shows(seat, at, HISTOGRAM_NAME + asked.letters, ranges)
    }
}
