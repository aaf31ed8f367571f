//! The keys by which a recorder finds the records that it visited along the list.

ghost use Rattle.std.specs.Prelude.{◌≡◌, ◌+◌, ◌≤◌, ℕ, Some};
ghost use Rattle.live_segment.specs.List.Prelude.{cast_unsigned, HasReadWords, MayLoadRecord, name_words, w64, word_seen};
ghost use Rattle.segment_image.specs.declared.layout.TheConstants.{BLOCK_TYPE, HISTOGRAM_NAME, HISTOGRAM_NAME_LENGTH, TYPE_HISTOGRAM};
ghost use Rattle.live_segment.specs.List.Keys.{sample_key as key_of_sample};

use crate::list::index::KeyKind;
use crate::rule::Pass;
use crate::segment::Segment;
use list_index::{GROUP_KEYS, next_key};
use segment_image::layout::{
    BLOCK_TYPE, HISTOGRAM_NAME, HISTOGRAM_NAME_LENGTH, SAMPLE_HISTOGRAM, SAMPLE_VALUE,
    TYPE_HISTOGRAM, TYPE_SAMPLE,
};

// The key of the samples of a value of a histogram, by the word of the value: the keys of a histogram are a group.
fn sample_key(histogram: u64, word: u64) -> u64
    ensures { result ≡ key_of_sample histogram word }
{
    histogram.wrapping_mul(GROUP_KEYS).wrapping_add(word)
}

/// The key of the samples of a value of a histogram.
pub(crate) fn value_key(histogram: u64, value: i32) -> u64
    ensures { result ≡ key_of_sample histogram (cast_unsigned w64 value) }
{
    let word = i64::from(value).cast_unsigned();
    sample_key(histogram, word)
}

impl Segment {
    ghost use Rattle.live_segment.specs.List.Prelude.{HasLookedForKey, HasMetRecord, IsSeated, Name, Sample, seen_key};

    // The key of the name of a histogram's record that was visited.
    fn name_key_of(&self, seat: &mut Pass, at: u64, words: u64) -> u64
        requires seat { IsSeated self.now seat.old }
        requires met { MayLoadRecord at seat.old.me.0 }
        requires tag { word_seen seat.old.me.0.seen.words (at + BLOCK_TYPE) ≡ Some TYPE_HISTOGRAM }
        requires length { (len : ℕ) × (word_seen seat.old.me.0.seen.words (at + HISTOGRAM_NAME_LENGTH) ≡ Some len) × (words ≡ name_words len) }
        requires room { at + HISTOGRAM_NAME + words ≤ self.now.setting.shape.size }
        ensures read { HasReadWords seat.old seat.new }
        ensures looked { HasLookedForKey Name seat.new.me.0.seen at }
        ensures key { seen_key Name seat.new.me.0.seen at ≡ Some result }
    {
        let mut key = 0;
        for i in 0..words as usize {
            key = next_key(key, self.load_published(seat, at, HISTOGRAM_NAME + i));
        }
        key
    }

    // The key of a record that was visited: that of its name, if it is one of a histogram.
    fn name_key_at(&self, seat: &mut Pass, at: u64) -> Option<u64>
        requires meets { HasMetRecord self.now at seat.old }
        ensures read { HasReadWords seat.old seat.new }
        ensures looked { HasLookedForKey Name seat.new.me.0.seen at }
        ensures key { seen_key Name seat.new.me.0.seen at ≡ result }
    {
        if self.load_published(seat, at, BLOCK_TYPE) != TYPE_HISTOGRAM {
            return None;
        }
        let len = self.load_published(seat, at, HISTOGRAM_NAME_LENGTH);
        Some(self.name_key_of(seat, at, len.div_ceil(8)))
    }

    // The key of a record that was visited: that of its histogram and its value, if it is a sample.
    fn sample_key_at(&self, seat: &mut Pass, at: u64) -> Option<u64>
        requires meets { HasMetRecord self.now at seat.old }
        ensures read { HasReadWords seat.old seat.new }
        ensures looked { HasLookedForKey Sample seat.new.me.0.seen at }
        ensures key { seen_key Sample seat.new.me.0.seen at ≡ result }
    {
        if self.load_published(seat, at, BLOCK_TYPE) != TYPE_SAMPLE {
            return None;
        }
        let histogram = self.load_published(seat, at, SAMPLE_HISTOGRAM);
        let value = self.load_published(seat, at, SAMPLE_VALUE);
        Some(sample_key(histogram, value))
    }

    // The key of a record that was visited, if it is one that has a key.
    pub(crate) fn key_at(&self, seat: &mut Pass, kind: KeyKind, at: u64) -> Option<u64>
        requires meets { HasMetRecord self.now at seat.old }
        ensures read { HasReadWords seat.old seat.new }
        ensures looked { HasLookedForKey kind seat.new.me.0.seen at }
        ensures key { seen_key kind seat.new.me.0.seen at ≡ result }
    {
        match kind {
            KeyKind::Name => self.name_key_at(seat, at),
            KeyKind::Sample => self.sample_key_at(seat, at),
        }
    }
}
