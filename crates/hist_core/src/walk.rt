//! A walk along the samples of a sparse histogram, which come after its record on the list.

ghost use Rattle.std.specs.Prelude.{◌≡◌};
ghost use Rattle.hist_core.specs.Walk.{IsBehindValue, behind_next, behind_type};

use segment_image::layout::{
    BLOCK_NEXT, BLOCK_TYPE, QUEUE, SAMPLE_HISTOGRAM, SAMPLE_VALUE, TYPE_SAMPLE,
};

/// What a walk does next.
#[derive(Clone, Copy, PartialEq, Eq)]
pub(crate) enum SampleWalk {
    /// It loads the next of the histogram's record.
    LoadingFirst,
    /// It loads the type of a record that it found after the histogram's.
    LoadingType { at: u64 },
    /// It loads the histogram of a sample.
    LoadingHistogram { at: u64 },
    /// It loads the value of a sample.
    LoadingValue { at: u64, of: u64 },
    /// It loads the next of a record after the histogram's.
    LoadingNext { at: u64 },
}

/// What a step of a walk found.
#[derive(Clone, Copy, PartialEq, Eq)]
pub(crate) enum Met {
    /// Nothing yet, and it continues.
    Nothing(SampleWalk),
    /// A sample of its histogram.
    Sample { at: u64, value: i32 },
    /// The end of the list.
    End,
}

// What the next of a record leads to: the record there, or the end of the list.
fn behind_next(next: u64) -> Met
    ensures { result ≡ behind_next next }
{
    if next == QUEUE {
        Met::End
    } else {
        Met::Nothing(SampleWalk::LoadingType { at: next })
    }
}

// What the type of a record leads to: the histogram of a sample, or the next of another record.
fn behind_type(at: u64, tag: u64) -> SampleWalk
    ensures { result ≡ behind_type at tag }
{
    if tag == TYPE_SAMPLE {
        SampleWalk::LoadingHistogram { at }
    } else {
        SampleWalk::LoadingNext { at }
    }
}

// What the value of a sample leads to: that sample, if it is one of this histogram, or else its next.
fn behind_value(histogram: u64, at: u64, of: u64, word: u64) -> Met
    ensures { IsBehindValue histogram at of word result }
{
    if of != histogram {
        return Met::Nothing(SampleWalk::LoadingNext { at });
    }
    match i32::try_from(word.cast_signed()) {
        Ok(value) => Met::Sample { at, value },
        Err(_) => Met::Nothing(SampleWalk::LoadingNext { at }),
    }
}

impl SampleWalk {
    ghost use Rattle.std.specs.Prelude.{◌≤◌, ◌<◌, ◌%◌, ◌^◌, length};
    ghost use Rattle.segment_image.specs.Words.{word_at};
    ghost use Rattle.hist_core.specs.Walk.{Meets, spot_of};

    // The word that it loads.
    fn spot(self, histogram: u64) -> usize
        requires { spot_of histogram self ≤ 1048576 }
        ensures { result ≡ spot_of histogram self }
    {
        match self {
            SampleWalk::LoadingFirst => histogram as usize + BLOCK_NEXT,
            SampleWalk::LoadingType { at } => at as usize + BLOCK_TYPE,
            SampleWalk::LoadingHistogram { at } => at as usize + SAMPLE_HISTOGRAM,
            SampleWalk::LoadingValue { at, .. } => at as usize + SAMPLE_VALUE,
            SampleWalk::LoadingNext { at } => at as usize + BLOCK_NEXT,
        }
    }

    // The word that its next event loads.
    pub(crate) fn next_load(self, histogram: u64) -> usize
        ensures { result ≡ spot_of histogram self % 2 ^ 64 }
    {
        match self {
            SampleWalk::LoadingFirst => (histogram as usize).wrapping_add(BLOCK_NEXT),
            SampleWalk::LoadingType { at } => (at as usize).wrapping_add(BLOCK_TYPE),
            SampleWalk::LoadingHistogram { at } => (at as usize).wrapping_add(SAMPLE_HISTOGRAM),
            SampleWalk::LoadingValue { at, .. } => (at as usize).wrapping_add(SAMPLE_VALUE),
            SampleWalk::LoadingNext { at } => (at as usize).wrapping_add(BLOCK_NEXT),
        }
    }

    // What that word leads to.
    fn behind(self, histogram: u64, word: u64) -> Met
        ensures { Meets self histogram word result }
    {
        match self {
            SampleWalk::LoadingFirst | SampleWalk::LoadingNext { .. } => behind_next(word),
            SampleWalk::LoadingType { at } => Met::Nothing(behind_type(at, word)),
            SampleWalk::LoadingHistogram { at } => Met::Nothing(SampleWalk::LoadingValue {
                at,
                of: word,
            }),
            SampleWalk::LoadingValue { at, of } => behind_value(histogram, at, of, word),
        }
    }

    // Performs the next event of a walk from the record of a histogram.
    pub(crate) fn step(self, histogram: u64, words: &[u64]) -> Met
        requires within { spot_of histogram self < length words.now }
        requires few { length words.now ≤ 1048576 }
        ensures { Meets self histogram (word_at words.now (spot_of histogram self)) result }
    {
        let word = words[self.spot(histogram)];
        self.behind(histogram, word)
    }
}
