//! The search for the sample of a value of a sparse histogram: a walk from the histogram's record, which makes a sample
//! if there is none.

ghost use Rattle.std.specs.Prelude.{◌≡◌, length};
ghost use Rattle.hist_core.specs.SampleSearch.{behind_type};

use crate::new_record::{NewRecord, NewRecordStep};
use alloc_core::Attempt;
use list_core::{Walk, WalkStep};
use segment_calls::Refusal;
use segment_image::Shape;
use segment_image::layout::{
    BLOCK_HEADER, BLOCK_TYPE, SAMPLE_HISTOGRAM, SAMPLE_LEAST, SAMPLE_VALUE, TYPE_SAMPLE,
};

/// What a search for a sample does next.
#[derive(Drop)]
pub(crate) enum SampleSearchStage {
    /// It loads the next of the block where the walk is.
    Walking,
    /// It loads the type of the record that the walk gave last.
    LoadingType { at: u64 },
    /// It loads the histogram of a sample.
    LoadingHistogram { at: u64 },
    /// It loads the value of a sample of this histogram.
    LoadingValue { at: u64, of: u64 },
    /// It makes a sample.
    Making { new_record: NewRecord },
}

/// What a step of a search for a sample says.
#[derive(Clone, Copy, PartialEq, Eq)]
pub(crate) enum SampleSearchStep {
    /// It continues.
    More,
    /// The first sample of the value is there.
    Found(u64),
    /// It is refused: there is none, and none could be made.
    Refused(Refusal),
}

/// A running search for the sample of a value.
#[derive(Drop)]
pub(crate) struct SampleSearch {
    pub(crate) shape: Shape,
    // The histogram's record, and the value.
    pub(crate) histogram: u64,
    pub(crate) value: i32,
    pub(crate) walk: Walk,
    pub(crate) stage: SampleSearchStage,
}

// What the type of a record leads to: the histogram of a sample, or the next of another record.
fn behind_type(at: u64, tag: u64) -> SampleSearchStage
    ensures { result ≡ behind_type at tag }
{
    if tag == TYPE_SAMPLE {
        SampleSearchStage::LoadingHistogram { at }
    } else {
        SampleSearchStage::Walking
    }
}

impl SampleSearch {
    ghost use Rattle.std.specs.Int.{w64, cast_unsigned};
    ghost use Rattle.hist_core.specs.Exchanging.{sample_search_attempt};
    ghost use Rattle.hist_core.specs.Left.{SearchLowers};
    ghost use Rattle.hist_core.specs.Loading.{sample_search_load};
    ghost use Rattle.hist_core.specs.declared.sample_search.SampleSearchStage.TheVariants.{Walking, LoadingType, LoadingHistogram, LoadingValue};
    ghost use Rattle.hist_core.specs.SampleSearch.{IsSomeSampleSearch, SampleSearchSteps, IsStarted, IsIts, IsMade, IsMakingSample};

    // It begins to walk from the histogram's record.
    pub(crate) fn start(shape: Shape, histogram: u64, value: i32) -> SampleSearch
        ensures { IsStarted shape histogram value result }
    {
        SampleSearch {
            shape,
            histogram,
            value,
            walk: Walk::from(histogram),
            stage: SampleSearchStage::Walking,
        }
    }

    // The word of its value.
    fn value_word(&self) -> u64
        ensures { result ≡ cast_unsigned w64 self.now.value }
    {
        i64::from(self.value).cast_unsigned()
    }

    // It loads the next of the block where the walk is. At the end of the list it begins to make a sample.
    fn walk_on(&mut self, words: &[u64]) -> SampleSearchStep
        requires walks { self.old.stage ≡ Walking }
        requires stands { ∥ IsSomeSampleSearch (length words.now) self.old ∥₁ }
        ensures steps { SampleSearchSteps self.old words.now self.new words.now result }
        ensures less { SearchLowers self.old words.now self.new words.now result }
        ensures same { self.new ≡ record self.old { walk = self.new.walk; stage = self.new.stage } }
    {
        match self.walk.step(words) {
            WalkStep::Record(at) => self.stage = SampleSearchStage::LoadingType { at },
            WalkStep::End => {
                let room = (SAMPLE_LEAST - BLOCK_HEADER) as u64;
                let new_record = NewRecord::start(self.shape, room, TYPE_SAMPLE);
                self.stage = SampleSearchStage::Making { new_record };
            }
            WalkStep::Stray => {}
        }
        SampleSearchStep::More
    }

    // It loads the type of a record.
    fn load_type(&mut self, words: &[u64], at: u64) -> SampleSearchStep
        requires loads { self.old.stage ≡ LoadingType at }
        requires stands { ∥ IsSomeSampleSearch (length words.now) self.old ∥₁ }
        ensures steps { SampleSearchSteps self.old words.now self.new words.now result }
        ensures less { SearchLowers self.old words.now self.new words.now result }
        ensures same { self.new ≡ record self.old { walk = self.new.walk; stage = self.new.stage } }
    {
        let tag = words[at as usize + BLOCK_TYPE];
        self.stage = behind_type(at, tag);
        SampleSearchStep::More
    }

    // It loads the histogram of a sample.
    fn load_histogram(&mut self, words: &[u64], at: u64) -> SampleSearchStep
        requires loads { self.old.stage ≡ LoadingHistogram at }
        requires stands { ∥ IsSomeSampleSearch (length words.now) self.old ∥₁ }
        ensures steps { SampleSearchSteps self.old words.now self.new words.now result }
        ensures less { SearchLowers self.old words.now self.new words.now result }
        ensures same { self.new ≡ record self.old { walk = self.new.walk; stage = self.new.stage } }
    {
        let of = words[at as usize + SAMPLE_HISTOGRAM];
        self.stage = SampleSearchStage::LoadingValue { at, of };
        SampleSearchStep::More
    }

    // Whether a sample of a histogram is that of its value, which has this word.
    fn is_its(&self, of: u64, word: u64) -> bool
        ensures { IsIts self.now of word result }
    {
        of == self.histogram && word == self.value_word()
    }

    // It loads the value of a sample: that is the one, or the walk continues.
    fn load_value(&mut self, words: &[u64], at: u64, of: u64) -> SampleSearchStep
        requires loads { self.old.stage ≡ LoadingValue at of }
        requires stands { ∥ IsSomeSampleSearch (length words.now) self.old ∥₁ }
        ensures steps { SampleSearchSteps self.old words.now self.new words.now result }
        ensures less { SearchLowers self.old words.now self.new words.now result }
        ensures same { self.new ≡ record self.old { walk = self.new.walk; stage = self.new.stage } }
    {
        let word = words[at as usize + SAMPLE_VALUE];
        if self.is_its(of, word) {
            return SampleSearchStep::Found(at);
        }
        self.stage = SampleSearchStage::Walking;
        SampleSearchStep::More
    }

    // What a step of making its sample leads to: it continues, walks on from where it was, or is refused.
    fn made(&mut self, said: NewRecordStep) -> SampleSearchStep
        ensures { IsMade self.old said self.new result }
    {
        match said {
            NewRecordStep::More => SampleSearchStep::More,
            NewRecordStep::Done => {
                self.stage = SampleSearchStage::Walking;
                SampleSearchStep::More
            }
            NewRecordStep::Refused(refusal) => SampleSearchStep::Refused(refusal),
        }
    }

    // It continues to make its sample.
    fn make(&mut self, words: &mut [u64]) -> SampleSearchStep
        requires makes { IsMakingSample self.old.stage }
        requires stands { ∥ IsSomeSampleSearch (length words.old) self.old ∥₁ }
        ensures steps { SampleSearchSteps self.old words.old self.new words.new result }
        ensures less { SearchLowers self.old words.old self.new words.new result }
        ensures same { self.new ≡ record self.old { walk = self.new.walk; stage = self.new.stage } }
    {
        let payload = [self.histogram, self.value_word()];
        match &mut self.stage {
            SampleSearchStage::Making { new_record } => {
                let said = new_record.step(words, &payload);
                self.made(said)
            }
            _ => SampleSearchStep::More,
        }
    }

    // The exchange that its next event is, if it is one.
    pub(crate) fn next_exchange(&self) -> Option<Attempt>
        ensures { result ≡ sample_search_attempt self.now.stage }
    {
        match &self.stage {
            SampleSearchStage::Making { new_record } => new_record.next_exchange(),
            _ => None,
        }
    }

    // The word that its next event loads, if it is a load.
    pub(crate) fn next_load(&self) -> Option<usize>
        ensures { result ≡ sample_search_load self.now self.now.stage }
    {
        match &self.stage {
            SampleSearchStage::Walking => Some(self.walk.next_load()),
            SampleSearchStage::LoadingType { at } => Some((*at as usize).wrapping_add(BLOCK_TYPE)),
            SampleSearchStage::LoadingHistogram { at } => {
                Some((*at as usize).wrapping_add(SAMPLE_HISTOGRAM))
            }
            SampleSearchStage::LoadingValue { at, .. } => {
                Some((*at as usize).wrapping_add(SAMPLE_VALUE))
            }
            SampleSearchStage::Making { new_record } => new_record.next_load(),
        }
    }

    // Performs its next event.
    pub(crate) fn step(&mut self, words: &mut [u64]) -> SampleSearchStep
        requires stands { ∥ IsSomeSampleSearch (length words.old) self.old ∥₁ }
        ensures steps { SampleSearchSteps self.old words.old self.new words.new result }
        ensures less { SearchLowers self.old words.old self.new words.new result }
        ensures same { self.new ≡ record self.old { walk = self.new.walk; stage = self.new.stage } }
    {
        match self.stage {
            SampleSearchStage::Walking => self.walk_on(words),
            SampleSearchStage::LoadingType { at } => self.load_type(words, at),
            SampleSearchStage::LoadingHistogram { at } => self.load_histogram(words, at),
            SampleSearchStage::LoadingValue { at, of } => self.load_value(words, at, of),
            SampleSearchStage::Making { .. } => self.make(words),
        }
    }
}
