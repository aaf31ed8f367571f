//! Units of one value that are being counted in a histogram that its actor knows: an `add`, or an item of a batch.

ghost use Rattle.std.specs.Prelude.{◌≡◌, length};

use crate::hist::KnownHist;
use crate::sample_search::{SampleSearch, SampleSearchStep};
use crate::word_ops::fetch_add;
use alloc_core::event::{exchange, store};
use alloc_core::{Alloc, AllocStep, Attempt};
use segment_calls::Refusal;
use segment_calls::packing::{DISABLED_BIT, off_word, packed_with, unpacked};
use segment_image::Shape;
use segment_image::layout::{
    BLOCK_HEADER, BLOCK_TYPE, HISTOGRAM_COUNTS, HISTOGRAM_REDUNDANT, HISTOGRAM_SINGLE,
    HISTOGRAM_SUM, SAMPLE_COUNT, TYPE_COUNTS, TYPE_PURGED, VERSION_MOVING,
};

/// What an `add` does next.
#[derive(Drop)]
pub(crate) enum AddStage {
    /// It loads the single word.
    LoadingSingle,
    /// It packs its units into the single word, which was `old`.
    Packing {
        old: u64,
        new: u64,
    },
    /// It loads the counts reference. The counts are in use.
    LoadingCounts,
    /// It loads the counts reference, to put the counts in use.
    SeekingCounts,
    /// It claims the words of the counts.
    Allocating {
        alloc: Alloc,
    },
    /// It stores the reference of the counts that it has claimed, if there is none yet.
    Mounting {
        at: u64,
    },
    /// It marks the block that it has claimed as purged, since `counts` were there before.
    Purging {
        at: u64,
        counts: u64,
    },
    /// It loads the single word once more, to disable it.
    LoadingAgain {
        counts: u64,
    },
    /// It disables the single word, which was `old`.
    Disabling {
        counts: u64,
        old: u64,
    },
    /// It adds the units that the single word had to the count of their bucket.
    Moving {
        counts: u64,
        bucket: usize,
        units: u64,
    },
    /// It looks for the first sample of its value, or makes one. The histogram is sparse.
    Sampling {
        sample_search: SampleSearch,
    },
    /// It adds its units to the count at a word.
    Counting {
        at: u64,
    },
    /// It adds its amount to the sum.
    Summing,
    /// It adds its units to the redundant count.
    Noting,
}

/// What a step of an `add` says.
#[derive(Clone, Copy, PartialEq, Eq)]
pub(crate) enum AddStep {
    /// It continues.
    More,
    /// The units are counted, the amount is in the sum, and the units are in the redundant count.
    Done,
    /// It is refused.
    Refused(Refusal),
}

/// A running `add`.
#[derive(Drop)]
pub(crate) struct Add {
    pub(crate) shape: Shape,
    pub(crate) version: u64,
    // The histogram's record, how many buckets it has, and which of them has the value.
    pub(crate) histogram: u64,
    pub(crate) buckets: usize,
    pub(crate) bucket: usize,
    // What it counts, and what that adds to the sum.
    pub(crate) value: i32,
    pub(crate) units: u32,
    pub(crate) amount: i64,
    pub(crate) stage: AddStage,
}

impl Add {
    ghost use Rattle.std.specs.Prelude.{◌≤◌, ◌+◌, ◌*◌, ◌^◌, ◌<◌, true, None};
    ghost use Rattle.bucket_ranges.specs.Ranges.{boundaries_of};
    ghost use Rattle.bucket_ranges.specs.Spec.{spec_fault};
    ghost use Rattle.hist_core.specs.ActorRun.{known_of};
    ghost use Rattle.hist_core.specs.StepsBy.{LiesWithin};
    ghost use Rattle.hist_core.specs.Exchanging.{add_attempt};
    ghost use Rattle.hist_core.specs.Left.{AddLowers};
    ghost use Rattle.hist_core.specs.Loading.{add_load};
    ghost use Rattle.alloc_core.specs.Layout.{IsShape};
    ghost use Rattle.hist_core.specs.declared.add.AddStage.TheVariants.{LoadingSingle, Packing, LoadingCounts, SeekingCounts, Mounting, Purging, LoadingAgain, Disabling, Moving, Counting, Summing, Noting};
    ghost use Rattle.hist_core.specs.Add.{IsAtStage, IsSomeAdd, AddSteps, IsBehindSingle, BeginsToAllocate, IsAllocating, IsAllocated, IsSampled, IsSearching, IsStarted, behind_count, behind_disabling, count_in};

    // It begins to count `units` units of a value in a known histogram, and an amount: it loads the single word or, if
    // the histogram is sparse, it looks for the sample of the value.
    pub(crate) fn start(
        shape: Shape,
        version: u64,
        known: &KnownHist,
        value: i32,
        units: u32,
        amount: i64,
    ) -> Add
        requires lawful { spec_fault known.now.spec ≡ None }
        requires ranges { known.now.ranges ≡ boundaries_of known.now.spec }
        ensures { IsStarted shape version (known_of known.now) value units amount result }
    {
        if known.ranges.len() == 0 {
            let sample_search = SampleSearch::start(shape, known.reference, value);
            return Add {
                shape,
                version,
                histogram: known.reference,
                buckets: 0,
                bucket: 0,
                value,
                units,
                amount,
                stage: AddStage::Sampling { sample_search },
            };
        }
        Add {
            shape,
            version,
            histogram: known.reference,
            buckets: known.ranges.len(),
            bucket: known.ranges.bucket(value),
            value,
            units,
            amount,
            stage: AddStage::LoadingSingle,
        }
    }

    // Its units are counted: it adds its amount next, if that is not 0.
    fn counted(&mut self)
        ensures { self.new ≡ record self.old { stage = behind_count self.old.amount } }
    {
        self.stage = if self.amount == 0 {
            AddStage::Noting
        } else {
            AddStage::Summing
        };
    }

    // What a single word leads to.
    fn behind_single(&self, word: u64) -> AddStage
        requires { self.now.bucket ≤ 65535 }
        ensures { IsBehindSingle self.now word result }
    {
        if word >= DISABLED_BIT {
            return AddStage::LoadingCounts;
        }
        match packed_with(word, self.bucket, self.units) {
            Some(new) => AddStage::Packing { old: word, new },
            None => AddStage::SeekingCounts,
        }
    }

    // It loads the single word.
    fn load_single(&mut self, words: &[u64]) -> AddStep
        requires { IsAtStage LoadingSingle (length words.now) self.old }
        ensures steps { AddSteps self.old words.now self.new words.now result }
        ensures less { AddLowers self.old words.now self.new words.now result }
        ensures same { self.new ≡ record self.old { stage = self.new.stage } }
    {
        let word = words[self.histogram as usize + HISTOGRAM_SINGLE];
        self.stage = self.behind_single(word);
        AddStep::More
    }

    // It packs its units if the single word is unchanged; else it loads it again.
    fn pack(&mut self, words: &mut [u64], old: u64, new: u64) -> AddStep
        requires { IsAtStage (Packing old new) (length words.old) self.old }
        ensures steps { AddSteps self.old words.old self.new words.new result }
        ensures less { AddLowers self.old words.old self.new words.new result }
        ensures same { self.new ≡ record self.old { stage = self.new.stage } }
    {
        let at = self.histogram as usize + HISTOGRAM_SINGLE;
        if exchange(words, at, old, new) == old {
            self.counted();
        } else {
            self.stage = AddStage::LoadingSingle;
        }
        AddStep::More
    }

    // It loads the counts reference. The counts are in use, so they lie within the segment.
    fn load_counts(&mut self, words: &[u64]) -> AddStep
        requires { IsAtStage LoadingCounts (length words.now) self.old }
        ensures steps { AddSteps self.old words.now self.new words.now result }
        ensures less { AddLowers self.old words.now self.new words.now result }
        ensures same { self.new ≡ record self.old { stage = self.new.stage } }
    {
        let counts = words[self.histogram as usize + HISTOGRAM_COUNTS];
        self.stage = AddStage::Counting {
            at: self.count_in(counts),
        };
        AddStep::More
    }

    // It loads the counts reference, to put the counts in use. If there are none yet, it claims words for them.
    fn seek_counts(&mut self, words: &[u64]) -> AddStep
        requires { IsAtStage SeekingCounts (length words.now) self.old }
        ensures steps { AddSteps self.old words.now self.new words.now result }
        ensures less { AddLowers self.old words.now self.new words.now result }
        ensures same { self.new ≡ record self.old { stage = self.new.stage } }
    {
        let counts = words[self.histogram as usize + HISTOGRAM_COUNTS];
        if counts == 0 {
            return self.begin_allocating();
        }
        self.stage = AddStage::LoadingAgain { counts };
        AddStep::More
    }

    // There are no counts yet: it begins to claim words for them.
    fn begin_allocating(&mut self) -> AddStep
        requires lawful { IsShape self.old.shape }
        requires one_page { BLOCK_HEADER + 2 * self.old.buckets ≤ self.old.shape.page }
        ensures { BeginsToAllocate self.old self.new result }
    {
        match Alloc::start(self.shape, 2 * self.buckets as u64, TYPE_COUNTS) {
            Ok(alloc) => {
                self.stage = AddStage::Allocating { alloc };
                AddStep::More
            }
            Err(_) => AddStep::Refused(Refusal::TooLarge),
        }
    }

    // What a step of its allocation leads to.
    fn allocated(&mut self, said: AllocStep) -> AddStep
        ensures { IsAllocated self.old said self.new result }
    {
        match said {
            AllocStep::More => AddStep::More,
            AllocStep::Done(at) => {
                self.stage = AddStage::Mounting { at };
                AddStep::More
            }
            AllocStep::Full => AddStep::Refused(Refusal::Full),
            AllocStep::Corrupt => AddStep::Refused(Refusal::Corrupt),
        }
    }

    // It continues to claim the words of the counts.
    fn allocate(&mut self, words: &mut [u64]) -> AddStep
        requires allocates { IsAllocating self.old.stage }
        requires stands { ∥ IsSomeAdd (length words.old) self.old ∥₁ }
        ensures steps { AddSteps self.old words.old self.new words.new result }
        ensures less { AddLowers self.old words.old self.new words.new result }
        ensures same { self.new ≡ record self.old { stage = self.new.stage } }
    {
        match &mut self.stage {
            AddStage::Allocating { alloc } => {
                let said = alloc.step(words);
                self.allocated(said)
            }
            _ => AddStep::More,
        }
    }

    // It stores the reference of its block if there are no counts yet; else its block is purged next.
    fn mount(&mut self, words: &mut [u64], at: u64) -> AddStep
        requires { IsAtStage (Mounting at) (length words.old) self.old }
        ensures steps { AddSteps self.old words.old self.new words.new result }
        ensures less { AddLowers self.old words.old self.new words.new result }
        ensures same { self.new ≡ record self.old { stage = self.new.stage } }
    {
        let reference = self.histogram as usize + HISTOGRAM_COUNTS;
        let counts = exchange(words, reference, 0, at);
        self.stage = if counts == 0 {
            AddStage::LoadingAgain { counts: at }
        } else {
            AddStage::Purging { at, counts }
        };
        AddStep::More
    }

    // It marks its block as purged.
    fn purge(&mut self, words: &mut [u64], at: u64, counts: u64) -> AddStep
        requires { IsAtStage (Purging at counts) (length words.old) self.old }
        ensures steps { AddSteps self.old words.old self.new words.new result }
        ensures less { AddLowers self.old words.old self.new words.new result }
        ensures same { self.new ≡ record self.old { stage = self.new.stage } }
    {
        store(words, at as usize + BLOCK_TYPE, TYPE_PURGED);
        self.stage = AddStage::LoadingAgain { counts };
        AddStep::More
    }

    // Where the count of its value is, among counts that lie within the segment.
    fn count_in(&self, counts: u64) -> u64
        requires { self.now.bucket ≤ 65535 }
        ensures { result ≡ count_in self.now counts }
    {
        counts.wrapping_add((BLOCK_HEADER + self.bucket) as u64)
    }

    // It loads the single word once more. If that is off, it counts next; else it disables it.
    fn load_again(&mut self, words: &[u64], counts: u64) -> AddStep
        requires { IsAtStage (LoadingAgain counts) (length words.now) self.old }
        ensures steps { AddSteps self.old words.now self.new words.now result }
        ensures less { AddLowers self.old words.now self.new words.now result }
        ensures same { self.new ≡ record self.old { stage = self.new.stage } }
    {
        let old = words[self.histogram as usize + HISTOGRAM_SINGLE];
        self.stage = if old >= DISABLED_BIT {
            AddStage::Counting {
                at: self.count_in(counts),
            }
        } else {
            AddStage::Disabling { counts, old }
        };
        AddStep::More
    }

    // The single word is disabled: what it does next.
    fn behind_disabling(&self, counts: u64, old: u64) -> AddStage
        requires { self.now.bucket ≤ 65535 }
        ensures { result ≡ behind_disabling self.now counts old }
    {
        if self.version == VERSION_MOVING && old != 0 {
            let (bucket, units) = unpacked(old);
            return AddStage::Moving {
                counts,
                bucket,
                units,
            };
        }
        AddStage::Counting {
            at: self.count_in(counts),
        }
    }

    // It disables the single word if it is unchanged; else it loads it again.
    fn disable(&mut self, words: &mut [u64], counts: u64, old: u64) -> AddStep
        requires { IsAtStage (Disabling counts old) (length words.old) self.old }
        ensures steps { AddSteps self.old words.old self.new words.new result }
        ensures less { AddLowers self.old words.old self.new words.new result }
        ensures same { self.new ≡ record self.old { stage = self.new.stage } }
    {
        let at = self.histogram as usize + HISTOGRAM_SINGLE;
        let off = off_word(self.version, old);
        self.stage = if exchange(words, at, old, off) == old {
            self.behind_disabling(counts, old)
        } else {
            AddStage::LoadingAgain { counts }
        };
        AddStep::More
    }

    // It adds the units that the single word had to the count of their bucket.
    fn move_units(&mut self, words: &mut [u64], counts: u64, bucket: usize, units: u64) -> AddStep
        requires { IsAtStage (Moving counts bucket units) (length words.old) self.old }
        ensures steps { AddSteps self.old words.old self.new words.new result }
        ensures less { AddLowers self.old words.old self.new words.new result }
        ensures same { self.new ≡ record self.old { stage = self.new.stage } }
    {
        fetch_add(words, counts as usize + (BLOCK_HEADER + bucket), units);
        self.stage = AddStage::Counting {
            at: self.count_in(counts),
        };
        AddStep::More
    }

    // What a step of its search leads to: it continues, counts in the sample, which lies within the segment, or is
    // refused.
    fn sampled(&mut self, said: SampleSearchStep) -> AddStep
        ensures { IsSampled self.old said self.new result }
    {
        match said {
            SampleSearchStep::More => AddStep::More,
            SampleSearchStep::Found(sample) => {
                let at = sample.wrapping_add(SAMPLE_COUNT as u64);
                self.stage = AddStage::Counting { at };
                AddStep::More
            }
            SampleSearchStep::Refused(refusal) => AddStep::Refused(refusal),
        }
    }

    // It continues its search for the sample of its value.
    fn sample(&mut self, words: &mut [u64]) -> AddStep
        requires samples { IsSearching self.old.stage }
        requires stands { ∥ IsSomeAdd (length words.old) self.old ∥₁ }
        ensures steps { AddSteps self.old words.old self.new words.new result }
        ensures less { AddLowers self.old words.old self.new words.new result }
        ensures same { self.new ≡ record self.old { stage = self.new.stage } }
    {
        match &mut self.stage {
            AddStage::Sampling { sample_search } => {
                let said = sample_search.step(words);
                self.sampled(said)
            }
            _ => AddStep::More,
        }
    }

    // It adds its units to a count.
    fn count(&mut self, words: &mut [u64], at: u64) -> AddStep
        requires { IsAtStage (Counting at) (length words.old) self.old }
        ensures steps { AddSteps self.old words.old self.new words.new result }
        ensures less { AddLowers self.old words.old self.new words.new result }
        ensures same { self.new ≡ record self.old { stage = self.new.stage } }
    {
        fetch_add(words, at as usize, u64::from(self.units));
        self.counted();
        AddStep::More
    }

    // It adds its amount to the sum.
    fn sum(&mut self, words: &mut [u64]) -> AddStep
        requires { IsAtStage Summing (length words.old) self.old }
        ensures steps { AddSteps self.old words.old self.new words.new result }
        ensures less { AddLowers self.old words.old self.new words.new result }
        ensures same { self.new ≡ record self.old { stage = self.new.stage } }
    {
        let at = self.histogram as usize + HISTOGRAM_SUM;
        fetch_add(words, at, self.amount.cast_unsigned());
        self.stage = AddStage::Noting;
        AddStep::More
    }

    // It adds its units to the redundant count, and has ended.
    fn note(&mut self, words: &mut [u64]) -> AddStep
        requires { IsAtStage Noting (length words.old) self.old }
        ensures steps { AddSteps self.old words.old self.new words.new result }
        ensures less { AddLowers self.old words.old self.new words.new result }
        ensures same { self.new ≡ record self.old { stage = self.new.stage } }
    {
        let at = self.histogram as usize + HISTOGRAM_REDUNDANT;
        fetch_add(words, at, u64::from(self.units));
        AddStep::Done
    }

    // The exchange that its next event is, if it is one.
    pub(crate) fn next_exchange(&self) -> Option<Attempt>
        ensures { result ≡ add_attempt self.now self.now.stage }
    {
        match &self.stage {
            AddStage::Packing { old, .. } | AddStage::Disabling { old, .. } => Some(Attempt {
                at: (self.histogram as usize).wrapping_add(HISTOGRAM_SINGLE),
                wanted: *old,
            }),
            AddStage::Mounting { .. } => Some(Attempt {
                at: (self.histogram as usize).wrapping_add(HISTOGRAM_COUNTS),
                wanted: 0,
            }),
            AddStage::Allocating { alloc } => alloc.next_exchange(),
            AddStage::Sampling { sample_search } => sample_search.next_exchange(),
            _ => None,
        }
    }

    // The word that its next event loads, if it is a load.
    pub(crate) fn next_load(&self) -> Option<usize>
        ensures { result ≡ add_load self.now self.now.stage }
    {
        match &self.stage {
            AddStage::LoadingSingle | AddStage::LoadingAgain { .. } => {
                Some((self.histogram as usize).wrapping_add(HISTOGRAM_SINGLE))
            }
            AddStage::LoadingCounts | AddStage::SeekingCounts => {
                Some((self.histogram as usize).wrapping_add(HISTOGRAM_COUNTS))
            }
            AddStage::Allocating { alloc } => alloc.next_load(),
            AddStage::Sampling { sample_search } => sample_search.next_load(),
            _ => None,
        }
    }

    // Performs its next event.
    pub(crate) fn step(&mut self, words: &mut [u64]) -> AddStep
        requires stands { ∥ IsSomeAdd (length words.old) self.old ∥₁ }
        requires inside { LiesWithin (length words.old) self.old.histogram }
        ensures steps { AddSteps self.old words.old self.new words.new result }
        ensures less { AddLowers self.old words.old self.new words.new result }
        ensures same { self.new ≡ record self.old { stage = self.new.stage } }
    {
        match self.stage {
            AddStage::LoadingSingle => self.load_single(words),
            AddStage::Packing { old, new } => self.pack(words, old, new),
            AddStage::LoadingCounts => self.load_counts(words),
            AddStage::SeekingCounts => self.seek_counts(words),
            AddStage::Allocating { .. } => self.allocate(words),
            AddStage::Mounting { at } => self.mount(words, at),
            AddStage::Purging { at, counts } => self.purge(words, at, counts),
            AddStage::LoadingAgain { counts } => self.load_again(words, counts),
            AddStage::Disabling { counts, old } => self.disable(words, counts, old),
            AddStage::Moving {
                counts,
                bucket,
                units,
            } => self.move_units(words, counts, bucket, units),
            AddStage::Sampling { .. } => self.sample(words),
            AddStage::Counting { at } => self.count(words, at),
            AddStage::Summing => self.sum(words),
            AddStage::Noting => self.note(words),
        }
    }
}
