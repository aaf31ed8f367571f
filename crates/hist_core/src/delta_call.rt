//! A running delta: of each bucket or sample of a histogram it takes the units that no delta has taken yet, and of the
//! sum what is new.

use crate::hist::KnownHist;
use crate::keys::list_by_key;
use crate::mounted::Mounted;
use crate::walk::{Met, SampleWalk};
use crate::word_ops::{fetch_max, swap};
use bucket_ranges::Ranges;
use segment_calls::packing::{DISABLED_BIT, packed_in};
use segment_image::Shape;
use segment_image::layout::{
    BLOCK_HEADER, BLOCK_LEAST, HEADER_WORDS, HISTOGRAM_COUNTS, HISTOGRAM_SINGLE,
    HISTOGRAM_SINGLE_MARK, HISTOGRAM_SUM, HISTOGRAM_SUM_MARK, SAMPLE_COUNT, SAMPLE_MARK,
};
use std::alloc::{AllocError, Global};

/// What a delta does next.
#[derive(Clone, Copy, PartialEq, Eq)]
pub(crate) enum DeltaStage {
    /// It loads the single word.
    LoadingSingle,
    /// It raises the single mark to the packed units of a bucket.
    TakingPacked {
        bucket: usize,
        units: u64,
    },
    /// It loads the counts reference. The counts are in use.
    LoadingCounts {
        packed: Option<usize>,
        kept: u64,
    },
    /// It loads the count of a bucket.
    LoadingCount {
        mounted: Mounted,
        bucket: usize,
    },
    /// It raises the mark of a bucket to the units that it has.
    Raising {
        mounted: Mounted,
        bucket: usize,
        total: u64,
    },
    /// It walks along the samples of a sparse histogram.
    Walking {
        walk: SampleWalk,
    },
    /// It loads the count of a sample.
    LoadingSample {
        at: u64,
        value: i32,
    },
    /// It raises the mark of a sample to its count.
    RaisingSample {
        at: u64,
        value: i32,
        count: u64,
    },
    /// It loads the sum.
    LoadingSum,
    /// It swaps the sum into the sum mark.
    Swapping {
        sum: i64,
    },
}

/// What a step of a delta says.
#[derive(Clone, Copy, PartialEq, Eq)]
pub(crate) enum DeltaCallStep {
    /// It continues.
    More,
    /// It has taken this many units of this key, and continues.
    Took(i32, u64),
    /// It has taken this of the sum, and has ended.
    Done(i64),
}

/// A running delta.
#[derive(Drop)]
pub(crate) struct DeltaCall {
    pub(crate) version: u64,
    // The histogram's record, and the ranges of its buckets.
    pub(crate) histogram: u64,
    pub(crate) ranges: Ranges,
    // The keys of which it took units so far, each with how many. There is room for all buckets, or for as many values
    // as fit in the segment.
    pub(crate) counts: Vec<(i32, u64)>,
    pub(crate) stage: DeltaStage,
}

impl DeltaCall {
    ghost use Rattle.std.specs.Prelude.{◌≡◌, ◌≤◌, ◌<◌, ◌+◌, length, vec_len, vec_capacity, None, IfOk};
    ghost use Rattle.bucket_ranges.specs.Spec.{spec_fault};
    ghost use Rattle.hist_core.specs.ActorRun.{known_of};
    ghost use Rattle.hist_core.specs.Left.{DeltaLowers};
    ghost use Rattle.hist_core.specs.Loading.{delta_load};
    ghost use Rattle.hist_core.specs.StepsBy.{LiesWithin};
    ghost use Rattle.hist_core.specs.declared.delta_call.DeltaStage.TheVariants.{LoadingSingle, TakingPacked, LoadingCounts, LoadingCount, Raising, Walking, LoadingSample, RaisingSample, LoadingSum, Swapping};
    ghost use Rattle.hist_core.specs.DeltaCall.{IsSomeDeltaCall, IsStarted, IsAtStage, DeltaCallSteps, HasGoneOn, IsBehindSingle, behind_bucket, behind_sample, behind_walk, TakesBucket, TakesUnits, mark_of};

    // It begins to take a delta of a known histogram: it loads the single word or, if the histogram is sparse, the next
    // of its record. There is room for all keys.
    pub(crate) fn start(
        alloc: Global,
        shape: Shape,
        version: u64,
        known: &KnownHist,
    ) -> Result<DeltaCall, AllocError>
        requires lawful { spec_fault known.now.spec ≡ None }
        ensures { IfOk result (IsStarted shape version (known_of known.now)) }
    {
        let Ok(ranges) = Ranges::of(alloc, &known.spec) else {
            return Err(AllocError);
        };
        if ranges.len() == 0 {
            let most = (shape.size() as usize - HEADER_WORDS) / BLOCK_LEAST;
            let counts = Vec::with_capacity(alloc, most)?;
            return Ok(DeltaCall {
                version,
                histogram: known.reference,
                ranges,
                counts,
                stage: DeltaStage::Walking {
                    walk: SampleWalk::LoadingFirst,
                },
            });
        }
        let counts = Vec::with_capacity(alloc, ranges.len())?;
        Ok(DeltaCall {
            version,
            histogram: known.reference,
            ranges,
            counts,
            stage: DeltaStage::LoadingSingle,
        })
    }

    // What a single word leads to.
    fn behind_single(&self, word: u64) -> DeltaStage
        requires { length self.now.ranges ≤ 65535 }
        ensures { IsBehindSingle self.now word result }
    {
        let (packed, kept) = packed_in(self.version, word, self.ranges.len());
        if word >= DISABLED_BIT {
            return DeltaStage::LoadingCounts { packed, kept };
        }
        match packed {
            Some(bucket) => DeltaStage::TakingPacked {
                bucket,
                units: kept,
            },
            None => DeltaStage::LoadingSum,
        }
    }

    // It loads the single word.
    fn load_single(&mut self, words: &[u64]) -> DeltaCallStep
        requires { IsAtStage LoadingSingle (length words.now) self.old }
        ensures steps { DeltaCallSteps self.old words.now self.new words.now result }
        ensures less { DeltaLowers self.old words.now self.new words.now result }
        ensures goes { HasGoneOn self.old self.new result }
    {
        let word = words[self.histogram as usize + HISTOGRAM_SINGLE];
        self.stage = self.behind_single(word);
        DeltaCallStep::More
    }

    // It lists the units of a key by which its total is above its mark.
    fn take(&mut self, key: i32, total: u64, mark: u64) -> DeltaCallStep
        requires { vec_len self.old.counts < vec_capacity self.old.counts }
        ensures { TakesUnits key total mark self.old self.new result }
    {
        if mark >= total {
            return DeltaCallStep::More;
        }
        list_by_key(&mut self.counts, key, total - mark);
        DeltaCallStep::Took(key, total - mark)
    }

    // The same for a bucket.
    fn take_bucket(&mut self, bucket: usize, total: u64, mark: u64) -> DeltaCallStep
        requires inside { bucket + 1 < length self.old.ranges }
        requires room { vec_len self.old.counts < vec_capacity self.old.counts }
        ensures { TakesBucket bucket total mark self.old self.new result }
    {
        let key = self.ranges.low(bucket);
        self.take(key, total, mark)
    }

    // It raises the single mark to the packed units.
    fn take_packed(&mut self, words: &mut [u64], bucket: usize, units: u64) -> DeltaCallStep
        requires { IsAtStage (TakingPacked bucket units) (length words.old) self.old }
        ensures steps { DeltaCallSteps self.old words.old self.new words.new result }
        ensures less { DeltaLowers self.old words.old self.new words.new result }
        ensures goes { HasGoneOn self.old self.new result }
    {
        let at = self.histogram as usize + HISTOGRAM_SINGLE_MARK;
        let mark = fetch_max(words, at, units);
        self.stage = DeltaStage::LoadingSum;
        self.take_bucket(bucket, units, mark)
    }

    // It loads the counts reference. The counts are in use, so they lie within the segment.
    fn load_counts(&mut self, words: &[u64], packed: Option<usize>, kept: u64) -> DeltaCallStep
        requires { IsAtStage (LoadingCounts packed kept) (length words.now) self.old }
        ensures steps { DeltaCallSteps self.old words.now self.new words.now result }
        ensures less { DeltaLowers self.old words.now self.new words.now result }
        ensures goes { HasGoneOn self.old self.new result }
    {
        let counts = words[self.histogram as usize + HISTOGRAM_COUNTS];
        let mounted = Mounted {
            counts,
            packed,
            kept,
        };
        self.stage = DeltaStage::LoadingCount { mounted, bucket: 0 };
        DeltaCallStep::More
    }

    // What it does after a bucket: it loads the count of the next one, or the sum.
    fn behind_bucket(&self, mounted: Mounted, bucket: usize) -> DeltaStage
        requires { bucket ≤ 65535 }
        ensures { result ≡ behind_bucket self.now mounted bucket }
    {
        if bucket + 1 < self.ranges.len() {
            DeltaStage::LoadingCount {
                mounted,
                bucket: bucket + 1,
            }
        } else {
            DeltaStage::LoadingSum
        }
    }

    // It loads the count of a bucket, and raises its mark next if the bucket has units.
    fn load_count(&mut self, words: &[u64], mounted: Mounted, bucket: usize) -> DeltaCallStep
        requires { IsAtStage (LoadingCount mounted bucket) (length words.now) self.old }
        ensures steps { DeltaCallSteps self.old words.now self.new words.now result }
        ensures less { DeltaLowers self.old words.now self.new words.now result }
        ensures goes { HasGoneOn self.old self.new result }
    {
        let count = words[mounted.counts as usize + (BLOCK_HEADER + bucket)];
        let total = mounted.total(bucket, count);
        self.stage = if total == 0 {
            self.behind_bucket(mounted, bucket)
        } else {
            DeltaStage::Raising {
                mounted,
                bucket,
                total,
            }
        };
        DeltaCallStep::More
    }

    // Where the mark of a bucket is: the packed one has the single mark, each other one its own after the counts.
    fn mark_of(&self, mounted: Mounted, bucket: usize) -> usize
        requires few { (length self.now.ranges ≤ 65535) × (bucket ≤ 65535) }
        requires inside { (self.now.histogram ≤ 1048576) × (mounted.counts ≤ 1048576) }
        ensures { result ≡ mark_of self.now mounted bucket }
    {
        if mounted.packed == Some(bucket) {
            self.histogram as usize + HISTOGRAM_SINGLE_MARK
        } else {
            mounted.counts as usize + BLOCK_HEADER + self.ranges.len() + bucket
        }
    }

    // It raises the mark of a bucket.
    fn raise(
        &mut self,
        words: &mut [u64],
        mounted: Mounted,
        bucket: usize,
        total: u64,
    ) -> DeltaCallStep
        requires { IsAtStage (Raising mounted bucket total) (length words.old) self.old }
        ensures steps { DeltaCallSteps self.old words.old self.new words.new result }
        ensures less { DeltaLowers self.old words.old self.new words.new result }
        ensures goes { HasGoneOn self.old self.new result }
    {
        let mark = fetch_max(words, self.mark_of(mounted, bucket), total);
        self.stage = self.behind_bucket(mounted, bucket);
        self.take_bucket(bucket, total, mark)
    }

    // What a step of its walk leads to: the next step, the count of a sample, or at the end of the list the sum.
    fn behind_walk(met: Met) -> DeltaStage
        ensures { result ≡ behind_walk met }
    {
        match met {
            Met::Nothing(walk) => DeltaStage::Walking { walk },
            Met::Sample { at, value } => DeltaStage::LoadingSample { at, value },
            Met::End => DeltaStage::LoadingSum,
        }
    }

    // It walks on.
    fn walk_on(&mut self, words: &[u64], walk: SampleWalk) -> DeltaCallStep
        requires { IsAtStage (Walking walk) (length words.now) self.old }
        ensures steps { DeltaCallSteps self.old words.now self.new words.now result }
        ensures less { DeltaLowers self.old words.now self.new words.now result }
        ensures goes { HasGoneOn self.old self.new result }
    {
        let met = walk.step(self.histogram, words);
        self.stage = DeltaCall::behind_walk(met);
        DeltaCallStep::More
    }

    // What the count of a sample leads to: its mark is raised next if it has units.
    fn behind_sample(at: u64, value: i32, count: u64) -> DeltaStage
        ensures { result ≡ behind_sample at value count }
    {
        if count == 0 {
            DeltaStage::Walking {
                walk: SampleWalk::LoadingNext { at },
            }
        } else {
            DeltaStage::RaisingSample { at, value, count }
        }
    }

    // It loads the count of a sample of its histogram.
    fn load_sample(&mut self, words: &[u64], at: u64, value: i32) -> DeltaCallStep
        requires { IsAtStage (LoadingSample at value) (length words.now) self.old }
        ensures steps { DeltaCallSteps self.old words.now self.new words.now result }
        ensures less { DeltaLowers self.old words.now self.new words.now result }
        ensures goes { HasGoneOn self.old self.new result }
    {
        let count = words[at as usize + SAMPLE_COUNT];
        self.stage = DeltaCall::behind_sample(at, value, count);
        DeltaCallStep::More
    }

    // It raises the mark of a sample to its count.
    fn raise_sample(&mut self, words: &mut [u64], at: u64, value: i32, count: u64) -> DeltaCallStep
        requires { IsAtStage (RaisingSample at value count) (length words.old) self.old }
        ensures steps { DeltaCallSteps self.old words.old self.new words.new result }
        ensures less { DeltaLowers self.old words.old self.new words.new result }
        ensures goes { HasGoneOn self.old self.new result }
    {
        let mark = fetch_max(words, at as usize + SAMPLE_MARK, count);
        self.stage = DeltaStage::Walking {
            walk: SampleWalk::LoadingNext { at },
        };
        self.take(value, count, mark)
    }

    // It loads the sum.
    fn load_sum(&mut self, words: &[u64]) -> DeltaCallStep
        requires { IsAtStage LoadingSum (length words.now) self.old }
        ensures steps { DeltaCallSteps self.old words.now self.new words.now result }
        ensures less { DeltaLowers self.old words.now self.new words.now result }
        ensures goes { HasGoneOn self.old self.new result }
    {
        let sum = words[self.histogram as usize + HISTOGRAM_SUM].cast_signed();
        self.stage = DeltaStage::Swapping { sum };
        DeltaCallStep::More
    }

    // It swaps the sum into the sum mark, and has ended.
    fn swap_sum(&mut self, words: &mut [u64], sum: i64) -> DeltaCallStep
        requires { IsAtStage (Swapping sum) (length words.old) self.old }
        ensures steps { DeltaCallSteps self.old words.old self.new words.new result }
        ensures less { DeltaLowers self.old words.old self.new words.new result }
        ensures goes { HasGoneOn self.old self.new result }
    {
        let at = self.histogram as usize + HISTOGRAM_SUM_MARK;
        let mark = swap(words, at, sum.cast_unsigned());
        DeltaCallStep::Done(sum.wrapping_sub(mark.cast_signed()))
    }

    // The word that its next event loads, if it is a load.
    pub(crate) fn next_load(&self) -> Option<usize>
        ensures { result ≡ delta_load self.now.histogram self.now.stage }
    {
        let histogram = self.histogram as usize;
        match self.stage {
            DeltaStage::LoadingSingle => Some(histogram.wrapping_add(HISTOGRAM_SINGLE)),
            DeltaStage::LoadingCounts { .. } => Some(histogram.wrapping_add(HISTOGRAM_COUNTS)),
            DeltaStage::LoadingCount { mounted, bucket } => Some(mounted.next_load(bucket)),
            DeltaStage::Walking { walk } => Some(walk.next_load(self.histogram)),
            DeltaStage::LoadingSample { at, .. } => Some((at as usize).wrapping_add(SAMPLE_COUNT)),
            DeltaStage::LoadingSum => Some(histogram.wrapping_add(HISTOGRAM_SUM)),
            _ => None,
        }
    }

    // Performs its next event.
    pub(crate) fn step(&mut self, words: &mut [u64]) -> DeltaCallStep
        requires stands { ∥ IsSomeDeltaCall (length words.old) self.old ∥₁ }
        requires inside { LiesWithin (length words.old) self.old.histogram }
        ensures steps { DeltaCallSteps self.old words.old self.new words.new result }
        ensures less { DeltaLowers self.old words.old self.new words.new result }
        ensures goes { HasGoneOn self.old self.new result }
    {
        match self.stage {
            DeltaStage::LoadingSingle => self.load_single(words),
            DeltaStage::TakingPacked { bucket, units } => self.take_packed(words, bucket, units),
            DeltaStage::LoadingCounts { packed, kept } => self.load_counts(words, packed, kept),
            DeltaStage::LoadingCount { mounted, bucket } => self.load_count(words, mounted, bucket),
            DeltaStage::Raising {
                mounted,
                bucket,
                total,
            } => self.raise(words, mounted, bucket, total),
            DeltaStage::Walking { walk } => self.walk_on(words, walk),
            DeltaStage::LoadingSample { at, value } => self.load_sample(words, at, value),
            DeltaStage::RaisingSample { at, value, count } => {
                self.raise_sample(words, at, value, count)
            }
            DeltaStage::LoadingSum => self.load_sum(words),
            DeltaStage::Swapping { sum } => self.swap_sum(words, sum),
        }
    }
}
