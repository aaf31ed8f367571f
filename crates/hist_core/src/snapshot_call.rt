//! A running snapshot: it looks at all that is counted of a histogram, and changes nothing.

use crate::hist::KnownHist;
use crate::mounted::Mounted;
use crate::walk::{Met, SampleWalk};
use bucket_ranges::empty_buckets;
use segment_calls::packing::{DISABLED_BIT, packed_in};
use segment_calls::sort_by_key;
use segment_image::Shape;
use segment_image::layout::{
    BLOCK_HEADER, BLOCK_LEAST, HEADER_WORDS, HISTOGRAM_COUNTS, HISTOGRAM_REDUNDANT,
    HISTOGRAM_SINGLE, HISTOGRAM_SUM, SAMPLE_COUNT,
};
use std::alloc::{AllocError, Global};

/// What a snapshot does next.
#[derive(Clone, Copy, PartialEq, Eq)]
pub(crate) enum SnapshotStage {
    /// It loads the single word.
    LoadingSingle,
    /// It loads the counts reference. The counts are in use.
    LoadingCounts { packed: Option<usize>, kept: u64 },
    /// It loads the count of a bucket.
    LoadingCount { mounted: Mounted, bucket: usize },
    /// It walks along the samples. The histogram is sparse.
    Walking { walk: SampleWalk },
    /// It loads the count of a sample of its histogram.
    LoadingSample { at: u64, value: i32 },
    /// It loads the sum.
    LoadingSum,
    /// It loads the redundant count.
    LoadingRedundant { sum: i64 },
}

/// What a step of a snapshot says.
#[derive(Clone, Copy, PartialEq, Eq)]
pub(crate) enum SnapshotCallStep {
    /// It continues.
    More,
    /// It has ended, with this sum and this redundant count.
    Done { sum: i64, redundant: u64 },
}

/// A running snapshot.
#[derive(Drop)]
pub(crate) struct SnapshotCall {
    pub(crate) version: u64,
    // The histogram's record.
    pub(crate) histogram: u64,
    // The key of each bucket, in order, with the units that it saw there: 0 if it has not looked yet. Of a sparse
    // histogram the values that it found with units, in the order of the list; at its end they are sorted.
    pub(crate) totals: Vec<(i32, u64)>,
    pub(crate) stage: SnapshotStage,
}

impl SnapshotCall {
    ghost use Rattle.std.specs.Prelude.{◌≡◌, ◌≤◌, ◌<◌, length, vec_len, vec_capacity, None, IfOk};
    ghost use Rattle.bucket_ranges.specs.Ranges.{boundaries_of};
    ghost use Rattle.bucket_ranges.specs.Spec.{spec_fault};
    ghost use Rattle.hist_core.specs.ActorRun.{known_of};
    ghost use Rattle.hist_core.specs.Left.{SnapshotLowers};
    ghost use Rattle.hist_core.specs.Loading.{snapshot_load};
    ghost use Rattle.hist_core.specs.StepsBy.{LiesWithin};
    ghost use Rattle.hist_core.specs.declared.snapshot_call.SnapshotStage.TheVariants.{LoadingSingle, LoadingCounts, LoadingCount, Walking, LoadingSample, LoadingSum, LoadingRedundant};
    ghost use Rattle.hist_core.specs.SnapshotCall.{IsAtStage, IsSomeSnapshotCall, IsStarted, SnapshotCallSteps, IsTotalPut, IsBehindSingle, IsBehindWalk, IsValueListed, behind_bucket};

    // It begins to look at a known histogram: it loads the single word or, if the histogram is sparse, the next of its
    // record.
    pub(crate) fn start(
        alloc: Global,
        shape: Shape,
        version: u64,
        known: &KnownHist,
    ) -> Result<SnapshotCall, AllocError>
        requires lawful { spec_fault known.now.spec ≡ None }
        requires ranges { known.now.ranges ≡ boundaries_of known.now.spec }
        ensures { IfOk result (IsStarted shape version (known_of known.now)) }
    {
        if known.ranges.len() == 0 {
            let most = (shape.size() as usize - HEADER_WORDS) / BLOCK_LEAST;
            return Ok(SnapshotCall {
                version,
                histogram: known.reference,
                totals: Vec::with_capacity(alloc, most)?,
                stage: SnapshotStage::Walking {
                    walk: SampleWalk::LoadingFirst,
                },
            });
        }
        Ok(SnapshotCall {
            version,
            histogram: known.reference,
            totals: empty_buckets(alloc, &known.ranges)?,
            stage: SnapshotStage::LoadingSingle,
        })
    }

    // It puts down the units that it saw of a bucket.
    fn put(&mut self, bucket: usize, total: u64)
        requires { bucket < length self.old.totals.items }
        ensures { IsTotalPut bucket total self.old self.new }
    {
        self.totals[bucket].1 = total;
    }

    // What a single word leads to. If the counts are not in use, its units are all that there are.
    fn behind_single(&mut self, word: u64)
        requires { length self.old.totals.items ≤ 65535 }
        ensures { IsBehindSingle self.old word self.new self.new.stage }
    {
        let (packed, kept) = packed_in(self.version, word, self.totals.len());
        if word >= DISABLED_BIT {
            self.stage = SnapshotStage::LoadingCounts { packed, kept };
            return;
        }
        self.stage = SnapshotStage::LoadingSum;
        if let Some(bucket) = packed {
            self.put(bucket, kept);
        }
    }

    // It loads the single word.
    fn load_single(&mut self, words: &[u64]) -> SnapshotCallStep
        requires { IsAtStage LoadingSingle (length words.now) self.old }
        ensures steps { SnapshotCallSteps self.old words.now self.new words.now result }
        ensures less { SnapshotLowers self.old words.now self.new words.now result }
        ensures of { self.new.histogram ≡ self.old.histogram }
    {
        let word = words[self.histogram as usize + HISTOGRAM_SINGLE];
        self.behind_single(word);
        SnapshotCallStep::More
    }

    // It loads the counts reference. The counts are in use, so they lie within the segment.
    fn load_counts(&mut self, words: &[u64], packed: Option<usize>, kept: u64) -> SnapshotCallStep
        requires { IsAtStage (LoadingCounts packed kept) (length words.now) self.old }
        ensures steps { SnapshotCallSteps self.old words.now self.new words.now result }
        ensures less { SnapshotLowers self.old words.now self.new words.now result }
        ensures of { self.new.histogram ≡ self.old.histogram }
    {
        let counts = words[self.histogram as usize + HISTOGRAM_COUNTS];
        let mounted = Mounted {
            counts,
            packed,
            kept,
        };
        self.stage = SnapshotStage::LoadingCount { mounted, bucket: 0 };
        SnapshotCallStep::More
    }

    // What it does after a bucket: it loads the count of the next one, or the sum.
    fn behind_bucket(&self, mounted: Mounted, bucket: usize) -> SnapshotStage
        requires { bucket ≤ 65535 }
        ensures { result ≡ behind_bucket (length self.now.totals.items) mounted bucket }
    {
        if bucket + 1 < self.totals.len() {
            SnapshotStage::LoadingCount {
                mounted,
                bucket: bucket + 1,
            }
        } else {
            SnapshotStage::LoadingSum
        }
    }

    // It loads the count of a bucket.
    fn load_count(&mut self, words: &[u64], mounted: Mounted, bucket: usize) -> SnapshotCallStep
        requires { IsAtStage (LoadingCount mounted bucket) (length words.now) self.old }
        ensures steps { SnapshotCallSteps self.old words.now self.new words.now result }
        ensures less { SnapshotLowers self.old words.now self.new words.now result }
        ensures of { self.new.histogram ≡ self.old.histogram }
    {
        let count = words[mounted.counts as usize + (BLOCK_HEADER + bucket)];
        self.stage = self.behind_bucket(mounted, bucket);
        self.put(bucket, mounted.total(bucket, count));
        SnapshotCallStep::More
    }

    // What a step of its walk leads to: the next step, the count of a sample, or at the end of the list the sum.
    fn meet(&mut self, met: Met)
        ensures { IsBehindWalk self.old met self.new }
    {
        self.stage = match met {
            Met::Nothing(walk) => SnapshotStage::Walking { walk },
            Met::Sample { at, value } => SnapshotStage::LoadingSample { at, value },
            Met::End => {
                sort_by_key(&mut self.totals);
                SnapshotStage::LoadingSum
            }
        };
    }

    // It walks on.
    fn walk_on(&mut self, words: &[u64], walk: SampleWalk) -> SnapshotCallStep
        requires { IsAtStage (Walking walk) (length words.now) self.old }
        ensures steps { SnapshotCallSteps self.old words.now self.new words.now result }
        ensures less { SnapshotLowers self.old words.now self.new words.now result }
        ensures of { self.new.histogram ≡ self.old.histogram }
    {
        let met = walk.step(self.histogram, words);
        self.meet(met);
        SnapshotCallStep::More
    }

    // It lists the units of a value that it found, if there are some.
    fn list(&mut self, value: i32, count: u64)
        requires { vec_len self.old.totals < vec_capacity self.old.totals }
        ensures { IsValueListed value count self.old self.new }
    {
        if count != 0 {
            self.totals.push_reserved((value, count));
        }
    }

    // It loads the count of a sample of its histogram.
    fn load_sample(&mut self, words: &[u64], at: u64, value: i32) -> SnapshotCallStep
        requires { IsAtStage (LoadingSample at value) (length words.now) self.old }
        ensures steps { SnapshotCallSteps self.old words.now self.new words.now result }
        ensures less { SnapshotLowers self.old words.now self.new words.now result }
        ensures of { self.new.histogram ≡ self.old.histogram }
    {
        let count = words[at as usize + SAMPLE_COUNT];
        self.stage = SnapshotStage::Walking {
            walk: SampleWalk::LoadingNext { at },
        };
        self.list(value, count);
        SnapshotCallStep::More
    }

    // It loads the sum.
    fn load_sum(&mut self, words: &[u64]) -> SnapshotCallStep
        requires { IsAtStage LoadingSum (length words.now) self.old }
        ensures steps { SnapshotCallSteps self.old words.now self.new words.now result }
        ensures less { SnapshotLowers self.old words.now self.new words.now result }
        ensures of { self.new.histogram ≡ self.old.histogram }
    {
        let sum = words[self.histogram as usize + HISTOGRAM_SUM].cast_signed();
        self.stage = SnapshotStage::LoadingRedundant { sum };
        SnapshotCallStep::More
    }

    // It loads the redundant count, and has ended.
    fn load_redundant(&mut self, words: &[u64], sum: i64) -> SnapshotCallStep
        requires { IsAtStage (LoadingRedundant sum) (length words.now) self.old }
        ensures steps { SnapshotCallSteps self.old words.now self.new words.now result }
        ensures less { SnapshotLowers self.old words.now self.new words.now result }
        ensures of { self.new.histogram ≡ self.old.histogram }
    {
        let redundant = words[self.histogram as usize + HISTOGRAM_REDUNDANT];
        SnapshotCallStep::Done { sum, redundant }
    }

    // The word that its next event loads.
    pub(crate) fn next_load(&self) -> Option<usize>
        ensures { result ≡ snapshot_load self.now.histogram self.now.stage }
    {
        let histogram = self.histogram as usize;
        match self.stage {
            SnapshotStage::LoadingSingle => Some(histogram.wrapping_add(HISTOGRAM_SINGLE)),
            SnapshotStage::LoadingCounts { .. } => Some(histogram.wrapping_add(HISTOGRAM_COUNTS)),
            SnapshotStage::LoadingCount { mounted, bucket } => Some(mounted.next_load(bucket)),
            SnapshotStage::Walking { walk } => Some(walk.next_load(self.histogram)),
            SnapshotStage::LoadingSample { at, .. } => {
                Some((at as usize).wrapping_add(SAMPLE_COUNT))
            }
            SnapshotStage::LoadingSum => Some(histogram.wrapping_add(HISTOGRAM_SUM)),
            SnapshotStage::LoadingRedundant { .. } => {
                Some(histogram.wrapping_add(HISTOGRAM_REDUNDANT))
            }
        }
    }

    // Performs its next event.
    pub(crate) fn step(&mut self, words: &[u64]) -> SnapshotCallStep
        requires stands { ∥ IsSomeSnapshotCall (length words.now) self.old ∥₁ }
        requires inside { LiesWithin (length words.now) self.old.histogram }
        ensures steps { SnapshotCallSteps self.old words.now self.new words.now result }
        ensures less { SnapshotLowers self.old words.now self.new words.now result }
        ensures of { self.new.histogram ≡ self.old.histogram }
    {
        match self.stage {
            SnapshotStage::LoadingSingle => self.load_single(words),
            SnapshotStage::LoadingCounts { packed, kept } => self.load_counts(words, packed, kept),
            SnapshotStage::LoadingCount { mounted, bucket } => self.load_count(
                words, mounted, bucket,
            ),
            SnapshotStage::Walking { walk } => self.walk_on(words, walk),
            SnapshotStage::LoadingSample { at, value } => self.load_sample(words, at, value),
            SnapshotStage::LoadingSum => self.load_sum(words),
            SnapshotStage::LoadingRedundant { sum } => self.load_redundant(words, sum),
        }
    }
}
