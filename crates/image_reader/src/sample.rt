//! The samples of sparse histograms.

ghost use Rattle.std.specs.Prelude.{◌≡◌, ◌<◌, ◌≤◌, ◌+◌, ◌^◌, [], true, false, not, if◌then◌else◌, ◌==◌, get_or, ℕ, map, min, length, IfOk, OnOk, MatchOption};
ghost use Rattle.std.specs.BTreeSet.{insert_key};
ghost use Rattle.segment_image.specs.Blocks.{field_at};
ghost use Rattle.bucket_ranges.specs.Reading.{is_i32, is_bad_sample_by, sample_histogram};
ghost use Rattle.image_reader.specs.Samples.{Entry, by_entry_value, sample_entry, entry_of, held, holds_sample, AreSamples, entry_count, entry_mark};

use segment_image::layout::{
    BLOCK_LEAST, BLOCK_SIZE, SAMPLE_COUNT, SAMPLE_HISTOGRAM, SAMPLE_LEAST, SAMPLE_MARK,
    SAMPLE_VALUE,
};
use std::alloc::{AllocError, Global};
use std::collections::BTreeMap;

/// What the record of a sample says.
#[derive(Clone, Copy)]
pub(crate) struct Sample {
    /// The reference of its histogram's record.
    histogram: u32,
    value: i32,
    count: u32,
    mark: u32,
}

/// The sample of the record in a block at `at`, or nothing if the record is bad. `sparse` says for each word whether a
/// sparse histogram is read there.
pub(crate) fn sample_at(words: &[u64], at: usize, sparse: &[bool]) -> Option<Sample>
    requires least { BLOCK_LEAST ≤ field_at words.now at BLOCK_SIZE }
    requires within { at + field_at words.now at BLOCK_SIZE ≤ length words.now }
    requires few { length sparse.now < 2 ^ 32 }
    ensures { MatchOption result
        (is_bad_sample_by words.now at (get_or sparse.now (sample_histogram words.now at) false) ≡ true)
        (λ sample. (is_bad_sample_by words.now at (get_or sparse.now (sample_histogram words.now at) false) ≡ false) × (entry_of sample ≡ sample_entry words.now at)) }
{
    if words[at + BLOCK_SIZE] < SAMPLE_LEAST as u64 {
        return None;
    }
    let histogram = words[at + SAMPLE_HISTOGRAM];
    let value = i32::try_from(words[at + SAMPLE_VALUE].cast_signed()).ok()?;
    let count = u32::try_from(words[at + SAMPLE_COUNT]).ok()?;
    let mark = u32::try_from(words[at + SAMPLE_MARK]).ok()?;
    if mark > count || !is_marked(sparse, histogram) {
        return None;
    }
    Some(Sample {
        histogram: histogram as u32,
        value,
        count,
        mark,
    })
}

fn is_marked(marks: &[bool], reference: u64) -> bool
    ensures value { result ≡ get_or marks.now reference false }
    ensures within { result ≡ true → reference < length marks.now }
{
    let at = reference as usize;
    at < marks.len() && marks[at]
}

/// The samples that a reader has visited, in an ordered map: the count and the mark of each value of each histogram.
#[derive(Drop)]
pub(crate) struct Samples {
    map: BTreeMap<(u32, i32), (u32, u32)>,
}

impl Samples {
    /// No samples.
    pub(crate) fn new(alloc: Global) -> Samples
        ensures held { (histogram : ℕ) → held result histogram ≡ [] }
        ensures are { AreSamples result }
    {
        Samples {
            map: BTreeMap::new(alloc),
        }
    }

    /// Adds a sample, unless there is one with its histogram and value, and returns whether it was added.
    pub(crate) fn insert(&mut self, sample: &Sample) -> Result<bool, AllocError>
        requires are { AreSamples self.old }
        requires small { is_i32 sample.now.value ≡ true }
        ensures held { OnOk result ((histogram : ℕ) → held self.new histogram
            ≡ (if sample.now.histogram == histogram then insert_key by_entry_value (held self.old histogram) (entry_of sample.now) else held self.old histogram)) }
        ensures are { OnOk result (AreSamples self.new) }
        ensures first { IfOk result (λ first. first ≡ not (holds_sample self.old (entry_of sample.now))) }
    {
        let key = (sample.histogram, sample.value);
        if let Some(first) = self.map.insert(key, (sample.count, sample.mark))? {
            self.map.insert(key, first)?;
            return Ok(false);
        }
        Ok(true)
    }

    /// The values of a histogram, ascending, with their counts; and their marks.
    pub(crate) fn of(
        &self,
        alloc: Global,
        histogram: u32,
    ) -> Result<(Vec<(i32, u64)>, Vec<u64>), AllocError>
        requires { AreSamples self.now }
        ensures { IfOk result (λ lists. (lists.0.items ≡ map entry_count (held self.now histogram)) × (lists.1.items ≡ map entry_mark (held self.now histogram))) }
    {
        let mut counts = Vec::new(alloc);
        let mut marks = Vec::new(alloc);
        for (key, units) in self
            .map
            .range((histogram, i32::MIN)..=(histogram, i32::MAX))
        {
            counts.push((key.1, u64::from(units.0)))?;
            marks.push(u64::from(units.1))?;
        }
        Ok((counts, marks))
    }

    /// How many values of a histogram there are, or 2^64 - 1 if there are more.
    pub(crate) fn number_of(&self, histogram: u32) -> u64
        requires { AreSamples self.now }
        ensures { result ≡ min (length (held self.now histogram)) 18446744073709551615 }
    {
        let mut number: u64 = 0;
        for _ in self
            .map
            .range((histogram, i32::MIN)..=(histogram, i32::MAX))
        {
            number = number.saturating_add(1);
        }
        number
    }
}
