//! What a reader gathers along the list of records.

ghost use Rattle.std.specs.Prelude.{◌≡◌, ◌+◌, ◌<◌, ◌≤◌, ◌++◌, [], ◌∷◌, List, ℕ, Ok, None, true, length, IfOk, OnOk};
ghost use Rattle.segment_image.specs.Head.{header_of};
ghost use Rattle.segment_image.specs.Blocks.{field_at};
ghost use Rattle.bucket_ranges.specs.Reading.{is_block, is_name, name_of, record_fault};
ghost use Rattle.image_reader.specs.Gathering.{IsGathered, IsGatheringOf};

use crate::names::Names;
use crate::reading::BadRecord;
use crate::record::{Refusal, check_record};
use crate::sample::{Samples, sample_at};
use bucket_ranges::reading::RecordFault;
use segment_image::SegmentHead;
use segment_image::layout::{
    BLOCK_LEAST, BLOCK_SIZE, BLOCK_TYPE, HISTOGRAM_KIND, KIND_SPARSE, TYPE_HISTOGRAM, TYPE_SAMPLE,
};
use std::alloc::{AllocError, Global};

/// What the records of a list say, as far as they have been gathered.
#[derive(Drop)]
pub(crate) struct Gathering {
    /// The references of the histograms that are read: for each name the first one without a fault.
    pub(crate) hists: Vec<u64>,
    /// The samples of the sparse ones.
    pub(crate) samples: Samples,
    /// The references of the samples that are not the first of their histogram and value.
    pub(crate) later: Vec<u64>,
    /// The records that have a fault.
    pub(crate) bad: Vec<BadRecord>,
    /// The names of the histograms that are read.
    names: Names,
    /// For each word, whether a sparse histogram is read there.
    sparse: Vec<bool>,
}

impl Gathering {
    /// An empty gathering for a list in these words.
    pub(crate) fn new(
        alloc: Global,
        words: &[u64],
        head: &SegmentHead,
    ) -> Result<Gathering, AllocError>
        ensures gathered { IfOk result (IsGathered words.now head.now []) }
        ensures ready { IfOk result (IsGatheringOf words.now) }
    {
        Ok(Gathering {
            hists: Vec::new(alloc),
            samples: Samples::new(alloc),
            later: Vec::new(alloc),
            bad: Vec::new(alloc),
            names: Names::new(alloc),
            sparse: vec![in alloc; false; words.len()]?,
        })
    }

    /// Gathers what the record at a reference says. It comes after those that were gathered so far.
    pub(crate) fn add(
        &mut self,
        alloc: Global,
        words: &[u64],
        head: &SegmentHead,
        reference: u64,
    ) -> Result<(), AllocError>
        requires header { header_of words.now ≡ Ok head.now }
        requires block { is_block words.now head.now reference ≡ true }
        requires ready { IsGatheringOf words.now self.old }
        ensures gathered { OnOk result ((earlier : List ℕ) → IsGathered words.now head.now earlier self.old → IsGathered words.now head.now (earlier ++ reference ∷ []) self.new) }
        ensures ready { OnOk result (IsGatheringOf words.now self.new) }
    {
        match words[reference as usize + BLOCK_TYPE] {
            TYPE_HISTOGRAM => self.add_histogram(alloc, words, head, reference),
            TYPE_SAMPLE => self.add_sample(words, head, reference),
            _ => Ok(()),
        }
    }

    // Gathers a histogram's record.
    fn add_histogram(
        &mut self,
        alloc: Global,
        words: &[u64],
        head: &SegmentHead,
        reference: u64,
    ) -> Result<(), AllocError>
        requires header { header_of words.now ≡ Ok head.now }
        requires tag { field_at words.now reference BLOCK_TYPE ≡ TYPE_HISTOGRAM }
        requires least { BLOCK_LEAST ≤ field_at words.now reference BLOCK_SIZE }
        requires within { reference + field_at words.now reference BLOCK_SIZE ≤ length words.now }
        requires ready { IsGatheringOf words.now self.old }
        ensures gathered { OnOk result ((earlier : List ℕ) → IsGathered words.now head.now earlier self.old → IsGathered words.now head.now (earlier ++ reference ∷ []) self.new) }
        ensures ready { OnOk result (IsGatheringOf words.now self.new) }
    {
        match check_record(alloc, words, head, reference as usize) {
            Ok(name) => self.keep(alloc, words, head, reference, &name),
            Err(Refusal::Fault(fault)) => {
                self.bad.push(BadRecord { reference, fault })?;
                Ok(())
            }
            Err(Refusal::Memory) => Err(AllocError),
        }
    }

    // Keeps the reference of a record without a fault, unless one with the same name is kept already.
    fn keep(
        &mut self,
        alloc: Global,
        words: &[u64],
        head: &SegmentHead,
        reference: u64,
        name: &[u8],
    ) -> Result<(), AllocError>
        requires header { header_of words.now ≡ Ok head.now }
        requires tag { field_at words.now reference BLOCK_TYPE ≡ TYPE_HISTOGRAM }
        requires within { reference + field_at words.now reference BLOCK_SIZE ≤ length words.now }
        requires lawful { record_fault words.now head.now reference ≡ None }
        requires name { name.now ≡ name_of words.now reference }
        requires bytes { is_name name.now ≡ true }
        requires ready { IsGatheringOf words.now self.old }
        ensures gathered { OnOk result ((earlier : List ℕ) → IsGathered words.now head.now earlier self.old → IsGathered words.now head.now (earlier ++ reference ∷ []) self.new) }
        ensures ready { OnOk result (IsGatheringOf words.now self.new) }
    {
        if !self.names.insert(alloc, name)? {
            return Ok(());
        }
        self.hists.push(reference)?;
        let at = reference as usize;
        if words[at + HISTOGRAM_KIND] == KIND_SPARSE {
            self.sparse[at] = true;
        }
        Ok(())
    }

    // Gathers a sample's record.
    fn add_sample(
        &mut self,
        words: &[u64],
        head: &SegmentHead,
        reference: u64,
    ) -> Result<(), AllocError>
        requires header { header_of words.now ≡ Ok head.now }
        requires tag { field_at words.now reference BLOCK_TYPE ≡ TYPE_SAMPLE }
        requires least { BLOCK_LEAST ≤ field_at words.now reference BLOCK_SIZE }
        requires within { reference + field_at words.now reference BLOCK_SIZE ≤ length words.now }
        requires ready { IsGatheringOf words.now self.old }
        ensures gathered { OnOk result ((earlier : List ℕ) → IsGathered words.now head.now earlier self.old → IsGathered words.now head.now (earlier ++ reference ∷ []) self.new) }
        ensures ready { OnOk result (IsGatheringOf words.now self.new) }
    {
        let Some(sample) = sample_at(words, reference as usize, &self.sparse) else {
            let fault = RecordFault::BadSample;
            self.bad.push(BadRecord { reference, fault })?;
            return Ok(());
        };
        if !self.samples.insert(&sample)? {
            self.later.push(reference)?;
        }
        Ok(())
    }
}
