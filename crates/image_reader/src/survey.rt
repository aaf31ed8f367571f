//! What the list of a segment has, without the counts of its histograms.

ghost use Rattle.std.specs.Prelude.{◌≡◌, ◌<◌, ℕ, Ok, true, length, min, nat_lt, slice_index, sum_by, Contains, IfOk};
ghost use Rattle.segment_image.specs.Head.{header_of};
ghost use Rattle.bucket_ranges.specs.Reading.{IsListed, is_block, stop_of};
ghost use Rattle.image_reader.specs.Gathering.{IsGathered, IsGatheringOf};
ghost use Rattle.image_reader.specs.Readable.{IsReadable};
ghost use Rattle.image_reader.specs.Survey.{IsSurvey, keys_at, hist_at};
ghost use Rattle.image_reader.specs.Views.{histogram_view};

use crate::gathering::Gathering;
use crate::histogram::histogram;
use crate::reading::{BadRecord, HistReading};
use crate::sample::Samples;
use crate::walk::Listed;
use segment_image::layout::{HISTOGRAM_BUCKETS, HISTOGRAM_KIND, KIND_SPARSE};
use segment_image::{ImageFault, SegmentHead};
use std::alloc::{AllocError, Global};

/// What the list of a segment has: its records, which of them have a fault, and which histograms are read. Their counts
/// are read from the words one histogram at a time, by [`Survey::hist`].
#[derive(Drop)]
pub struct Survey {
    /// The references of all records on the list, in its order, including those that are not read.
    pub references: Vec<u64>,
    /// Why the list stops before its end: `BadRef`, `BadBlock` or `Loop`.
    pub stopped: Option<ImageFault>,
    /// The references of the histograms that are read, in the order of the list: for each name the first valid one.
    pub hists: Vec<u64>,
    /// The references of the samples without a fault that are not the first of their histogram and value, in the order
    /// of the list.
    pub later: Vec<u64>,
    /// Each record, of a histogram or of a sample, that has a fault, in the order of the list.
    pub bad: Vec<BadRecord>,
    // The samples of sparse histograms.
    samples: Samples,
}

// What the records at these references say.
fn gather(
    alloc: Global,
    words: &[u64],
    head: &SegmentHead,
    references: &[u64],
) -> Result<Gathering, AllocError>
    requires header { header_of words.now ≡ Ok head.now }
    requires lawful { (i : ℕ) → i < length references.now → is_block words.now head.now (slice_index references.now i) ≡ true }
    ensures gathered { IfOk result (IsGathered words.now head.now references.now) }
    ensures ready { IfOk result (IsGatheringOf words.now) }
{
    let mut gathering = Gathering::new(alloc, words, head)?;
    for reference in references {
        gathering.add(alloc, words, head, *reference)?;
    }
    Ok(gathering)
}

impl Survey {
    /// Surveys the list of the segment whose header, read from the same words, is `head`: finds which of its histograms
    /// are read, which of its records are bad, and its samples [survey]. It keeps the list [list].
    ///
    /// The only error is that memory runs out. It takes up to about 100 bytes for each record on the list and one byte
    /// for each word, however many buckets there are.
    pub fn of(
        alloc: Global,
        words: &[u64],
        head: &SegmentHead,
        list: Listed,
    ) -> Result<Survey, AllocError>
        requires header { header_of words.now ≡ Ok head.now }
        requires listed { IsListed words.now head.now list.references.items }
        requires stopped { list.stopped ≡ stop_of words.now head.now list.references.items }
        ensures survey { IfOk result (IsSurvey words.now head.now) }
        ensures list { IfOk result (λ survey. survey.references.items ≡ list.references.items) }
    {
        let gathered = gather(alloc, words, head, &list.references)?;
        Ok(Survey {
            references: list.references,
            stopped: list.stopped,
            hists: gathered.hists,
            later: gathered.later,
            bad: gathered.bad,
            samples: gathered.samples,
        })
    }

    /// Returns what the histogram at one of the references in `hists` reads as; the survey has to be of these words
    /// [hist]. Its spec is valid, each bucket has its count, and the units fit a word [readable].
    ///
    /// The only error is that memory runs out. It takes memory for the name, the spec, and 24 bytes for each key.
    pub fn hist(
        &self,
        alloc: Global,
        words: &[u64],
        head: &SegmentHead,
        reference: u64,
    ) -> Result<HistReading, AllocError>
        requires header { header_of words.now ≡ Ok head.now }
        requires survey { IsSurvey words.now head.now self.now }
        requires read { Contains self.now.hists.items reference }
        ensures hist { IfOk result (λ hist. histogram_view hist ≡ hist_at words.now head.now self.now.references.items reference) }
        ensures readable { IfOk result (λ hist. IsReadable (histogram_view hist)) }
    {
        histogram(alloc, words, head, reference as usize, &self.samples)
    }

    // How many keys the histogram at one of the references in `hists` has: buckets, or values if it is sparse.
    fn keys(&self, words: &[u64], head: &SegmentHead, reference: u64) -> u64
        requires header { header_of words.now ≡ Ok head.now }
        requires survey { IsSurvey words.now head.now self.now }
        requires read { Contains self.now.hists.items reference }
        ensures { result ≡ keys_at words.now head.now self.now.references.items reference }
    {
        let at = reference as usize;
        if words[at + HISTOGRAM_KIND] == KIND_SPARSE {
            self.samples.number_of(reference as u32)
        } else {
            words[at + HISTOGRAM_BUCKETS]
        }
    }

    /// Returns whether the histograms that are read have more than `most` keys, all together: buckets, and values of
    /// sparse ones. It takes no memory.
    pub fn has_more_keys(&self, words: &[u64], head: &SegmentHead, most: u64) -> bool
        requires header { header_of words.now ≡ Ok head.now }
        requires survey { IsSurvey words.now head.now self.now }
        ensures { result ≡ nat_lt most (sum_by (keys_at words.now head.now self.now.references.items) self.now.hists.items) }
    {
        let mut left = most;
        for reference in &self.hists {
            let keys = self.keys(words, head, *reference);
            if keys > left {
                return true;
            }
            left -= keys;
        }
        false
    }
}
