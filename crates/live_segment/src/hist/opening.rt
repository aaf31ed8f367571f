//! How a recorder opens a histogram whose record it has the reference of.

ghost use Rattle.std.specs.Prelude.{◌≡◌, ◌+◌, ◌<◌, ◌≤◌, true, false, ℕ, length, map, min, IfOk, IfSome, MatchOption, Some};
ghost use Rattle.live_segment.specs.Hist.Prelude.{IsNotRead, MeetsRecord, ReadsRecord, MayLoadRecord, HasReadWords, IsFixed, ReadsName, ReadsSpec, Recognizes, SawLongName, SawNoSpec, ShowsWords, is_opener, number_read, bytes_of_words, MayTurn, word_seen, name_words};
ghost use Rattle.segment_image.specs.declared.layout.TheConstants.{BLOCK_TYPE, HISTOGRAM_KIND, HISTOGRAM_NAME_LENGTH, KIND_CUSTOM, KIND_LINEAR, TYPE_HISTOGRAM};

use crate::hist::search::Search;
use crate::list::index::RecordIndex;
use crate::recorder::KnownHistogram;
use crate::rule::{Announcement, Pass};
use crate::segment::Segment;
use bucket_ranges::limits::{MAX_BUCKETS, MAX_NAME};
use bucket_ranges::{CustomValues, Spec};
use segment_calls::Asked;
use segment_image::layout::{
    BLOCK_TYPE, HISTOGRAM_BUCKETS, HISTOGRAM_KIND, HISTOGRAM_MAX, HISTOGRAM_MIN, HISTOGRAM_NAME,
    HISTOGRAM_NAME_LENGTH, KIND_BOOLEAN, KIND_CUSTOM, KIND_LINEAR, KIND_SPARSE, QUEUE,
    TYPE_HISTOGRAM,
};
use std::alloc::{AllocError, Global};

// The bytes of words, eight for each, the least first.
fn bytes_of(alloc: Global, words: &[u64]) -> Result<Vec<u8>, AllocError>
    ensures { IfOk result (λ bytes. bytes.items ≡ bytes_of_words words.now) }
{
    let mut bytes = Vec::with_capacity(alloc, 8 * words.len())?;
    for word in words {
        bytes.extend_from_slice(&word.to_le_bytes())?;
    }
    Ok(bytes)
}

// A number of a spec. One that is too large becomes the greatest, which no valid spec has.
fn number_of(word: u64) -> u32
    ensures { result ≡ number_read word }
{
    word.min(u64::from(u32::MAX)) as u32
}

// Numbers of a spec.
fn numbers_of(alloc: Global, words: &[u64]) -> Result<Vec<u32>, AllocError>
    ensures { IfOk result (λ numbers. numbers.items ≡ map number_read words.now) }
{
    let mut numbers = Vec::with_capacity(alloc, words.len())?;
    for word in words {
        numbers.push(number_of(*word))?;
    }
    Ok(numbers)
}

impl Segment {
    ghost use Rattle.live_segment.specs.Hist.Prelude.{AsksFor, HasMetRecord, HasSearched, IsIndexed, IsSame, IsSeated, Name, table_of};

    // Walks along the list up to a record. Whether the list has it.
    pub(crate) fn meet(&self, seat: &mut Pass, reference: u64) -> bool
        requires seat { IsSeated self.now seat.old }
        requires free { MayTurn seat.old.me.0 }
        ensures same { IsSame seat.old seat.new }
        ensures view { HasSearched seat.old.me.0 seat.new.me.0 }
        ensures free { MayTurn seat.new.me.0 }
        ensures met { MeetsRecord reference result seat.old.me.0 seat.new.me.0 }
    {
        let mut at = QUEUE;
        loop {
            let next = self.load_next(seat, at);
            if next == QUEUE {
                return false;
            }
            if next == reference {
                return true;
            }
            at = next;
        }
    }

    // Words of a record that was visited, from a place on.
    fn load_words(
        &self,
        seat: &mut Pass,
        alloc: Global,
        at: u64,
        first: usize,
        count: usize,
    ) -> Result<Vec<u64>, AllocError>
        requires seat { (seat.old.table_id ≡ table_of self.now) × (is_opener seat.old.me.0.role ≡ false) }
        requires met { MayLoadRecord at seat.old.me.0 }
        requires fixed { (i : ℕ) → i < count → IsFixed seat.old.me.0 at (first + i) }
        requires room { at + first + count ≤ self.now.setting.shape.size }
        ensures read { HasReadWords seat.old seat.new }
        ensures words { IfOk result (λ words. (length words.items ≡ count) × ShowsWords at first words.items true seat.new.me.0.seen) }
    {
        let mut words = Vec::with_capacity(alloc, count)?;
        for i in 0..count {
            words.push_reserved(self.load_published(seat, at, first + i));
        }
        Ok(words)
    }

    // The name of a histogram's record that was visited, or none if it is too long.
    fn read_name(
        &self,
        seat: &mut Pass,
        alloc: Global,
        at: u64,
    ) -> Result<Option<Vec<u8>>, AllocError>
        requires meets { HasMetRecord self.now at seat.old }
        requires tag { word_seen seat.old.me.0.seen.words (at + BLOCK_TYPE) ≡ Some TYPE_HISTOGRAM }
        requires room { at + 15 ≤ self.now.setting.shape.size }
        ensures read { HasReadWords seat.old seat.new }
        ensures outcome { IfOk result (λ found. MatchOption found (SawLongName seat.new.me.0.seen at) (λ name. ReadsName seat.new.me.0.seen at name.items)) }
        ensures room { IfOk result (λ found. IfSome found (λ name. at + 15 + name_words (length name.items) ≤ self.now.setting.shape.size)) }
    {
        let len = self.load_published(seat, at, HISTOGRAM_NAME_LENGTH);
        if len > MAX_NAME {
            return Ok(None);
        }
        let letters = self.load_words(seat, alloc, at, HISTOGRAM_NAME, len.div_ceil(8) as usize)?;
        let mut name = bytes_of(alloc, &letters)?;
        name.truncate(len as usize);
        Ok(Some(name))
    }

    // The spec of a linear histogram's record that was visited.
    fn read_linear(&self, seat: &mut Pass, at: u64) -> Spec
        requires meets { HasMetRecord self.now at seat.old }
        requires tag { word_seen seat.old.me.0.seen.words (at + BLOCK_TYPE) ≡ Some TYPE_HISTOGRAM }
        requires kind { word_seen seat.old.me.0.seen.words (at + HISTOGRAM_KIND) ≡ Some KIND_LINEAR }
        requires room { at + 15 ≤ self.now.setting.shape.size }
        ensures read { HasReadWords seat.old seat.new }
        ensures outcome { (letters : ℕ) → ReadsSpec seat.new.me.0.seen at letters result }
    {
        let min = number_of(self.load_published(seat, at, HISTOGRAM_MIN));
        let max = number_of(self.load_published(seat, at, HISTOGRAM_MAX));
        let n = number_of(self.load_published(seat, at, HISTOGRAM_BUCKETS));
        Spec::Linear { min, max, n }
    }

    // The spec of a custom histogram's record that was visited and whose name takes `letters` words, or none if it has
    // too few or too many buckets.
    fn read_custom(
        &self,
        seat: &mut Pass,
        alloc: Global,
        at: u64,
        letters: usize,
    ) -> Result<Option<Spec>, AllocError>
        requires meets { HasMetRecord self.now at seat.old }
        requires tag { word_seen seat.old.me.0.seen.words (at + BLOCK_TYPE) ≡ Some TYPE_HISTOGRAM }
        requires kind { word_seen seat.old.me.0.seen.words (at + HISTOGRAM_KIND) ≡ Some KIND_CUSTOM }
        requires name { (len : ℕ) × (word_seen seat.old.me.0.seen.words (at + HISTOGRAM_NAME_LENGTH) ≡ Some len) × (letters ≡ name_words len) }
        requires room { at + 15 + letters ≤ self.now.setting.shape.size }
        ensures read { HasReadWords seat.old seat.new }
        ensures outcome { IfOk result (λ found. MatchOption found (SawNoSpec seat.new.me.0.seen at) (ReadsSpec seat.new.me.0.seen at letters)) }
    {
        let n = self.load_published(seat, at, HISTOGRAM_BUCKETS);
        if n < 2 {
            return Ok(None);
        }
        if n > u64::from(MAX_BUCKETS) {
            return Ok(None);
        }
        let inner = self.load_words(seat, alloc, at, HISTOGRAM_NAME + letters, n as usize - 1)?;
        let values = numbers_of(alloc, &inner)?;
        Ok(Some(Spec::Custom(CustomValues::from(values))))
    }

    // The spec of a histogram's record that was visited and whose name takes `letters` words, or none if it has none.
    fn read_spec(
        &self,
        seat: &mut Pass,
        alloc: Global,
        at: u64,
        letters: usize,
    ) -> Result<Option<Spec>, AllocError>
        requires meets { HasMetRecord self.now at seat.old }
        requires tag { word_seen seat.old.me.0.seen.words (at + BLOCK_TYPE) ≡ Some TYPE_HISTOGRAM }
        requires name { (len : ℕ) × (word_seen seat.old.me.0.seen.words (at + HISTOGRAM_NAME_LENGTH) ≡ Some len) × (letters ≡ name_words len) }
        requires room { at + 15 + letters ≤ self.now.setting.shape.size }
        ensures read { HasReadWords seat.old seat.new }
        ensures outcome { IfOk result (λ found. MatchOption found (SawNoSpec seat.new.me.0.seen at) (ReadsSpec seat.new.me.0.seen at letters)) }
    {
        let kind = self.load_published(seat, at, HISTOGRAM_KIND);
        if kind == KIND_LINEAR {
            return Ok(Some(self.read_linear(seat, at)));
        }
        if kind == KIND_CUSTOM {
            return self.read_custom(seat, alloc, at, letters);
        }
        if kind == KIND_BOOLEAN {
            return Ok(Some(Spec::Boolean));
        }
        if kind == KIND_SPARSE {
            return Ok(Some(Spec::Sparse));
        }
        Ok(None)
    }

    // The name and the spec of a record, or none if the list does not have the record, or the record lacks one of them.
    pub(crate) fn read_record(
        &self,
        seat: &mut Pass,
        alloc: Global,
        reference: u64,
    ) -> Result<Option<(Vec<u8>, Spec)>, AllocError>
        requires seat { IsSeated self.now seat.old }
        requires free { MayTurn seat.old.me.0 }
        ensures same { IsSame seat.old seat.new }
        ensures view { HasSearched seat.old.me.0 seat.new.me.0 }
        ensures free { MayTurn seat.new.me.0 }
        ensures outcome { IfOk result (λ found. MatchOption found (IsNotRead reference seat.old.me.0 seat.new.me.0) (λ read. ReadsRecord seat.new.me.0.seen reference read.0.items read.1)) }
    {
        if !self.meet(seat, reference) {
            return Ok(None);
        }
        if self.load_published(seat, reference, BLOCK_TYPE) != TYPE_HISTOGRAM {
            return Ok(None);
        }
        let Some(name) = self.read_name(seat, alloc, reference)? else {
            return Ok(None);
        };
        let letters = name.len().div_ceil(8);
        let Some(spec) = self.read_spec(seat, alloc, reference, letters)? else {
            return Ok(None);
        };
        Ok(Some((name, spec)))
    }

    // The histogram of a record, as a recorder knows it from then on, if that record is the first of the name that is
    // asked for and has the spec.
    pub(crate) fn recognize(
        &self,
        seat: &mut Pass,
        index: &mut RecordIndex,
        asked: Asked,
        reference: u64,
    ) -> Option<KnownHistogram>
        requires asks { AsksFor self.now asked index.old seat.old }
        ensures same { IsSame seat.old seat.new }
        ensures indexed { IsIndexed Name self.now.setting.shape.size seat.new.me.0.seen index.new }
        ensures outcome { Recognizes asked reference seat.old.me.0 result seat.new.me.0 }
    {
        let found = match self.search(seat, index, &asked) {
            Search::Met(found) => found,
            Search::OtherSpec => return None,
            Search::End(_) => return None,
        };
        if found != reference {
            return None;
        }
        let said = Announcement::Histogram(asked);
        self.know(seat, found, &said);
        Some(KnownHistogram::of(said.into_asked(), found))
    }
}
