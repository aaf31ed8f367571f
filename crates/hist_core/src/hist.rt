//! A running `hist`: it walks the list to the first record of its name, and makes one if there is none.

ghost use Rattle.std.specs.Prelude.{◌≡◌, ◌≢◌, ◌≤◌, ◌<◌, ℕ, List, length};

use crate::new_record::{NewRecord, NewRecordStep};
use alloc_core::Attempt;
use bucket_ranges::{Ranges, Spec};
use list_core::{Walk, WalkStep};
use segment_calls::{Asked, Refusal};
use segment_image::Shape;
use segment_image::layout::{BLOCK_HEADER, BLOCK_TYPE, HISTOGRAM_NAME_LENGTH, TYPE_HISTOGRAM};

// More words than any record or name has.
const MOST_WORDS: usize = 1 << 60;

/// A histogram that an actor knows, or asks for.
#[derive(Drop)]
pub(crate) struct KnownHist {
    pub(crate) name: Vec<u8>,
    pub(crate) spec: Spec,
    pub(crate) ranges: Ranges,
    // The reference of its record, 0 while that is asked for.
    pub(crate) reference: u64,
}

/// What a `hist` does next.
#[derive(Drop)]
pub(crate) enum HistStage {
    /// It loads the next of the block where the walk is.
    Walking,
    /// It loads a word of the record where the walk is. `same` words before it were as wanted.
    Comparing { same: usize },
    /// It makes its record.
    Making { new_record: NewRecord },
}

/// What a step of a `hist` says.
#[derive(Clone, Copy, PartialEq, Eq)]
pub(crate) enum HistStep {
    /// It continues.
    More,
    /// The record that the walk has reached is the first of its name, and has the same spec.
    Done,
    /// It is refused.
    Refused(Refusal),
}

/// A running `hist`.
#[derive(Drop)]
pub(crate) struct Hist {
    pub(crate) shape: Shape,
    pub(crate) asked: KnownHist,
    // The words of its record after the header, and how many of them are the name's.
    pub(crate) payload: Vec<u64>,
    pub(crate) letters: usize,
    pub(crate) walk: Walk,
    // The record that the walk gave last.
    pub(crate) reference: u64,
    pub(crate) stage: HistStage,
}

impl Hist {
    ghost use Rattle.std.specs.Prelude.{◌+◌, ◌-◌, ◌*◌, ◌^◌, vec_len, slice_index};
    ghost use Rattle.segment_machine.specs.declared.actor.Actor.{Actor};
    ghost use Rattle.hist_core.specs.Exchanging.{hist_attempt};
    ghost use Rattle.hist_core.specs.Left.{HistLowers};
    ghost use Rattle.hist_core.specs.Loading.{compared_load, hist_load};
    ghost use Rattle.hist_core.specs.Hist.{compared_place, compared_index, compared_word, IsHistBegun, IsSomeHist, HistSteps, IsMade, IsMakingRecord, IsMatched, IsDifferent};
    ghost use Rattle.hist_core.specs.declared.hist.HistStage.TheVariants.{Walking, Comparing};

    // It begins at the start of the list.
    pub(crate) fn start(shape: Shape, asked: Asked) -> Hist
        ensures { IsHistBegun shape asked result }
    {
        Hist {
            shape,
            asked: KnownHist {
                name: asked.name,
                spec: asked.spec,
                ranges: asked.ranges,
                reference: 0,
            },
            payload: asked.payload,
            letters: asked.letters,
            walk: Walk::from_start(),
            reference: 0,
            stage: HistStage::Walking,
        }
    }

    // The place in the payload of the word that is compared k-th, from 1 on: the length of the name, the name, the
    // spec, and the ranges, which follow the name.
    fn compared_place(&self, k: usize) -> usize
        requires small { (k < 2 ^ 60) × (self.now.letters < 2 ^ 60) }
        ensures { result ≡ compared_place self.now.letters k }
    {
        let letters = self.letters;
        if k == 1 {
            HISTOGRAM_NAME_LENGTH - BLOCK_HEADER
        } else if k < letters + 2 {
            k + 9
        } else if k < letters + 6 {
            k - letters - 2
        } else {
            k + 5
        }
    }

    // The place in the record of the word that is compared k-th, from 0 on: the type comes first.
    fn compared_index(&self, k: usize) -> usize
        requires small { (k < 2 ^ 60) × (self.now.letters < 2 ^ 60) }
        ensures { result ≡ compared_index self.now.letters k }
    {
        if k == 0 {
            BLOCK_TYPE
        } else {
            BLOCK_HEADER + self.compared_place(k)
        }
    }

    // The value of that word in a record that is as wanted.
    fn compared_word(&self, k: usize) -> u64
        requires small { (k < 2 ^ 60) × (self.now.letters < 2 ^ 60) }
        requires inside { 0 < k → compared_place self.now.letters k < vec_len self.now.payload }
        ensures { result ≡ compared_word self.now k }
    {
        if k == 0 {
            TYPE_HISTOGRAM
        } else {
            self.payload[self.compared_place(k)]
        }
    }

    // One more word was as wanted.
    fn matched(&mut self, same: usize) -> HistStep
        requires { same < vec_len self.old.payload }
        ensures { IsMatched self.old same self.new result }
    {
        if same + 6 < self.payload.len() {
            self.stage = HistStage::Comparing { same: same + 1 };
            HistStep::More
        } else {
            HistStep::Done
        }
    }

    // The word differs: the record has another name, or the same name and another spec.
    fn differed(&mut self, same: usize) -> HistStep
        requires { self.old.letters < 2 ^ 60 }
        ensures { IsDifferent self.old same self.new result }
    {
        if same < self.letters + 2 {
            self.stage = HistStage::Walking;
            HistStep::More
        } else {
            HistStep::Refused(Refusal::OtherSpec)
        }
    }

    // It loads one more word of the record where the walk is.
    fn compare(&mut self, words: &[u64], same: usize) -> HistStep
        requires compares { self.old.stage ≡ Comparing same }
        requires stands { ∥ IsSomeHist (length words.now) self.old ∥₁ }
        ensures steps { HistSteps self.old words.now self.new words.now result }
        ensures less { HistLowers self.old words.now self.new words.now result }
        ensures asks { self.new.asked ≡ self.old.asked }
    {
        let found = words[self.reference as usize + self.compared_index(same)];
        if found == self.compared_word(same) {
            self.matched(same)
        } else {
            self.differed(same)
        }
    }

    // It loads the next of the block where the walk is.
    fn walk_on(&mut self, words: &[u64]) -> HistStep
        requires walks { self.old.stage ≡ Walking }
        requires stands { ∥ IsSomeHist (length words.now) self.old ∥₁ }
        ensures steps { HistSteps self.old words.now self.new words.now result }
        ensures less { HistLowers self.old words.now self.new words.now result }
        ensures asks { self.new.asked ≡ self.old.asked }
    {
        match self.walk.step(words) {
            WalkStep::Record(reference) => {
                self.reference = reference;
                self.stage = HistStage::Comparing { same: 0 };
                HistStep::More
            }
            WalkStep::End => {
                let room = self.payload.len() as u64;
                let new_record = NewRecord::start(self.shape, room, TYPE_HISTOGRAM);
                self.stage = HistStage::Making { new_record };
                HistStep::More
            }
            WalkStep::Stray => HistStep::More,
        }
    }

    // What a step of making its record leads to: it continues, walks on from where it was, or is refused.
    fn made(&mut self, said: NewRecordStep) -> HistStep
        ensures { IsMade self.old said self.new result }
    {
        match said {
            NewRecordStep::More => HistStep::More,
            NewRecordStep::Done => {
                self.stage = HistStage::Walking;
                HistStep::More
            }
            NewRecordStep::Refused(refusal) => HistStep::Refused(refusal),
        }
    }

    // It continues to make its record.
    fn make(&mut self, words: &mut [u64]) -> HistStep
        requires makes { IsMakingRecord self.old.stage }
        requires stands { ∥ IsSomeHist (length words.old) self.old ∥₁ }
        ensures steps { HistSteps self.old words.old self.new words.new result }
        ensures less { HistLowers self.old words.old self.new words.new result }
        ensures asks { self.new.asked ≡ self.old.asked }
    {
        match &mut self.stage {
            HistStage::Making { new_record } => {
                let said = new_record.step(words, &self.payload);
                self.made(said)
            }
            _ => HistStep::More,
        }
    }

    // The exchange that its next event is, if it is one.
    pub(crate) fn next_exchange(&self) -> Option<Attempt>
        ensures { result ≡ hist_attempt self.now.stage }
    {
        match &self.stage {
            HistStage::Making { new_record } => new_record.next_exchange(),
            _ => None,
        }
    }

    // The word of the record that is compared as number k.
    fn compared_load(&self, k: usize) -> Option<usize>
        ensures { result ≡ compared_load self.now k }
    {
        if k < MOST_WORDS && self.letters < MOST_WORDS {
            let reference = self.reference as usize;
            Some(reference.wrapping_add(self.compared_index(k)))
        } else {
            None
        }
    }

    // The word that its next event loads, if it is a load.
    pub(crate) fn next_load(&self) -> Option<usize>
        ensures { result ≡ hist_load self.now self.now.stage }
    {
        match &self.stage {
            HistStage::Walking => Some(self.walk.next_load()),
            HistStage::Comparing { same } => self.compared_load(*same),
            HistStage::Making { new_record } => new_record.next_load(),
        }
    }

    // Performs its next event.
    pub(crate) fn step(&mut self, words: &mut [u64]) -> HistStep
        requires stands { ∥ IsSomeHist (length words.old) self.old ∥₁ }
        ensures steps { HistSteps self.old words.old self.new words.new result }
        ensures less { HistLowers self.old words.old self.new words.new result }
        ensures asks { self.new.asked ≡ self.old.asked }
    {
        match self.stage {
            HistStage::Walking => self.walk_on(words),
            HistStage::Comparing { same } => self.compare(words, same),
            HistStage::Making { .. } => self.make(words),
        }
    }
}
