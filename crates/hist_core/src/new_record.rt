//! A new record: its words are claimed, its payload is stored there, and it is put on the list.

ghost use Rattle.std.specs.Prelude.{◌≡◌, length};

use alloc_core::event::store;
use alloc_core::{Alloc, AllocStep, Attempt};
use list_core::{PubStep, Publish};
use segment_calls::Refusal;
use segment_image::Shape;
use segment_image::layout::BLOCK_HEADER;

/// What is done next for a new record.
#[derive(Drop)]
pub(crate) enum NewRecordStage {
    /// It claims the words of the record.
    Allocating { alloc: Alloc },
    /// It stores a word of the payload, which is not 0.
    Filling { at: u64, index: usize },
    /// It puts the record on the list.
    Publishing { publish: Publish },
}

/// What a step for a new record says.
#[derive(Clone, Copy, PartialEq, Eq)]
pub(crate) enum NewRecordStep {
    /// It continues.
    More,
    /// The record is on the list.
    Done,
    /// It is refused.
    Refused(Refusal),
}

/// A record that is being made. What it is to hold is given at each step.
#[derive(Drop)]
pub(crate) struct NewRecord {
    pub(crate) stage: NewRecordStage,
}

impl NewRecord {
    ghost use Rattle.std.specs.Prelude.{◌+◌, ◌≤◌, vec_len};
    ghost use Rattle.hist_core.specs.Exchanging.{new_record_attempt};
    ghost use Rattle.hist_core.specs.Left.{RecordLowers};
    ghost use Rattle.hist_core.specs.Loading.{new_record_load};
    ghost use Rattle.alloc_core.specs.Layout.{IsShape};
    ghost use Rattle.hist_core.specs.declared.new_record.NewRecordStage.TheVariants.{Filling};
    ghost use Rattle.hist_core.specs.NewRecord.{IsSomeNewRecord, NewRecordSteps, IsStarted, IsAllocated, IsAllocating, IsPublished, IsPublishing, IsNextFilled, IsPayloadFilled};

    // It begins to claim words for a record: `room` words after the header, which fit in a page.
    pub(crate) fn start(shape: Shape, room: u64, tag: u64) -> NewRecord
        requires lawful { IsShape shape }
        requires one_page { BLOCK_HEADER + room ≤ shape.page }
        ensures { IsStarted shape room tag result }
    {
        match Alloc::start(shape, room, tag) {
            Ok(alloc) => NewRecord {
                stage: NewRecordStage::Allocating { alloc },
            },
            Err(_) => unreachable!(),
        }
    }

    // The first word of the payload, from an index on, that is not 0; or the end.
    fn next_filled(payload: &[u64], from: usize) -> usize
        requires { from ≤ length payload.now }
        ensures { IsNextFilled payload.now from result }
    {
        let mut next = from;
        while next < payload.len() && payload[next] == 0 {
            next += 1;
        }
        next
    }

    // The words of the payload before an index are stored: it stores the next, or publishes the record.
    fn filled(&mut self, payload: &[u64], at: u64, from: usize)
        requires { from ≤ length payload.now }
        ensures { IsPayloadFilled payload.now at from self.new }
    {
        let index = NewRecord::next_filled(payload, from);
        self.stage = if index < payload.len() {
            NewRecordStage::Filling { at, index }
        } else {
            NewRecordStage::Publishing {
                publish: Publish::start(at),
            }
        };
    }

    // What a step of its allocation leads to.
    fn allocated(&mut self, said: AllocStep) -> NewRecordStep
        ensures { IsAllocated self.old said self.new result }
    {
        match said {
            AllocStep::More => NewRecordStep::More,
            AllocStep::Done(at) => {
                self.stage = NewRecordStage::Filling { at, index: 0 };
                NewRecordStep::More
            }
            AllocStep::Full => NewRecordStep::Refused(Refusal::Full),
            AllocStep::Corrupt => NewRecordStep::Refused(Refusal::Corrupt),
        }
    }

    // It continues to claim the words of the record.
    fn allocate(&mut self, words: &mut [u64], payload: &[u64]) -> NewRecordStep
        requires allocates { IsAllocating self.old.stage }
        requires stands { ∥ IsSomeNewRecord (length words.old) payload.now self.old ∥₁ }
        ensures steps { NewRecordSteps payload.now self.old words.old self.new words.new result }
        ensures less { RecordLowers payload.now self.old words.old self.new words.new result }
    {
        match &mut self.stage {
            NewRecordStage::Allocating { alloc } => {
                let said = alloc.step(words);
                self.allocated(said)
            }
            _ => NewRecordStep::More,
        }
    }

    // It stores a word of the payload.
    fn fill(&mut self, words: &mut [u64], payload: &[u64], at: u64, index: usize) -> NewRecordStep
        requires fills { self.old.stage ≡ Filling at index }
        requires stands { ∥ IsSomeNewRecord (length words.old) payload.now self.old ∥₁ }
        ensures steps { NewRecordSteps payload.now self.old words.old self.new words.new result }
        ensures less { RecordLowers payload.now self.old words.old self.new words.new result }
    {
        store(words, at as usize + (BLOCK_HEADER + index), payload[index]);
        self.filled(payload, at, index + 1);
        NewRecordStep::More
    }

    // What a step of its publish leads to.
    fn published(said: PubStep) -> NewRecordStep
        ensures { IsPublished said result }
    {
        if said == PubStep::Done {
            NewRecordStep::Done
        } else {
            NewRecordStep::More
        }
    }

    // It continues to put the record on the list.
    fn publish(&mut self, words: &mut [u64], payload: &[u64]) -> NewRecordStep
        requires publishes { IsPublishing self.old.stage }
        requires stands { ∥ IsSomeNewRecord (length words.old) payload.now self.old ∥₁ }
        ensures steps { NewRecordSteps payload.now self.old words.old self.new words.new result }
        ensures less { RecordLowers payload.now self.old words.old self.new words.new result }
    {
        match &mut self.stage {
            NewRecordStage::Publishing { publish } => {
                let said = publish.step(words);
                NewRecord::published(said)
            }
            _ => NewRecordStep::More,
        }
    }

    // The exchange that its next event is, if it is one.
    pub(crate) fn next_exchange(&self) -> Option<Attempt>
        ensures { result ≡ new_record_attempt self.now.stage }
    {
        match &self.stage {
            NewRecordStage::Allocating { alloc } => alloc.next_exchange(),
            NewRecordStage::Filling { .. } => None,
            NewRecordStage::Publishing { publish } => publish.next_exchange(),
        }
    }

    // The word that its next event loads, if it is a load.
    pub(crate) fn next_load(&self) -> Option<usize>
        ensures { result ≡ new_record_load self.now.stage }
    {
        match &self.stage {
            NewRecordStage::Allocating { alloc } => alloc.next_load(),
            NewRecordStage::Filling { .. } => None,
            NewRecordStage::Publishing { publish } => publish.next_load(),
        }
    }

    // Performs its next event.
    pub(crate) fn step(&mut self, words: &mut [u64], payload: &[u64]) -> NewRecordStep
        requires stands { ∥ IsSomeNewRecord (length words.old) payload.now self.old ∥₁ }
        ensures steps { NewRecordSteps payload.now self.old words.old self.new words.new result }
        ensures less { RecordLowers payload.now self.old words.old self.new words.new result }
    {
        match self.stage {
            NewRecordStage::Allocating { .. } => self.allocate(words, payload),
            NewRecordStage::Filling { at, index } => self.fill(words, payload, at, index),
            NewRecordStage::Publishing { .. } => self.publish(words, payload),
        }
    }
}
