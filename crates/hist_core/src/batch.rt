//! A running `batch`: it counts its items one after the other, and then adds its sum.

ghost use Rattle.std.specs.Prelude.{◌≡◌, length};

use crate::add::{Add, AddStep};
use crate::word_ops::fetch_add;
use alloc_core::Attempt;
use segment_calls::BatchRefusal;
use segment_image::layout::HISTOGRAM_SUM;

/// What a step of a `batch` says.
#[derive(Clone, Copy, PartialEq, Eq)]
pub(crate) enum BatchStep {
    /// It continues.
    More,
    /// Its items are counted, and its sum is added.
    Done,
    /// The next item is refused.
    Refused(BatchRefusal),
}

/// A running `batch`.
#[derive(Drop)]
pub(crate) struct Batch {
    // The histogram's record.
    pub(crate) histogram: u64,
    // Its items, and how many of them are counted.
    pub(crate) items: Vec<Add>,
    pub(crate) added: usize,
    // What it adds to the sum after its items.
    pub(crate) sum: i64,
    // The units that it costs, and those of them that no counted item has spent.
    pub(crate) cost: u32,
    pub(crate) left: u32,
}

impl Batch {
    ghost use Rattle.std.specs.Prelude.{◌<◌, ◌≤◌, vec_len};
    ghost use lib.ListN.{get_elem?};
    ghost use Rattle.hist_core.specs.Exchanging.{item_attempt};
    ghost use Rattle.hist_core.specs.Left.{BatchLowers};
    ghost use Rattle.hist_core.specs.Loading.{item_load};
    ghost use Rattle.hist_core.specs.declared.batch.BatchStep.TheVariants.{Done};
    ghost use Rattle.hist_core.specs.Batch.{BatchSteps, IsItemSaid, IsRefusedAt, IsSameBatch, IsSomeBatch};

    // What a step of its next item, which has this many units, leads to.
    fn item_said(&mut self, said: AddStep, units: u32) -> BatchStep
        requires near { self.old.added < vec_len self.old.items }
        requires few { units ≤ self.old.left }
        ensures { IsItemSaid self.old said units self.new result }
    {
        match said {
            AddStep::More => BatchStep::More,
            AddStep::Done => {
                self.left -= units;
                self.added += 1;
                if self.added == self.items.len() && self.sum == 0 {
                    BatchStep::Done
                } else {
                    BatchStep::More
                }
            }
            AddStep::Refused(why) => BatchStep::Refused(BatchRefusal {
                added: self.added,
                why,
            }),
        }
    }

    // It continues with its next item.
    fn count(&mut self, words: &mut [u64]) -> BatchStep
        requires near { self.old.added < vec_len self.old.items }
        requires stands { ∥ IsSomeBatch (length words.old) self.old ∥₁ }
        ensures steps { BatchSteps self.old words.old self.new words.new result }
        ensures less { BatchLowers self.old words.old self.new words.new result }
        ensures same { IsSameBatch self.old self.new }
        ensures refused { IsRefusedAt self.old self.new result }
    {
        let item = &mut self.items[self.added];
        let units = item.units;
        let said = item.step(words);
        self.item_said(said, units)
    }

    // It adds its sum.
    fn add_sum(&mut self, words: &mut [u64]) -> BatchStep
        requires counted { self.old.added ≡ vec_len self.old.items }
        requires stands { ∥ IsSomeBatch (length words.old) self.old ∥₁ }
        ensures steps { BatchSteps self.old words.old self.new words.new result }
        ensures less { BatchLowers self.old words.old self.new words.new result }
        ensures same { self.new ≡ self.old }
        ensures done { result ≡ Done }
    {
        let at = self.histogram as usize + HISTOGRAM_SUM;
        fetch_add(words, at, self.sum.cast_unsigned());
        BatchStep::Done
    }

    // The exchange that its next event is, if it is one.
    pub(crate) fn next_exchange(&self) -> Option<Attempt>
        ensures { result ≡ item_attempt (get_elem? self.now.items.items self.now.added) }
    {
        if self.added >= self.items.len() {
            return None;
        }
        self.items[self.added].next_exchange()
    }

    // The word that its next event loads, if it is a load.
    pub(crate) fn next_load(&self) -> Option<usize>
        ensures { result ≡ item_load (get_elem? self.now.items.items self.now.added) }
    {
        if self.added >= self.items.len() {
            return None;
        }
        self.items[self.added].next_load()
    }

    // Performs its next event.
    pub(crate) fn step(&mut self, words: &mut [u64]) -> BatchStep
        requires stands { ∥ IsSomeBatch (length words.old) self.old ∥₁ }
        ensures steps { BatchSteps self.old words.old self.new words.new result }
        ensures less { BatchLowers self.old words.old self.new words.new result }
        ensures same { IsSameBatch self.old self.new }
        ensures refused { IsRefusedAt self.old self.new result }
    {
        if self.added < self.items.len() {
            self.count(words)
        } else {
            self.add_sum(words)
        }
    }
}
