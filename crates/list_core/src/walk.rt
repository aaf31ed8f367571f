//! One walk along the list, an event at a time.

use crate::reference::is_reference;
use segment_image::layout::{BLOCK_NEXT, QUEUE};
use std::marker::Model;

/// What a step of a walk says.
#[derive(Clone, Copy, PartialEq, Eq)]
pub enum WalkStep {
    /// The next record of the list.
    Record(u64),
    /// The list ends here for now. The walk is where it was, and can be stepped again.
    End,
    /// The word that was loaded is no reference that a list can have. The walk is where it was.
    Stray,
}

/// A walk along the list (Chromium's persistent_memory_allocator). A clause sees the block where it is: 12, the queue
/// block, or the record that it gave last.
#[derive(Drop)]
pub struct Walk {
    at: u64,
}

impl Model for Walk {
    ghost use Rattle.std.specs.Prelude.{ℕ};

    ghost Value = { ℕ };

    ghost view = { λ w. w.at };
}

impl WalkStep {
    ghost use Rattle.std.specs.Prelude.{◌≡◌};
    ghost use Rattle.list_core.specs.Walk.{stands_after};

    // Where a walk at a block is after it said this.
    fn stands(self, at: u64) -> u64
        ensures { result ≡ stands_after at self }
    {
        match self {
            WalkStep::Record(reference) => reference,
            WalkStep::End | WalkStep::Stray => at,
        }
    }
}

impl Walk {
    ghost use Rattle.std.specs.Prelude.{◌≡◌, ℕ, List, ◌+◌, ◌%◌, ◌^◌, ◌≤◌, length, slice_index, true};
    ghost use Rattle.segment_image.specs.declared.head.SegmentHead.{SegmentHead};
    ghost use Rattle.segment_image.specs.Words.{word_at};
    ghost use Rattle.segment_image.specs.declared.layout.TheConstants.{HEADER_WORDS, BLOCK_NEXT, QUEUE};
    ghost use Rattle.list_core.specs.Chain.{is_reference, stops, IsChain};
    ghost use Rattle.list_core.specs.Walk.{said_of, stands_after, stands_behind, given_after, GivesNext};

    /// Starts a walk at the start of the list.
    pub fn from_start() -> Walk
        ensures { result ≡ QUEUE }
    {
        Walk { at: QUEUE }
    }

    /// Returns a walk that continues after the record at a reference, which is from 16 to five below the number of
    /// words, or 12 for the queue block.
    pub fn from(reference: u64) -> Walk
        ensures { result ≡ reference }
    {
        Walk { at: reference }
    }

    /// Loads the next of the block where the walk is, and says what it names [says]. There are at least 16 words, the
    /// same number at each step. It takes no memory.
    ///
    /// `Record` comes with a reference, where the walk is then; `End` if the next is 12, and `Stray` if it is neither
    /// 12 nor from 16 to five below the number of words. After these two the walk is where it was, and can be stepped
    /// again [stands]. It stays within the words [reach]. If it was at the end of what a walk from the start had given,
    /// it is at the end of that and what it gives now [given]. In any words with a chain, a walk at a place of it gives
    /// the record after that place, or `End` at the end of the chain [chain].
    pub fn step(&mut self, words: &[u64]) -> WalkStep
        requires headed { HEADER_WORDS ≤ length words.now }
        requires reach { is_reference (length words.now) self.old ≡ true }
        ensures says { result ≡ said_of (length words.now) (word_at words.now (self.old + BLOCK_NEXT)) }
        ensures stands { self.new ≡ stands_after self.old result }
        ensures reach { is_reference (length words.now) self.new ≡ true }
        ensures given { (given : List ℕ) → self.old ≡ stands_behind given → self.new ≡ stands_behind (given_after given result) }
        ensures chain { (head : SegmentHead) (chain : List ℕ) (k : ℕ) → head.free ≤ length words.now → IsChain words.now head chain → k ≤ length chain → slice_index (stops chain) k ≡ self.old → GivesNext chain k result }
    {
        let said = said_of(self.next(words), words.len());
        self.at = said.stands(self.at);
        said
    }

    /// Returns the word that its next step loads: the next of the block where it is.
    pub fn next_load(&self) -> usize
        ensures { result ≡ (self.now + BLOCK_NEXT) % 2 ^ 64 }
    {
        (self.at as usize).wrapping_add(BLOCK_NEXT)
    }

    // The next of the block where the walk is.
    fn next(&self, words: &[u64]) -> u64
        requires headed { HEADER_WORDS ≤ length words.now }
        requires reach { is_reference (length words.now) self.now ≡ true }
        ensures { result ≡ word_at words.now (self.now + BLOCK_NEXT) }
    {
        words[self.at as usize + BLOCK_NEXT]
    }
}

ghost use Rattle.std.specs.Prelude.{◌≡◌};
ghost use Rattle.list_core.specs.Walk.{said_of as said_of_next};

// What a next says, in `count` words.
fn said_of(next: u64, count: usize) -> WalkStep
    ensures { result ≡ said_of_next count next }
{
    if next == QUEUE {
        WalkStep::End
    } else if is_reference(next, count) {
        WalkStep::Record(next)
    } else {
        WalkStep::Stray
    }
}
