//! One publish, an event at a time.

use crate::reference::is_reference;
use alloc_core::Attempt;
use alloc_core::event::{exchange, store};
use segment_image::layout::{BLOCK_NEXT, QUEUE, TAIL_WORD};
use std::marker::Model;

/// What a publish does next, or how it has ended.
#[derive(Clone, Copy, PartialEq, Eq)]
pub(crate) enum PubStage {
    /// It stores the end of the list in the next of its record.
    StoreOwnNext,
    /// It loads the tail.
    LoadTail,
    /// It exchanges the next of the tail, from the end of the list to its record.
    Link { tail: u64 },
    /// It exchanges the tail: to its record, which is linked, or to the record that it found after the tail.
    MoveTail { old: u64, new: u64, linked: bool },
    /// The record is on the list.
    Published,
    /// It found a word that no list has.
    Strayed,
}

/// What a step of a publish says.
#[derive(Clone, Copy, PartialEq, Eq)]
pub enum PubStep {
    /// The publish continues.
    More,
    /// The record is on the list.
    Done,
    /// A word that was loaded is no reference that a list can have. The step has changed nothing.
    Stray,
}

/// One publish of a record (the iterable list of Chromium's persistent_memory_allocator). A clause sees the plain record
/// of it, `Publishing` in `specs/Publish.antt`.
#[derive(Drop)]
pub struct Publish {
    reference: u64,
    stage: PubStage,
}

impl Model for Publish {
    ghost use Rattle.list_core.specs.Publish.{Publishing};

    ghost Value = { Publishing };

    ghost view = { λ p. record { reference = p.reference; stage = p.stage } };
}

impl PubStage {
    ghost use Rattle.std.specs.Prelude.{◌≡◌};
    ghost use Rattle.list_core.specs.Publish.{answer};

    // What a step that led to this stage says.
    fn answer(self) -> PubStep
        ensures { result ≡ answer self }
    {
        match self {
            PubStage::Published => PubStep::Done,
            PubStage::Strayed => PubStep::Stray,
            _ => PubStep::More,
        }
    }
}

impl Publish {
    ghost use Rattle.std.specs.Prelude.{◌≡◌, ◌≢◌, ℕ, List, length, is_some, true, IfSome};
    ghost use Rattle.segment_image.specs.Words.{word_at};
    ghost use Rattle.alloc_core.specs.Event.{spot, after};
    ghost use Rattle.alloc_core.specs.Attempt.{attempt_of};
    ghost use Rattle.alloc_core.specs.Load.{load_of};
    ghost use Rattle.list_core.specs.Chain.{IsStop};
    ghost use Rattle.list_core.specs.Publish.{Publishing, next_event, stage_after, started, moved, IsStep, IsStrayBy, IsReach, chain_after, StandsOn, TailGoesOn};

    /// Starts the publish of the record at a reference, from 16 to five below the number of words.
    pub fn start(reference: u64) -> Publish
        ensures { result ≡ started reference }
    {
        Publish {
            reference,
            stage: PubStage::StoreOwnNext,
        }
    }

    /// Performs the publish's next event, which changes one word at most [step]. There are at least 16 words, the same
    /// number at each step; the record begins five words or more before their end, and the publish stays within them
    /// [reach]. The step before, if there was one, returned `More`. It takes no memory.
    ///
    /// - `More`: it continues, and has a next event [more].
    /// - `Done`: the tail was exchanged, or could not be, after the record was linked.
    /// - `Stray`: it loaded a tail, or found a next, that is neither 12 nor from 16 to five below the number of
    ///   words. Nothing has changed [stray].
    ///
    /// Now let the words have a list (nexts along a chain, and the tail on it), and the publish be where its stage
    /// says:
    ///
    /// - They have a list after the step too, with the record at the end of the chain if the step linked it, and the
    ///   publish is where its new stage says [list].
    /// - A publish of another record that was where its stage says still is there [others].
    /// - The tail is where it was, or at the next record [tail].
    /// - `Done` comes only if the record is on the chain [done], and `Stray` never [lawful].
    pub fn step(&mut self, words: &mut [u64]) -> PubStep
        requires reach { IsReach (length words.old) self.old }
        requires running { is_some (next_event self.old) ≡ true }
        ensures step { IsStep self.old words.old self.new words.new result }
        ensures reach { IsReach (length words.new) self.new }
        ensures more { result ≡ PubStep.More → is_some (next_event self.new) ≡ true }
        ensures stray { result ≡ PubStep.Stray → IsStrayBy self.old words.old × (words.new ≡ words.old) }
        ensures list { (chain : List ℕ) → StandsOn words.old chain self.old → StandsOn words.new (chain_after words.old chain self.old) self.new }
        ensures others { (chain : List ℕ) (other : Publishing) → StandsOn words.old chain self.old → StandsOn words.old chain other → IsReach (length words.old) other → other.reference ≢ self.old.reference → StandsOn words.new (chain_after words.old chain self.old) other }
        ensures tail { (chain : List ℕ) → StandsOn words.old chain self.old → TailGoesOn chain words.old words.new }
        ensures done { (chain : List ℕ) → StandsOn words.old chain self.old → result ≡ PubStep.Done → IsStop (chain_after words.old chain self.old) self.new.reference }
        ensures lawful { (chain : List ℕ) → StandsOn words.old chain self.old → result ≢ PubStep.Stray }
    {
        let count = words.len();
        let found = self.act(words);
        self.go_on(count, found);
        self.stage.answer()
    }

    /// Returns the exchange that its next event is, if it is one: the word, and the value that is expected there.
    pub fn next_exchange(&self) -> Option<Attempt>
        ensures { result ≡ attempt_of (next_event self.now) }
    {
        match self.stage {
            PubStage::Link { tail } => Some(Attempt {
                at: (tail as usize).wrapping_add(BLOCK_NEXT),
                wanted: QUEUE,
            }),
            PubStage::MoveTail { old, .. } => Some(Attempt {
                at: TAIL_WORD,
                wanted: old,
            }),
            _ => None,
        }
    }

    /// Returns the word that its next event loads, if it is a load.
    pub fn next_load(&self) -> Option<usize>
        ensures { result ≡ load_of (next_event self.now) }
    {
        match self.stage {
            PubStage::LoadTail => Some(TAIL_WORD),
            _ => None,
        }
    }

    // The next event: what becomes of the words, and the number that it found.
    fn act(&self, words: &mut [u64]) -> u64
        requires reach { IsReach (length words.old) self.now }
        requires running { is_some (next_event self.now) ≡ true }
        ensures words { IfSome (next_event self.now) (λ event. words.new ≡ after event words.old) }
        ensures found { IfSome (next_event self.now) (λ event. result ≡ word_at words.old (spot event)) }
    {
        match self.stage {
            PubStage::StoreOwnNext => store(words, self.reference as usize + BLOCK_NEXT, QUEUE),
            PubStage::LoadTail => words[TAIL_WORD],
            PubStage::Link { tail } => exchange(
                words,
                tail as usize + BLOCK_NEXT,
                QUEUE,
                self.reference,
            ),
            PubStage::MoveTail { old, new, .. } => exchange(words, TAIL_WORD, old, new),
            PubStage::Published | PubStage::Strayed => 0,
        }
    }

    // What becomes of the publish after it found a number, in `count` words.
    fn go_on(&mut self, count: usize, found: u64)
        ensures { self.new ≡ moved count self.old found }
    {
        self.stage = self.stage_after(count, found);
    }

    // The stage that comes next.
    fn stage_after(&self, count: usize, found: u64) -> PubStage
        ensures { result ≡ stage_after count self.now.reference found self.now.stage }
    {
        match self.stage {
            PubStage::StoreOwnNext => PubStage::LoadTail,
            PubStage::LoadTail if is_reference(found, count) => PubStage::Link { tail: found },
            PubStage::LoadTail => PubStage::Strayed,
            PubStage::Link { tail } if found == QUEUE => PubStage::MoveTail {
                old: tail,
                new: self.reference,
                linked: true,
            },
            PubStage::Link { tail } if is_reference(found, count) => PubStage::MoveTail {
                old: tail,
                new: found,
                linked: false,
            },
            PubStage::Link { .. } => PubStage::Strayed,
            PubStage::MoveTail { linked: true, .. } => PubStage::Published,
            PubStage::MoveTail { linked: false, .. } => PubStage::LoadTail,
            ended => ended,
        }
    }
}
