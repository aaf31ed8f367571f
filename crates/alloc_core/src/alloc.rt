//! One allocation, an event at a time.

use crate::attempt::Attempt;
use crate::event::{exchange, set_bits, store};
use crate::planned::{Planned, is_pointer, plan};
use segment_image::Shape;
use segment_image::layout::{
    BLOCK_COOKIE, BLOCK_HEADER, BLOCK_SIZE, BLOCK_TYPE, CLAIMED_COOKIE, FLAG_CORRUPT, FLAG_FULL,
    FLAGS_WORD, FREE_WORD, WASTED_COOKIE,
};
use std::marker::Model;
use thiserror::Error;

/// What the words from a free pointer on are taken for.
#[derive(Clone, Copy, PartialEq, Eq)]
pub(crate) enum Purpose {
    /// For a block.
    Claim,
    /// For nothing, since the page ends before a block would.
    Waste,
}

/// What an allocation does next, or how it has ended.
#[derive(Clone, Copy, PartialEq, Eq)]
pub(crate) enum AllocStage {
    /// It loads the flags. Each try begins so.
    LoadFlags,
    /// It loads the free pointer.
    LoadFree,
    /// It exchanges the free pointer from the one that it loaded.
    ExchangeFree {
        next: u64,
        purpose: Purpose,
    },
    /// It stores the size of the words that it took.
    StoreSize {
        at: u64,
        size: u64,
        purpose: Purpose,
    },
    /// It stores their cookie.
    StoreCookie {
        at: u64,
        size: u64,
        purpose: Purpose,
    },
    /// It stores the type of its block.
    StoreType {
        at: u64,
        size: u64,
    },
    /// It sets the full flag.
    SetFull,
    /// It has its block.
    Claimed {
        at: u64,
        size: u64,
    },
    /// The segment has no room for it.
    Full,
    /// It found the segment corrupt.
    Corrupt,
}

/// What a step of an allocation says.
#[derive(Clone, Copy, PartialEq, Eq)]
pub enum AllocStep {
    /// The allocation continues.
    More,
    /// It has claimed the block at this reference.
    Done(u64),
    /// The segment has no room for it.
    Full,
    /// The corrupt flag was set, or the free pointer was none that a segment can have.
    Corrupt,
}

/// The payload and the header of a block are more words than a page has.
#[derive(Clone, Copy, Debug, PartialEq, Eq, Error)]
#[error("TooLarge")]
pub struct TooLarge;

/// One allocation of a block. A clause sees the plain record of it, `Allocation` in `specs/Alloc.antt`.
#[derive(Drop)]
pub struct Alloc {
    shape: Shape,
    size: u64,
    tag: u64,
    seen: u64,
    stage: AllocStage,
}

impl Model for Alloc {
    ghost use Rattle.alloc_core.specs.Alloc.{Allocation, IsLawful};

    ghost Value = { Allocation };

    ghost view = { λ a. record { shape = a.shape; size = a.size; tag = a.tag; seen = a.seen; stage = a.stage } };

    ghost invariant = { λ a. IsLawful record { shape = a.shape; size = a.size; tag = a.tag; seen = a.seen; stage = a.stage } };
}

impl AllocStage {
    ghost use Rattle.std.specs.Prelude.{◌≡◌};
    ghost use Rattle.alloc_core.specs.Alloc.{answer};

    // What a step that led to this stage says.
    fn answer(self) -> AllocStep
        ensures { result ≡ answer self }
    {
        match self {
            AllocStage::Claimed { at, .. } => AllocStep::Done(at),
            AllocStage::Full => AllocStep::Full,
            AllocStage::Corrupt => AllocStep::Corrupt,
            _ => AllocStep::More,
        }
    }
}

impl Purpose {
    ghost use Rattle.std.specs.Prelude.{◌≡◌};
    ghost use Rattle.alloc_core.specs.Alloc.{cookie_of};

    // The cookie that says so.
    fn cookie(self) -> u64
        ensures { result ≡ cookie_of self }
    {
        match self {
            Purpose::Claim => CLAIMED_COOKIE,
            Purpose::Waste => WASTED_COOKIE,
        }
    }
}

impl Alloc {
    ghost use Rattle.std.specs.Prelude.{◌≡◌, ◌+◌, ◌<◌, ℕ, List, length, slice_set, is_some, true, IfSome};
    ghost use mathlib.Core.Option.{some};
    ghost use lib.ListN.{get_elem?};
    ghost use Rattle.segment_image.specs.Words.{word_at};
    ghost use Rattle.alloc_core.specs.Event.{spot, after, change};
    ghost use Rattle.alloc_core.specs.Attempt.{attempt_of};
    ghost use Rattle.alloc_core.specs.Load.{load_of};
    ghost use Rattle.alloc_core.specs.Planned.{planned, is_pointer};
    ghost use Rattle.alloc_core.specs.Alloc.{event_at, next_event, stage_of_plan, seen_after, stage_after, started, moved, Allocation, IsStep, IsCorruptBy};
    ghost use Rattle.alloc_core.specs.Laws.{Keeps, IsNewBlock};

    /// Starts an allocation of a block with `payload` words after its header, and of a type; a payload of 0 is taken
    /// as 1.
    ///
    /// `TooLarge` if header and payload are more words than a page has.
    pub fn start(shape: Shape, payload: u64, tag: u64) -> Result<Alloc, TooLarge>
        ensures { result ≡ started shape payload tag }
    {
        if payload > shape.page() - BLOCK_HEADER as u64 {
            return Err(TooLarge);
        }
        Ok(Alloc {
            shape,
            size: BLOCK_HEADER as u64 + payload.max(1),
            tag,
            seen: 0,
            stage: AllocStage::LoadFlags,
        })
    }

    /// Performs the allocation's next event, which changes one word at most [step]. There are as many words as the
    /// shape says, and the step before, if there was one, returned `More`. It takes no memory.
    ///
    /// - `More`: it continues, and has a next event [more].
    /// - `Done` with the reference of the block: its type was stored, the last of its header. The block is new: its
    ///   header is stored, its next and payload are zeros, it lies in one page and below the free pointer. It is
    ///   apart from every block that anybody claimed, every wasted rest and every gap of the segment [done].
    /// - `Full`: from the free pointer that it loaded last, the words that it needs pass the end of the segment
    ///   [full]; the full flag is set.
    /// - `Corrupt`: it loaded the corrupt flag, or a free pointer that no segment has [corrupt].
    ///
    /// If the words and any allocations, this one among them, kept the allocation invariant, they keep it after
    /// the step [keeps].
    pub fn step(&mut self, words: &mut [u64]) -> AllocStep
        requires long { length words.old ≡ self.old.shape.size }
        requires running { is_some (next_event self.old) ≡ true }
        ensures step { IsStep self.old words.old self.new words.new result }
        ensures more { result ≡ AllocStep.More → is_some (next_event self.new) ≡ true }
        ensures full { result ≡ AllocStep.Full → self.new.shape.size < self.new.seen + self.new.size }
        ensures corrupt { result ≡ AllocStep.Corrupt → IsCorruptBy self.old words.old }
        ensures keeps { (allocations : List Allocation) (owner : ℕ) → get_elem? allocations owner ≡ some self.old → Keeps self.old.shape words.old allocations → Keeps self.old.shape words.new (slice_set allocations owner self.new) }
        ensures done { (reference : ℕ) → result ≡ AllocStep.Done reference → (allocations : List Allocation) (owner : ℕ) → get_elem? allocations owner ≡ some self.old → (kept : Keeps self.old.shape words.old allocations) → IsNewBlock self.new reference words.new kept.layout allocations owner }
    {
        let found = self.act(words);
        self.go_on(found);
        self.stage.answer()
    }

    /// Returns the exchange that its next event is, if it is one: the word, and the value that is expected there.
    pub fn next_exchange(&self) -> Option<Attempt>
        ensures { result ≡ attempt_of (next_event self.now) }
    {
        match self.stage {
            AllocStage::ExchangeFree { .. } => Some(Attempt {
                at: FREE_WORD,
                wanted: self.seen,
            }),
            _ => None,
        }
    }

    /// Returns the word that its next event loads, if it is a load.
    pub fn next_load(&self) -> Option<usize>
        ensures { result ≡ load_of (next_event self.now) }
    {
        match self.stage {
            AllocStage::LoadFlags => Some(FLAGS_WORD),
            AllocStage::LoadFree => Some(FREE_WORD),
            _ => None,
        }
    }

    // The next event: what becomes of the words, and the number that it found.
    fn act(&self, words: &mut [u64]) -> u64
        requires long { length words.old ≡ self.now.shape.size }
        requires running { is_some (next_event self.now) ≡ true }
        ensures words { IfSome (next_event self.now) (λ event. words.new ≡ after event words.old) }
        ensures found { IfSome (next_event self.now) (λ event. result ≡ word_at words.old (spot event)) }
    {
        match self.stage {
            AllocStage::LoadFlags => words[FLAGS_WORD],
            AllocStage::LoadFree => words[FREE_WORD],
            AllocStage::ExchangeFree { next, .. } => exchange(words, FREE_WORD, self.seen, next),
            AllocStage::StoreSize { at, size, .. } => store(words, at as usize + BLOCK_SIZE, size),
            AllocStage::StoreCookie { at, purpose, .. } => store(
                words,
                at as usize + BLOCK_COOKIE,
                purpose.cookie(),
            ),
            AllocStage::StoreType { at, .. } => store(words, at as usize + BLOCK_TYPE, self.tag),
            AllocStage::SetFull => set_bits(words, FLAGS_WORD, FLAG_FULL),
            AllocStage::Claimed { .. } | AllocStage::Full | AllocStage::Corrupt => 0,
        }
    }

    // What becomes of the allocation after it found a number.
    fn go_on(&mut self, found: u64)
        ensures { self.new ≡ moved self.old found }
    {
        let seen = self.seen_after(found);
        let stage = self.stage_after(found);
        self.seen = seen;
        self.stage = stage;
    }

    // The free pointer that was loaded last.
    fn seen_after(&self, found: u64) -> u64
        ensures { result ≡ seen_after self.now found self.now.stage }
    {
        match self.stage {
            AllocStage::LoadFree => found,
            _ => self.seen,
        }
    }

    // The stage that comes next.
    fn stage_after(&self, found: u64) -> AllocStage
        ensures { result ≡ stage_after self.now found self.now.stage }
    {
        match self.stage {
            AllocStage::LoadFlags if found & FLAG_CORRUPT == 0 => AllocStage::LoadFree,
            AllocStage::LoadFlags => AllocStage::Corrupt,
            AllocStage::LoadFree if is_pointer(found, &self.shape) => self.tried(found),
            AllocStage::LoadFree => AllocStage::Corrupt,
            AllocStage::ExchangeFree { next, purpose } if found == self.seen =>
                AllocStage::StoreSize {
                    at: found,
                    size: next - found,
                    purpose,
                },
            AllocStage::ExchangeFree { .. } => AllocStage::LoadFlags,
            AllocStage::StoreSize { at, size, purpose } => AllocStage::StoreCookie {
                at,
                size,
                purpose,
            },
            AllocStage::StoreCookie {
                at,
                size,
                purpose: Purpose::Claim,
            } => AllocStage::StoreType { at, size },
            AllocStage::StoreCookie { .. } => AllocStage::LoadFlags,
            AllocStage::StoreType { at, size } => AllocStage::Claimed { at, size },
            AllocStage::SetFull => AllocStage::Full,
            ended => ended,
        }
    }

    // The stage that the plan from a valid free pointer leads to.
    fn tried(&self, free: u64) -> AllocStage
        requires { is_pointer self.now.shape free ≡ true }
        ensures { result ≡ stage_of_plan free (planned free self.now.size self.now.shape) }
    {
        match plan(free, self.size, self.shape) {
            Planned::Claim { next, .. } => AllocStage::ExchangeFree {
                next,
                purpose: Purpose::Claim,
            },
            Planned::Waste { room } => AllocStage::ExchangeFree {
                next: free + room,
                purpose: Purpose::Waste,
            },
            Planned::Full => AllocStage::SetFull,
        }
    }
}
