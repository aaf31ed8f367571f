//! The laws of allocation: what holds between any two events of any number of allocations, in any order.
//!
//! The functions do nothing. What each promises is a law of the definitions in `specs/Laws.antt` and `specs/Event.antt`,
//! which the contract of `Alloc::step` cites too. A machine with more kinds of events has the lemmas in
//! `proofs/EventKinds.antt` for those of allocation, over what `proofs/Layouts.antt` and `proofs/Owners.antt` say.

ghost use Rattle.std.specs.Prelude.{◌≡◌, ◌≢◌, ℕ, ◌+◌, ◌*◌, ◌<◌, ◌≤◌, sum_by, List, [], true, Some, slice_set};
ghost use Rattle.std.specs.List.{count_by};
ghost use Rattle.std.specs.Int.{bit_at};
ghost use mathlib.Core.Option.{some};
ghost use lib.ListN.{get_elem?};
ghost use Rattle.segment_image.specs.Shape.{Dimensions};
ghost use Rattle.segment_image.specs.Words.{word_at};
ghost use Rattle.segment_image.specs.Head.{head_of};
ghost use Rattle.segment_image.specs.Blocks.{is_block};
ghost use Rattle.segment_image.specs.declared.layout.TheConstants.{HEADER_WORDS, FLAGS_WORD, FREE_WORD, BLOCK_LEAST};
ghost use Rattle.alloc_core.specs.Layout.{IsShape};
ghost use Rattle.alloc_core.specs.Planned.{is_pointer};
ghost use Rattle.alloc_core.specs.Alloc.{Allocation};
ghost use Rattle.alloc_core.specs.Laws.{Keeps, Behind, taken, words_taken, Apart, State, Move, IsMove, IsRun, StateKeeps, opening, FlagsBy, IsRecord, IsListWord, IsImageWord, Leaves, has_claimed};

/// The words of a ready segment without blocks keep the allocation invariant.
pub fn opening_words_keep()
    ensures { (shape : Dimensions) (id : ℕ) → IsShape shape → StateKeeps shape (opening shape id) }
{}

/// Whatever happens next keeps the invariant: an allocation starts, or performs its next event; the owner of a
/// claimed block stores a word of its payload; somebody sets the corrupt flag.
pub fn moves_keep()
    ensures { (shape : Dimensions) (move : Move) (old new : State) → StateKeeps shape old → IsMove shape move old new → StateKeeps shape new }
{}

/// So do any such moves, one after the other, in any order.
pub fn runs_keep()
    ensures { (shape : Dimensions) (moves : List Move) (old new : State) → StateKeeps shape old → IsRun shape moves old new → StateKeeps shape new }
{}

/// The words that two allocations have taken and not wasted, their claimed blocks among them, do not overlap.
pub fn blocks_are_apart()
    ensures { (shape : Dimensions) (state : State) (i j : ℕ) (a b : Allocation) (block other : ℕ × ℕ) → StateKeeps shape state → i ≢ j
        → get_elem? state.allocations i ≡ some a → get_elem? state.allocations j ≡ some b
        → taken a.stage ≡ Some block → taken b.stage ≡ Some other → Apart block other }
{}

/// A reader of images accepts each claimed block: it lies below the free pointer, with its cookie, in one page.
pub fn claimed_blocks_are_lawful()
    ensures { (shape : Dimensions) (state : State) (reference : ℕ) → StateKeeps shape state → IsRecord state.allocations reference
        → is_block state.words (head_of state.words) reference ≡ true }
{}

/// The free pointer is valid, and it is the one that an allocation loaded last, or at least five above it. So an
/// exchange that fails finds it at least five higher.
pub fn free_pointer_rises()
    ensures { (shape : Dimensions) (state : State) (owner : ℕ) (a : Allocation) → StateKeeps shape state → get_elem? state.allocations owner ≡ some a
        → Behind a.seen (word_at state.words FREE_WORD) × (is_pointer shape (word_at state.words FREE_WORD) ≡ true) }
{}

/// The flags change only by those that set them: the corrupt flag by somebody who spoils the segment, the full flag
/// by an allocation that has found no room [setters]. All other bits of their word stay unchanged [others].
pub fn flags_have_setters()
    ensures setters { (shape : Dimensions) (move : Move) (old new : State) → StateKeeps shape old → IsMove shape move old new → FlagsBy move old new }
    ensures others { (shape : Dimensions) (move : Move) (old new : State) (bit : ℕ) → StateKeeps shape old → IsMove shape move old new
        → 2 ≤ bit → bit_at (word_at new.words FLAGS_WORD) bit ≡ bit_at (word_at old.words FLAGS_WORD) bit }
{}

/// The version, the id, the flags and the words between the tail and the queue block may be anything. So the invariant
/// holds of a segment that was made from an image, whatever these words are in it.
pub fn image_words_keep()
    ensures { (shape : Dimensions) (state : State) (at value : ℕ) → StateKeeps shape state → IsImageWord at
        → StateKeeps shape (record state { words = slice_set state.words at value }) }
{}

/// A block that no allocation has stays unchanged, whatever happens. So do the blocks of a segment that was made from
/// an image: they are in every later layout, and each new block is apart from them.
pub fn image_blocks_stay()
    ensures { (shape : Dimensions) (moves : List Move) (old new : State) (kept : StateKeeps shape old) → IsRun shape moves old new
        → (later : StateKeeps shape new) × Leaves kept.layout later.layout }
{}

/// A word of the list of records may become anything: the tail, the next of the queue block, the next of a claimed
/// block. So the invariant also holds while any number of publishes make their steps.
pub fn list_words_keep()
    ensures { (shape : Dimensions) (state : State) (at value : ℕ) → StateKeeps shape state → IsListWord state.allocations at
        → StateKeeps shape (record state { words = slice_set state.words at value }) }
{}

/// Whatever happens leaves the words of the list unchanged.
pub fn moves_leave_list_words()
    ensures { (shape : Dimensions) (move : Move) (old new : State) (at : ℕ) → StateKeeps shape old → IsMove shape move old new
        → IsListWord old.allocations at → (word_at new.words at ≡ word_at old.words at) × IsListWord new.allocations at }
{}

/// Whatever happens leaves the words of the header unchanged but the flags and the free pointer. So those between the
/// tail and the queue block stay, and only the list, which is none of these moves, stores in the tail and in the next
/// of the queue block.
pub fn header_words_stay()
    ensures { (shape : Dimensions) (move : Move) (old new : State) (at : ℕ) → StateKeeps shape old → IsMove shape move old new
        → at < HEADER_WORDS → at ≢ FLAGS_WORD → at ≢ FREE_WORD → word_at new.words at ≡ word_at old.words at }
{}

/// The words from the free pointer on are 0.
pub fn words_behind_are_zeros()
    ensures { (shape : Dimensions) (state : State) (at : ℕ) → StateKeeps shape state → word_at state.words FREE_WORD ≤ at → word_at state.words at ≡ 0 }
{}

/// All words that allocations have taken and not wasted lie between the queue block and the free pointer [taken]. A
/// claimed block is five of them or more, so five times the number of claimed blocks is at most the free pointer less
/// 16 [claimed].
pub fn taken_words_fit()
    ensures claimed { (shape : Dimensions) (state : State) → StateKeeps shape state
        → HEADER_WORDS + BLOCK_LEAST * count_by (λ a. has_claimed a.stage) state.allocations ≤ word_at state.words FREE_WORD }
    ensures taken { (shape : Dimensions) (state : State) → StateKeeps shape state
        → HEADER_WORDS + sum_by (λ a. words_taken (taken a.stage)) state.allocations ≤ word_at state.words FREE_WORD }
{}
