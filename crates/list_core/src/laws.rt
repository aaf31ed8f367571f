//! The laws of lists, of the definitions in `specs/Chain.antt`, `Publish.antt`, `Walk.antt` and `Cursor.antt`.
//!
//! The functions do nothing. What each promises is a law over words and a chain alone. What each event of a publish keeps
//! is in the contract of `Publish::step`. A machine with more kinds of events has the lemmas in `proofs/EventKinds.antt`.

ghost use Rattle.std.specs.Prelude.{◌≡◌, [], ℕ, List, ◌+◌, ◌<◌, length, slice_index, true};
ghost use Rattle.segment_image.specs.Words.{word_at};
ghost use Rattle.segment_image.specs.declared.layout.TheConstants.{BLOCK_NEXT};
ghost use Rattle.segment_image.specs.Head.{head_of};
ghost use Rattle.segment_image.specs.Blocks.{is_block};
ghost use Rattle.segment_image.specs.Image.{blank_words};
ghost use Rattle.list_core.specs.Chain.{IsStop, IsChain, IsList};
ghost use Rattle.list_core.specs.Walk.{said_of, stands_behind, IsPrefix, IsGiven};
ghost use Rattle.list_core.specs.Cursor.{CursorsGiveFronts};
ghost use Rattle.list_core.specs.Publish.{Publishing, started, chain_after, StandsOn};

/// The words of a new segment have a list without records.
pub fn opening_words_have_a_list()
    ensures { (size page id : ℕ) → IsList (blank_words size page id) [] }
{}

/// In words with a list, a publish may start for any record that is off the chain. Each of its steps then keeps the
/// list, and leaves all other publishes in their places, by the clauses `list` and `others` of `Publish::step`.
pub fn records_off_the_chain_may_start()
    ensures { (words chain : List ℕ) (reference : ℕ) → IsList words chain → ¬ (IsStop chain reference) → StandsOn words chain (started reference) }
{}

/// The list of words whose records are valid blocks is the chain that a reader of the words finds: distinct valid
/// blocks that the nexts give from the queue block, and back to it.
pub fn published_records_are_the_chain()
    ensures { (words chain : List ℕ) → IsList words chain
        → ((k : ℕ) → k < length chain → is_block words (head_of words) (slice_index chain k) ≡ true)
        → IsChain words (head_of words) chain }
{}

/// The chain only grows, at its end: the records before stay, and so does what a walk has given. `chain_after` says
/// which record is added: that of the publish whose link succeeds.
pub fn chain_only_grows()
    ensures { (words chain given : List ℕ) (publish : Publishing) → IsPrefix given chain → IsPrefix given (chain_after words chain publish) }
{}

/// A walk from the start gives a prefix of the chain, in order: a walk that has given one gives the next record, or
/// says that this is all of the chain; it never strays.
pub fn walks_give_prefixes()
    ensures { (words chain given : List ℕ) → IsList words chain → IsPrefix given chain
        → IsGiven given chain (said_of (length words) (word_at words (stands_behind given + BLOCK_NEXT))) }
{}

/// Cursors that share a word give a front of the chain, each record once, in any order of their steps, and while
/// the list grows. None of them strays, and one says that the list ends only when all of the chain was given.
pub fn cursors_give_fronts()
    ensures { CursorsGiveFronts }
{}
