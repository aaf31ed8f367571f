//! One call on a shared cursor, an event at a time.

use crate::reference::is_reference;
use segment_image::layout::{BLOCK_NEXT, QUEUE};
use std::marker::Model;

/// What a cursor does next.
#[derive(Clone, Copy, PartialEq, Eq)]
pub(crate) enum CursorStage {
    /// It loads the shared word.
    LoadCursor,
    /// It loads the next of the block that the shared word named.
    LoadNext { at: u64 },
    /// It exchanges the shared word, from that block to the record after it.
    MoveCursor { at: u64, next: u64 },
}

/// What a step of a cursor says.
#[derive(Clone, Copy, PartialEq, Eq)]
pub enum CursorStep {
    /// The cursor continues.
    More,
    /// The next record, which no other cursor of the shared word gave or gives. The cursor is at its start again.
    Record(u64),
    /// The list ends here for now. The cursor is at its start again.
    End,
    /// A word that was loaded is no reference that a list can have. The step has changed nothing.
    Stray,
}

/// A cursor along the list (the iterator of Chromium's persistent_memory_allocator that threads share). Cursors share
/// one word, which names the block that they have reached together: at first 12. A clause sees what the cursor does
/// next.
#[derive(Drop)]
pub struct Cursor {
    stage: CursorStage,
}

impl Model for Cursor {
    ghost use Rattle.list_core.specs.declared.cursor.CursorStage.{CursorStage};

    ghost Value = { CursorStage };

    ghost view = { λ c. c.stage };
}

impl CursorStage {
    ghost use Rattle.std.specs.Prelude.{◌≡◌};
    ghost use Rattle.list_core.specs.Cursor.{said_of, stage_after};

    // What a step that found a number says.
    fn said(self, found: u64, count: usize) -> CursorStep
        ensures { result ≡ said_of count found self }
    {
        match self {
            CursorStage::MoveCursor { at, next } if found == at => CursorStep::Record(next),
            CursorStage::MoveCursor { .. } => CursorStep::More,
            CursorStage::LoadNext { .. } if found == QUEUE => CursorStep::End,
            _ if is_reference(found, count) => CursorStep::More,
            _ => CursorStep::Stray,
        }
    }

    // What comes next.
    fn after(self, found: u64, count: usize) -> CursorStage
        ensures { result ≡ stage_after count found self }
    {
        match self {
            CursorStage::LoadCursor if is_reference(found, count) => CursorStage::LoadNext {
                at: found,
            },
            CursorStage::LoadNext { .. } if found == QUEUE => CursorStage::LoadCursor,
            CursorStage::LoadNext { at } if is_reference(found, count) => {
                CursorStage::MoveCursor { at, next: found }
            }
            CursorStage::MoveCursor { .. } => CursorStage::LoadCursor,
            strayed => strayed,
        }
    }
}

impl Cursor {
    ghost use Rattle.std.specs.Prelude.{◌≡◌, ℕ, List, ◌≤◌, length};
    ghost use Rattle.segment_image.specs.declared.layout.TheConstants.{HEADER_WORDS};
    ghost use Rattle.list_core.specs.declared.cursor.CursorStage.{CursorStage};
    ghost use Rattle.list_core.specs.Cursor.{found_by, said_of, shared_after, IsStep, IsReach, IsRecordBy, IsEndBy, IsStrayBy, IsShared, CursorStands, MaySay, given_after};

    /// Returns a cursor that has not begun.
    pub fn start() -> Cursor
        ensures { result ≡ CursorStage.LoadCursor }
    {
        Cursor {
            stage: CursorStage::LoadCursor,
        }
    }

    /// Performs the cursor's next event, which changes no word but the shared one [step]. There are at least 16 words,
    /// the same number at each step; the cursor stays within them [reach]. It takes no memory.
    ///
    /// A cursor loads the shared word, then the next of the block there, and exchanges the shared word for that next.
    ///
    /// - `Record`: the exchange succeeded. So the shared word was still what the cursor had loaded; it is this record
    ///   now, and the cursor is at its start [record].
    /// - `More`: the shared word is unchanged [more]. If another cursor was faster, this one starts again.
    /// - `End`: the next of the block that the cursor had loaded is 12, the queue block. The shared word is unchanged,
    ///   and the cursor is at its start [end].
    /// - `Stray`: the shared word or the next is neither 12 nor from 16 to five below the number of words. Nothing
    ///   has changed [stray].
    ///
    /// Now let the words have a list, and the shared word be at the end of what its cursors gave, a front of the chain.
    /// Then `Record` gives the next record of the chain, `End` comes only when all of the chain was given, `Stray`
    /// never comes, and the shared word is at the end of what was given then [given]. Any other cursor of the word
    /// keeps its place [others].
    pub fn step(&mut self, words: &[u64], shared: &mut u64) -> CursorStep
        requires headed { HEADER_WORDS ≤ length words.now }
        requires reach { IsReach (length words.now) self.old }
        ensures step { IsStep self.old words.now shared.old self.new shared.new result }
        ensures reach { IsReach (length words.now) self.new }
        ensures record { (reference : ℕ) → result ≡ CursorStep.Record reference → IsRecordBy self.old shared.old reference × (shared.new ≡ reference) × (self.new ≡ CursorStage.LoadCursor) }
        ensures more { result ≡ CursorStep.More → shared.new ≡ shared.old }
        ensures end { result ≡ CursorStep.End → IsEndBy self.old words.now × (shared.new ≡ shared.old) × (self.new ≡ CursorStage.LoadCursor) }
        ensures stray { result ≡ CursorStep.Stray → IsStrayBy self.old words.now shared.old × (shared.new ≡ shared.old) × (self.new ≡ self.old) }
        ensures given { (chain given : List ℕ) → IsShared words.now chain given shared.old → CursorStands chain given self.old → MaySay chain given result × IsShared words.now chain (given_after given result) shared.new × CursorStands chain (given_after given result) self.new }
        ensures others { (chain given : List ℕ) (other : CursorStage) → CursorStands chain given other → CursorStands chain (given_after given result) other }
    {
        let found = self.act(words, shared);
        let said = self.stage.said(found, words.len());
        self.stage = self.stage.after(found, words.len());
        said
    }

    // The next event: what becomes of the shared word, and the number that was found.
    fn act(&self, words: &[u64], shared: &mut u64) -> u64
        requires headed { HEADER_WORDS ≤ length words.now }
        requires reach { IsReach (length words.now) self.now }
        ensures found { result ≡ found_by words.now shared.old self.now }
        ensures shared { shared.new ≡ shared_after shared.old (said_of (length words.now) result self.now) }
    {
        match self.stage {
            CursorStage::LoadCursor => *shared,
            CursorStage::LoadNext { at } => words[at as usize + BLOCK_NEXT],
            CursorStage::MoveCursor { at, next } => exchange_word(shared, at, next),
        }
    }
}

ghost use Rattle.std.specs.Prelude.{◌≡◌, ◌==◌, if◌then◌else◌};

// Exchanges a word for a new value if it is the old one, and returns what it was.
fn exchange_word(word: &mut u64, old: u64, new: u64) -> u64
    ensures found { result ≡ word.old }
    ensures word { word.new ≡ if word.old == old then new else word.old }
{
    let found = *word;
    if found == old {
        *word = new;
    }
    found
}
