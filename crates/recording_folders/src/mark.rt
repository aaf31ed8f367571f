//! The mark of a recording's folder: what the file `recording` says.

ghost use Rattle.std.specs.Prelude.{IfOk};
ghost use Rattle.recording_folders.specs.Mark.{IsMarkIn, IsMarkOf};

use segment_image::push_words;
use std::alloc::{AllocError, Global};

// How many bytes a mark has.
const MARK_BYTES: usize = 4096;

// What the first word of a mark is.
const COOKIE: u64 = 0x6B72614D;

// The one form of marks.
const FORM: u64 = 1;

/// What the bytes of a file `recording` are.
#[derive(Clone, Copy, PartialEq, Eq)]
pub enum Mark {
    /// A mark that has no words yet: no bytes, or 4,096 zeros.
    Empty,
    /// A mark that says which folder it is of, by an id that is not 0.
    Whole { id: u64 },
    /// Something else: the folder is none of a recording's.
    Foreign,
}

// The mark that these words are.
fn mark_in(words: &[u64]) -> Mark
    ensures { IsMarkIn words.now result }
{
    match words {
        [COOKIE, FORM, id, ..] if *id != 0 => Mark::Whole { id: *id },
        _ if words.iter().all(|word| *word == 0) => Mark::Empty,
        _ => Mark::Foreign,
    }
}

/// Returns what the bytes of a file `recording` are [mark]. The only error is that memory runs out.
pub fn mark_of(alloc: Global, bytes: &[u8]) -> Result<Mark, AllocError>
    ensures mark { IfOk result (IsMarkOf bytes.now) }
{
    if bytes.is_empty() {
        return Ok(Mark::Empty);
    }
    if bytes.len() != MARK_BYTES {
        return Ok(Mark::Foreign);
    }
    let mut words = Vec::new(alloc);
    push_words(&mut words, bytes)?;
    Ok(mark_in(&words))
}
