//! A totals from its lines.

ghost use Rattle.std.specs.Prelude.{◌≡◌, ◌∷◌, ◌++◌, ◌<◌, ◌≤◌, ◌^◌, ℕ, List, [], Option, IfOk, OnOk, IfSome, length, map, drop, false, ⊤, ◌==◌};
ghost use Rattle.std.specs.List.{slice_split, AllByRecursion};
ghost use Rattle.reading_sums.specs.declared.notes.Notes as notes_type;
ghost use Rattle.sum_texts.specs.Read.{read_view};
ghost use Rattle.sum_texts.specs.Lines.{Whole, FitsWhole, IsNamed, lines_of, totals_text, line_bytes, head_fields, notes_fields, fold_lines, end_fields, FitNotes};
ghost use Rattle.sum_texts.specs.Runs.{bytes_of, begins as begins_with, Gives};

use crate::lines::{end_at, fold_at, notes_at};
use crate::runs::{begins, hists_in, segments_in};
use crate::wrong::Wrong;
use reading_sums::{HistSum, Notes};
use std::alloc::{AllocError, Global};

/// What the lines of a totals say.
#[derive(Drop)]
pub(crate) struct TotalsRead {
    pub(crate) notes: Notes,
    pub(crate) hists: Vec<HistSum>,
    pub(crate) of: Vec<(u64, u64)>,
    pub(crate) fold: Option<u64>,
}

/// Returns the notes on the second line, after the first line of a totals.
pub(crate) fn notes_in(alloc: Global, lines: &[&[u8]]) -> Result<Notes, Wrong>
    ensures found { IfOk result (λ notes. bytes_of lines.now ≡ line_bytes head_fields ∷ line_bytes (notes_fields notes) ∷ bytes_of (drop 2 lines.now)) }
    ensures within { IfOk result (λ _. 2 ≤ length lines.now) }
    ensures only { (notes : notes_type.Notes) (behind : List (List ℕ)) → FitNotes notes → bytes_of lines.now ≡ line_bytes head_fields ∷ line_bytes (notes_fields notes) ∷ behind → Gives result (λ read. (read ≡ notes) × (bytes_of (drop 2 lines.now) ≡ behind)) }
{
    if lines.is_empty() || lines[0] != b"totals,1".as_slice() {
        return Err(Wrong::Line(0));
    }
    if lines.len() == 1 {
        return Err(Wrong::Line(1));
    }
    match notes_at(alloc, lines[1])? {
        Some(notes) => Ok(notes),
        None => Err(Wrong::Line(1)),
    }
}

/// Returns the fold on the line at `at`, if that is the line of one, and the index of the line after it.
pub(crate) fn fold_in(
    alloc: Global,
    lines: &[&[u8]],
    at: usize,
) -> Result<(Option<u64>, usize), Wrong>
    requires { at ≤ length lines.now }
    ensures found { IfOk result (λ read. bytes_of (drop at lines.now) ≡ map line_bytes (fold_lines read.0) ++ bytes_of (drop read.1 lines.now)) }
    ensures within { IfOk result (λ read. read.1 ≤ length lines.now) }
    ensures only { (fold : Option ℕ) (behind : List (List ℕ)) → IfSome fold (λ serial. serial < 2 ^ 64) → begins_with 102 behind ≡ false → bytes_of (drop at lines.now) ≡ map line_bytes (fold_lines fold) ++ behind → Gives result (λ read. (read.0 ≡ fold) × (bytes_of (drop read.1 lines.now) ≡ behind)) }
{
    if !begins(b'f', lines, at) {
        return Ok((None, at));
    }
    match fold_at(alloc, lines[at])? {
        Some(serial) => Ok((Some(serial), at + 1)),
        None => Err(Wrong::Line(at)),
    }
}

/// Returns `Ok` if the line at `at` is the last of a totals of `parts` names, and the text ends after it.
pub(crate) fn check_end(alloc: Global, lines: &[&[u8]], at: usize, parts: u64) -> Result<(), Wrong>
    requires { at ≤ length lines.now }
    ensures found { OnOk result (bytes_of (drop at lines.now) ≡ line_bytes (end_fields parts) ∷ [] ∷ []) }
    ensures only { bytes_of (drop at lines.now) ≡ line_bytes (end_fields parts) ∷ [] ∷ [] → Gives result (λ _. ⊤) }
{
    if at == lines.len() || end_at(alloc, lines[at])? != Some(parts) {
        return Err(Wrong::Line(at));
    }
    if lines.len() - at == 2 && lines[at + 1].is_empty() {
        Ok(())
    } else {
        Err(Wrong::Line(at + 1))
    }
}

/// Returns what the lines of a totals say, if an empty one comes after the last line feed.
pub(crate) fn whole_in(alloc: Global, lines: &[&[u8]]) -> Result<TotalsRead, Wrong>
    ensures lawful { IfOk result (λ read. AllByRecursion IsNamed (read_view read).parts) }
    ensures found { IfOk result (λ read. bytes_of lines.now ≡ map line_bytes (lines_of (read_view read)) ++ [] ∷ []) }
    ensures only { (whole : Whole) → FitsWhole whole → bytes_of lines.now ≡ map line_bytes (lines_of whole) ++ [] ∷ [] → Gives result (λ read. read_view read ≡ whole) }
{
    let notes = notes_in(alloc, lines)?;
    let (hists, behind_hists) = hists_in(alloc, lines, 2)?;
    let (of, behind_of) = segments_in(alloc, lines, behind_hists)?;
    let (fold, behind_fold) = fold_in(alloc, lines, behind_of)?;
    check_end(alloc, lines, behind_fold, hists.len() as u64)?;
    Ok(TotalsRead {
        notes,
        hists,
        of,
        fold,
    })
}

// The lines of a text, between its line feeds.
fn lines_in(alloc: Global, text: &[u8]) -> Result<Vec<&[u8]>, AllocError>
    ensures { IfOk result (λ lines. bytes_of lines.items ≡ slice_split (λ byte. byte == 10) text.now) }
{
    text.split(|byte| *byte == b'\n').collect(alloc)
}

/// Returns what the text of a totals says. A text says at most one thing, and whatever fits into lines is read back
/// from its text.
pub(crate) fn text_in(alloc: Global, text: &[u8]) -> Result<TotalsRead, Wrong>
    ensures lawful { IfOk result (λ read. AllByRecursion IsNamed (read_view read).parts) }
    ensures found { IfOk result (λ read. text.now ≡ totals_text (read_view read)) }
    ensures only { (whole : Whole) → FitsWhole whole → text.now ≡ totals_text whole → Gives result (λ read. read_view read ≡ whole) }
{
    let lines = lines_in(alloc, text)?;
    let read = whole_in(alloc, &lines)?;
    Ok(read)
}
