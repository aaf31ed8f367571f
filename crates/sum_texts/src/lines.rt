//! What a line says.

ghost use Rattle.std.specs.Prelude.{◌≡◌, true, ◌==◌, ◌<◌, ◌^◌, ℕ, Some, IfOk, IfSome, option_map, [], map};
ghost use Rattle.std.specs.List.{slice_split};
ghost use Rattle.bucket_ranges.specs.Reading.{is_name};
ghost use Rattle.reading_sums.specs.declared.key.KeySum as key_type;
ghost use Rattle.reading_sums.specs.declared.notes.Notes as notes_type;
ghost use Rattle.reading_sums.specs.Totals.{Part};
ghost use Rattle.reading_sums.specs.Views.{part_of};
ghost use Rattle.sum_texts.specs.Lines.{line_bytes, key_fields, hist_fields, notes_fields, segment_fields, fold_fields, end_fields, FitsKey, FitNotes, FitsPart, FitsSegment};
ghost use Rattle.sum_texts.specs.Runs.{bytes_of, without_keys};

use crate::fields::{end_in, fold_in, hist_in, key_in, notes_in, segment_in};
use reading_sums::{HistSum, KeySum, Notes};
use std::alloc::{AllocError, Global};

// The fields of a line, between its commas.
fn fields_of(alloc: Global, line: &[u8]) -> Result<Vec<&[u8]>, AllocError>
    ensures { IfOk result (λ fields. bytes_of fields.items ≡ slice_split (λ byte. byte == 44) line.now) }
{
    line.split(|byte| *byte == b',').collect(alloc)
}

/// Returns the notes on a line, if it is one of notes.
pub(crate) fn notes_at(alloc: Global, line: &[u8]) -> Result<Option<Notes>, AllocError>
    ensures found { IfOk result (λ notes. IfSome notes (λ notes. line.now ≡ line_bytes (notes_fields notes))) }
    ensures only { (notes : notes_type.Notes) → FitNotes notes → line.now ≡ line_bytes (notes_fields notes) → IfOk result (λ read. read ≡ Some notes) }
{
    let fields = fields_of(alloc, line)?;
    Ok(notes_in(&fields))
}

/// Returns the name with its spec on a line, if it is one of these, and a histogram can have the name. It has no keys
/// yet.
pub(crate) fn hist_at(alloc: Global, line: &[u8]) -> Result<Option<HistSum>, AllocError>
    ensures found { IfOk result (λ hist. IfSome hist (λ hist. line.now ≡ line_bytes (hist_fields (part_of hist)))) }
    ensures lawful { IfOk result (λ hist. IfSome hist (λ hist. is_name hist.name.items ≡ true)) }
    ensures keys { IfOk result (λ hist. IfSome hist (λ hist. hist.keys.items ≡ [])) }
    ensures only { (part : Part) → FitsPart part → line.now ≡ line_bytes (hist_fields part) → IfOk result (λ hist. option_map part_of hist ≡ Some (without_keys part)) }
{
    let fields = fields_of(alloc, line)?;
    let hist = hist_in(alloc, &fields)?;
    Ok(hist)
}

/// Returns the key on a line, if it is one of a key.
pub(crate) fn key_at(alloc: Global, line: &[u8]) -> Result<Option<KeySum>, AllocError>
    ensures found { IfOk result (λ key. IfSome key (λ key. line.now ≡ line_bytes (key_fields key))) }
    ensures only { (key : key_type.KeySum) → FitsKey key → line.now ≡ line_bytes (key_fields key) → IfOk result (λ read. read ≡ Some key) }
{
    let fields = fields_of(alloc, line)?;
    Ok(key_in(&fields))
}

/// Returns the segment on a line, if it is one of a segment.
pub(crate) fn segment_at(alloc: Global, line: &[u8]) -> Result<Option<(u64, u64)>, AllocError>
    ensures found { IfOk result (λ segment. IfSome segment (λ segment. line.now ≡ line_bytes (segment_fields segment))) }
    ensures only { (segment : ℕ × ℕ) → FitsSegment segment → line.now ≡ line_bytes (segment_fields segment) → IfOk result (λ read. read ≡ Some segment) }
{
    let fields = fields_of(alloc, line)?;
    Ok(segment_in(&fields))
}

/// Returns the serial of the fold on a line, if it is one of a fold.
pub(crate) fn fold_at(alloc: Global, line: &[u8]) -> Result<Option<u64>, AllocError>
    ensures found { IfOk result (λ serial. IfSome serial (λ serial. line.now ≡ line_bytes (fold_fields serial))) }
    ensures only { (serial : ℕ) → serial < 2 ^ 64 → line.now ≡ line_bytes (fold_fields serial) → IfOk result (λ read. read ≡ Some serial) }
{
    let fields = fields_of(alloc, line)?;
    Ok(fold_in(&fields))
}

/// Returns the number of names and specs on a last line, if it is one.
pub(crate) fn end_at(alloc: Global, line: &[u8]) -> Result<Option<u64>, AllocError>
    ensures found { IfOk result (λ parts. IfSome parts (λ parts. line.now ≡ line_bytes (end_fields parts))) }
    ensures only { (parts : ℕ) → parts < 2 ^ 64 → line.now ≡ line_bytes (end_fields parts) → IfOk result (λ read. read ≡ Some parts) }
{
    let fields = fields_of(alloc, line)?;
    Ok(end_in(&fields))
}
