//! What the fields of a line say.

ghost use Rattle.std.specs.Prelude.{◌≡◌, true, ◌<◌, ◌≤◌, ◌^◌, ◌∷◌, ℕ, List, [], Some, IfOk, IfSome, IsSomeAnd, map, option_map, length, drop, codes};
ghost use Rattle.std.specs.Fmt.{decimal, signed_decimal};
ghost use Rattle.std.specs.List.{AllByRecursion};
ghost use Rattle.bucket_ranges.specs.Reading.{is_name};
ghost use Rattle.bucket_ranges.specs.declared.spec.Spec as spec_type;
ghost use Rattle.reading_sums.specs.declared.key.KeySum as key_type;
ghost use Rattle.reading_sums.specs.declared.notes.Notes as notes_type;
ghost use Rattle.reading_sums.specs.Totals.{Part};
ghost use Rattle.reading_sums.specs.Views.{part_of};
ghost use Rattle.reading_texts.specs.Text.{kind_word};
ghost use Rattle.sum_texts.specs.Lines.{spec_numbers, key_fields, hist_fields, notes_fields, segment_fields, fold_fields, end_fields, FitsKey, FitNotes, FitsPart, FitsSegment};
ghost use Rattle.sum_texts.specs.Runs.{bytes_of, without_keys};

use crate::name::is_lawful_name;
use crate::number::{amount_in, number_in, small_number_in, value_in};
use bucket_ranges::{CustomValues, Spec};
use reading_sums::{HistSum, KeySum, Notes};
use std::alloc::{AllocError, Global};

/// Returns the key in the fields of a line, if they are those of a key.
pub(crate) fn key_in(fields: &[&[u8]]) -> Option<KeySum>
    ensures found { IfSome result (λ key. map (λ field. field.now) fields.now ≡ key_fields key) }
    ensures only { (key : key_type.KeySum) → FitsKey key → map (λ field. field.now) fields.now ≡ key_fields key → result ≡ Some key }
{
    if fields.len() != 4 || fields[0] != b"key".as_slice() {
        return None;
    }
    let value = value_in(fields[1])?;
    let units = number_in(fields[2])?;
    let marks = number_in(fields[3])?;
    Some(KeySum {
        value,
        units,
        marks,
    })
}

/// Returns the notes in the fields of a line, if they are those of notes.
pub(crate) fn notes_in(fields: &[&[u8]]) -> Option<Notes>
    ensures found { IfSome result (λ notes. map (λ field. field.now) fields.now ≡ notes_fields notes) }
    ensures only { (notes : notes_type.Notes) → FitNotes notes → map (λ field. field.now) fields.now ≡ notes_fields notes → result ≡ Some notes }
{
    if fields.len() != 6 || fields[0] != b"images".as_slice() {
        return None;
    }
    let images = number_in(fields[1])?;
    let full = number_in(fields[2])?;
    let corrupt = number_in(fields[3])?;
    let stopped = number_in(fields[4])?;
    let bad = number_in(fields[5])?;
    Some(Notes {
        images,
        full,
        corrupt,
        stopped,
        bad,
    })
}

/// Returns the segment in the fields of a line, if they are those of a segment.
pub(crate) fn segment_in(fields: &[&[u8]]) -> Option<(u64, u64)>
    ensures found { IfSome result (λ segment. map (λ field. field.now) fields.now ≡ segment_fields segment) }
    ensures only { (segment : ℕ × ℕ) → FitsSegment segment → map (λ field. field.now) fields.now ≡ segment_fields segment → result ≡ Some segment }
{
    if fields.len() != 3 || fields[0] != b"of".as_slice() {
        return None;
    }
    let number = number_in(fields[1])?;
    let id = number_in(fields[2])?;
    Some((number, id))
}

/// Returns the serial in the fields of a line, if they are those of a fold.
pub(crate) fn fold_in(fields: &[&[u8]]) -> Option<u64>
    ensures found { IfSome result (λ serial. map (λ field. field.now) fields.now ≡ fold_fields serial) }
    ensures only { (serial : ℕ) → serial < 2 ^ 64 → map (λ field. field.now) fields.now ≡ fold_fields serial → result ≡ Some serial }
{
    if fields.len() != 2 || fields[0] != b"fold".as_slice() {
        return None;
    }
    number_in(fields[1])
}

// The numbers in fields, if each is one.
fn numbers_in(alloc: Global, fields: &[&[u8]]) -> Result<Option<Vec<u32>>, AllocError>
    ensures found { IfOk result (λ numbers. IfSome numbers (λ numbers. map (λ field. field.now) fields.now ≡ map decimal numbers.items)) }
    ensures only { (numbers : List ℕ) → AllByRecursion (λ number. number < 2 ^ 32) numbers → map (λ field. field.now) fields.now ≡ map decimal numbers → IfOk result (λ read. option_map (λ numbers. numbers.items) read ≡ Some numbers) }
{
    let mut numbers = Vec::with_capacity(alloc, fields.len())?;
    for field in fields {
        let Some(number) = small_number_in(field) else {
            return Ok(None);
        };
        numbers.push(number)?;
    }
    Ok(Some(numbers))
}

// The spec of a kind with these numbers, if there is one.
fn spec_of(kind: &[u8], numbers: Vec<u32>) -> Option<Spec>
    ensures kind { IfSome result (λ spec. kind.now ≡ kind_word spec) }
    ensures numbers { IfSome result (λ spec. numbers.items ≡ spec_numbers spec) }
    ensures only { (spec : spec_type.Spec) → kind.now ≡ kind_word spec → numbers.items ≡ spec_numbers spec → result ≡ Some spec }
{
    if kind == b"custom".as_slice() {
        return Some(Spec::Custom(CustomValues::from(numbers)));
    }
    if kind == b"linear".as_slice() && numbers.len() == 3 {
        return Some(Spec::Linear {
            min: numbers[0],
            max: numbers[1],
            n: numbers[2],
        });
    }
    if kind == b"boolean".as_slice() && numbers.is_empty() {
        return Some(Spec::Boolean);
    }
    if kind == b"sparse".as_slice() && numbers.is_empty() {
        return Some(Spec::Sparse);
    }
    None
}

// The spec in the fields of its kind and its numbers, if they are those of a spec.
fn spec_in(alloc: Global, kind: &[u8], numbers: &[&[u8]]) -> Result<Option<Spec>, AllocError>
    ensures kind { IfOk result (λ spec. IfSome spec (λ spec. kind.now ≡ kind_word spec)) }
    ensures numbers { IfOk result (λ spec. IfSome spec (λ spec. map (λ field. field.now) numbers.now ≡ map decimal (spec_numbers spec))) }
    ensures only { (spec : spec_type.Spec) → AllByRecursion (λ number. number < 2 ^ 32) (spec_numbers spec) → kind.now ≡ kind_word spec → map (λ field. field.now) numbers.now ≡ map decimal (spec_numbers spec) → IfOk result (λ read. read ≡ Some spec) }
{
    match numbers_in(alloc, numbers)? {
        Some(numbers) => Ok(spec_of(kind, numbers)),
        None => Ok(None),
    }
}

/// Returns the number of names and specs in the fields of a last line, if they are those of one.
pub(crate) fn end_in(fields: &[&[u8]]) -> Option<u64>
    ensures found { IfSome result (λ parts. map (λ field. field.now) fields.now ≡ end_fields parts) }
    ensures only { (parts : ℕ) → parts < 2 ^ 64 → map (λ field. field.now) fields.now ≡ end_fields parts → result ≡ Some parts }
{
    if fields.len() != 2 || fields[0] != b"end".as_slice() {
        return None;
    }
    number_in(fields[1])
}

// The fields of a name with its spec that come before the kind.
#[derive(Clone, Copy)]
struct Front<'a> {
    name: &'a [u8],
    images: u64,
    least: u64,
    sum: i128,
    sum_mark: i128,
    redundant: u64,
}

// The fields of a name with its spec that come before the kind, in at least eight fields.
fn front_in<'a>(fields: &[&'a [u8]]) -> Option<Front<'a>>
    requires { 8 ≤ length fields.now }
    ensures found { IfSome result (λ front. bytes_of fields.now ≡ codes "hist" ∷ front.name.now ∷ decimal front.images ∷ decimal front.least ∷ signed_decimal front.sum ∷ signed_decimal front.sum_mark ∷ decimal front.redundant ∷ bytes_of (drop 7 fields.now)) }
    ensures only { (part : Part) → FitsPart part → bytes_of fields.now ≡ hist_fields part → IsSomeAnd result (λ front. (front.name.now ≡ part.name) × (front.images ≡ part.images) × (front.least ≡ part.least) × (front.sum ≡ part.sum) × (front.sum_mark ≡ part.sum_mark) × (front.redundant ≡ part.redundant)) }
{
    if fields[0] != b"hist".as_slice() {
        return None;
    }
    let images = number_in(fields[2])?;
    let least = number_in(fields[3])?;
    let sum = amount_in(fields[4])?;
    let sum_mark = amount_in(fields[5])?;
    let redundant = number_in(fields[6])?;
    Some(Front {
        name: fields[1],
        images,
        least,
        sum,
        sum_mark,
        redundant,
    })
}

// The same, if a histogram can have the name.
fn named_front_in<'a>(fields: &[&'a [u8]]) -> Option<Front<'a>>
    requires { 8 ≤ length fields.now }
    ensures found { IfSome result (λ front. bytes_of fields.now ≡ codes "hist" ∷ front.name.now ∷ decimal front.images ∷ decimal front.least ∷ signed_decimal front.sum ∷ signed_decimal front.sum_mark ∷ decimal front.redundant ∷ bytes_of (drop 7 fields.now)) }
    ensures lawful { IfSome result (λ front. is_name front.name.now ≡ true) }
    ensures only { (part : Part) → FitsPart part → bytes_of fields.now ≡ hist_fields part → IsSomeAnd result (λ front. (front.name.now ≡ part.name) × (front.images ≡ part.images) × (front.least ≡ part.least) × (front.sum ≡ part.sum) × (front.sum_mark ≡ part.sum_mark) × (front.redundant ≡ part.redundant)) }
{
    let front = front_in(fields)?;
    if !is_lawful_name(front.name) {
        return None;
    }
    Some(front)
}

/// Returns the name with its spec in the fields of a line, if they are those of one, and a histogram can have the name.
/// It has no keys yet.
pub(crate) fn hist_in(alloc: Global, fields: &[&[u8]]) -> Result<Option<HistSum>, AllocError>
    ensures found { IfOk result (λ hist. IfSome hist (λ hist. bytes_of fields.now ≡ hist_fields (part_of hist))) }
    ensures lawful { IfOk result (λ hist. IfSome hist (λ hist. is_name hist.name.items ≡ true)) }
    ensures keys { IfOk result (λ hist. IfSome hist (λ hist. hist.keys.items ≡ [])) }
    ensures only { (part : Part) → FitsPart part → bytes_of fields.now ≡ hist_fields part → IfOk result (λ hist. option_map part_of hist ≡ Some (without_keys part)) }
{
    if fields.len() < 8 {
        return Ok(None);
    }
    let Some(front) = named_front_in(fields) else {
        return Ok(None);
    };
    let Some(spec) = spec_in(alloc, fields[7], &fields[8..])? else {
        return Ok(None);
    };
    Ok(Some(HistSum {
        name: Vec::from_slice(alloc, front.name)?,
        spec,
        keys: Vec::new(alloc),
        sum: front.sum,
        sum_mark: front.sum_mark,
        redundant: front.redundant,
        images: front.images,
        least: front.least,
    }))
}
