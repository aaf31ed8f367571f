//! A totals as a text.

ghost use Rattle.std.specs.Prelude.{◌≡◌, ◌∷◌, ◌++◌, [], IfOk, OnOk, map, length, codes};
ghost use Rattle.std.specs.Fmt.{decimal};
ghost use Rattle.std.specs.List.{flat_map};
ghost use Rattle.reading_sums.specs.Views.{part_of};
ghost use Rattle.sum_texts.specs.Lines as lines;
ghost use Rattle.sum_texts.specs.Lines.{line_text, spec_numbers};
ghost use Rattle.sum_texts.specs.Views.{whole_of};

use crate::totals::Totals;
use bucket_ranges::Spec;
use itoa::Buffer;
use reading_sums::{HistSum, KeySum, Notes};
use reading_texts::kind_word;
use std::alloc::{AllocError, Global};

// Puts fields, with a comma before each.
fn put_fields(text: &mut Vec<u8>, fields: &[&[u8]]) -> Result<(), AllocError>
    ensures { OnOk result (text.new.items ≡ text.old.items ++ flat_map (λ field. 44 ∷ field) (map (λ field. field.now) fields.now)) }
{
    for field in fields {
        text.push(b',')?;
        text.extend_from_slice(field)?;
    }
    Ok(())
}

/// Puts the line of a word and other fields.
pub(crate) fn put_line(text: &mut Vec<u8>, word: &[u8], others: &[&[u8]]) -> Result<(), AllocError>
    ensures { OnOk result (text.new.items ≡ text.old.items ++ line_text (word.now ∷ map (λ field. field.now) others.now)) }
{
    text.extend_from_slice(word)?;
    put_fields(text, others)?;
    text.push(b'\n')?;
    Ok(())
}

// Puts numbers, with a comma before each.
fn put_numbers(text: &mut Vec<u8>, numbers: &[u32]) -> Result<(), AllocError>
    ensures { OnOk result (text.new.items ≡ text.old.items ++ flat_map (λ number. 44 ∷ decimal number) numbers.now) }
{
    for number in numbers {
        let mut digits = Buffer::new();
        text.push(b',')?;
        text.extend_from_slice(digits.format(*number).as_bytes())?;
    }
    Ok(())
}

// Puts the numbers of a spec, with a comma before each.
fn put_spec_numbers(text: &mut Vec<u8>, spec: &Spec) -> Result<(), AllocError>
    ensures { OnOk result (text.new.items ≡ text.old.items ++ flat_map (λ number. 44 ∷ decimal number) (spec_numbers spec.now)) }
{
    match spec {
        Spec::Linear { min, max, n } => put_numbers(text, &[*min, *max, *n]),
        Spec::Custom(values) => put_numbers(text, values.as_slice()),
        Spec::Boolean | Spec::Sparse => Ok(()),
    }
}

// Puts the line of the notes.
fn put_notes(text: &mut Vec<u8>, notes: &Notes) -> Result<(), AllocError>
    ensures { OnOk result (text.new.items ≡ text.old.items ++ line_text (lines.notes_fields notes.now)) }
{
    let mut images = Buffer::new();
    let mut full = Buffer::new();
    let mut corrupt = Buffer::new();
    let mut stopped = Buffer::new();
    let mut bad = Buffer::new();
    put_line(
        text,
        b"images",
        &[
            images.format(notes.images).as_bytes(),
            full.format(notes.full).as_bytes(),
            corrupt.format(notes.corrupt).as_bytes(),
            stopped.format(notes.stopped).as_bytes(),
            bad.format(notes.bad).as_bytes(),
        ],
    )
}

// Puts the fields of a name with its spec up to the kind, with a comma before each.
fn put_hist_front(text: &mut Vec<u8>, hist: &HistSum) -> Result<(), AllocError>
    ensures { OnOk result (text.new.items ≡ text.old.items ++ flat_map (λ field. 44 ∷ field) (lines.hist_front (part_of hist.now))) }
{
    let mut images = Buffer::new();
    let mut least = Buffer::new();
    let mut sum = Buffer::new();
    let mut sum_mark = Buffer::new();
    let mut redundant = Buffer::new();
    put_fields(
        text,
        &[
            hist.name.as_slice(),
            images.format(hist.images).as_bytes(),
            least.format(hist.least).as_bytes(),
            sum.format(hist.sum).as_bytes(),
            sum_mark.format(hist.sum_mark).as_bytes(),
            redundant.format(hist.redundant).as_bytes(),
            kind_word(&hist.spec),
        ],
    )
}

// Puts the line of a name with its spec.
fn put_hist(text: &mut Vec<u8>, hist: &HistSum) -> Result<(), AllocError>
    ensures { OnOk result (text.new.items ≡ text.old.items ++ line_text (lines.hist_fields (part_of hist.now))) }
{
    text.extend_from_slice(b"hist")?;
    put_hist_front(text, hist)?;
    put_spec_numbers(text, &hist.spec)?;
    text.push(b'\n')?;
    Ok(())
}

// Puts the line of a key.
fn put_key(text: &mut Vec<u8>, key: &KeySum) -> Result<(), AllocError>
    ensures { OnOk result (text.new.items ≡ text.old.items ++ line_text (lines.key_fields key.now)) }
{
    let mut value = Buffer::new();
    let mut units = Buffer::new();
    let mut marks = Buffer::new();
    put_line(
        text,
        b"key",
        &[
            value.format(key.value).as_bytes(),
            units.format(key.units).as_bytes(),
            marks.format(key.marks).as_bytes(),
        ],
    )
}

// Puts the lines of keys.
fn put_keys(text: &mut Vec<u8>, keys: &[KeySum]) -> Result<(), AllocError>
    ensures { OnOk result (text.new.items ≡ text.old.items ++ flat_map (λ key. line_text (lines.key_fields key)) keys.now) }
{
    for key in keys {
        put_key(text, key)?;
    }
    Ok(())
}

// Puts the lines of a name with its spec and its keys.
fn put_part(text: &mut Vec<u8>, hist: &HistSum) -> Result<(), AllocError>
    ensures { OnOk result (text.new.items ≡ text.old.items ++ flat_map line_text (lines.part_lines (part_of hist.now))) }
{
    put_hist(text, hist)?;
    put_keys(text, &hist.keys)?;
    Ok(())
}

// Puts the lines of all names.
fn put_parts(text: &mut Vec<u8>, hists: &[HistSum]) -> Result<(), AllocError>
    ensures { OnOk result (text.new.items ≡ text.old.items ++ flat_map (λ part. flat_map line_text (lines.part_lines part)) (map part_of hists.now)) }
{
    for hist in hists {
        put_part(text, hist)?;
    }
    Ok(())
}

// Puts the lines of the segments.
fn put_segments(text: &mut Vec<u8>, segments: &[(u64, u64)]) -> Result<(), AllocError>
    ensures { OnOk result (text.new.items ≡ text.old.items ++ flat_map (λ segment. line_text (lines.segment_fields segment)) segments.now) }
{
    for (number, id) in segments {
        let mut number_digits = Buffer::new();
        let mut id_digits = Buffer::new();
        put_line(
            text,
            b"of",
            &[
                number_digits.format(*number).as_bytes(),
                id_digits.format(*id).as_bytes(),
            ],
        )?;
    }
    Ok(())
}

/// Puts the line of a word and a number.
pub(crate) fn put_number_line(
    text: &mut Vec<u8>,
    word: &[u8],
    number: u64,
) -> Result<(), AllocError>
    ensures { OnOk result (text.new.items ≡ text.old.items ++ line_text (word.now ∷ decimal number ∷ [])) }
{
    let mut digits = Buffer::new();
    put_line(text, word, &[digits.format(number).as_bytes()])
}

// Puts the line of the fold, if there is one.
fn put_fold(text: &mut Vec<u8>, fold: Option<u64>) -> Result<(), AllocError>
    ensures { OnOk result (text.new.items ≡ text.old.items ++ flat_map line_text (lines.fold_lines fold)) }
{
    match fold {
        Some(serial) => put_number_line(text, b"fold", serial),
        None => Ok(()),
    }
}

/// Returns the text of a totals. The only error is that memory runs out.
pub fn totals_text(alloc: Global, totals: &Totals) -> Result<Vec<u8>, AllocError>
    ensures { IfOk result (λ text. text.items ≡ lines.totals_text (whole_of totals.now)) }
{
    let hists = totals.sums.hists();
    let mut text = Vec::new(alloc);
    put_line(&mut text, b"totals", &[b"1"])?;
    put_notes(&mut text, &totals.sums.notes())?;
    put_parts(&mut text, hists)?;
    put_segments(&mut text, &totals.of)?;
    put_fold(&mut text, totals.fold)?;
    put_number_line(&mut text, b"end", hists.len() as u64)?;
    Ok(text)
}
