//! What comes before the rows of a histogram: its numbers and its quantiles.

ghost use Rattle.std.specs.Prelude.{◌≡◌, ◌++◌, ◌-◌, ◌-ℤ◌, ◌==◌, not, get_or, OnOk};
ghost use Rattle.std.specs.List.{find, list_any};
ghost use Rattle.image_reader.specs.Views.{histogram_view};
ghost use Rattle.image_reader.specs.Readable.{IsReadable};
ghost use Rattle.reading_texts.specs.Rows.{rows_of as rows_of_histogram};
ghost use Rattle.reading_texts.specs.Text.{kind_word as kind_word_of};
ghost use Rattle.reading_overviews.specs.Numbers.{signed};
ghost use Rattle.reading_shows.specs.Showing.{reaches as reaches_of, quantile as quantile_of, has_units as has_units_of, range_of_found, quantile_line, ends_line, rank_lines, number_line, number_lines, left_of, was_taken as was_taken_of, left_text, left_line, taken_line};

use crate::row_names::{RowNames, is_truth, put_range, row_names_of};
use crate::shares::put_mean;
use crate::since::put_came;
use image_reader::HistReading;
use reading_overviews::{put_difference, put_number, put_signed};
use reading_texts::{HistRow, kind_word, units};
use std::alloc::AllocError;

// Whether the units up to a row are at least `thousandths` thousandths of all units.
fn reaches(total: u64, thousandths: u32, row: &HistRow) -> bool
    ensures { result ≡ reaches_of total thousandths row.now }
{
    let up_to = row.up_to;
    u128::from(thousandths) * u128::from(total) <= 1000 * u128::from(up_to)
}

// The first row up to which there are at least `thousandths` thousandths of all units.
fn first_reaching(total: u64, rows: &[HistRow], thousandths: u32) -> Option<HistRow>
    ensures { result ≡ find (reaches_of total thousandths) rows.now }
{
    for row in rows {
        if reaches(total, thousandths, row) {
            return Some(*row);
        }
    }
    None
}

// The row that holds a quantile; none if there are no units.
pub(crate) fn quantile(total: u64, rows: &[HistRow], thousandths: u32) -> Option<HistRow>
    ensures { result ≡ quantile_of total rows.now thousandths }
{
    if total == 0 {
        return None;
    }
    first_reaching(total, rows, thousandths)
}

// Whether a row has units.
fn has_units(row: &HistRow) -> bool
    ensures { result ≡ has_units_of row.now }
{
    row.units != 0
}

// The first row that has units.
fn least(rows: &[HistRow]) -> Option<HistRow>
    ensures { result ≡ find has_units_of rows.now }
{
    for row in rows {
        if has_units(row) {
            return Some(*row);
        }
    }
    None
}

// Puts the values of a row, or the word none.
pub(crate) fn put_found(
    text: &mut Vec<u8>,
    row_names: RowNames,
    found: Option<HistRow>,
) -> Result<(), AllocError>
    ensures { OnOk result (text.new.items ≡ text.old.items ++ range_of_found row_names found) }
{
    match found {
        Some(row) => put_range(text, row_names, &row),
        None => text.extend_from_slice(b"none"),
    }
}

// Puts the line of the quantiles.
fn put_quantiles(
    text: &mut Vec<u8>,
    row_names: RowNames,
    total: u64,
    rows: &[HistRow],
) -> Result<(), AllocError>
    ensures { OnOk result (text.new.items ≡ text.old.items ++ quantile_line row_names total rows.now) }
{
    text.extend_from_slice(b"  50%: ")?;
    put_found(text, row_names, quantile(total, rows, 500))?;
    text.extend_from_slice(b", 90%: ")?;
    put_found(text, row_names, quantile(total, rows, 900))?;
    text.extend_from_slice(b", 99%: ")?;
    put_found(text, row_names, quantile(total, rows, 990))?;
    text.extend_from_slice(b", 99.9%: ")?;
    put_found(text, row_names, quantile(total, rows, 999))?;
    text.extend_from_slice(b"\n")?;
    Ok(())
}

// Puts the line of the first row that has units, and of the last.
fn put_ends(
    text: &mut Vec<u8>,
    row_names: RowNames,
    total: u64,
    rows: &[HistRow],
) -> Result<(), AllocError>
    ensures { OnOk result (text.new.items ≡ text.old.items ++ ends_line row_names total rows.now) }
{
    text.extend_from_slice(b"  least: ")?;
    put_found(text, row_names, least(rows))?;
    text.extend_from_slice(b", greatest: ")?;
    put_found(text, row_names, quantile(total, rows, 1000))?;
    text.extend_from_slice(b"\n")?;
    Ok(())
}

// Puts both lines, unless the histogram is boolean.
fn put_ranks(
    text: &mut Vec<u8>,
    row_names: RowNames,
    total: u64,
    rows: &[HistRow],
) -> Result<(), AllocError>
    ensures { OnOk result (text.new.items ≡ text.old.items ++ rank_lines row_names total rows.now) }
{
    if is_truth(row_names) {
        return Ok(());
    }
    put_quantiles(text, row_names, total, rows)?;
    put_ends(text, row_names, total, rows)
}

// Puts the line of the kind, the units and what came to them, the sum and the mean.
fn put_number_line(
    text: &mut Vec<u8>,
    is_human: bool,
    kind: &[u8],
    sum: i128,
    units: u64,
    came: u64,
) -> Result<(), AllocError>
    ensures { OnOk result (text.new.items ≡ text.old.items ++ number_line is_human kind.now sum units came) }
{
    text.extend_from_slice(b"  ")?;
    text.extend_from_slice(kind)?;
    text.extend_from_slice(b", units ")?;
    put_number(text, is_human, units)?;
    put_came(text, is_human, came)?;
    text.extend_from_slice(b", sum ")?;
    put_signed(text, is_human, sum)?;
    text.extend_from_slice(b", mean ")?;
    put_mean(text, is_human, sum, units)?;
    text.extend_from_slice(b"\n")?;
    Ok(())
}

// The units of a bucket that no delta has taken: those above its mark, if it has one.
fn left_at(count: u64, marks: &[u64], i: usize) -> u64
    ensures { result ≡ count - get_or marks.now i 0 }
{
    match marks.get(i) {
        Some(mark) => count.saturating_sub(*mark),
        None => count,
    }
}

// The units of a histogram that no delta has taken.
fn left(hist: &HistReading) -> u64
    requires { IsReadable (histogram_view hist.now) }
    ensures { result ≡ left_of (histogram_view hist.now) }
{
    let mut left = 0;
    for (i, bucket) in hist.counts.iter().enumerate() {
        left += left_at(bucket.1, hist.marks.as_slice(), i);
    }
    left
}

// Puts the line of what no delta has taken: these units, and a sum less its mark.
fn put_left_text(
    text: &mut Vec<u8>,
    is_human: bool,
    units: u64,
    sum: i128,
    mark: i128,
) -> Result<(), AllocError>
    ensures { OnOk result (text.new.items ≡ text.old.items ++ left_text is_human units (sum -ℤ mark)) }
{
    text.extend_from_slice(b"  not yet taken by deltas: units ")?;
    put_number(text, is_human, units)?;
    text.extend_from_slice(b", sum ")?;
    put_difference(text, is_human, sum, mark)?;
    text.extend_from_slice(b"\n")?;
    Ok(())
}

// Whether a mark is not 0.
fn has_mark(marks: &[u64]) -> bool
    ensures { result ≡ list_any (λ mark. not (mark == 0)) marks.now }
{
    for mark in marks {
        if *mark != 0 {
            return true;
        }
    }
    false
}

// Whether a delta has taken something of a histogram.
fn was_taken(hist: &HistReading) -> bool
    ensures { result ≡ was_taken_of (histogram_view hist.now) }
{
    has_mark(hist.marks.as_slice()) || hist.sum_mark != 0
}

// Puts the line of what no delta has taken.
fn put_left(text: &mut Vec<u8>, is_human: bool, hist: &HistReading) -> Result<(), AllocError>
    requires { IsReadable (histogram_view hist.now) }
    ensures { OnOk result (text.new.items ≡ text.old.items ++ left_line is_human (histogram_view hist.now)) }
{
    put_left_text(text, is_human, left(hist), hist.sum, hist.sum_mark)
}

// Puts the same line, if a delta has taken something.
fn put_taken(text: &mut Vec<u8>, is_human: bool, hist: &HistReading) -> Result<(), AllocError>
    requires { IsReadable (histogram_view hist.now) }
    ensures { OnOk result (text.new.items ≡ text.old.items ++ taken_line is_human (histogram_view hist.now)) }
{
    if was_taken(hist) {
        put_left(text, is_human, hist)?;
    }
    Ok(())
}

// Puts the line of the kind, the units, the sum and the mean of a histogram that has `total` units, of which `came`
// came.
fn put_summary(
    text: &mut Vec<u8>,
    is_human: bool,
    hist: &HistReading,
    total: u64,
    came: u64,
) -> Result<(), AllocError>
    ensures { OnOk result (text.new.items ≡ text.old.items ++ number_line is_human (kind_word_of (histogram_view hist.now).spec) (histogram_view hist.now).sum total came) }
{
    put_number_line(text, is_human, kind_word(&hist.spec), hist.sum, total, came)
}

// Puts the lines of all numbers of a histogram that has these rows, and to which `came` units came.
pub(crate) fn put_numbers(
    text: &mut Vec<u8>,
    is_human: bool,
    came: u64,
    hist: &HistReading,
    rows: &[HistRow],
) -> Result<(), AllocError>
    requires readable { IsReadable (histogram_view hist.now) }
    requires rows { rows.now ≡ rows_of_histogram (histogram_view hist.now) }
    ensures { OnOk result (text.new.items ≡ text.old.items ++ number_lines is_human came (histogram_view hist.now)) }
{
    let total = units(hist);
    put_summary(text, is_human, hist, total, came)?;
    put_ranks(text, row_names_of(&hist.spec), total, rows)?;
    put_taken(text, is_human, hist)?;
    Ok(())
}
