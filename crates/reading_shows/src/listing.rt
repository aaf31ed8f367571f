//! The list of the histograms of a reading.

ghost use Rattle.std.specs.Prelude.{◌≡◌, ◌++◌, ◌∷◌, ◌-◌, All, IfOk, OnOk, map};
ghost use Rattle.std.specs.List.{flat_map, fold};
ghost use Rattle.image_reader.specs.Readable.{IsReadable};
ghost use Rattle.image_reader.specs.Views.{histogram_view, reading_view};
ghost use Rattle.reading_overviews.specs.Numbers.{number};
ghost use Rattle.reading_shows.specs.Listing.{AreOrdered, AreRanked, IsListOf, fitted as fitted_of, heads as heads_of, line_of, list_line, list_lines, list_of_some, name_text, no_columns, room_for_names as room_for_names_of, widened_by as widened_by_of};
ghost use Rattle.reading_shows.specs.ListViews.{entry_view};
ghost use Rattle.reading_shows.specs.Shares.{mean};
ghost use Rattle.reading_shows.specs.Showing.{quantile as quantile_of, range_of_found};

use crate::choice::chosen;
use crate::columns::{put_at_left, put_at_right, put_bytes};
use crate::ending::put_ending;
use crate::heading::{put_found, quantile};
use crate::row_names::{RowNames, row_names_of};
use crate::shares::put_mean;
use image_reader::{HistReading, Reading};
use reading_overviews::put_number;
use reading_texts::{HistRow, kind_word, rows_of, units};
use std::alloc::{AllocError, Global};
use text_styles::Drawn;

// A line of a list, as its separate texts.
#[derive(Drop)]
pub(crate) struct ListEntry {
    pub(crate) name: Vec<u8>,
    pub(crate) kind: Vec<u8>,
    pub(crate) units: Vec<u8>,
    pub(crate) mean: Vec<u8>,
    pub(crate) median: Vec<u8>,
    pub(crate) high: Vec<u8>,
    pub(crate) greatest: Vec<u8>,
    // The key by which lines are sorted by units.
    pub(crate) rank: Vec<u64>,
}

// How wide the columns of a list are.
#[derive(Clone, Copy, PartialEq, Eq)]
pub(crate) struct ListColumns {
    pub(crate) name: usize,
    pub(crate) kind: usize,
    pub(crate) units: usize,
    pub(crate) mean: usize,
    pub(crate) median: usize,
    pub(crate) high: usize,
    pub(crate) greatest: usize,
}

// A number as a text of its own.
fn number_text(alloc: Global, is_human: bool, n: u64) -> Result<Vec<u8>, AllocError>
    ensures { IfOk result (λ text. text.items ≡ number is_human n) }
{
    let mut text = Vec::new(alloc);
    put_number(&mut text, is_human, n)?;
    Ok(text)
}

// The mean of `units` units with a sum, as a text of its own.
fn mean_text(alloc: Global, is_human: bool, sum: i128, units: u64) -> Result<Vec<u8>, AllocError>
    ensures { IfOk result (λ text. text.items ≡ mean is_human sum units) }
{
    let mut text = Vec::new(alloc);
    put_mean(&mut text, is_human, sum, units)?;
    Ok(text)
}

// The values of the row that holds a quantile, as a text of its own.
fn quantile_text(
    alloc: Global,
    row_names: RowNames,
    total: u64,
    rows: &[HistRow],
    thousandths: u32,
) -> Result<Vec<u8>, AllocError>
    ensures { IfOk result (λ text. text.items ≡ range_of_found row_names (quantile_of total rows.now thousandths)) }
{
    let mut text = Vec::new(alloc);
    put_found(&mut text, row_names, quantile(total, rows, thousandths))?;
    Ok(text)
}

// The key by which the line of a histogram with `units` units is sorted by units.
fn rank_of(alloc: Global, units: u64, name: &[u8]) -> Result<Vec<u64>, AllocError>
    ensures { IfOk result (λ rank. rank.items ≡ (18446744073709551615 - units) ∷ name.now) }
{
    let mut rank = Vec::new(alloc);
    rank.push(u64::MAX - units)?;
    for byte in name {
        rank.push(u64::from(*byte))?;
    }
    Ok(rank)
}

// The line of a histogram.
pub(crate) fn entry_of(
    alloc: Global,
    is_human: bool,
    hist: &HistReading,
) -> Result<ListEntry, AllocError>
    requires { IsReadable (histogram_view hist.now) }
    ensures { IfOk result (λ entry. entry_view entry ≡ line_of is_human (histogram_view hist.now)) }
{
    let rows = rows_of(alloc, hist)?;
    let rows = rows.as_slice();
    let row_names = row_names_of(&hist.spec);
    let total = units(hist);
    Ok(ListEntry {
        name: Vec::from_slice(alloc, hist.name.as_slice())?,
        kind: Vec::from_slice(alloc, kind_word(&hist.spec))?,
        units: number_text(alloc, is_human, total)?,
        mean: mean_text(alloc, is_human, hist.sum, total)?,
        median: quantile_text(alloc, row_names, total, rows, 500)?,
        high: quantile_text(alloc, row_names, total, rows, 990)?,
        greatest: quantile_text(alloc, row_names, total, rows, 1000)?,
        rank: rank_of(alloc, total, hist.name.as_slice())?,
    })
}

// The heads of the columns.
fn heads(alloc: Global) -> Result<ListEntry, AllocError>
    ensures { IfOk result (λ entry. entry_view entry ≡ heads_of) }
{
    Ok(ListEntry {
        name: Vec::from_slice(alloc, b"name")?,
        kind: Vec::from_slice(alloc, b"kind")?,
        units: Vec::from_slice(alloc, b"units")?,
        mean: Vec::from_slice(alloc, b"mean")?,
        median: Vec::from_slice(alloc, b"50%")?,
        high: Vec::from_slice(alloc, b"99%")?,
        greatest: Vec::from_slice(alloc, b"greatest")?,
        rank: Vec::new(alloc),
    })
}

// The lines of histograms.
fn entries_of(
    alloc: Global,
    is_human: bool,
    hists: &[&HistReading],
) -> Result<Vec<ListEntry>, AllocError>
    requires { All IsReadable (map (λ hist. histogram_view hist.now) hists.now) }
    ensures { IfOk result (λ entries. map entry_view entries.items ≡ map (line_of is_human) (map (λ hist. histogram_view hist.now) hists.now)) }
{
    let mut entries = Vec::new(alloc);
    for hist in hists {
        entries.push(entry_of(alloc, is_human, hist)?)?;
    }
    Ok(entries)
}

// Columns widened so that a line fits too.
fn widened_by(columns: ListColumns, entry: &ListEntry) -> ListColumns
    ensures { result ≡ widened_by_of columns (entry_view entry.now) }
{
    ListColumns {
        name: columns.name.max(entry.name.len()),
        kind: columns.kind.max(entry.kind.len()),
        units: columns.units.max(entry.units.len()),
        mean: columns.mean.max(entry.mean.len()),
        median: columns.median.max(entry.median.len()),
        high: columns.high.max(entry.high.len()),
        greatest: columns.greatest.max(entry.greatest.len()),
    }
}

// Columns in which all lines fit.
fn widest(entries: &[ListEntry]) -> ListColumns
    ensures { result ≡ fold widened_by_of no_columns (map entry_view entries.now) }
{
    let mut columns = ListColumns {
        name: 0,
        kind: 0,
        units: 0,
        mean: 0,
        median: 0,
        high: 0,
        greatest: 0,
    };
    for entry in entries {
        columns = widened_by(columns, entry);
    }
    columns
}

// How much the other columns leave for the names.
fn room_for_names(width: u16, columns: ListColumns) -> usize
    ensures { result ≡ room_for_names_of width columns }
{
    usize::from(width)
        .saturating_sub(columns.kind)
        .saturating_sub(columns.units)
        .saturating_sub(columns.mean)
        .saturating_sub(columns.median)
        .saturating_sub(columns.high)
        .saturating_sub(columns.greatest)
        .saturating_sub(12)
}

// The columns of a list whose lines fit in these.
fn fitted(width: u16, columns: ListColumns) -> ListColumns
    ensures { result ≡ fitted_of width columns }
{
    ListColumns {
        name: columns.name.min(room_for_names(width, columns).max(4)),
        ..columns
    }
}

// Puts a name in its column.
fn put_name(text: &mut Vec<u8>, width: usize, name: &[u8]) -> Result<(), AllocError>
    ensures { OnOk result (text.new.items ≡ text.old.items ++ name_text width name.now) }
{
    if name.len() <= width {
        return put_at_left(text, width, name);
    }
    text.extend_from_slice(name)?;
    text.extend_from_slice(b"\n")?;
    put_bytes(text, width, b' ')?;
    Ok(())
}

// Puts a line.
fn put_entry(text: &mut Vec<u8>, columns: ListColumns, entry: &ListEntry) -> Result<(), AllocError>
    ensures { OnOk result (text.new.items ≡ text.old.items ++ list_line columns (entry_view entry.now)) }
{
    put_name(text, columns.name, entry.name.as_slice())?;
    text.extend_from_slice(b"  ")?;
    put_at_left(text, columns.kind, entry.kind.as_slice())?;
    text.extend_from_slice(b"  ")?;
    put_at_right(text, columns.units, entry.units.as_slice())?;
    text.extend_from_slice(b"  ")?;
    put_at_right(text, columns.mean, entry.mean.as_slice())?;
    text.extend_from_slice(b"  ")?;
    put_at_right(text, columns.median, entry.median.as_slice())?;
    text.extend_from_slice(b"  ")?;
    put_at_right(text, columns.high, entry.high.as_slice())?;
    text.extend_from_slice(b"  ")?;
    put_at_right(text, columns.greatest, entry.greatest.as_slice())?;
    text.extend_from_slice(b"\n")?;
    Ok(())
}

// Puts lines in columns that fit them.
fn put_entries(text: &mut Vec<u8>, width: u16, entries: &[ListEntry]) -> Result<(), AllocError>
    ensures { OnOk result (text.new.items ≡ text.old.items ++ list_lines width (map entry_view entries.now)) }
{
    let columns = fitted(width, widest(entries));
    for entry in entries {
        put_entry(text, columns, entry)?;
    }
    Ok(())
}

// Sorts lines by units; they are given sorted by name.
fn sort_by_rank(entries: &mut Vec<ListEntry>) -> Result<(), AllocError>
    ensures { OnOk result (AreRanked (map entry_view entries.old.items) (map entry_view entries.new.items)) }
{
    entries.sort_by(|a, b| a.rank.as_slice().cmp(b.rank.as_slice()))?;
    Ok(())
}

// Sorts lines in the order that is asked for; they are given sorted by name.
fn order(entries: &mut Vec<ListEntry>, is_by_units: bool) -> Result<(), AllocError>
    ensures { OnOk result (AreOrdered is_by_units (map entry_view entries.old.items) (map entry_view entries.new.items)) }
{
    if is_by_units {
        return sort_by_rank(entries);
    }
    Ok(())
}

// Puts the heads and these lines, or nothing if there are no lines.
fn put_list(
    alloc: Global,
    text: &mut Vec<u8>,
    width: u16,
    entries: Vec<ListEntry>,
) -> Result<(), AllocError>
    ensures { OnOk result (text.new.items ≡ text.old.items ++ list_of_some width (map entry_view entries.items)) }
{
    if entries.is_empty() {
        return Ok(());
    }
    let mut entries = entries;
    entries.insert(0, heads(alloc)?)?;
    put_entries(text, width, entries.as_slice())
}

/// Returns the list of the histograms of a reading, byte for byte: for each chosen histogram a line with its name, its
/// kind, its units and their mean, two quantiles and the greatest bucket that has units; then the flags that are set,
/// the bad records and why the list of records stops, if it does. The lines are sorted by name; or by units, the most
/// first, and those with equal units by name. The only error is that memory runs out.
pub fn list_text(alloc: Global, reading: &Reading, drawn: &Drawn<'_>) -> Result<Vec<u8>, AllocError>
    requires { All IsReadable (map histogram_view reading.now.hists.items) }
    ensures { IfOk result (λ text. IsListOf drawn.now (reading_view reading.now) text.items) }
{
    let hists = chosen(alloc, reading, &drawn.choice)?;
    let mut entries = entries_of(alloc, drawn.style.is_human, hists.as_slice())?;
    order(&mut entries, drawn.is_by_units)?;
    let mut text = Vec::new(alloc);
    put_list(alloc, &mut text, drawn.style.width, entries)?;
    put_ending(alloc, &mut text, hists.as_slice(), reading)?;
    Ok(text)
}
