//! The lines of the rows of a histogram.

ghost use Rattle.std.specs.Prelude.{◌≡◌, ◌<◌, ◌^◌, ◌++◌, length, max, sum_by, IfOk, OnOk};
ghost use Rattle.std.specs.List.{fold};
ghost use Rattle.reading_overviews.specs.Numbers.{number};
ghost use Rattle.reading_shows.specs.Columns.{at_right};
ghost use Rattle.reading_shows.specs.RowNames.{range_text};
ghost use Rattle.reading_shows.specs.Since.{came_text};
ghost use Rattle.reading_shows.specs.Showing.{most_of, begins_gap as begins_gap_of, widened, came_width as came_width_of, columns_of as columns_of_rows, came_head, head_line, unit_line, gap_line, line_at, lines_in, row_lines, plural as plural_of, left_out_text, left_out_line};

use crate::bars::put_bar;
use crate::columns::{put_at_right, put_bytes};
use crate::frame::{Frame, LineColumns};
use crate::heights::height_of;
use crate::row_names::{RowNames, has_line, is_truth, put_range};
use crate::shares::put_percent;
use crate::since::{came_at, most_that_came, put_came};
use reading_overviews::put_number;
use reading_texts::HistRow;
use std::alloc::{AllocError, Global};
use text_styles::Style;

// The most units that a row has.
pub(crate) fn most(rows: &[HistRow]) -> u64
    ensures { result ≡ most_of rows.now }
{
    let mut most = 0;
    for row in rows {
        most = most.max(row.units);
    }
    most
}

// Whether row `i`, which has no line, begins a gap.
pub(crate) fn begins_gap(row_names: RowNames, rows: &[HistRow], i: usize) -> bool
    requires { i < length rows.now }
    ensures { result ≡ begins_gap_of row_names rows.now i }
{
    !is_truth(row_names) && (i == 0 || rows[i - 1].units != 0)
}

// How wide the values of the rows with lines are, or their head. They are written to `room` to see how long they are.
fn values_width(
    room: &mut Vec<u8>,
    row_names: RowNames,
    rows: &[HistRow],
) -> Result<usize, AllocError>
    ensures { IfOk result (λ width. width ≡ fold (widened row_names) 6 rows.now) }
{
    let mut width = 6;
    for row in rows {
        if has_line(row_names, row) {
            room.clear();
            put_range(room, row_names, row)?;
            width = width.max(room.len());
        }
    }
    Ok(width)
}

// How wide the units of rows are, or their head, where `most` is the most units of a row.
fn units_width(room: &mut Vec<u8>, is_human: bool, most: u64) -> Result<usize, AllocError>
    ensures { IfOk result (λ width. width ≡ max 5 (length (number is_human most))) }
{
    room.clear();
    put_number(room, is_human, most)?;
    Ok(room.len().max(5))
}

// How wide the units that came are, or their head, with a blank before them; 0 if these units are not shown.
fn came_width(
    room: &mut Vec<u8>,
    is_human: bool,
    is_told: bool,
    cames: &[u64],
) -> Result<usize, AllocError>
    ensures { IfOk result (λ width. width ≡ came_width_of is_human is_told cames.now) }
{
    if !is_told {
        return Ok(0);
    }
    room.clear();
    put_came(room, is_human, most_that_came(cames))?;
    Ok(room.len().max(4))
}

// How wide the columns of a histogram are.
fn columns_of(
    room: &mut Vec<u8>,
    style: Style,
    frame: Frame,
    is_told: bool,
    cames: &[u64],
    rows: &[HistRow],
) -> Result<LineColumns, AllocError>
    ensures { IfOk result (λ columns. columns ≡ columns_of_rows style frame is_told cames.now rows.now) }
{
    let values = values_width(room, frame.row_names, rows)?;
    let units = units_width(room, style.is_human, frame.most)?;
    let came = came_width(room, style.is_human, is_told, cames)?;
    let width = usize::from(style.width);
    let bars = width
        .saturating_sub(values)
        .saturating_sub(units)
        .saturating_sub(came)
        .saturating_sub(20);
    Ok(LineColumns {
        values,
        bars: bars as u16,
        units,
        came,
    })
}

// Puts the head of the column of the units that came, if there is this column.
fn put_came_head(text: &mut Vec<u8>, width: usize) -> Result<(), AllocError>
    ensures { OnOk result (text.new.items ≡ text.old.items ++ came_head width) }
{
    if width == 0 {
        return Ok(());
    }
    put_at_right(text, width, b" new")
}

// Puts the heads of the columns.
fn put_head_line(text: &mut Vec<u8>, columns: LineColumns) -> Result<(), AllocError>
    ensures { OnOk result (text.new.items ≡ text.old.items ++ head_line columns) }
{
    text.extend_from_slice(b"  ")?;
    put_at_right(text, columns.values, b"values")?;
    text.extend_from_slice(b"  ")?;
    put_bytes(text, usize::from(columns.bars), b' ')?;
    put_at_right(text, columns.units, b"units")?;
    put_came_head(text, columns.came)?;
    text.extend_from_slice(b" percent   up to\n")?;
    Ok(())
}

// Puts the values of a row at the right end of a column. They are written to `room` first to see how long they are.
fn put_values(
    text: &mut Vec<u8>,
    room: &mut Vec<u8>,
    width: usize,
    row_names: RowNames,
    row: &HistRow,
) -> Result<(), AllocError>
    ensures { OnOk result (text.new.items ≡ text.old.items ++ at_right width (range_text row_names row.now)) }
{
    room.clear();
    put_range(room, row_names, row)?;
    put_at_right(text, width, room.as_slice())
}

// Puts units at the right end of a column. They are written to `room` first to see how long they are.
fn put_units_of(
    text: &mut Vec<u8>,
    room: &mut Vec<u8>,
    width: usize,
    is_human: bool,
    units: u64,
) -> Result<(), AllocError>
    ensures { OnOk result (text.new.items ≡ text.old.items ++ at_right width (number is_human units)) }
{
    room.clear();
    put_number(room, is_human, units)?;
    put_at_right(text, width, room.as_slice())
}

// Puts units that came at the right end of a column. They are written to `room` first to see how long they are.
fn put_came_of(
    text: &mut Vec<u8>,
    room: &mut Vec<u8>,
    width: usize,
    is_human: bool,
    came: u64,
) -> Result<(), AllocError>
    ensures { OnOk result (text.new.items ≡ text.old.items ++ at_right width (came_text is_human came)) }
{
    room.clear();
    put_came(room, is_human, came)?;
    put_at_right(text, width, room.as_slice())
}

// Puts the line of a row, to which `came` units came.
fn put_units(
    text: &mut Vec<u8>,
    room: &mut Vec<u8>,
    style: Style,
    columns: LineColumns,
    frame: Frame,
    row: &HistRow,
    came: u64,
) -> Result<(), AllocError>
    ensures { OnOk result (text.new.items ≡ text.old.items ++ unit_line style columns frame row.now came) }
{
    text.extend_from_slice(b"  ")?;
    put_values(text, room, columns.values, frame.row_names, row)?;
    text.push(b' ')?;
    let height = height_of(style.is_log, row.units);
    let most = height_of(style.is_log, frame.most);
    put_bar(text, style.is_ascii, columns.bars, height, most)?;
    text.push(b' ')?;
    put_units_of(text, room, columns.units, style.is_human, row.units)?;
    put_came_of(text, room, columns.came, style.is_human, came)?;
    put_percent(text, b"<0.1%", 8, row.units, frame.total)?;
    put_percent(text, b"<0.1%", 8, row.up_to, frame.total)?;
    text.push(b'\n')?;
    Ok(())
}

// Puts the line of a gap.
fn put_gap(text: &mut Vec<u8>, columns: LineColumns) -> Result<(), AllocError>
    ensures { OnOk result (text.new.items ≡ text.old.items ++ gap_line columns) }
{
    text.extend_from_slice(b"  ")?;
    put_at_right(text, columns.values, b"...")?;
    text.push(b'\n')?;
    Ok(())
}

// Puts the line of row `i`. Of the rows without lines, the first of each gap puts the line of the gap.
fn put_row(
    text: &mut Vec<u8>,
    room: &mut Vec<u8>,
    style: Style,
    columns: LineColumns,
    frame: Frame,
    cames: &[u64],
    rows: &[HistRow],
    i: usize,
) -> Result<(), AllocError>
    requires { i < length rows.now }
    ensures { OnOk result (text.new.items ≡ text.old.items ++ line_at style columns frame cames.now rows.now i) }
{
    if has_line(frame.row_names, &rows[i]) {
        let came = came_at(cames, i);
        return put_units(text, room, style, columns, frame, &rows[i], came);
    }
    if begins_gap(frame.row_names, rows, i) {
        put_gap(text, columns)?;
    }
    Ok(())
}

// Puts the lines of rows in these columns.
fn put_lines(
    text: &mut Vec<u8>,
    room: &mut Vec<u8>,
    style: Style,
    columns: LineColumns,
    frame: Frame,
    cames: &[u64],
    rows: &[HistRow],
) -> Result<(), AllocError>
    ensures { OnOk result (text.new.items ≡ text.old.items ++ lines_in style columns frame cames.now rows.now) }
{
    put_head_line(text, columns)?;
    for i in 0..rows.len() {
        put_row(text, room, style, columns, frame, cames, rows, i)?;
    }
    Ok(())
}

// Puts the lines of rows, each with the units that came to it, if these are shown.
pub(crate) fn put_rows(
    alloc: Global,
    text: &mut Vec<u8>,
    style: Style,
    frame: Frame,
    is_told: bool,
    cames: &[u64],
    rows: &[HistRow],
) -> Result<(), AllocError>
    ensures { OnOk result (text.new.items ≡ text.old.items ++ row_lines style frame is_told cames.now rows.now) }
{
    if rows.is_empty() {
        return Ok(());
    }
    let mut room = Vec::new(alloc);
    let columns = columns_of(&mut room, style, frame, is_told, cames, rows)?;
    put_lines(text, &mut room, style, columns, frame, cames, rows)
}

// The units of rows together.
fn units_together(rows: &[HistRow]) -> u64
    requires { sum_by (λ row. row.units) rows.now < 2 ^ 64 }
    ensures { result ≡ sum_by (λ row. row.units) rows.now }
{
    rows.iter().map(|row| row.units).sum()
}

// The plural ending of a word for `n` things.
fn plural(n: u64) -> &'static [u8]
    ensures { result.now ≡ plural_of n }
{
    if n == 1 { b"" } else { b"s" }
}

// Puts the line that says how many rows are left out, and how many units they have.
fn put_left_out_text(
    text: &mut Vec<u8>,
    is_human: bool,
    rows: u64,
    units: u64,
) -> Result<(), AllocError>
    ensures { OnOk result (text.new.items ≡ text.old.items ++ left_out_text is_human rows units) }
{
    text.extend_from_slice(b"  ")?;
    put_number(text, is_human, rows)?;
    text.extend_from_slice(b" more value")?;
    text.extend_from_slice(plural(rows))?;
    text.extend_from_slice(b", with ")?;
    put_number(text, is_human, units)?;
    text.extend_from_slice(b" unit")?;
    text.extend_from_slice(plural(units))?;
    text.extend_from_slice(b" in all (--all shows them)\n")?;
    Ok(())
}

// Puts the line of the rows that are left out.
pub(crate) fn put_left_out(
    text: &mut Vec<u8>,
    is_human: bool,
    rows: &[HistRow],
) -> Result<(), AllocError>
    requires { sum_by (λ row. row.units) rows.now < 2 ^ 64 }
    ensures { OnOk result (text.new.items ≡ text.old.items ++ left_out_line is_human rows.now) }
{
    if rows.is_empty() {
        return Ok(());
    }
    put_left_out_text(text, is_human, rows.len() as u64, units_together(rows))
}
