//! The rows of a histogram in a page.

ghost use Rattle.std.specs.Prelude.{◌≡◌, ◌<◌, ◌++◌, length, OnOk};
ghost use Rattle.reading_shows.specs.PageRows.{drawn_bar, unit_row, row_in_page, rows_in_page};

use crate::bars::marks;
use crate::frame::Frame;
use crate::lines::begins_gap;
use crate::row_names::{has_line, put_range};
use crate::shares::put_percent;
use itoa::Buffer;
use reading_overviews::put_number;
use reading_texts::{HistRow, put_parts};
use std::alloc::AllocError;

// Puts the bar of `units` units, in thousandths of the width of the longest bar, which has `most` units.
fn put_drawn_bar(text: &mut Vec<u8>, units: u64, most: u64) -> Result<(), AllocError>
    ensures { OnOk result (text.new.items ≡ text.old.items ++ drawn_bar units most) }
{
    let mut width = Buffer::new();
    put_parts(
        text,
        &[
            b"<svg viewBox=\"0 0 1000 1\" preserveAspectRatio=\"none\" aria-hidden=\"true\"><rect width=\"",
            width.format(marks(units, most, 1000)).as_bytes(),
            b"\" height=\"1\"/></svg>",
        ],
    )
}

// Puts the row of a bucket or of a value.
fn put_units(text: &mut Vec<u8>, frame: Frame, row: &HistRow) -> Result<(), AllocError>
    ensures { OnOk result (text.new.items ≡ text.old.items ++ unit_row frame row.now) }
{
    text.extend_from_slice(b"<tr><td>")?;
    put_range(text, frame.row_names, row)?;
    text.extend_from_slice(b"</td><td>")?;
    put_drawn_bar(text, row.units, frame.most)?;
    text.extend_from_slice(b"</td><td>")?;
    put_number(text, true, row.units)?;
    text.extend_from_slice(b"</td><td>")?;
    put_percent(text, b"&lt;0.1%", 0, row.units, frame.total)?;
    text.extend_from_slice(b"</td><td>")?;
    put_percent(text, b"&lt;0.1%", 0, row.up_to, frame.total)?;
    text.extend_from_slice(b"</td></tr>\n")?;
    Ok(())
}

// Puts row `i`. Of the rows that are not shown, the first of each gap puts the row of the gap.
fn put_row(text: &mut Vec<u8>, frame: Frame, rows: &[HistRow], i: usize) -> Result<(), AllocError>
    requires { i < length rows.now }
    ensures { OnOk result (text.new.items ≡ text.old.items ++ row_in_page frame rows.now i) }
{
    if has_line(frame.row_names, &rows[i]) {
        return put_units(text, frame, &rows[i]);
    }
    if begins_gap(frame.row_names, rows, i) {
        text.extend_from_slice(b"<tr><td>...</td></tr>\n")?;
    }
    Ok(())
}

// Puts all rows.
pub(crate) fn put_page_rows(
    text: &mut Vec<u8>,
    frame: Frame,
    rows: &[HistRow],
) -> Result<(), AllocError>
    ensures { OnOk result (text.new.items ≡ text.old.items ++ rows_in_page frame rows.now) }
{
    for i in 0..rows.len() {
        put_row(text, frame, rows, i)?;
    }
    Ok(())
}
