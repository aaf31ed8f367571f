//! Which rows of a histogram have lines: if it is sparse, those with the most units.

ghost use Rattle.std.specs.Prelude.{◌≡◌, not, IfOk, IsPermutation};
ghost use Rattle.std.specs.List.{filter};
ghost use Rattle.reading_shows.specs.Most.{is_ahead as is_ahead_of, is_among_first as is_among_first_of, shown_rows, left_out_rows};

use reading_texts::HistRow;
use std::alloc::{AllocError, Global};

// The rows of a histogram, in two parts.
#[derive(Drop)]
pub(crate) struct Picked {
    // Those that have lines.
    pub(crate) shown: Vec<HistRow>,
    // The others.
    pub(crate) left_out: Vec<HistRow>,
}

// Whether another row ranks before a row.
fn is_ahead(row: &HistRow, other: &HistRow) -> bool
    ensures { result ≡ is_ahead_of row.now other.now }
{
    other.units > row.units || (other.units == row.units && other.low < row.low)
}

// Whether fewer than 20 of these rows rank before a row. The search stops at the twentieth that does.
fn is_among_first(rows: &[HistRow], row: &HistRow) -> bool
    ensures { result ≡ is_among_first_of rows.now row.now }
{
    let mut ahead: u32 = 0;
    for other in rows {
        ahead += u32::from(is_ahead(row, other));
        if ahead >= 20 {
            return false;
        }
    }
    true
}

// The same rows, those with the most units first, so that the rows that rank before a row are found early.
fn by_units(alloc: Global, rows: &[HistRow]) -> Result<Vec<HistRow>, AllocError>
    ensures { IfOk result (λ sorted. IsPermutation rows.now sorted.items) }
{
    let mut sorted = Vec::from_slice(alloc, rows)?;
    sorted.sort_by(|a, b| b.units.cmp(&a.units))?;
    Ok(sorted)
}

// Rows in two parts: those that are among the first 20 of `others` by rank, and those that are not.
fn parted(alloc: Global, rows: &[HistRow], others: &[HistRow]) -> Result<Picked, AllocError>
    ensures shown { IfOk result (λ picked. picked.shown.items ≡ filter (is_among_first_of others.now) rows.now) }
    ensures left_out { IfOk result (λ picked. picked.left_out.items ≡ filter (λ row. not (is_among_first_of others.now row)) rows.now) }
{
    let mut shown = Vec::new(alloc);
    let mut left_out = Vec::new(alloc);
    for row in rows {
        if is_among_first(others, row) {
            shown.push(*row)?;
        } else {
            left_out.push(*row)?;
        }
    }
    Ok(Picked { shown, left_out })
}

// The rows that have lines, and the others: all of them do, or the first 20 by rank.
pub(crate) fn pick(alloc: Global, are_all: bool, rows: &[HistRow]) -> Result<Picked, AllocError>
    ensures shown { IfOk result (λ picked. picked.shown.items ≡ shown_rows are_all rows.now) }
    ensures left_out { IfOk result (λ picked. picked.left_out.items ≡ left_out_rows are_all rows.now) }
{
    if are_all {
        let shown = Vec::from_slice(alloc, rows)?;
        return Ok(Picked {
            shown,
            left_out: Vec::new(alloc),
        });
    }
    let sorted = by_units(alloc, rows)?;
    parted(alloc, rows, sorted.as_slice())
}
