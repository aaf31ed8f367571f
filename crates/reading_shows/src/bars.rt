//! The bar of a bucket.

ghost use Rattle.std.specs.Prelude.{◌≡◌, ◌≤◌, ◌<◌, ◌++◌, OnOk};
ghost use Rattle.reading_shows.specs.Columns.{times};
ghost use Rattle.reading_shows.specs.Bars.{marks_of, block, part_of_cell, block_bar, sign_bar, bar};

use crate::columns::{put_bytes, put_times};
use crate::shares::share;
use std::alloc::AllocError;

// As many full cells as the longest bar on a terminal has.
static FULL_CELLS: [[u8; 3]; 200] = [[226, 150, 136]; 200];

// How many of `marks` marks the bar of `units` units has.
pub(crate) fn marks(units: u64, most: u64, marks: u32) -> u32
    ensures { result ≡ marks_of units most marks }
{
    let all = u128::from(marks);
    share(units, most, marks, most.saturating_sub(1)).min(all) as u32
}

// Appends the part of a cell that comes after the whole ones.
fn put_part_of_cell(text: &mut Vec<u8>, eighths: u8) -> Result<(), AllocError>
    requires { eighths < 8 }
    ensures { OnOk result (text.new.items ≡ text.old.items ++ part_of_cell eighths) }
{
    if eighths > 0 {
        text.extend_from_slice(&[226, 150, 144 - eighths])?;
    }
    Ok(())
}

// Appends `count` full cells to a text.
fn put_full_cells(text: &mut Vec<u8>, count: usize) -> Result<(), AllocError>
    ensures { OnOk result (text.new.items ≡ text.old.items ++ times count (block 8)) }
{
    put_times(text, count / 200, FULL_CELLS.as_flattened())?;
    text.extend_from_slice(FULL_CELLS[..count % 200].as_flattened())?;
    Ok(())
}

// Appends a bar of blocks, and blanks up to its width.
fn put_block_bar(text: &mut Vec<u8>, width: u32, eighths: u32) -> Result<(), AllocError>
    requires { eighths ≤ 4294967288 }
    ensures { OnOk result (text.new.items ≡ text.old.items ++ block_bar width eighths) }
{
    put_full_cells(text, (eighths / 8) as usize)?;
    put_part_of_cell(text, (eighths % 8) as u8)?;
    put_bytes(text, width.saturating_sub((eighths + 7) / 8) as usize, b' ')
}

// Appends a bar of plain signs, and blanks up to its width.
fn put_sign_bar(text: &mut Vec<u8>, width: u32, signs: u32) -> Result<(), AllocError>
    ensures { OnOk result (text.new.items ≡ text.old.items ++ sign_bar width signs) }
{
    put_bytes(text, signs as usize, b'#')?;
    put_bytes(text, width.saturating_sub(signs) as usize, b' ')
}

// Appends the bar of `units` units, `width` cells wide, where `most` is the most units that a bar shows.
pub(crate) fn put_bar(
    text: &mut Vec<u8>,
    is_ascii: bool,
    width: u16,
    units: u64,
    most: u64,
) -> Result<(), AllocError>
    ensures { OnOk result (text.new.items ≡ text.old.items ++ bar is_ascii width units most) }
{
    let width = u32::from(width);
    if is_ascii {
        put_sign_bar(text, width, marks(units, most, width))
    } else {
        put_block_bar(text, width, marks(units, most, width * 8))
    }
}
