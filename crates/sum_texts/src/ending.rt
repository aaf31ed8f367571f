//! The report of a sum: that of its reading, followed by lines of what it leaves out.

ghost use Rattle.std.specs.Prelude.{◌≡◌, ◌++◌, IfOk, OnOk};
ghost use Rattle.std.specs.List.{flat_map};
ghost use Rattle.reading_sums.specs.Whole.{IsWellFormed};
ghost use Rattle.sum_texts.specs.Endings.{other_line, inputs_line, ending_text, IsSumReport};

use crate::writing::{put_line, put_number_line};
use itoa::Buffer;
use reading_sums::{OtherSpec, Sums};
use reading_texts::report_text;
use std::alloc::{AllocError, Global};

// Puts the lines of what a reading leaves out.
fn put_others(text: &mut Vec<u8>, others: &[OtherSpec]) -> Result<(), AllocError>
    ensures { OnOk result (text.new.items ≡ text.old.items ++ flat_map other_line others.now) }
{
    for other in others {
        let mut images = Buffer::new();
        let mut units = Buffer::new();
        put_line(
            text,
            b"!other",
            &[
                other.name.as_slice(),
                images.format(other.images).as_bytes(),
                units.format(other.units).as_bytes(),
            ],
        )?;
    }
    Ok(())
}

// Puts the line of how many inputs were left out, if any were.
fn put_left(text: &mut Vec<u8>, left: u64) -> Result<(), AllocError>
    ensures { OnOk result (text.new.items ≡ text.old.items ++ inputs_line left) }
{
    if left == 0 {
        return Ok(());
    }
    put_number_line(text, b"!left", left)
}

/// Puts the lines after the report of the reading of a sum: none if it is of one image at most and nothing was left out,
/// and else how many images there are, each name and spec that the reading leaves out, with its images and units, and
/// how many inputs were left out. The one error is that memory runs out.
pub fn put_ending(
    text: &mut Vec<u8>,
    images: u64,
    others: &[OtherSpec],
    left: u64,
) -> Result<(), AllocError>
    ensures { OnOk result (text.new.items ≡ text.old.items ++ ending_text images others.now left) }
{
    if images <= 1 && others.is_empty() && left == 0 {
        return Ok(());
    }
    put_number_line(text, b"!images", images)?;
    put_others(text, others)?;
    put_left(text, left)
}

/// Returns the report of a sum for which `left` inputs were left out: that of its reading, and, if there are several
/// images or a histogram or an input was left out, lines after it of how many images there are, of each name and spec
/// that the reading leaves out, with its images and units, and of how many inputs were left out [text]. The one error
/// is that memory runs out.
pub fn report_of(alloc: Global, sums: &Sums, left: u64) -> Result<Vec<u8>, AllocError>
    requires { IsWellFormed sums.now }
    ensures text { IfOk result (λ text. IsSumReport sums.now left text.items) }
{
    let reading = sums.reading(alloc)?;
    let others = sums.others(alloc)?;
    let mut text = report_text(alloc, &reading)?;
    put_ending(&mut text, sums.notes().images, &others, left)?;
    Ok(text)
}
