//! The overview of a sum of images.

ghost use Rattle.std.specs.Prelude.{◌≡◌, ◌++◌, All, IfOk, OnOk, map};
ghost use Rattle.image_reader.specs.Readable.{IsReadable};
ghost use Rattle.image_reader.specs.Views.{histogram_view};
ghost use Rattle.reading_overviews.specs.SumOverview.{input_lines, lacking_lines, number_line, some_line, sum_overview};

use crate::numbers::put_number;
use crate::overview::put_kinds;
use crate::spent::spent;
use image_reader::{HistReading, Reading};
use std::alloc::{AllocError, Global};

/// What a sum says of its inputs, in place of the header of an image.
#[derive(Clone, Copy)]
pub struct SumHead {
    /// How many images it adds up.
    pub images: u64,
    /// How many inputs were left out because they could not be read.
    pub left: u64,
    /// How many images had an allocation that did not fit.
    pub full: u64,
    /// How many images some thread found corrupt.
    pub corrupt: u64,
    /// In how many images the list of records stops before its end.
    pub stopped: u64,
    /// How many bad records the images have together.
    pub bad: u64,
    /// How many specs its reading leaves out because it shows another one with the same name.
    pub others: u64,
}

// Puts the line of a number.
fn put_number_line(
    text: &mut Vec<u8>,
    is_human: bool,
    label: &[u8],
    n: u64,
) -> Result<(), AllocError>
    ensures { OnOk result (text.new.items ≡ text.old.items ++ number_line is_human label.now n) }
{
    text.extend_from_slice(label)?;
    put_number(text, is_human, n)?;
    text.extend_from_slice(b"\n")?;
    Ok(())
}

// Puts the line of a number, if it is not 0.
fn put_some_line(text: &mut Vec<u8>, is_human: bool, label: &[u8], n: u64) -> Result<(), AllocError>
    ensures { OnOk result (text.new.items ≡ text.old.items ++ some_line is_human label.now n) }
{
    if n == 0 {
        return Ok(());
    }
    put_number_line(text, is_human, label, n)
}

// Puts the lines of the inputs.
fn put_inputs(text: &mut Vec<u8>, is_human: bool, head: &SumHead) -> Result<(), AllocError>
    ensures { OnOk result (text.new.items ≡ text.old.items ++ input_lines is_human head.now) }
{
    put_number_line(text, is_human, b"images       ", head.images)?;
    put_some_line(text, is_human, b"left out     ", head.left)?;
    put_some_line(text, is_human, b"full         ", head.full)?;
    put_some_line(text, is_human, b"corrupt      ", head.corrupt)?;
    Ok(())
}

// Puts the lines of what the numbers of the sum leave out.
fn put_lacking(text: &mut Vec<u8>, is_human: bool, head: &SumHead) -> Result<(), AllocError>
    ensures { OnOk result (text.new.items ≡ text.old.items ++ lacking_lines is_human head.now) }
{
    put_some_line(text, is_human, b"stopped      ", head.stopped)?;
    put_some_line(text, is_human, b"bad records  ", head.bad)?;
    put_some_line(text, is_human, b"other specs  ", head.others)?;
    Ok(())
}

// Puts all lines of a sum that has these histograms.
fn put_sum_overview(
    text: &mut Vec<u8>,
    is_human: bool,
    head: &SumHead,
    hists: &[HistReading],
) -> Result<(), AllocError>
    requires { All IsReadable (map histogram_view hists.now) }
    ensures { OnOk result (text.new.items ≡ text.old.items ++ sum_overview is_human head.now (map histogram_view hists.now)) }
{
    put_inputs(text, is_human, head)?;
    put_lacking(text, is_human, head)?;
    put_kinds(text, is_human, hists)?;
    put_number_line(text, is_human, b"units        ", spent(false, hists))?;
    Ok(())
}

/// Returns the overview of a sum, byte for byte: how many images it adds up, and, each if it is not 0, how many inputs
/// are left out, how many images are full, are corrupt or have a list that stops, how many records are bad and how many
/// specs are not shown; then how many histograms its reading has, by kind, and their units, or 2^64 - 1 if these are
/// more. Numbers have commas if they are for people. The only error is that memory runs out.
pub fn sum_overview_text(
    alloc: Global,
    is_human: bool,
    head: &SumHead,
    reading: &Reading,
) -> Result<Vec<u8>, AllocError>
    requires { All IsReadable (map histogram_view reading.now.hists.items) }
    ensures { IfOk result (λ text. text.items ≡ sum_overview is_human head.now (map histogram_view reading.now.hists.items)) }
{
    let mut text = Vec::new(alloc);
    put_sum_overview(&mut text, is_human, head, &reading.hists)?;
    Ok(text)
}
