//! The command `report`.

use crate::arguments::{command_with, explain_flag, flag, put};
use crate::sum_options::{images, totals_flag};
use crate::text_options::put_text_options;
use clap::{Arg, Command};
use std::alloc::{AllocError, Global};

// What the command does.
const DETAILS: &str = "Print the histograms of an image, or of the sum of several, as CSV: for each
bucket that has units a line NAME,KIND,LOW,HIGH,COUNT for the values from LOW to
below HIGH, and after the buckets of a histogram a line NAME,total,UNITS,SUM.
Lines that begin with an exclamation mark say what is wrong with the image, and
of how many images a sum is.

A sum has all that its images count, and any number of them; to make one image
of two, use `merge`. A file that cannot be read is reported and left out.";

// Asks for the buckets alone.
fn rows_flag<'a>(alloc: Global) -> Arg<'a> {
    flag(
        alloc,
        "rows",
        "Print the buckets alone, after a line of column names",
    )
    .long_help(
        "Print the buckets alone, after a line with the names of the columns:\nfor engines that read CSV",
    )
}

// The arguments of the command.
fn put_args<'a>(alloc: Global, args: &mut Vec<Arg<'a>>) -> Result<(), AllocError> {
    put(args, images(alloc))?;
    put(args, rows_flag(alloc))?;
    put(args, totals_flag(alloc)?)?;
    put_text_options(alloc, args, false)?;
    put(args, explain_flag(alloc))
}

/// The command that writes the report of an image, or of a sum.
pub fn report_command<'a>(alloc: Global) -> Result<Command<'a>, AllocError> {
    let mut args = Vec::new(alloc);
    put_args(alloc, &mut args)?;
    let command = command_with(
        alloc,
        "report",
        "Print the histograms of an image as CSV",
        "Example:\n  persist_report report my.img",
        args,
    )?;
    Ok(command.long_about(DETAILS))
}
