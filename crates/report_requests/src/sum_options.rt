//! The arguments of the commands that write a text of a sum.

use crate::arguments::{flag, option, put};
use clap::{Arg, ArgAction, ArgMatches, value_parser};
use report_asks::{Inputs, Workers};
use std::alloc::{AllocError, Global};

/// The images that are read.
pub fn images<'a>(alloc: Global) -> Arg<'a> {
    Arg::new(alloc, "FILE")
        .num_args(0..)
        .help("Images, totals or folders [default: standard input]")
        .long_help(
            "Image files, totals or folders; standard input if none is named, or -.\nThe text of several is that of their sum",
        )
}

/// More images for a command that takes names after the first.
pub fn also_option<'a>(alloc: Global) -> Arg<'a> {
    option(
        alloc,
        "also",
        "FILE",
        "Another FILE, whose histograms are added; may be given more than once",
    )
    .action(ArgAction::Append)
    .hide_short_help(true)
    .long_help("Another FILE, whose histograms are added; may be given more than\nonce")
}

// An option of a sum, which is in the long help alone.
fn sum_option<'a>(alloc: Global, name: &'a str, value: &'a str, help: &'a str) -> Arg<'a> {
    option(alloc, name, value, help).hide_short_help(true)
}

// How many workers add up.
fn workers_option<'a>(alloc: Global) -> Arg<'a> {
    sum_option(
        alloc,
        "workers",
        "K",
        "Number of threads that read and add up, 1 to 16",
    )
    .value_parser(value_parser!(u32).range(1..=16))
    .default_value("1")
}

// Ends at the first file that cannot be read.
fn strict_flag<'a>(alloc: Global) -> Arg<'a> {
    flag(
        alloc,
        "strict",
        "End with the fault of the first FILE that cannot be read, which is\nleft out otherwise",
    )
    .hide_short_help(true)
}

/// The options of a text of a sum.
pub fn put_sum_options<'a>(alloc: Global, args: &mut Vec<Arg<'a>>) -> Result<(), AllocError> {
    put(
        args,
        sum_option(
            alloc,
            "files-from",
            "LIST",
            "File that names FILEs, a line each; - is standard input",
        ),
    )?;
    put(
        args,
        sum_option(
            alloc,
            "minus",
            "OLD",
            "Show what came since OLD, an earlier image, totals or folder",
        ),
    )?;
    put(args, workers_option(alloc))?;
    put(args, strict_flag(alloc))
}

/// Asks for the sum whole.
pub fn totals_flag<'a>(alloc: Global) -> Result<Arg<'a>, AllocError> {
    flag(
        alloc,
        "totals",
        "Print the sum whole, as totals that are read as a FILE",
    )
    .long_help(
        "Print the sum whole, with specs and marks: totals, which are read like\nan image (not with --rows)",
    )
    .conflicts_with("rows")
}

/// What a command line names as inputs: one image alone, or what may also be a sum. The only error is that memory runs
/// out.
pub fn inputs_found<'a>(
    alloc: Global,
    found: &ArgMatches<'a>,
    is_image_alone: bool,
) -> Result<Inputs<'a>, AllocError> {
    let mut files = Vec::new(alloc);
    if let Some(named) = found.get_strs("FILE") {
        files.extend_from_slice(named)?;
    }
    if let Some(more) = found.get_strs("also") {
        files.extend_from_slice(more)?;
    }
    Ok(Inputs {
        files,
        list: found.get_str("files-from"),
        earlier: found.get_str("minus"),
        workers: found.get_one::<u32>("workers").and_then(Workers::of),
        is_strict: found.get_flag("strict"),
        has_totals: found.get_flag("totals"),
        is_live: found.get_flag("live"),
        at: found.get_one::<u64>("at"),
        is_image_alone,
    })
}
