//! The options of the commands that write a text.

use crate::arguments::{flag, option, put, put_live_options};
use crate::sum_options::put_sum_options;
use clap::{Arg, ArgMatches, value_parser};
use report_asks::Repeat;
use std::alloc::{AllocError, Global};

// The file that a text is written to.
fn to_option<'a>(alloc: Global) -> Arg<'a> {
    option(alloc, "to", "OUT", "Write to the file OUT").long_help(
        "Write to the file OUT, which is replaced when the text is complete",
    )
}

// Asks for a fault if the image is not whole.
fn whole_flag<'a>(alloc: Global) -> Arg<'a> {
    flag(alloc, "whole", "End with a fault if the image is damaged").long_help(
        "End with a fault, after the text, if a record is bad or the list of\nrecords stops early",
    )
}

// How long to wait until the next look.
fn every_option<'a>(alloc: Global) -> Result<Arg<'a>, AllocError> {
    option(
        alloc,
        "every",
        "SECONDS",
        "With --live: look again every SECONDS",
    )
    .long_help("With --live: look again every SECONDS, until it is ended or --count is\nreached")
    .value_parser(value_parser!(u32).range(1..=86_400))
    .requires_arg("live")
}

// After how many looks to end.
fn count_option<'a>(alloc: Global) -> Result<Arg<'a>, AllocError> {
    option(
        alloc,
        "count",
        "LOOKS",
        "With --every: end after this many looks",
    )
    .value_parser(value_parser!(u32).range(1..))
    .requires_arg("every")
}

/// The options of each text that may be that of a sum; with those of one that may be written again and again.
pub fn put_text_options<'a>(
    alloc: Global,
    args: &mut Vec<Arg<'a>>,
    repeats: bool,
) -> Result<(), AllocError> {
    put(args, to_option(alloc))?;
    put_live_options(alloc, args)?;
    put_sum_options(alloc, args)?;
    if repeats {
        put(args, every_option(alloc)?)?;
        put(args, count_option(alloc)?)?;
    }
    put(args, whole_flag(alloc))
}

/// How often a text is to be written, if the command line says so.
pub fn repeat_found(found: &ArgMatches<'_>) -> Option<Repeat> {
    found.get_one::<u32>("every").map(|seconds| Repeat {
        seconds,
        count: found.get_one::<u32>("count"),
    })
}
