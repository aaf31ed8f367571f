//! The command `size`.

use crate::arguments::{command_with, explain_flag, option, put};
use clap::{Arg, ArgAction, ArgMatches, Command, value_parser};
use segment_image::layout::{MAX_PAGE, MAX_SIZE, MIN_PAGE};
use std::alloc::{AllocError, Global};

/// What `size` is asked for: the histograms of a script, or those of options; how many words a page has, if not as many
/// as in the script; and how many values each sparse histogram has, if not those that the script records.
#[derive(Drop)]
pub struct SizeTask<'a> {
    pub script: Option<&'a str>,
    pub hists: Vec<&'a str>,
    pub page: Option<u64>,
    pub values: Option<u64>,
}

// The script whose histograms are meant.
fn script_argument<'a>(alloc: Global) -> Result<Arg<'a>, AllocError> {
    Arg::new(alloc, "SCRIPT")
        .help("Script, as CSV; of its add records the sparse values are counted")
        .required_unless_present("hist")
}

// The histograms that are meant.
fn hists_option<'a>(alloc: Global) -> Result<Arg<'a>, AllocError> {
    option(
        alloc,
        "hist",
        "HIST",
        "Histogram as in a script: NAME,KIND,..; repeatable",
    )
    .action(ArgAction::Append)
    .conflicts_with("SCRIPT")
}

// The words of a page.
fn page_option<'a>(alloc: Global) -> Arg<'a> {
    option(
        alloc,
        "page",
        "WORDS",
        "Words of a page [default: those of the script, or 4096]",
    )
    .value_parser(value_parser!(u64).range(MIN_PAGE as i64..=MAX_PAGE as i64))
}

// The values of each sparse histogram.
fn values_option<'a>(alloc: Global) -> Arg<'a> {
    option(
        alloc,
        "values",
        "N",
        "Values of each sparse histogram [default: the script's]",
    )
    .value_parser(value_parser!(u64).range(0..=MAX_SIZE as i64))
}

// The arguments of the command.
fn put_args<'a>(alloc: Global, args: &mut Vec<Arg<'a>>) -> Result<(), AllocError> {
    put(args, script_argument(alloc)?)?;
    put(args, hists_option(alloc)?)?;
    put(args, page_option(alloc))?;
    put(args, values_option(alloc))?;
    put(args, explain_flag(alloc))
}

/// Returns the command. The error is that memory ran out.
pub fn size_command<'a>(alloc: Global) -> Result<Command<'a>, AllocError> {
    let mut args = Vec::new(alloc);
    put_args(alloc, &mut args)?;
    command_with(
        alloc,
        "size",
        "Say how large a segment has to be for histograms",
        "Example:\n  persist_report size --hist ms,linear,1,1000,50 --hist hits,sparse --values 100",
        args,
    )
}

/// Returns what the words ask for. The error is that memory ran out.
pub fn size_task<'a>(alloc: Global, size: &ArgMatches<'a>) -> Result<SizeTask<'a>, AllocError> {
    let hists = match size.get_strs("hist") {
        Some(hists) => Vec::from_slice(alloc, hists)?,
        None => Vec::new(alloc),
    };
    Ok(SizeTask {
        script: size.get_str("SCRIPT"),
        hists,
        page: size.get_one::<u64>("page"),
        values: size.get_one::<u64>("values"),
    })
}
