//! The command `run`, and an option that it has with `resume`.

use crate::arguments::{command_with, explain_flag, file, option};
use crate::task::Task;
use clap::{Arg, ArgMatches, Command, value_parser};
use report_asks::Workers;
use std::alloc::{AllocError, Global};

// What the command does.
const DETAILS: &str =
    "Run a script: write the image to OUT and its report to standard output. OUT is
the old file until it is the whole new one.";

// What a script is.
const SCRIPT: &str = "Script to run, as CSV records in this order:
segment,SIZE,PAGE,ID              words of segment and page; a number
hist,NAME,linear,MIN,MAX,BUCKETS  the histograms: this one,
hist,NAME,boolean                 or one of these kinds
hist,NAME,custom,VALUE,..
hist,NAME,sparse
add,NAME,VALUE,COUNT              what is counted: COUNT of a value
delta,NAME                        and deltas, which take what is new
PAGE is a multiple of 16 from 64 to 65536, and SIZE is whole pages, at
most 1048576";

/// How many workers record.
pub fn workers_option<'a>(alloc: Global) -> Arg<'a> {
    option(
        alloc,
        "workers",
        "K",
        "Number of recording threads, 1 to 16",
    )
    .value_parser(value_parser!(u32).range(1..=16))
    .default_value("1")
}

/// The command that runs a script in a new segment.
pub fn run_command<'a>(alloc: Global) -> Result<Command<'a>, AllocError> {
    let args = vec![in alloc;
        file(alloc, "SCRIPT", "Script to run, as CSV").long_help(SCRIPT),
        file(alloc, "OUT", "File for the image"),
        workers_option(alloc),
        explain_flag(alloc),
    ]?;
    let command = command_with(
        alloc,
        "run",
        "Run a script: write the image to OUT, and print its report",
        "Example:\n  persist_report run my.csv my.img --workers 2",
        args,
    )?;
    Ok(command.long_about(DETAILS))
}

/// What `run` is asked for; none if something is missing, which the parser refuses.
pub fn run_task<'a>(run: &ArgMatches<'a>) -> Option<Task<'a>> {
    Some(Task::Run {
        script: run.get_str("SCRIPT")?,
        out: run.get_str("OUT")?,
        workers: Workers::of(run.get_one::<u32>("workers")?)?,
    })
}
