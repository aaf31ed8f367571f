//! The command `extract`.

use crate::arguments::{command_with, explain_flag, file, option};
use crate::nth::Nth;
use crate::task::Task;
use clap::{Arg, ArgMatches, Command, value_parser};
use std::alloc::{AllocError, Global};

// What the command does.
const DETAILS: &str =
    "Find a segment in any file, such as a mapped file or a core dump, and write its
image to OUT; prints its offset on the error stream.";

// Which of several segments is meant.
fn nth_option<'a>(alloc: Global) -> Arg<'a> {
    option(
        alloc,
        "nth",
        "N",
        "Which of the segments in the file, counted from 1",
    )
    .value_parser(value_parser!(u64).range(1..))
    .default_value("1")
}

/// The command that finds a segment in a file.
pub fn extract_command<'a>(alloc: Global) -> Result<Command<'a>, AllocError> {
    let args = vec![in alloc;
        file(alloc, "FILE", "File to search"),
        file(alloc, "OUT", "File for the image"),
        nth_option(alloc),
        explain_flag(alloc),
    ]?;
    let command = command_with(
        alloc,
        "extract",
        "Find a segment in any file, and write its image to OUT",
        "Example:\n  persist_report extract my.img found.img",
        args,
    )?;
    Ok(command.long_about(DETAILS))
}

/// What `extract` is asked for; none if something is missing, which the parser refuses.
pub fn extract_task<'a>(extract: &ArgMatches<'a>) -> Option<Task<'a>> {
    Some(Task::Extract {
        file: extract.get_str("FILE")?,
        out: extract.get_str("OUT")?,
        nth: Nth::of(extract.get_one::<u64>("nth")?)?,
    })
}
