//! The command `look`.

use crate::arguments::{at_option, command_with, explain_flag, file};
use crate::task::Task;
use clap::{Arg, ArgMatches, Command};
use std::alloc::{AllocError, Global};

// What the command does.
const DETAILS: &str =
    "Write the image of a segment that a process is using: FILE is read three times,
and the process is not disturbed. It has the histograms and counts of the time
of the reads. Use it like any other image. OUT is the old file until it is the
whole new one.";

/// The command that writes the image of a segment in use.
pub fn look_command<'a>(alloc: Global) -> Result<Command<'a>, AllocError> {
    let args = vec![in alloc;
        file(alloc, "FILE", "File that a process has mapped, or an image"),
        Arg::new(alloc, "OUT").help("File for the image [default: standard output]"),
        at_option(alloc),
        explain_flag(alloc),
    ]?;
    let command = command_with(
        alloc,
        "look",
        "Write the image of a segment that a process is using",
        "Example:\n  persist_report look my.img now.img",
        args,
    )?;
    Ok(command.long_about(DETAILS))
}

/// What `look` is asked for; none if something is missing, which the parser refuses.
pub fn look_task<'a>(look: &ArgMatches<'a>) -> Option<Task<'a>> {
    Some(Task::Look {
        file: look.get_str("FILE")?,
        at: look.get_one::<u64>("at"),
        out: look.get_str("OUT"),
    })
}
