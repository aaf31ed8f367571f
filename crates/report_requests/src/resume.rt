//! The command `resume`.

use crate::arguments::{command_with, explain_flag, file};
use crate::run::workers_option;
use crate::task::Task;
use clap::{ArgMatches, Command};
use report_asks::Workers;
use std::alloc::{AllocError, Global};

// What the command does.
const DETAILS: &str = "Continue from image BASE: run a script and write the new image to OUT and its
report to standard output. OUT may be BASE.";

/// The command that continues from an image.
pub fn resume_command<'a>(alloc: Global) -> Result<Command<'a>, AllocError> {
    let args = vec![in alloc;
        file(alloc, "BASE", "Image to continue from, of version 2"),
        file(
            alloc,
            "SCRIPT",
            "Script to run, as CSV; its segment record has the size,\npage and id of BASE",
        ),
        file(alloc, "OUT", "File for the new image"),
        workers_option(alloc),
        explain_flag(alloc),
    ]?;
    let command = command_with(
        alloc,
        "resume",
        "Continue from image BASE: run a script, and write the new image",
        "Example:\n  persist_report resume my.img my.csv my.img",
        args,
    )?;
    Ok(command.long_about(DETAILS))
}

/// What `resume` is asked for; none if something is missing, which the parser refuses.
pub fn resume_task<'a>(resume: &ArgMatches<'a>) -> Option<Task<'a>> {
    Some(Task::Resume {
        base: resume.get_str("BASE")?,
        script: resume.get_str("SCRIPT")?,
        out: resume.get_str("OUT")?,
        workers: Workers::of(resume.get_one::<u32>("workers")?)?,
    })
}
