//! The command `fold`.

use crate::arguments::{command_with, explain_flag, file};
use crate::task::Task;
use clap::{ArgMatches, Command};
use std::alloc::{AllocError, Global};

// What the command does.
const DETAILS: &str =
    "Add the segments of a recording's folder that nobody records into to the totals
there, and remove them, while others record and read. What the folder has in all
is the same before and after, also if the fold is killed. A segment that cannot
be read stays, and is reported.";

/// The command that keeps a recording's folder small.
pub fn fold_command<'a>(alloc: Global) -> Result<Command<'a>, AllocError> {
    let args = vec![in alloc;
        file(alloc, "FOLDER", "Folder of a recording"),
        explain_flag(alloc),
    ]?;
    let command = command_with(
        alloc,
        "fold",
        "Add what is final in a recording's folder to its totals",
        "Example:\n  mkdir metrics && touch metrics/recording\n  persist_report fold metrics",
        args,
    )?;
    Ok(command.long_about(DETAILS))
}

/// What `fold` is asked for; none if something is missing, which the parser refuses.
pub fn fold_task<'a>(fold: &ArgMatches<'a>) -> Option<Task<'a>> {
    Some(Task::Fold {
        folder: fold.get_str("FOLDER")?,
    })
}
