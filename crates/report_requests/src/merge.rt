//! The command `merge`.

use crate::arguments::{command_with, explain_flag, file};
use crate::task::Task;
use clap::{ArgMatches, Command};
use std::alloc::{AllocError, Global};

// What the command does.
const DETAILS: &str = "Add two images into a new one; counts that a delta has already taken are left
out. To see what images have together, use `report` or `show` of all of them.";

/// The command that makes one image of two.
pub fn merge_command<'a>(alloc: Global) -> Result<Command<'a>, AllocError> {
    let args = vec![in alloc;
        file(
            alloc,
            "BASE",
            "Image whose size, page and id the new one gets"
        ),
        file(alloc, "DEAD", "Image whose counts are added to BASE"),
        file(alloc, "OUT", "File for the new image"),
        explain_flag(alloc),
    ]?;
    let command = command_with(
        alloc,
        "merge",
        "Add two images into a new one, without what deltas have taken",
        "Example:\n  persist_report merge my.img my.img both.img",
        args,
    )?;
    Ok(command.long_about(DETAILS))
}

/// What `merge` is asked for; none if something is missing, which the parser refuses.
pub fn merge_task<'a>(merge: &ArgMatches<'a>) -> Option<Task<'a>> {
    Some(Task::Merge {
        base: merge.get_str("BASE")?,
        dead: merge.get_str("DEAD")?,
        out: merge.get_str("OUT")?,
    })
}
