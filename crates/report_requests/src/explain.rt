//! The command `explain`.

use crate::arguments::command_with;
use crate::task::Task;
use clap::{Arg, ArgMatches, Command};
use std::alloc::{AllocError, Global};

// What the command does.
const DETAILS: &str =
    "Say what a fault means and what to do. A name may be in any case. It may also be
a status of the calls from C, such as POVUNDIRI_REFUSED_NO_UNITS.";

/// The command that says what faults mean.
pub fn explain_command<'a>(alloc: Global) -> Result<Command<'a>, AllocError> {
    let name = Arg::new(alloc, "NAME").help("Name of a fault, in any case; all if it is left out");
    let args = vec![in alloc; name]?;
    let command = command_with(
        alloc,
        "explain",
        "Say what a fault means and what to do",
        "Example:\n  persist_report explain BadLine",
        args,
    )?;
    Ok(command.long_about(DETAILS))
}

/// What `explain` is asked for.
pub fn explain_task<'a>(explain: &ArgMatches<'a>) -> Task<'a> {
    Task::Explain {
        name: explain.get_str("NAME"),
    }
}
