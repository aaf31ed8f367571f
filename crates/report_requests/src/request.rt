//! What the program is asked to do.

ghost use Rattle.std.specs.Prelude.{IfErr};
ghost use Rattle.report_requests.specs.Mistakes.{HasItsKind};

use crate::ask::ask_found;
use crate::command::command;
use crate::explain::explain_task;
use crate::extract::extract_task;
use crate::fold::fold_task;
use crate::look::look_task;
use crate::merge::merge_task;
use crate::resume::resume_task;
use crate::run::run_task;
use crate::scale::scale_task;
use crate::size::size_task;
use crate::task::Task;
use crate::unasked::Unasked;
use clap::ArgMatches;
use clap::error::ErrorKind;
use std::alloc::{AllocError, Global};
use std::convert::AsStr;

/// What the program is asked to do.
#[derive(Drop)]
pub struct Request<'a> {
    pub task: Task<'a>,
    /// Whether faults are to be explained.
    pub explains: bool,
}

// What a command of this name does, if it writes no text; none if something is missing, which the parser refuses.
fn other_task<'a>(name: &str, found: &ArgMatches<'a>) -> Option<Task<'a>> {
    match name {
        "run" => run_task(found),
        "resume" => resume_task(found),
        "merge" => merge_task(found),
        "look" => look_task(found),
        "fold" => fold_task(found),
        "extract" => extract_task(found),
        "scale" => scale_task(found),
        "explain" => Some(explain_task(found)),
        _ => None,
    }
}

// What a command of this name does, and whether it is asked to explain; none if something is missing, which the parser
// refuses.
fn task_of<'a>(
    alloc: Global,
    name: &str,
    found: &ArgMatches<'a>,
    columns: u16,
    explains: bool,
) -> Result<Option<Task<'a>>, AllocError> {
    if name == "size" {
        return Ok(Some(Task::Size(size_task(alloc, found)?)));
    }
    match ask_found(alloc, name, found, columns, explains)? {
        Some(ask) => Ok(Some(Task::Text(ask))),
        None => Ok(other_task(name, found)),
    }
}

impl<'a> Request<'a> {
    /// Returns what a command line asks for, whose first word is the program's name. A line of a text has `columns`
    /// columns, unless the words say how many.
    ///
    /// The error is `Mistake` for a mistake in the words, `Help` if they ask for the help or the version, and else
    /// `NoMemory`.
    pub fn of<S: AsStr>(alloc: Global, words: &'a [S], columns: u16) -> Result<Request<'a>, Unasked>
        ensures { IfErr result HasItsKind }
    {
        let mut command = command(alloc)?;
        let matches = command.try_get_matches_from_mut(words)?;
        if let Some((name, found)) = matches.subcommand() {
            let explains = found.get_flag("explain") || matches.get_flag("explain");
            if let Some(task) = task_of(alloc, name, found, columns, explains)? {
                return Ok(Request { task, explains });
            }
        }
        let missing = command.error(ErrorKind::MissingSubcommand, "a subcommand is required")?;
        Err(Unasked::Mistake(missing))
    }
}
