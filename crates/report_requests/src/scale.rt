//! The command `scale`.

use crate::arguments::{command_with, explain_flag, file};
use crate::task::Task;
use clap::{Arg, ArgMatches, Command, value_parser};
use std::alloc::{AllocError, Global};

// What the command does.
const DETAILS: &str =
    "Print the script record of a histogram whose buckets grow with the values: each\nis at most 1 part in 2^BITS wide.";

/// The scale that is asked for: the least value, the value that the buckets reach, and the bits of a bucket's width.
#[derive(Clone, Copy)]
pub struct Scale {
    pub min: u32,
    pub max: u32,
    pub bits: u32,
}

// A number of a scale.
fn number<'a>(alloc: Global, name: &'a str, help: &'a str) -> Arg<'a> {
    file(alloc, name, help).value_parser(value_parser!(u32))
}

/// The command that prints the record of a script for a histogram of a scale.
pub fn scale_command<'a>(alloc: Global) -> Result<Command<'a>, AllocError> {
    let args = vec![in alloc;
        file(alloc, "NAME", "Name of the histogram"),
        number(alloc, "MIN", "Least value, 1 or more"),
        number(
            alloc,
            "MAX",
            "Value that the buckets reach, at most 2147483646"
        ),
        number(
            alloc,
            "BITS",
            "1 to 8: values of a bucket differ by at most 1 part in 2^BITS",
        ),
        explain_flag(alloc),
    ]?;
    let command = command_with(
        alloc,
        "scale",
        "Print the script record of a histogram whose buckets grow",
        "Example:\n  persist_report scale latency.us 1 1000000 3",
        args,
    )?;
    Ok(command.long_about(DETAILS))
}

/// What `scale` is asked for; none if something is missing, which the parser refuses.
pub fn scale_task<'a>(scale: &ArgMatches<'a>) -> Option<Task<'a>> {
    Some(Task::Scale {
        name: scale.get_str("NAME")?,
        scale: Scale {
            min: scale.get_one::<u32>("MIN")?,
            max: scale.get_one::<u32>("MAX")?,
            bits: scale.get_one::<u32>("BITS")?,
        },
    })
}
