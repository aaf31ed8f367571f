//! The arguments that several commands have.

use clap::{Arg, ArgAction, Command, value_parser};
use std::alloc::{AllocError, Global};

/// A command: its name, what it does in a line, an example that comes after its help, and its arguments.
pub fn command_with<'a>(
    alloc: Global,
    name: &'a str,
    about: &'a str,
    example: &'a str,
    args: Vec<Arg<'a>>,
) -> Result<Command<'a>, AllocError> {
    Command::new(alloc, name)
        .about(about)
        .after_help(example)
        .args(args)
}

/// Appends an argument or a command.
pub fn put<T: Drop>(items: &mut Vec<T>, item: T) -> Result<(), AllocError> {
    items.push(item)?;
    Ok(())
}

/// Excludes others if this argument is used.
pub fn excluding<'a>(arg: Arg<'a>, others: &[&'static str]) -> Result<Arg<'a>, AllocError> {
    let mut arg = arg;
    for other in others {
        arg = arg.conflicts_with(*other)?;
    }
    Ok(arg)
}

/// An option that has no value.
pub fn flag<'a>(alloc: Global, name: &'a str, help: &'a str) -> Arg<'a> {
    Arg::new(alloc, name)
        .long(name)
        .action(ArgAction::SetTrue)
        .help(help)
}

/// An option that has a value, which its help calls by this name.
pub fn option<'a>(alloc: Global, name: &'a str, value: &'a str, help: &'a str) -> Arg<'a> {
    Arg::new(alloc, name)
        .long(name)
        .value_name(value)
        .help(help)
}

/// A file that has to be named.
pub fn file<'a>(alloc: Global, name: &'a str, help: &'a str) -> Arg<'a> {
    Arg::new(alloc, name).required(true).help(help)
}

/// Asks for the lines that follow the line of a fault.
pub fn explain_flag<'a>(alloc: Global) -> Arg<'a> {
    flag(
        alloc,
        "explain",
        "Explain errors (on by default in a terminal)",
    )
    .long_help("Explain errors: file, line, reason and what to do (on by default in a\nterminal)")
}

/// The image that is read.
pub fn image<'a>(alloc: Global) -> Arg<'a> {
    Arg::new(alloc, "FILE")
        .help("Image file [default: standard input]")
        .long_help("Image file; standard input if it is left out or -")
}

/// Where the segment that is looked at begins.
pub fn at_option<'a>(alloc: Global) -> Arg<'a> {
    option(alloc, "at", "BYTE", "Where the segment begins in FILE")
        .value_parser(value_parser!(u64))
        .long_help(
            "Where the segment begins in FILE, as in /proc/PID/mem: at the zeros of\na mapped file, or at its image",
        )
}

/// Asks for a look at a file that a process is using, and where the segment begins in it.
pub fn put_live_options<'a>(alloc: Global, args: &mut Vec<Arg<'a>>) -> Result<(), AllocError> {
    let live = flag(alloc, "live", "Look at FILE while a process is using it").long_help(
        "Look at FILE while a process is using it, as `look` does",
    );
    put(args, live)?;
    put(
        args,
        at_option(alloc).hide_short_help(true).requires_arg("live")?,
    )
}
