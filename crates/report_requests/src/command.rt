//! The command line of the program: all its commands.
//!
//! `-h` shows at most 24 lines and `--help` everything, in lines of at most 80 columns: `clap` does not wrap them, so
//! each text has its line ends.

use crate::arguments::{explain_flag, put};
use crate::explain::explain_command;
use crate::export::export_command;
use crate::extract::extract_command;
use crate::fold::fold_command;
use crate::info::info_command;
use crate::look::look_command;
use crate::merge::merge_command;
use crate::report::report_command;
use crate::resume::resume_command;
use crate::run::run_command;
use crate::scale::scale_command;
use crate::show::show_command;
use crate::size::size_command;
use clap::Command;
use std::alloc::{AllocError, Global};

// What `--help` of the program has after the commands. The examples work in an empty folder, one after the other.
const EXAMPLES: &str = "Examples:
  printf '%s\\n' segment,256,64,7 hist,A,boolean add,A,1,2 > my.csv
  persist_report run my.csv my.img
  persist_report show my.img
  persist_report report my.img > my_report.csv

A segment is memory in which threads count samples into histograms. An image is
its words in a file: `run` makes one from a script, and so do programs that use
the library.

A fault is one line on the error stream, such as 'persist_report: Read'. The
status is 0 if all is done, 2 for a mistake in the command line, 3 if the bytes
are no image or no script or what they ask for is refused, 4 if a device failed
or a file cannot be opened, and 5 if memory or a thread is missing.

With PERSIST_REPORT_EXPLAIN=1 in the environment every error is explained, as by
--explain: for cron, systemd, containers and CI.";

// What the short help says of the option that asks for explanations.
const EXPLAIN_HELP: &str = "Explain errors, as in a terminal or by PERSIST_REPORT_EXPLAIN=1";

// The commands that write texts.
fn put_reading<'a>(alloc: Global, commands: &mut Vec<Command<'a>>) -> Result<(), AllocError> {
    put(commands, show_command(alloc)?)?;
    put(commands, report_command(alloc)?)?;
    put(commands, info_command(alloc)?)?;
    put(commands, export_command(alloc)?)
}

// The commands that write images and totals.
fn put_writing<'a>(alloc: Global, commands: &mut Vec<Command<'a>>) -> Result<(), AllocError> {
    put(commands, merge_command(alloc)?)?;
    put(commands, run_command(alloc)?)?;
    put(commands, resume_command(alloc)?)?;
    put(commands, look_command(alloc)?)?;
    put(commands, fold_command(alloc)?)?;
    put(commands, extract_command(alloc)?)
}

// All commands, in the order of the help.
fn put_commands<'a>(alloc: Global, commands: &mut Vec<Command<'a>>) -> Result<(), AllocError> {
    put_reading(alloc, commands)?;
    put_writing(alloc, commands)?;
    put(commands, size_command(alloc)?)?;
    put(commands, scale_command(alloc)?)?;
    put(commands, explain_command(alloc)?)
}

// The program, without its commands.
fn program<'a>(alloc: Global) -> Result<Command<'a>, AllocError> {
    Command::new(alloc, "persist_report")
        .version("0.9.0")
        .about("Show, convert, merge and continue the histograms of a Povundiri segment")
        .after_long_help(EXAMPLES)
        .subcommand_required(true)
        .arg(explain_flag(alloc).help(EXPLAIN_HELP))
}

/// The command line of the program. The only error is that memory runs out.
pub fn command<'a>(alloc: Global) -> Result<Command<'a>, AllocError> {
    let mut commands = Vec::new(alloc);
    put_commands(alloc, &mut commands)?;
    program(alloc)?.subcommands(commands)
}
