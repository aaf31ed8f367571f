//! The command `info`.

use crate::arguments::{command_with, explain_flag, flag, image, put, put_live_options};
use clap::{Arg, Command};
use std::alloc::{AllocError, Global};

// The arguments of the command.
fn put_args<'a>(alloc: Global, args: &mut Vec<Arg<'a>>) -> Result<(), AllocError> {
    put(args, image(alloc))?;
    put(
        args,
        flag(alloc, "human", "Write numbers with separators: 1,234,567"),
    )?;
    put_live_options(alloc, args)?;
    put(args, explain_flag(alloc))
}

/// The command that writes the overview of an image.
pub fn info_command<'a>(alloc: Global) -> Result<Command<'a>, AllocError> {
    let mut args = Vec::new(alloc);
    put_args(alloc, &mut args)?;
    command_with(
        alloc,
        "info",
        "Show what an image is: version, size, room, units, kinds and damage",
        "Example:\n  persist_report info my.img",
        args,
    )
}
