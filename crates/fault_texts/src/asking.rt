//! Whether the lines that follow the line of a fault are asked for, if no word of the command line says so.

use std::os::unix::fs::{FileTypeExt, MetadataExt};
use std::rt::{Env, Files};
use std::{env, fs};

/// The variable of the environment that asks for the lines of every fault.
pub const VARIABLE: &str = "PERSIST_REPORT_EXPLAIN";

// The first part of the number of a device, as Linux has it.
fn major(device: u64) -> u64 {
    device >> 8 & 0xfff
}

/// Whether the open file of the program with this path in `/proc/self/fd` is a terminal: a device of one of the kinds
/// that Linux has for them. If the system does not say, it is none.
pub fn is_terminal_at<R: Files>(rt: &R, open: &str) -> bool {
    fs::metadata(rt, open).is_ok_and(|found| {
        found.file_type().is_char_device() && matches!(major(found.rdev()), 4 | 5 | 136..=143)
    })
}

// Whether the environment asks for the lines: the variable has a value other than 0. If it cannot be read, it does not.
fn is_in_environment<R: Env + AllocGlobal>(rt: &R) -> bool {
    env::var(rt, VARIABLE).is_ok_and(|value| !value.is_empty() && value.as_str() != "0")
}

/// Whether the lines are asked for: by the environment, or because the error stream is a terminal.
pub fn is_asked<R: Env + Files + AllocGlobal>(rt: &R) -> bool {
    is_in_environment(rt) || is_terminal_at(rt, "/proc/self/fd/2")
}
