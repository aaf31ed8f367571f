//! Whether standard input or the error stream is a terminal, and how wide a line of one is.

use fault_texts::is_terminal_at;
use std::env;
use std::rt::{Env, Files};

// The columns of a line if the environment does not say.
const USUAL_COLUMNS: u16 = 80;

/// Whether standard input is a terminal.
pub fn reads_terminal<R: Files>(rt: &R) -> bool {
    is_terminal_at(rt, "/proc/self/fd/0")
}

/// Whether the error stream is a terminal.
pub fn tells_terminal<R: Files>(rt: &R) -> bool {
    is_terminal_at(rt, "/proc/self/fd/2")
}

/// The columns of a line: the number in `COLUMNS`, but 40 at least and 200 at most; 80 if it has none.
pub fn columns<R: Env + AllocGlobal>(rt: &R) -> u16 {
    let Ok(text) = env::var(rt, "COLUMNS") else {
        return USUAL_COLUMNS;
    };
    match text.as_str().parse::<u16>() {
        Ok(columns) => columns.max(40).min(200),
        Err(_) => USUAL_COLUMNS,
    }
}
