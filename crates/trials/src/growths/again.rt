//! A call is made again if it is refused.

use std::fmt::Display;
use std::io;

/// What is asked for up to the next line is asked for by this call.
pub(super) fn show_try(rt: &impl Print, name: &str) -> io::Result<()> {
    println!(rt; "try {name}")
}

/// A call was refused.
pub(super) fn show_refused(rt: &impl Print, name: &str, why: &impl Display) -> io::Result<()> {
    println!(rt; "refused {name} {why}")
}

/// What a call returns; if it is refused, what it returns when it is made again.
macro_rules! again {
    ($rt:expr, $name:expr, $call:expr) => {{
        show_try($rt, $name)?;
        match $call {
            Ok(answer) => answer,
            Err(why) => {
                show_refused($rt, $name, &why)?;
                $call?
            }
        }
    }};
}

pub(super) use again;
