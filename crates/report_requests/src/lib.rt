//! What the command line of `persist_report` asks for.
//!
//! `Request::of` reads the words of a command line. `error_of` makes the parser's error for a mistake in words that the
//! parser takes: its kind is never help, the version or out of memory (`mistakes.rt`). The numbers that a request has
//! are in their ranges: there are 1 to 16 workers, and segments are counted from 1.
#![tactic(auto)]

mod arguments;
mod ask;
mod command;
mod dashes;
mod explain;
mod export;
mod extract;
mod fold;
mod info;
mod list;
mod look;
mod merge;
mod mistakes;
mod nth;
mod report;
mod request;
mod resume;
mod run;
mod scale;
mod show;
mod size;
mod sum_options;
mod task;
mod text_options;
mod unasked;

pub use ask::{Ask, Options, Text};
pub use dashes::check_dashes;
pub use mistakes::error_of;
pub use nth::Nth;
pub use request::Request;
pub use scale::Scale;
pub use size::SizeTask;
pub use task::Task;
pub use unasked::Unasked;
