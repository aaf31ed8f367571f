//! The files, streams and faults of a command: what it reads and writes, and how it ends if a device fails.
//!
//! A file that a command writes is the old one or the whole new one (`output.rt`). What fails is noted where it fails
//! (`noted.rt`), and each fault has a status (`failure.rt`) and, if that is asked for, lines that explain it
//! (`explaining.rt`). A command that writes its text again and again says each fault once (`telling.rt`).
#![tactic(auto)]

mod cause;
mod context;
mod ending;
mod explaining;
mod failure;
mod incoming;
mod leftover;
mod link_target;
mod lock;
mod noted;
mod opening;
mod output;
mod part;
mod reported;
mod sentence;
mod system;
mod telling;
mod terminal;

pub use cause::Cause;
pub use context::Context;
pub use ending::{end, failed};
pub use explaining::{FaultContext, failure_of, remedies_of, unopened, unopened_out};
pub use failure::Failure;
pub use incoming::Incoming;
pub use leftover::{is_at, is_new_name};
pub use lock::{Unopened, take_lock};
pub use noted::{Noted, Stream};
pub use opening::{open, open_out};
pub use output::Output;
pub use part::Part;
pub use reported::Reported;
pub use sentence::Sentence;
pub use system::System;
pub use telling::Telling;
pub use terminal::{columns, reads_terminal, tells_terminal};
