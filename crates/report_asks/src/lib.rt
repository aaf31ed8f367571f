//! What commands that write a text are asked for, and what may be wrong with a command line: plain values.
//!
//! It depends on nothing, so the files and streams of a program can be proved without the parser of its command line.
#![tactic(auto)]

mod inputs;
mod repeat;
mod workers;
mod wrong;

pub use inputs::{DASH, Inputs};
pub use repeat::Repeat;
pub use workers::Workers;
pub use wrong::Wrong;
