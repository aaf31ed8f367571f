//! The memory that a segment's words lie in: of the heap, or a room that the caller gives and gets back.
//!
//! A [`Memory`] is an allocator, and each block goes back where it came from. A [`Room`] is memory that the caller
//! owns, such as a mapped file. [`Lender::lend`] makes it the memory of one segment, where it is handed out once; when
//! the segment is closed, the lender has it again. No call takes a lock or waits, and threads may share both.
#![tactic(auto)]

mod block;
mod memory;
mod room;
mod shelf;
#[cfg(test)]
mod tests;

pub use memory::{Lender, Memory};
pub use room::Room;
