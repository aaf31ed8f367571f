//! Allocation in a segment by single atomic events.
//!
//! An allocation claims a block of words that were never used before. Each call performs one event, which changes at
//! most one word, so any number of allocations can run side by side in any order, and each can stop after any event.
//! The events are in `specs/Event.antt`, what an allocation does in `specs/Alloc.antt`, and what
//! holds between any two events of any number of allocations in `specs/Laws.antt`. No call takes memory.
#![tactic(auto)]

mod alloc;
mod attempt;
pub mod event;
pub mod laws;
mod planned;

pub use alloc::{Alloc, AllocStep, TooLarge};
pub use attempt::Attempt;
pub use planned::{Planned, plan};
