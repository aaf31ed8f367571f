//! The list of a segment's records, by single atomic events.
//!
//! A record is published by one exchange of the last next of the list, so it is on the list whole or not at all; the
//! tail is a hint where the list ends, and any publisher may move it on. A walk gives the records in the order in
//! which they were published. Cursors that share a word share out the records: each is given by one of them. The chain
//! and the list are defined in `specs/Chain.antt`; what a publish, a walk and a cursor do, and what their places on a
//! list are, is in `specs/Publish.antt`, `specs/Walk.antt` and `specs/Cursor.antt`. All this is over words and a chain
//! alone: what holds of a segment, with its blocks and its actors, is in the crates of the machine. No call takes
//! memory.
#![tactic(auto)]

mod cursor;
pub mod laws;
mod publish;
mod reference;
mod walk;

pub use cursor::{Cursor, CursorStep};
pub use publish::{PubStep, Publish};
pub use walk::{Walk, WalkStep};
