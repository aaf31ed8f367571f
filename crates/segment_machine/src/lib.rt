//! What the calls on a segment do, as plain data: the entries that they count, what each actor has done and seen, and
//! the atomic events.
//!
//! Nothing here runs. A segment is stepped in two ways, one event a call over plain words, and by threads over shared
//! words; these definitions hold for both. An actor is a caller: a thread's recorder, or an opener, which makes
//! recorders and takes them back. What an actor has done and seen is an `Actor`, whose types are in this folder, since
//! callers hold them as what a thread knows. The definitions are in `specs/`: entries and their tally (`Entry`), the
//! events, a file for each family (`Allocating`, `Publishing`, `Walking`, `Counting`, `Packing`, `Taking`, `Cursors`)
//! and one that puts them together (`Event`), what an actor notes (`Note`), how recorders are made and joined
//! (`Seats`), one step (`State`) and the states that are reached (`Reached`). The forms of a single word are those of
//! `segment_calls` (`Form`). `Stages` says how an actor follows an allocation, a publish and a walk that are stepped by
//! themselves. Worked examples are in `Examples`, `Lives`, `Worked` (a run from a new segment to the joins), `Races`,
//! `Looks` and `Refused`.
//!
//! What holds between any two events is in `segment_invariant`, what follows from it in `segment_promises`.
#![tactic(auto)]

mod actor;
mod entry;
pub mod laws;
mod place;
mod seen;

pub use actor::{
    Actor, Answered, Answers, Claim, Cost, Deltas, Done, Entries, Given, Hand, Known, Made, Moment,
    Own, Portion, Published, Rise, Role, Segment, Since, Taken, Units,
};
pub use entry::{Entry, EntryProgress};
pub use place::{Look, Place};
pub use seen::{Seen, Sighting};
