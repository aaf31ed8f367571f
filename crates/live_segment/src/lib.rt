//! A running segment: many threads record in it at once, without locks.
//!
//! The words of a [`Segment`] change by single atomic steps. Its [`Opener`] makes a [`Recorder`] for each thread and takes
//! it back; when the segment is closed, its words are those of an image. Between any two steps the invariant of
//! `segment_invariant` holds: it is the rule of the table that has the words, so each step is proved to keep it. What a
//! thread has done and seen is the view of its seat at that table, which takes no memory.
//!
//! A program that records needs this crate alone: the types of what its calls take and return, such as [`Spec`] and
//! [`Refusal`], are exported here. The clauses of a function that is passed a segment, an opener or a recorder use the
//! words of `specs/Holders.antt`, such as `IsMadeWith`, `RecordsInto`, `SharesSegment` and `HasCursor`, and of
//! `specs/RecorderState.antt`, such as `Knows`. The lemmas on them are in `proofs/Seating/Callers.antt`.
#![tactic(auto)]

mod add;
mod adopting;
mod alloc;
mod delta;
mod hist;
mod list;
mod look;
mod opener;
mod recorder;
mod rule;
mod seats;
mod segment;
mod snapshot;
mod steps;

pub use bucket_ranges::{CustomValues, Spec, SpecFault};
pub use image_adoption::MAX_CURSORS;
pub use opener::Opener;
pub use recorder::{Hist, Recorder, RecorderState};
pub use segment::Segment;
pub use segment_calls::{AdoptFault, BatchRefusal, Delta, OpenFault, Refusal, Snapshot};
pub use segment_image::Image;
pub use segment_image::layout::{VERSION_FROZEN, VERSION_MOVING};
pub use segment_looks::LookFault;
pub use segment_memory::{Lender, Memory, Room};
