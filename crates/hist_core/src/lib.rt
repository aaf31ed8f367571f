//! The calls on a segment as plain data, which runs one event a step. They return the types of `segment_calls`, as in
//! every crate that runs a segment.
#![tactic(auto)]

mod actor_run;
mod add;
mod batch;
mod call;
mod call_entries;
mod delta_call;
mod drawing;
mod entry;
mod fault;
mod hist;
mod keys;
pub mod laws;
mod mounted;
mod new_record;
mod sample_search;
mod snapshot_call;
mod walk;
mod word_ops;
mod world;
mod world_state;

pub use alloc_core::Attempt;
pub use call::{Answer, Begun, Move, Stepped};
pub use entry::{Entry, Taken};
pub use fault::WorldFault;
pub use segment_calls::{AdoptFault, BatchRefusal, Call, Delta, Refusal, Snapshot};
pub use world::{MAX_ACTORS, World, run_schedule, run_schedule_on};
