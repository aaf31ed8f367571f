//! A recorder that shares its segment by an `Arc`; the one of `live_segment` borrows it.
//!
//! An [`OwnedRecorder`] has every call of [`Recorder`](live_segment::Recorder), with its clauses: each is a
//! [`RecorderState`](live_segment::RecorderState), which has the calls, and a way to the segment. [`owned_recorder`] makes one, [`lend`]
//! lends it units and [`join`] takes it back, as the calls of [`Opener`](live_segment::Opener) do. For a caller that makes one call after
//! another, `proofs/Seating/Callers.antt` of `live_segment` has the lemmas.
#![tactic(auto)]

mod opening;
mod owned;

pub use opening::{join, lend, owned_recorder};
pub use owned::OwnedRecorder;
