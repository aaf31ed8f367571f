//! What a running segment counts, seen from inside: its histograms, each with its name, its spec and a snapshot.
//!
//! [`reading`] takes it by a recorder, while other threads record. It needs no name, and claims and publishes nothing.
#![tactic(auto)]

mod live_reading;

pub use live_reading::{LiveHistogram, LiveReading, reading};
