//! The functions that C calls.

mod following;
mod look;
mod merging;
mod reading;
mod recording;
mod reporting;
mod segments;
mod summing;
