//! Finds segments among any bytes, such as those of a mapped region or a dump of a process's memory.
//!
//! There is a segment at each place, a multiple of eight bytes, at which there is a valid header with all the words
//! that it says. Every such place counts, also one inside the words of another segment: `specs/Places.antt`. The bytes
//! are read in blocks, from the first byte to the end of the segment that is searched for, and never twice.
#![tactic(auto)]

mod extracting;
mod fault;
mod reading;
mod search;
mod window;

pub use extracting::extract;
pub use fault::SearchFault;
pub use search::{Found, find_segment};
