//! Whether an image may be adopted: whether a segment may be opened with its words, and continue to count from there.
//!
//! [`check`] returns the records of the words and the units that they have used, or the first fault that holds, in the
//! order in which [`AdoptFault`] lists them. What makes an image adoptable is defined in `image_rules`,
//! `specs/Adoption.antt`; a law of `segment_promises` says that it opens a kept segment; which answer is the right one
//! is defined here, in `specs/Checking.antt`. No word is trusted. Blocks that overlap are looked for first: each word
//! of a block is marked once. Then the list is surveyed, and the histograms are counted one after the other, each freed
//! before the next. So the time is linear in the words and in the buckets of the histograms, up to a logarithm for
//! names and values.
#![tactic(auto)]

mod blocks;
mod checking;
mod counts;
mod damage;
mod ends;
mod names;
mod samples;
mod units;

pub use checking::{Adoptable, MAX_CURSORS, check};
pub use segment_calls::AdoptFault;
pub use segment_image::ImageFault;
