//! How large a segment has to be for the histograms of a script, and the text that says it.
//!
//! `Blocks::of` has the words of a histogram's blocks; `sizes_of` has them for all histograms of a script, with the
//! size that `segment_sizes::needed_size` finds for all these blocks. The text of it is only tested.
#![tactic(auto)]

mod blocks;
mod sizes;
mod text;
mod values;

pub use blocks::{Blocks, SAMPLE_WORDS};
pub use sizes::{HistSize, Sizes, sizes_of};
pub use values::values_of;
