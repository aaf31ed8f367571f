//! Sums of any number of images.
//!
//! A sum is made of readings that have numbers, one after the other, or of other sums. For each name and spec it has
//! what the histograms of that name and spec have together; histograms of one name with different specs stay apart. Its
//! totals are those of the list of the readings (`specs/Totals.antt`), in whatever order they were added and however
//! they were grouped. A refused call changes nothing.
#![tactic(auto)]

mod check;
mod fault;
mod hist;
mod key;
mod laws;
mod notes;
mod order;
mod raised;
mod shown;
mod since;
mod sums;

pub use fault::{MinusFault, SumsFault};
pub use hist::HistSum;
pub use key::KeySum;
pub use laws::{one_image_reads_the_same, order_is_nothing, parts_append, words_are_whole};
pub use notes::Notes;
pub use shown::OtherSpec;
pub use sums::Sums;
