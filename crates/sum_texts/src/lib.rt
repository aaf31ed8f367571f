//! The texts of sums of images, and sums as texts.
#![tactic(auto)]

mod ending;
mod fault;
mod fields;
mod laws;
mod lines;
mod name;
mod number;
mod reading;
mod reading_back;
mod runs;
mod totals;
mod writing;
mod wrong;

pub use ending::{put_ending, report_of};
pub use fault::TotalsFault;
pub use laws::one_image_writes_the_same;
pub use reading_back::totals_of;
pub use totals::Totals;
pub use writing::totals_text;
