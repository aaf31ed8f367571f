//! The overview of an image: its header, its room, its units, and what of it can be read; and how numbers are written,
//! in the overview and in all texts for people.
//!
//! The overview is defined in `specs/Overview.antt`, over the header of an image and its reading. The units that an
//! image of version 2 has used are those that adoption counts; in version 1 they are the units of its histograms. The
//! overview of a sum of images, which has no header, is defined in `specs/SumOverview.antt`.
#![tactic(auto)]

mod numbers;
mod overview;
mod spent;
mod sum_overview;

pub use numbers::{put_difference, put_digits, put_number, put_sign, put_signed};
pub use overview::{overview_text, put_overview};
pub use sum_overview::{SumHead, sum_overview_text};
