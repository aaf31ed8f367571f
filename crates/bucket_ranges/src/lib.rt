//! The buckets of histograms, and what the words of a segment read as.
//!
//! A spec says how a histogram splits the values from 0 to 2,147,483,646 into buckets; the ranges of a spec are
//! computed once, in whole numbers, and [`Spec::is_same`] says whether two specs have the same. The module `limits`
//! names the limits of histograms. The module `reading` has what a record of a segment can be refused for, and its
//! definitions, `specs/Reading.antt`, are what every reader and every writer of segments is held to.
#![tactic(auto)]

mod custom;
pub mod limits;
mod ranges;
pub mod reading;
mod samples;
pub mod scale;
mod single;
mod spec;

pub use custom::{CustomValues, distinct_values_stand_once};
pub use ranges::{Ranges, buckets_split_values, one_bucket_has_a_value};
pub use samples::{Plain, amount_of, empty_buckets, tally};
pub use scale::log_linear;
pub use single::SingleWord;
pub use spec::{Spec, SpecFault};
