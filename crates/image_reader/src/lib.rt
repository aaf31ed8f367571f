//! Reads the words of a segment, whatever they are.
//!
//! A reading is exactly what the definition in `bucket_ranges`, `specs/Reading.antt`, gives for the words: for each
//! name the first valid histogram of the list, with its samples if it is sparse; each record that has a fault; and why
//! the list stops. The time is linear in the words and in the buckets that are read, up to a logarithm for names and
//! samples: two arrays of truth values, one for each word, mark the references that were visited and the sparse
//! histograms that are read; names are kept in an ordered set, and samples in an ordered map. A list of buckets is made
//! only for a record without a fault, and only for the first of its name; a [`Survey`] of the list makes none until it
//! is asked for one histogram. A call runs out of memory only if the allocator refused to let one of these grow.
#![tactic(auto)]

mod buckets;
mod gathering;
mod histogram;
mod name;
mod names;
mod reader;
mod reading;
mod record;
mod sample;
mod spec;
mod survey;
mod walk;

pub use bucket_ranges::reading::RecordFault;
pub use reader::{has_more_keys, read};
pub use reading::{BadRecord, HistReading, Reading};
pub use survey::Survey;
pub use walk::{Listed, list_of};
