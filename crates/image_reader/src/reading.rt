//! What the words of a segment read as.

use bucket_ranges::Spec;
use bucket_ranges::reading::RecordFault;
use segment_image::ImageFault;

/// What a histogram of a segment reads as.
#[derive(Drop)]
pub struct HistReading {
    /// The index of the first word of its record.
    pub reference: u64,
    /// The bytes of its name, from 1 to 128.
    pub name: Vec<u8>,
    /// How it splits the values into buckets.
    pub spec: Spec,
    /// The least value of each bucket and its units, all buckets in order; or, if the histogram is sparse, each value
    /// that has a record and its units, ascending.
    pub counts: Vec<(i32, u64)>,
    /// For each of these, the units that deltas have taken.
    pub marks: Vec<u64>,
    /// The sum of the samples. In a record it fits 64 bits.
    pub sum: i128,
    /// The part of the sum that deltas have taken.
    pub sum_mark: i128,
    /// The units that were counted a second time, apart from the buckets.
    pub redundant: u64,
}

/// A record that was not read.
#[derive(Clone, Copy, PartialEq, Eq)]
pub struct BadRecord {
    /// The index of the first word of the record.
    pub reference: u64,
    /// Why it was not read.
    pub fault: RecordFault,
}

/// What the words of a segment read as.
#[derive(Drop)]
pub struct Reading {
    /// The segment's id.
    pub id: u64,
    /// Whether an allocation did not fit.
    pub full: bool,
    /// Whether some thread found the segment corrupt.
    pub corrupt: bool,
    /// For each name the first valid histogram, in the order of the list.
    pub hists: Vec<HistReading>,
    /// Each record, of a histogram or of a sample, that has a fault, in the order of the list.
    pub bad: Vec<BadRecord>,
    /// Why the list stops before its end: `BadRef`, `BadBlock` or `Loop`. What was read before that stays.
    pub stopped: Option<ImageFault>,
}
