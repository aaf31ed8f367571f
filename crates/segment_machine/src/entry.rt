//! What accepted calls count.

use std::collections::LinkedList;

/// Units of one key of a histogram, and an amount of its sum. An accepted `add` counts one entry, an accepted `batch`
/// one for each item, and one for its sum unless that is 0. The key of a bucket is its least value; that of a sparse
/// sample is its value.
pub struct Entry {
    /// The name of the histogram.
    pub name: LinkedList<u8>,
    /// The key that the units have.
    pub key: i32,
    /// How many units.
    pub units: u64,
    /// What is added to the sum.
    pub amount: i64,
}

/// An entry, and which of its three events have happened.
pub struct EntryProgress {
    /// The entry.
    pub entry: Entry,
    /// Its units were packed into the single word, or added to a count.
    pub counted: bool,
    /// Its amount was added to the sum.
    pub summed: bool,
    /// Its units were added to the redundant count.
    pub noted: bool,
}
