//! What calls have counted and taken, as a world shows it.

/// Units of one key of a histogram, and an amount of its sum: what an accepted call counts. The key of a bucket is its
/// least value; that of a sparse sample is its value.
#[derive(Drop)]
pub struct Entry {
    /// The name of the histogram.
    pub name: Vec<u8>,
    /// The key that the units have.
    pub key: i32,
    /// How many units.
    pub units: u64,
    /// What is added to the sum.
    pub amount: i64,
}

/// What a delta took; of a running one, what it has taken so far.
#[derive(Drop)]
pub struct Taken {
    /// The name of the histogram.
    pub name: Vec<u8>,
    /// The keys of which it took units, ascending, each with how many.
    pub counts: Vec<(i32, u64)>,
    /// What it took of the sum.
    pub sum: i64,
}
