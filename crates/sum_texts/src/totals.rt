//! Sums that are kept without their images.

use reading_sums::Sums;

/// A sum, and which segments are in it if a fold made it.
#[derive(Drop)]
pub struct Totals {
    /// The sum.
    pub sums: Sums,
    /// The segments that are in the sum, each a number and an id; none if no fold made it.
    pub of: Vec<(u64, u64)>,
    /// The serial of the fold that made it.
    pub fold: Option<u64>,
}
