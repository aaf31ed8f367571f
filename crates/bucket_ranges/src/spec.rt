//! How a histogram splits the values into buckets.

use crate::custom::CustomValues;
use thiserror::Error;

/// How a histogram splits the values from 0 to 2,147,483,646 into buckets (Chromium's `base::Histogram`; exponential
/// ranges are left out), or that it does not split them.
#[derive(Drop)]
pub enum Spec {
    /// `n` buckets: one below `min`, one from `max` on, and the others between them as evenly as whole numbers allow.
    Linear { min: u32, max: u32, n: u32 },
    /// The values 0, 1, and 2 and above: a linear histogram from 1 to 2 with three buckets.
    Boolean,
    /// A bucket from 0 on, and one from each of the values on. They may come in any order and repeat, and a value of 0
    /// adds no bucket.
    Custom(CustomValues),
    /// No buckets: each value of an `i32` is counted for itself.
    Sparse,
}

ghost use Rattle.std.specs.Prelude.{◌≡◌, ◌↔◌, true};
ghost use Rattle.bucket_ranges.specs.Spec.{SameSpec, distinct_values, has_values as has_values_of};

impl Spec {
    /// Returns whether two specs are the same: they have the same kind, minimum, maximum and number of buckets, and
    /// custom ones the same ranges. So the order of custom values, values that repeat and values of 0 make no
    /// difference. It takes no memory.
    pub fn is_same(&self, other: &Spec) -> bool
        ensures { (result ≡ true) ↔ SameSpec self.now other.now }
    {
        match (self, other) {
            (
                Spec::Linear { min, max, n },
                Spec::Linear {
                    min: other_min,
                    max: other_max,
                    n: other_n,
                },
            ) => min == other_min && max == other_max && n == other_n,
            (Spec::Boolean, Spec::Boolean) => true,
            (Spec::Custom(values), Spec::Custom(others)) => {
                have_same_values(values.as_slice(), others.as_slice())
            }
            (Spec::Sparse, Spec::Sparse) => true,
            _ => false,
        }
    }
}

// Whether two lists have the same values above 0. Those of one spec mostly are the same list, which is seen in one walk.
fn have_same_values(values: &[u32], others: &[u32]) -> bool
    ensures { (result ≡ true) ↔ (distinct_values values.now ≡ distinct_values others.now) }
{
    values == others || has_values(others, values) && has_values(values, others)
}

// Whether each of the values that is above 0 is among the others.
fn has_values(others: &[u32], values: &[u32]) -> bool
    ensures { result ≡ has_values_of others.now values.now }
{
    values
        .iter()
        .all(|value| *value == 0 || others.contains(value))
}

/// What is wrong with a spec: the first of these that holds.
#[derive(Clone, Copy, Debug, PartialEq, Eq, Error)]
pub enum SpecFault {
    /// The minimum is 0.
    #[error("BadMin")]
    BadMin = 1,
    /// The maximum is not above the minimum, or above 2,147,483,646.
    #[error("BadMax")]
    BadMax = 2,
    /// There are fewer than three buckets; or a scale has 0 bits.
    #[error("TooFew")]
    TooFew = 3,
    /// There are over 1,000 buckets, or more than the values from minimum to maximum give; or over 999 custom values; or
    /// a scale has over 8 bits.
    #[error("TooMany")]
    TooMany = 4,
    /// A custom value is above 2,147,483,646.
    #[error("BadRange")]
    BadRange = 5,
    /// No custom value is above 0.
    #[error("Empty")]
    Empty = 6,
    /// There was no memory for the ranges.
    #[error("NoMemory")]
    NoMemory = 7,
}

impl SpecFault {
    ghost use Rattle.std.specs.Prelude.{◌≡◌};
    ghost use Rattle.bucket_ranges.specs.Fault.{spec_fault_number};

    /// Returns the fault's number, from 1.
    pub fn number(&self) -> u32
        ensures { result ≡ spec_fault_number self.now }
    {
        *self as u32
    }
}
