//! The values of a custom spec.

use std::marker::Model;

/// The values from which a custom spec makes its buckets, in the order in which they were given. A clause sees the
/// list of them.
#[derive(Drop)]
pub struct CustomValues {
    values: Vec<u32>,
}

impl Model for CustomValues {
    ghost use Rattle.std.specs.Prelude.{ℕ, List};

    ghost Value = { List ℕ };

    ghost view = { λ custom. custom.values.items };
}

ghost use Rattle.std.specs.Prelude.{◌≡◌};

impl From<Vec<u32>> for CustomValues {
    ghost from_gives = { λ values custom. custom ≡ values.items };

    fn from(values: Vec<u32>) -> CustomValues {
        CustomValues { values }
    }
}

impl CustomValues {
    /// Returns the values, in the vector that they were given in.
    pub fn into_vec(self) -> Vec<u32>
        ensures { result.items ≡ self }
    {
        let CustomValues { values } = self;
        values
    }

    /// Returns the values.
    pub fn as_slice(&self) -> &[u32]
        ensures { result.now ≡ self.now }
    {
        self.values.as_slice()
    }
}

ghost use Rattle.std.specs.Prelude.{◌<◌, ◌++◌, ◌∷◌, ℕ, List, [], All};
ghost use Rattle.std.specs.List.Sorted.{IsStrictlyIncreasing};
ghost use Rattle.bucket_ranges.specs.Spec.{distinct_values, AreDistinctValues};
ghost use Rattle.bucket_ranges.specs.Ranges.{custom_boundaries};

/// The distinct values of a custom spec are those of its values that are above 0, each once and below the next
/// [stand], and no other list is like that [only]. So values that are in that order already are the boundaries
/// between both ends [in_order].
///
/// It does nothing: what it promises are laws of the definitions.
pub fn distinct_values_stand_once()
    ensures stand { (values : List ℕ) → AreDistinctValues values (distinct_values values) }
    ensures only { (values others : List ℕ) → AreDistinctValues values others → others ≡ distinct_values values }
    ensures in_order { (values : List ℕ) → IsStrictlyIncreasing values → All (λ value. 0 < value) values → custom_boundaries values ≡ 0 ∷ (values ++ 2147483647 ∷ []) }
{}
