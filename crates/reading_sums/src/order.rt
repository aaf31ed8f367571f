//! The order of the histograms of a sum: by name, then by spec.

ghost use Rattle.std.specs.Prelude.{◌≡◌, true, slice_index};
ghost use Rattle.std.specs.Ordering.{is_eq};
ghost use Rattle.reading_sums.specs.Orders.{spec_numbers, spec_cmp};

use bucket_ranges::Spec;
use std::cmp::Ordering;

/// Which of two lists begins with the least.
#[derive(Clone, Copy, PartialEq, Eq)]
pub(crate) enum Side {
    Left,
    Right,
    /// Both begin with it.
    Both,
}

// The place of a kind among the kinds.
fn rank(spec: &Spec) -> u32
    ensures { result ≡ slice_index (spec_numbers spec.now) 0 }
{
    match spec {
        Spec::Linear { .. } => 1,
        Spec::Boolean => 2,
        Spec::Custom(_) => 3,
        Spec::Sparse => 4,
    }
}

/// The order of specs: by kind; linear ones by minimum, maximum and number of buckets, and custom ones by their values.
pub(crate) fn by_spec(left: &Spec, right: &Spec) -> Ordering
    ensures order { result ≡ spec_cmp left.now right.now }
    ensures same { is_eq result ≡ true → left.now ≡ right.now }
{
    match (left, right) {
        (
            Spec::Linear { min, max, n },
            Spec::Linear {
                min: other_min,
                max: other_max,
                n: other_n,
            },
        ) => min
            .cmp(other_min)
            .then(max.cmp(other_max).then(n.cmp(other_n))),
        (Spec::Custom(values), Spec::Custom(others)) => values.as_slice().cmp(others.as_slice()),
        (Spec::Boolean, Spec::Boolean) | (Spec::Sparse, Spec::Sparse) => Ordering::Equal,
        _ => {
            if rank(left) < rank(right) {
                Ordering::Less
            } else {
                Ordering::Greater
            }
        }
    }
}
