//! The single word of a histogram.

ghost use Rattle.std.specs.Prelude.{◌≡◌, ◌≤◌, ◌<◌, true, ◌&&◌, nat_lt, nat_le, Some, IfSome};
ghost use Rattle.bucket_ranges.specs.Single.{single_of, word_of, IsForm};

use crate::limits::MAX_PACKED;
use segment_image::layout::{BUCKET_WEIGHT, DISABLED_BIT, NO_BUCKET, VERSION_FROZEN};

/// What the single word of a histogram says: a histogram whose samples all fell into one bucket needs no block of
/// counts (after the packed single sample of Chromium's `HistogramSamples`).
#[derive(Clone, Copy, PartialEq, Eq)]
pub enum SingleWord {
    /// No sample was packed, and the counts are not in use.
    Empty,
    /// From 1 to 65,535 units of one bucket, and the counts are not in use.
    Packed { bucket: usize, units: u64 },
    /// The counts are in use; the bucket whose units were packed before, and have moved there, if there was one. This
    /// form is of version 1.
    Disabled { packed: Option<usize> },
    /// The counts are in use, and no sample was packed before. This form is of version 2.
    FrozenEmpty,
    /// The counts are in use, and these units, which were packed before, stay here for good, apart from the bucket's
    /// count. This form is of version 2.
    Frozen { bucket: usize, units: u64 },
}

impl SingleWord {
    /// Returns the form of a single word of a histogram with `buckets` buckets in a version of the format, or `None`
    /// if it has no valid form there [exact]. Such a form is valid in that version and has this word [found]; no
    /// other valid form has this word [only]. Every version but 2 has the forms of version 1.
    pub fn of(version: u64, word: u64, buckets: usize) -> Option<SingleWord>
        requires { buckets ≤ 65535 }
        ensures exact { result ≡ single_of version buckets word }
        ensures found { IfSome result (λ form. IsForm version buckets form × (word_of form ≡ word)) }
        ensures only { (form : _) → IsForm version buckets form → word_of form ≡ word → result ≡ Some form }
    {
        if word == 0 {
            return Some(SingleWord::Empty);
        }
        if word < DISABLED_BIT {
            let bucket = (word / BUCKET_WEIGHT) as usize;
            let units = word % BUCKET_WEIGHT;
            if is_packed(bucket, units, buckets) {
                return Some(SingleWord::Packed { bucket, units });
            }
            return None;
        }
        let low = word - DISABLED_BIT;
        if version == VERSION_FROZEN {
            if low == 0 {
                return Some(SingleWord::FrozenEmpty);
            }
            let bucket = (low / BUCKET_WEIGHT) as usize;
            let units = low % BUCKET_WEIGHT;
            if is_packed(bucket, units, buckets) {
                return Some(SingleWord::Frozen { bucket, units });
            }
            return None;
        }
        if low == NO_BUCKET {
            return Some(SingleWord::Disabled { packed: None });
        }
        if low < buckets as u64 {
            return Some(SingleWord::Disabled {
                packed: Some(low as usize),
            });
        }
        None
    }
}

// Whether a single word of a histogram with `buckets` buckets may hold these units of this bucket.
fn is_packed(bucket: usize, units: u64, buckets: usize) -> bool
    ensures value { result ≡ (nat_lt bucket buckets && nat_le 1 units && nat_le units MAX_PACKED) }
    ensures inside { result ≡ true → (bucket < buckets) × (1 ≤ units) × (units ≤ MAX_PACKED) }
    ensures outside { bucket < buckets → 1 ≤ units → units ≤ MAX_PACKED → result ≡ true }
{
    bucket < buckets && units >= 1 && units <= MAX_PACKED
}
