//! What packing and disabling make of a single word.

ghost use Rattle.std.specs.Prelude.{◌≡◌, ◌⊎◌, ◌/◌, ◌%◌, ◌^◌, ◌<◌, ◌≤◌, MatchOption};
ghost use Rattle.segment_calls.specs.Form.{IsPacking, off_word, SaysPacked};

use bucket_ranges::SingleWord;
use bucket_ranges::limits::MAX_PACKED;
pub use segment_image::layout::DISABLED_BIT;
use segment_image::layout::{BUCKET_WEIGHT, NO_BUCKET, VERSION_FROZEN};

/// Returns the single word with more units of a bucket, or `None` if it cannot take them: it has units of another
/// bucket, or would have more than a single word holds. The word is 0 or has units.
pub fn packed_with(word: u64, bucket: usize, units: u32) -> Option<u64>
    requires few { bucket ≤ 65535 }
    ensures { MatchOption result ((packed : _) → IsPacking bucket units word packed → ⊥) (λ packed. (word ≡ 0) ⊎ (1 ≤ word % 2 ^ 32) → IsPacking bucket units word packed) }
{
    let units = u64::from(units);
    if word % BUCKET_WEIGHT + units > MAX_PACKED {
        return None;
    }
    if word == 0 {
        return Some(bucket as u64 * BUCKET_WEIGHT + units);
    }
    if word / BUCKET_WEIGHT != bucket as u64 {
        return None;
    }
    Some(word + units)
}

/// Returns the word with which a single word is disabled in version 1, or frozen in version 2.
pub fn off_word(version: u64, word: u64) -> u64
    requires on { word < 2 ^ 63 }
    ensures { result ≡ off_word version word }
{
    if version == VERSION_FROZEN {
        return DISABLED_BIT + word;
    }
    if word == 0 {
        return DISABLED_BIT + NO_BUCKET;
    }
    DISABLED_BIT + word / BUCKET_WEIGHT
}

/// Returns the bucket of a packed word, and its units.
pub fn unpacked(word: u64) -> (usize, u64)
    ensures { result ≡ (word / 2 ^ 32, word % 2 ^ 32) }
{
    ((word / BUCKET_WEIGHT) as usize, word % BUCKET_WEIGHT)
}

/// Returns the bucket whose units a single word of a version holds or held, if there is one, and the units that it
/// holds; a word without a valid form has none [says]. These are at most 65,535 [small].
pub fn packed_in(version: u64, word: u64, buckets: usize) -> (Option<usize>, u64)
    requires few { buckets ≤ 65535 }
    ensures says { SaysPacked version buckets word result.0 result.1 }
    ensures small { result.1 ≤ 65535 }
{
    match SingleWord::of(version, word, buckets) {
        Some(SingleWord::Packed { bucket, units }) => (Some(bucket), units),
        Some(SingleWord::Frozen { bucket, units }) => (Some(bucket), units),
        Some(SingleWord::Disabled { packed }) => (packed, 0),
        _ => (None, 0),
    }
}
