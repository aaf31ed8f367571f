//! The counts and marks of an image that are not in use.

ghost use Rattle.std.specs.Prelude.{◌≡◌, ◌==◌, ◌&&◌, ◌<◌, not, IfSome, Decides};
ghost use Rattle.segment_image.specs.Blocks.{field_at};
ghost use Rattle.bucket_ranges.specs.Reading.{is_sparse, record_single};
ghost use Rattle.bucket_ranges.specs.Single.{packed_bucket as packed_bucket_of};
ghost use Rattle.image_adoption.specs.Conditions.{HasUnusedCounts, HasPackedMark};
ghost use Rattle.image_adoption.specs.Records.{LiesInWords};

use crate::ends::are_zeros;
use bucket_ranges::SingleWord;
use segment_image::layout::{
    BLOCK_HEADER, DISABLED_BIT, HISTOGRAM_BUCKETS, HISTOGRAM_COUNTS, HISTOGRAM_KIND,
    HISTOGRAM_SINGLE, KIND_SPARSE, VERSION_FROZEN,
};

// Whether the record of a histogram names a block of counts.
fn has_block(words: &[u64], at: usize) -> bool
    requires { LiesInWords words.now at }
    ensures { result ≡ (not (is_sparse words.now at) && not (field_at words.now at HISTOGRAM_COUNTS == 0)) }
{
    words[at + HISTOGRAM_KIND] != KIND_SPARSE && words[at + HISTOGRAM_COUNTS] != 0
}

/// Whether the counts and marks of the record of a histogram are 0, unless its single word is frozen.
pub(crate) fn has_unused_counts(words: &[u64], at: usize) -> bool
    requires { LiesInWords words.now at }
    ensures { Decides result (HasUnusedCounts words.now at) }
{
    if !has_block(words, at) || words[at + HISTOGRAM_SINGLE] >= DISABLED_BIT {
        return true;
    }
    let first = words[at + HISTOGRAM_COUNTS] as usize + BLOCK_HEADER;
    are_zeros(&words[first..first + 2 * words[at + HISTOGRAM_BUCKETS] as usize])
}

// The packed bucket of the record of a histogram, if there is one.
fn packed_bucket(words: &[u64], at: usize) -> Option<usize>
    requires { LiesInWords words.now at }
    ensures bucket { result ≡ packed_bucket_of (record_single VERSION_FROZEN words.now at) }
    ensures within { IfSome result (λ bucket. bucket < field_at words.now at HISTOGRAM_BUCKETS) }
{
    let buckets = words[at + HISTOGRAM_BUCKETS] as usize;
    match SingleWord::of(VERSION_FROZEN, words[at + HISTOGRAM_SINGLE], buckets) {
        Some(SingleWord::Packed { bucket, .. } | SingleWord::Frozen { bucket, .. }) => {
            Some(bucket)
        }
        _ => None,
    }
}

/// Whether the mark of the packed bucket, if there is one, is in the record alone.
pub(crate) fn has_packed_mark(words: &[u64], at: usize) -> bool
    requires { LiesInWords words.now at }
    ensures { Decides result (HasPackedMark words.now at) }
{
    if !has_block(words, at) {
        return true;
    }
    let Some(bucket) = packed_bucket(words, at) else {
        return true;
    };
    let marks = BLOCK_HEADER + words[at + HISTOGRAM_BUCKETS] as usize;
    words[words[at + HISTOGRAM_COUNTS] as usize + marks + bucket] == 0
}
