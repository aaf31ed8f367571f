//! What a look has of a record.

ghost use Rattle.std.specs.Prelude.{◌≡◌, ◌≢◌, ◌≤◌, ◌+◌, true, length};
ghost use Rattle.segment_image.specs.Blocks.{field_at, is_placed};
ghost use Rattle.segment_looks.specs.Patches.{IsPatched};
ghost use Rattle.segment_looks.specs.Looks.{is_frozen as is_frozen_at, counts_reference as counts_reference_of, histogram_words as histogram_words_of, counts_patches, has_room as has_room_for, histogram_patches, sample_patches, record_patches};

use crate::patching::{put, put_zeros};
use bucket_ranges::limits::MAX_BUCKETS;
use segment_image::SegmentHead;
use segment_image::layout::{
    BLOCK_HEADER, BLOCK_TYPE, DISABLED_BIT, HEADER_WORDS, HISTOGRAM_BUCKETS, HISTOGRAM_COUNTS,
    HISTOGRAM_LEAST, HISTOGRAM_REDUNDANT, HISTOGRAM_SINGLE, HISTOGRAM_SINGLE_MARK, HISTOGRAM_SUM,
    HISTOGRAM_SUM_MARK, SAMPLE_COUNT, SAMPLE_LEAST, SAMPLE_MARK, TYPE_HISTOGRAM, TYPE_SAMPLE,
};

/// Puts the patches of the record at a reference on the words of a look.
pub(crate) fn put_record(
    words: &mut [u64],
    one: &[u64],
    two: &[u64],
    three: &[u64],
    head: &SegmentHead,
    at: usize,
)
    requires long { length words.old ≡ length three.now }
    requires long_one { length one.now ≡ length three.now }
    requires long_two { length two.now ≡ length three.now }
    requires free { head.now.free ≤ length three.now }
    requires placed { is_placed head.now at ≡ true }
    ensures { IsPatched (record_patches head.now one.now two.now three.now at) words.old words.new }
{
    match three[at + BLOCK_TYPE] {
        TYPE_HISTOGRAM => put_histogram(words, one, two, three, head, at),
        TYPE_SAMPLE => put_sample(words, one, two, head, at),
        _ => {}
    }
}

// Puts the patches of a histogram's record.
fn put_histogram(
    words: &mut [u64],
    one: &[u64],
    two: &[u64],
    three: &[u64],
    head: &SegmentHead,
    at: usize,
)
    requires long { length words.old ≡ length three.now }
    requires long_one { length one.now ≡ length three.now }
    requires long_two { length two.now ≡ length three.now }
    requires free { head.now.free ≤ length three.now }
    requires placed { is_placed head.now at ≡ true }
    ensures { IsPatched (histogram_patches head.now one.now two.now three.now at) words.old words.new }
{
    if head.free - (at as u64) < HISTOGRAM_LEAST as u64 {
        return;
    }
    let counts = counts_reference(two, three, at);
    let buckets = three[at + HISTOGRAM_BUCKETS];
    if has_room(head, counts, buckets) {
        put_counts(words, one, two, at, counts as usize, buckets as usize);
        let fields = histogram_words(one, two, three, at);
        put(words, at + HISTOGRAM_COUNTS, &fields);
    }
}

// Puts the counts and the marks of `n` buckets, if there is a block of them.
fn put_counts(words: &mut [u64], one: &[u64], two: &[u64], at: usize, counts: usize, n: usize)
    requires long_one { length one.now ≡ length words.old }
    requires long_two { length two.now ≡ length words.old }
    requires within { at + HISTOGRAM_LEAST ≤ length words.old }
    requires counts_within { counts ≢ 0 → counts + BLOCK_HEADER + n + n ≤ length words.old }
    ensures { IsPatched (counts_patches one.now two.now at counts n) words.old words.new }
{
    if counts == 0 {
        return;
    }
    let from = counts + BLOCK_HEADER;
    let behind = from + n;
    put(words, behind, &one[behind..behind + n]);
    if is_frozen(two, at) {
        put(words, from, &two[from..behind]);
    } else {
        put_zeros(words, from, n);
    }
}

// Puts the patches of a sample's record.
fn put_sample(words: &mut [u64], one: &[u64], two: &[u64], head: &SegmentHead, at: usize)
    requires long_one { length one.now ≡ length words.old }
    requires long_two { length two.now ≡ length words.old }
    requires free { head.now.free ≤ length words.old }
    requires placed { is_placed head.now at ≡ true }
    ensures { IsPatched (sample_patches head.now one.now two.now at) words.old words.new }
{
    if head.free - (at as u64) < SAMPLE_LEAST as u64 {
        return;
    }
    let fields = [two[at + SAMPLE_COUNT], one[at + SAMPLE_MARK]];
    put(words, at + SAMPLE_COUNT, &fields);
}

// Whether the counts of a record are in use.
fn is_frozen(words: &[u64], at: usize) -> bool
    requires { at + HISTOGRAM_LEAST ≤ length words.now }
    ensures { result ≡ is_frozen_at words.now at }
{
    words[at + HISTOGRAM_SINGLE] >= DISABLED_BIT
}

// The counts reference of a record.
fn counts_reference(two: &[u64], three: &[u64], at: usize) -> u64
    requires within { at + HISTOGRAM_LEAST ≤ length three.now }
    requires long { length two.now ≡ length three.now }
    ensures { result ≡ counts_reference_of two.now three.now at }
{
    let counts = two[at + HISTOGRAM_COUNTS];
    if counts == 0 && is_frozen(two, at) {
        three[at + HISTOGRAM_COUNTS]
    } else {
        counts
    }
}

// The words of a histogram's record from its counts reference on.
fn histogram_words(one: &[u64], two: &[u64], three: &[u64], at: usize) -> [u64; 6]
    requires within { at + HISTOGRAM_LEAST ≤ length three.now }
    requires long_one { length one.now ≡ length three.now }
    requires long_two { length two.now ≡ length three.now }
    ensures { result ≡ histogram_words_of one.now two.now three.now at }
{
    [
        counts_reference(two, three, at),
        two[at + HISTOGRAM_SINGLE],
        one[at + HISTOGRAM_SINGLE_MARK],
        two[at + HISTOGRAM_SUM],
        one[at + HISTOGRAM_SUM_MARK],
        one[at + HISTOGRAM_REDUNDANT],
    ]
}

// Whether there are not too many buckets, and, if there is a counts reference, their counts and marks lie after the
// header and below the free pointer.
fn has_room(head: &SegmentHead, counts: u64, buckets: u64) -> bool
    ensures { result ≡ has_room_for head.now counts buckets }
{
    buckets <= u64::from(MAX_BUCKETS)
        && (counts == 0
            || counts >= HEADER_WORDS as u64
                && counts <= head.free
                && BLOCK_HEADER as u64 + 2 * buckets <= head.free - counts)
}
