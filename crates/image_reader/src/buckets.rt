//! The units of a record's buckets: their counts, the single word, and the marks of what deltas have taken.
//!
//! The counts come first in their block, then the marks. The mark of the packed bucket, which is the bucket that the
//! single word names, is in the record.

ghost use Rattle.std.specs.Prelude.{◌≡◌, ◌≤◌, ◌<◌, ◌+◌, ◌-◌, true, false, min, Ok, length, IfOk};
ghost use Rattle.segment_image.specs.Checks.{first_fault};
ghost use Rattle.segment_image.specs.Head.{header_of};
ghost use Rattle.segment_image.specs.Blocks.{field_at};
ghost use Rattle.bucket_ranges.specs.Single.{packed_bucket as packed_bucket_of, is_packed_bucket, units_packed as units_packed_of};
ghost use Rattle.bucket_ranges.specs.Reading.{has_counts as has_counts_of, has_large as has_large_of, is_bad_single as is_bad_single_of, bucket_checks, count_at, is_bad_mark_at, is_large_mark_at, record_buckets, total_at, totals_at, mark_at, marks_at, bucket_counts_at};
ghost use Rattle.image_reader.specs.Buckets.{AreBucketsAt, IsRoomFor};

use bucket_ranges::limits::{MAX_BUCKETS, MAX_PACKED, MAX_UNITS};
use bucket_ranges::reading::RecordFault;
use bucket_ranges::{Ranges, SingleWord};
use segment_image::layout::{
    BLOCK_HEADER, HISTOGRAM_BUCKETS, HISTOGRAM_COUNTS, HISTOGRAM_LEAST, HISTOGRAM_SINGLE,
    HISTOGRAM_SINGLE_MARK, TYPE_COUNTS, VERSION_FROZEN,
};
use segment_image::{SegmentHead, block};
use std::alloc::{AllocError, Global};

/// Where the units of a record's buckets are, and their marks.
#[derive(Clone, Copy)]
pub(crate) struct Buckets {
    /// The version of the format.
    version: u64,
    /// How many buckets there are.
    number: usize,
    /// The reference of the block of counts, 0 if there is none.
    counts: usize,
    /// What the single word says, if its form is valid.
    single: Option<SingleWord>,
    /// The mark of the packed bucket.
    single_mark: u64,
}

impl Buckets {
    /// The buckets of the record at `at`, whose spec is valid and has buckets, in a version of the format.
    pub(crate) fn at(version: u64, words: &[u64], at: usize) -> Buckets
        requires within { at + HISTOGRAM_LEAST ≤ length words.now }
        requires buckets { record_buckets words.now at ≡ field_at words.now at HISTOGRAM_BUCKETS }
        requires few { field_at words.now at HISTOGRAM_BUCKETS ≤ MAX_BUCKETS }
        ensures { AreBucketsAt version words.now at result }
    {
        let number = words[at + HISTOGRAM_BUCKETS] as usize;
        Buckets {
            version,
            number,
            counts: words[at + HISTOGRAM_COUNTS] as usize,
            single: SingleWord::of(version, words[at + HISTOGRAM_SINGLE], number),
            single_mark: words[at + HISTOGRAM_SINGLE_MARK],
        }
    }
}

/// The first fault of a record's buckets: `BadCounts`, `BadSingle` or `BadMark`.
pub(crate) fn buckets_fault(
    words: &[u64],
    head: &SegmentHead,
    at: usize,
    buckets: &Buckets,
) -> Option<RecordFault>
    requires header { header_of words.now ≡ Ok head.now }
    requires buckets { AreBucketsAt head.now.version words.now at buckets.now }
    ensures { result ≡ first_fault (bucket_checks words.now head.now at) }
{
    if !has_counts(words, head, at, buckets) || has_large(words, buckets) {
        return Some(RecordFault::BadCounts);
    }
    if is_bad_single(buckets) {
        return Some(RecordFault::BadSingle);
    }
    if is_bad_mark(words, buckets) {
        return Some(RecordFault::BadMark);
    }
    None
}

// Whether the counts reference is 0, or names a block of counts that has room for these buckets.
fn has_counts(words: &[u64], head: &SegmentHead, at: usize, buckets: &Buckets) -> bool
    requires header { header_of words.now ≡ Ok head.now }
    requires buckets { AreBucketsAt head.now.version words.now at buckets.now }
    ensures value { result ≡ has_counts_of words.now head.now at }
    ensures room { result ≡ true → IsRoomFor words.now buckets.now }
{
    if buckets.counts == 0 {
        return true;
    }
    match block(words, head, buckets.counts as u64) {
        Ok(found) => found.tag == TYPE_COUNTS
            && found.size >= (BLOCK_HEADER + 2 * buckets.number) as u64,
        Err(_) => false,
    }
}

// The count of a bucket, 0 if there is no block of counts.
fn count(words: &[u64], buckets: &Buckets, bucket: usize) -> u64
    requires room { IsRoomFor words.now buckets.now }
    requires bucket { bucket < buckets.now.number }
    ensures { result ≡ count_at words.now buckets.now.counts bucket }
{
    if buckets.counts == 0 {
        0
    } else {
        words[buckets.counts + (BLOCK_HEADER + bucket)]
    }
}

// The units of a bucket that the single word itself holds.
fn units_packed(single: &Option<SingleWord>, bucket: usize) -> u64
    ensures { result ≡ units_packed_of single.now bucket }
{
    match single {
        Some(
            SingleWord::Packed {
                bucket: packed,
                units,
            }
            | SingleWord::Frozen {
                bucket: packed,
                units,
            },
        ) if *packed == bucket => *units,
        _ => 0,
    }
}

// The total of a bucket, or 2^64 - 1 if it is more than that.
fn total(words: &[u64], buckets: &Buckets, bucket: usize) -> u64
    requires room { IsRoomFor words.now buckets.now }
    requires bucket { bucket < buckets.now.number }
    ensures { result ≡ min (total_at words.now buckets.now.counts buckets.now.single bucket) 18446744073709551615 }
{
    count(words, buckets, bucket).saturating_add(units_packed(&buckets.single, bucket))
}

// Whether a total is above 2^32 - 1.
fn has_large(words: &[u64], buckets: &Buckets) -> bool
    requires { IsRoomFor words.now buckets.now }
    ensures { result ≡ has_large_of (totals_at words.now buckets.now.counts buckets.now.single buckets.now.number) }
{
    for bucket in 0..buckets.number {
        if total(words, buckets, bucket) > MAX_UNITS {
            return true;
        }
    }
    false
}

// Whether the form of the single word is not valid, or it says that the counts are in use and there are none.
fn is_bad_single(buckets: &Buckets) -> bool
    ensures { result ≡ is_bad_single_of buckets.now.single buckets.now.counts }
{
    match buckets.single {
        None => true,
        Some(SingleWord::Empty | SingleWord::Packed { .. }) => false,
        Some(_) => buckets.counts == 0,
    }
}

// The packed bucket, if there is one.
fn packed_bucket(single: &Option<SingleWord>) -> Option<usize>
    ensures { result ≡ packed_bucket_of single.now }
{
    match single {
        Some(SingleWord::Packed { bucket, .. } | SingleWord::Frozen { bucket, .. }) => {
            Some(*bucket)
        }
        Some(SingleWord::Disabled { packed }) => *packed,
        _ => None,
    }
}

fn is_packed(single: &Option<SingleWord>, bucket: usize) -> bool
    ensures { result ≡ is_packed_bucket single.now bucket }
{
    match packed_bucket(single) {
        Some(packed) => packed == bucket,
        None => false,
    }
}

// The mark of a bucket.
fn mark(words: &[u64], buckets: &Buckets, bucket: usize) -> u64
    requires room { IsRoomFor words.now buckets.now }
    requires bucket { bucket < buckets.now.number }
    ensures { result ≡ mark_at words.now buckets.now.counts buckets.now.number buckets.now.single buckets.now.single_mark bucket }
{
    if is_packed(&buckets.single, bucket) {
        buckets.single_mark
    } else if buckets.counts == 0 {
        0
    } else {
        words[buckets.counts + (BLOCK_HEADER + buckets.number + bucket)]
    }
}

// Whether the mark of a bucket is above its total; and, if it is a packed bucket whose units move, also above 65,535.
fn is_large_mark(words: &[u64], buckets: &Buckets, bucket: usize) -> bool
    requires room { IsRoomFor words.now buckets.now }
    requires bucket { bucket < buckets.now.number }
    ensures { result ≡ is_large_mark_at buckets.now.version words.now buckets.now.counts buckets.now.number buckets.now.single buckets.now.single_mark bucket }
{
    let mark = mark(words, buckets, bucket);
    let may_move = is_packed(&buckets.single, bucket) && buckets.version != VERSION_FROZEN;
    mark > total(words, buckets, bucket) && (!may_move || mark > MAX_PACKED)
}

// Whether there is a single mark although no bucket is or was packed, or a bucket's mark is too large.
fn is_bad_mark(words: &[u64], buckets: &Buckets) -> bool
    requires { IsRoomFor words.now buckets.now }
    ensures { result ≡ is_bad_mark_at buckets.now.version words.now buckets.now.counts buckets.now.number buckets.now.single buckets.now.single_mark }
{
    if packed_bucket(&buckets.single).is_none() && buckets.single_mark != 0 {
        return true;
    }
    for bucket in 0..buckets.number {
        if is_large_mark(words, buckets, bucket) {
            return true;
        }
    }
    false
}

/// The totals of all buckets, each with its least value. None of them is above 2^32 - 1.
pub(crate) fn counts_of(
    alloc: Global,
    words: &[u64],
    buckets: &Buckets,
    ranges: &Ranges,
) -> Result<Vec<(i32, u64)>, AllocError>
    requires room { IsRoomFor words.now buckets.now }
    requires ranges { length ranges.now - 1 ≡ buckets.now.number }
    requires small { has_large_of (totals_at words.now buckets.now.counts buckets.now.single buckets.now.number) ≡ false }
    ensures { IfOk result (λ counts. counts.items ≡ bucket_counts_at ranges.now words.now buckets.now.counts buckets.now.single buckets.now.number) }
{
    let mut counts = Vec::with_capacity(alloc, buckets.number)?;
    for bucket in 0..buckets.number {
        counts.push((ranges.low(bucket), total(words, buckets, bucket)))?;
    }
    Ok(counts)
}

/// The marks of all buckets.
pub(crate) fn marks_of(
    alloc: Global,
    words: &[u64],
    buckets: &Buckets,
) -> Result<Vec<u64>, AllocError>
    requires { IsRoomFor words.now buckets.now }
    ensures { IfOk result (λ marks. marks.items ≡ marks_at words.now buckets.now.counts buckets.now.number buckets.now.single buckets.now.single_mark) }
{
    let mut marks = Vec::with_capacity(alloc, buckets.number)?;
    for bucket in 0..buckets.number {
        marks.push(mark(words, buckets, bucket))?;
    }
    Ok(marks)
}
