//! The checks of one record of a histogram.
//!
//! The checks are made in the order of the faults that they give: the kind, the name, the spec, the units of the
//! buckets, the sums.

ghost use Rattle.std.specs.Prelude.{◌≡◌, ◌≤◌, ◌+◌, true, false, Ok, length, IfOk, MatchResult};
ghost use Rattle.segment_image.specs.Checks.{first_fault};
ghost use Rattle.segment_image.specs.Head.{header_of};
ghost use Rattle.segment_image.specs.Blocks.{field_at};
ghost use Rattle.bucket_ranges.specs.Reading.{is_name, has_name, is_bad_kind as is_bad_kind_of, is_bad_sum as is_bad_sum_of, record_buckets, units_checks, checks_behind_name};
ghost use Rattle.image_reader.specs.Records.{IsRecordRefusal, IsNamedAt};

use crate::buckets::{Buckets, buckets_fault};
use crate::name::name_at;
use crate::spec::is_bad_spec;
use bucket_ranges::limits::{MAX_BUCKETS, MAX_SUM};
use bucket_ranges::reading::RecordFault;
use segment_image::SegmentHead;
use segment_image::layout::{
    BLOCK_LEAST, BLOCK_SIZE, HISTOGRAM_BUCKETS, HISTOGRAM_COUNTS, HISTOGRAM_KIND, HISTOGRAM_LEAST,
    HISTOGRAM_SINGLE, HISTOGRAM_SINGLE_MARK, HISTOGRAM_SUM, HISTOGRAM_SUM_MARK, KIND_LINEAR,
    KIND_SPARSE,
};
use std::alloc::{AllocError, AllocFailed, Global};

/// Why a record gives no histogram.
#[derive(Drop)]
pub(crate) enum Refusal {
    /// Memory ran out.
    Memory,
    /// The record's first fault.
    Fault(RecordFault),
}

impl From<AllocError> for Refusal {
    ghost use Rattle.image_reader.specs.declared.record.Refusal.TheVariants.{Memory};

    ghost from_gives = { λ _ refusal. refusal ≡ Memory };

    fn from(_error: AllocError) -> Refusal {
        Refusal::Memory
    }
}

impl<T: Drop> From<AllocFailed<T>> for Refusal {
    ghost use Rattle.image_reader.specs.declared.record.Refusal.TheVariants.{Memory};

    ghost from_gives = { λ _ refusal. refusal ≡ Memory };

    fn from(_error: AllocFailed<T>) -> Refusal {
        Refusal::Memory
    }
}

/// The name of the record in a block at `at` if the record has no fault, or its first fault. No list of the buckets is
/// made.
pub(crate) fn check_record(
    alloc: Global,
    words: &[u64],
    head: &SegmentHead,
    at: usize,
) -> Result<Vec<u8>, Refusal>
    requires header { header_of words.now ≡ Ok head.now }
    requires least { BLOCK_LEAST ≤ field_at words.now at BLOCK_SIZE }
    requires within { at + field_at words.now at BLOCK_SIZE ≤ length words.now }
    ensures found { MatchResult result (IsNamedAt words.now head.now at) (IsRecordRefusal words.now head.now at) }
    ensures lawful { IfOk result (λ name. is_name name.items ≡ true) }
{
    if is_bad_kind(words, at) {
        return Err(Refusal::Fault(RecordFault::BadKind));
    }
    let name = name_at(alloc, words, at)?;
    match fault_behind_name(words, head, at) {
        Some(fault) => Err(Refusal::Fault(fault)),
        None => Ok(name),
    }
}

// Whether the block is shorter than a record's fields, or its kind does not exist.
fn is_bad_kind(words: &[u64], at: usize) -> bool
    requires { at + BLOCK_LEAST ≤ length words.now }
    ensures value { result ≡ is_bad_kind_of words.now at }
    ensures long { result ≡ false → HISTOGRAM_LEAST ≤ field_at words.now at BLOCK_SIZE }
{
    let kind = words[at + HISTOGRAM_KIND];
    words[at + BLOCK_SIZE] < HISTOGRAM_LEAST as u64 || kind < KIND_LINEAR || kind > KIND_SPARSE
}

// The first fault of a record whose kind and name are valid.
fn fault_behind_name(words: &[u64], head: &SegmentHead, at: usize) -> Option<RecordFault>
    requires header { header_of words.now ≡ Ok head.now }
    requires kind { is_bad_kind_of words.now at ≡ false }
    requires name { has_name words.now at ≡ true }
    requires within { at + field_at words.now at BLOCK_SIZE ≤ length words.now }
    ensures { result ≡ first_fault (checks_behind_name words.now head.now at) }
{
    if is_bad_spec(words, head.shape.page(), at) {
        return Some(RecordFault::BadSpec);
    }
    if let Some(fault) = units_fault(words, head, at) {
        return Some(fault);
    }
    let sum = words[at + HISTOGRAM_SUM].cast_signed();
    let mark = words[at + HISTOGRAM_SUM_MARK].cast_signed();
    if is_bad_sum(sum, mark) {
        return Some(RecordFault::BadSum);
    }
    None
}

// The first fault of the units of a record whose spec is valid: `BadCounts`, `BadSingle` or `BadMark`.
fn units_fault(words: &[u64], head: &SegmentHead, at: usize) -> Option<RecordFault>
    requires header { header_of words.now ≡ Ok head.now }
    requires within { at + HISTOGRAM_LEAST ≤ length words.now }
    requires buckets { record_buckets words.now at ≡ field_at words.now at HISTOGRAM_BUCKETS }
    requires few { field_at words.now at HISTOGRAM_BUCKETS ≤ MAX_BUCKETS }
    ensures { result ≡ first_fault (units_checks words.now head.now at) }
{
    if words[at + HISTOGRAM_KIND] != KIND_SPARSE {
        return buckets_fault(words, head, at, &Buckets::at(head.version, words, at));
    }
    if words[at + HISTOGRAM_COUNTS] != 0
        || words[at + HISTOGRAM_SINGLE] != 0
        || words[at + HISTOGRAM_SINGLE_MARK] != 0
    {
        return Some(RecordFault::BadCounts);
    }
    None
}

// Whether a sum, its mark or their difference is larger than 2^31 * (2^32 - 1) in absolute value.
fn is_bad_sum(sum: i64, mark: i64) -> bool
    ensures { result ≡ is_bad_sum_of sum mark }
{
    sum.unsigned_abs() > MAX_SUM || mark.unsigned_abs() > MAX_SUM || sum.abs_diff(mark) > MAX_SUM
}
