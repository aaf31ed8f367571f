//! The spec of a record.

ghost use Rattle.std.specs.Prelude.{◌≡◌, ◌≤◌, ◌+◌, true, false, length, IfOk, All};
ghost use Rattle.segment_image.specs.Blocks.{field_at};
ghost use Rattle.bucket_ranges.specs.Reading.{has_name, is_bad_spec as is_bad_spec_of, has_spec as has_spec_of, name_end, ascends_inside, is_linear_named, record_buckets, spec_of};

use bucket_ranges::limits::{LAST_BOUNDARY, MAX_BUCKETS, MAX_VALUE};
use bucket_ranges::{CustomValues, Spec};
use segment_image::layout::{
    BLOCK_HEADER, BLOCK_SIZE, HISTOGRAM_BUCKETS, HISTOGRAM_KIND, HISTOGRAM_LEAST, HISTOGRAM_MAX,
    HISTOGRAM_MIN, HISTOGRAM_NAME, HISTOGRAM_NAME_LENGTH, KIND_BOOLEAN, KIND_CUSTOM, KIND_SPARSE,
};
use std::alloc::{AllocError, Global};

/// Whether the words of a record's spec are not valid, or its counts do not fit in a page.
pub(crate) fn is_bad_spec(words: &[u64], page: u64, at: usize) -> bool
    requires long { HISTOGRAM_LEAST ≤ field_at words.now at BLOCK_SIZE }
    requires within { at + field_at words.now at BLOCK_SIZE ≤ length words.now }
    requires name { has_name words.now at ≡ true }
    ensures value { result ≡ is_bad_spec_of words.now page at }
    ensures buckets { result ≡ false → record_buckets words.now at ≡ field_at words.now at HISTOGRAM_BUCKETS }
    ensures few { result ≡ false → field_at words.now at HISTOGRAM_BUCKETS ≤ MAX_BUCKETS }
{
    if !has_spec(words, at) {
        return true;
    }
    BLOCK_HEADER as u64 + 2 * words[at + HISTOGRAM_BUCKETS] > page
}

// Whether the words of a record's spec are valid and lie in its block.
fn has_spec(words: &[u64], at: usize) -> bool
    requires long { HISTOGRAM_LEAST ≤ field_at words.now at BLOCK_SIZE }
    requires within { at + field_at words.now at BLOCK_SIZE ≤ length words.now }
    requires name { has_name words.now at ≡ true }
    ensures value { result ≡ has_spec_of words.now at }
    ensures few { result ≡ true → field_at words.now at HISTOGRAM_BUCKETS ≤ MAX_BUCKETS }
{
    let kind = words[at + HISTOGRAM_KIND];
    let min = words[at + HISTOGRAM_MIN];
    let max = words[at + HISTOGRAM_MAX];
    let n = words[at + HISTOGRAM_BUCKETS];
    if kind == KIND_SPARSE {
        return min == 0 && max == 0 && n == 0;
    }
    if kind == KIND_CUSTOM {
        return has_custom(words, at);
    }
    if kind == KIND_BOOLEAN {
        return min == 1 && max == 2 && n == 3;
    }
    is_linear(min, max, n)
}

// Whether a minimum, a maximum and a number of buckets are those of a valid linear spec.
fn is_linear(min: u64, max: u64, n: u64) -> bool
    ensures value { result ≡ is_linear_named min max n }
    ensures few { result ≡ true → n ≤ MAX_BUCKETS }
{
    min != 0
        && max > min
        && max <= u64::from(MAX_VALUE)
        && n >= 3
        && n <= u64::from(MAX_BUCKETS)
        && n <= max - min + 2
}

// Where the ranges of a custom record begin: after its name.
fn inner_from(words: &[u64], at: usize) -> usize
    requires long { HISTOGRAM_LEAST ≤ field_at words.now at BLOCK_SIZE }
    requires within { at + field_at words.now at BLOCK_SIZE ≤ length words.now }
    requires name { has_name words.now at ≡ true }
    ensures { result ≡ name_end words.now at }
{
    at + HISTOGRAM_NAME + (words[at + HISTOGRAM_NAME_LENGTH] as usize).div_ceil(8)
}

// Whether the words of the spec of a custom record are valid and lie in its block.
fn has_custom(words: &[u64], at: usize) -> bool
    requires kind { field_at words.now at HISTOGRAM_KIND ≡ KIND_CUSTOM }
    requires long { HISTOGRAM_LEAST ≤ field_at words.now at BLOCK_SIZE }
    requires within { at + field_at words.now at BLOCK_SIZE ≤ length words.now }
    requires name { has_name words.now at ≡ true }
    ensures value { result ≡ has_spec_of words.now at }
    ensures few { result ≡ true → field_at words.now at HISTOGRAM_BUCKETS ≤ MAX_BUCKETS }
{
    let n = words[at + HISTOGRAM_BUCKETS];
    let first = inner_from(words, at);
    if n < 2 || n > u64::from(MAX_BUCKETS) {
        return false;
    }
    let count = (n - 1) as usize;
    if first + count > at + words[at + BLOCK_SIZE] as usize {
        return false;
    }
    let inner = &words[first..first + count];
    ascends(inner)
        && inner[0] == words[at + HISTOGRAM_MIN]
        && inner[count - 1] == words[at + HISTOGRAM_MAX]
}

// Whether numbers ascend, all above 0 and below the end of the last bucket.
fn ascends(numbers: &[u64]) -> bool
    ensures { result ≡ ascends_inside numbers.now }
{
    let mut low = 0;
    for number in numbers {
        if *number <= low {
            return false;
        }
        low = *number;
    }
    low < u64::from(LAST_BOUNDARY)
}

/// The spec of a record, whose spec words are valid.
pub(crate) fn spec_at(alloc: Global, words: &[u64], at: usize) -> Result<Spec, AllocError>
    requires long { HISTOGRAM_LEAST ≤ field_at words.now at BLOCK_SIZE }
    requires within { at + field_at words.now at BLOCK_SIZE ≤ length words.now }
    requires name { has_name words.now at ≡ true }
    requires lawful { has_spec_of words.now at ≡ true }
    ensures { IfOk result (λ spec. spec ≡ spec_of words.now at) }
{
    let kind = words[at + HISTOGRAM_KIND];
    if kind == KIND_SPARSE {
        return Ok(Spec::Sparse);
    }
    if kind == KIND_CUSTOM {
        let first = inner_from(words, at);
        let inner = &words[first..first + (words[at + HISTOGRAM_BUCKETS] as usize - 1)];
        return Ok(Spec::Custom(CustomValues::from(small(alloc, inner)?)));
    }
    if kind == KIND_BOOLEAN {
        return Ok(Spec::Boolean);
    }
    Ok(Spec::Linear {
        min: words[at + HISTOGRAM_MIN] as u32,
        max: words[at + HISTOGRAM_MAX] as u32,
        n: words[at + HISTOGRAM_BUCKETS] as u32,
    })
}

// Numbers of no more than 31 bits.
fn small(alloc: Global, numbers: &[u64]) -> Result<Vec<u32>, AllocError>
    requires { All (λ number. number ≤ LAST_BOUNDARY) numbers.now }
    ensures { IfOk result (λ small. small.items ≡ numbers.now) }
{
    let mut small = Vec::with_capacity(alloc, numbers.len())?;
    for number in numbers {
        small.push(*number as u32)?;
    }
    Ok(small)
}
