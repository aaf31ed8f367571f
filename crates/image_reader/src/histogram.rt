//! What a record of a histogram without a fault reads as.

ghost use Rattle.std.specs.Prelude.{◌≡◌, ◌≤◌, ◌+◌, ◌-◌, ℕ, List, None, Ok, ◌≢◌, length, IfOk};
ghost use Rattle.segment_image.specs.Head.{header_of};
ghost use Rattle.segment_image.specs.Blocks.{field_at};
ghost use Rattle.bucket_ranges.specs.Ranges.{boundaries_of};
ghost use Rattle.bucket_ranges.specs.Spec.{spec_fault, buckets_of};
ghost use Rattle.bucket_ranges.specs.Reading.{record_fault, histogram_of, bucket_counts, bucket_marks, spec_of};
ghost use Rattle.image_reader.specs.Views.{histogram_view};
ghost use Rattle.image_reader.specs.Samples.{AreSamples, HoldsSamples};

use crate::buckets::{Buckets, counts_of, marks_of};
use crate::name::read_name;
use crate::reading::HistReading;
use crate::sample::Samples;
use crate::spec::spec_at;
use bucket_ranges::{Ranges, Spec, SpecFault};
use segment_image::SegmentHead;
use segment_image::layout::{
    BLOCK_SIZE, HISTOGRAM_KIND, HISTOGRAM_NAME_LENGTH, HISTOGRAM_REDUNDANT, HISTOGRAM_SUM,
    HISTOGRAM_SUM_MARK, KIND_SPARSE,
};
use std::alloc::{AllocError, Global};

/// The histogram of the record in a block at `at`, which has no fault. `samples` are those of its list; a sparse
/// histogram reads its counts from them.
pub(crate) fn histogram(
    alloc: Global,
    words: &[u64],
    head: &SegmentHead,
    at: usize,
    samples: &Samples,
) -> Result<HistReading, AllocError>
    requires header { header_of words.now ≡ Ok head.now }
    requires lawful { record_fault words.now head.now at ≡ None }
    requires within { at + field_at words.now at BLOCK_SIZE ≤ length words.now }
    requires are { AreSamples samples.now }
    ensures { IfOk result (λ hist. (listed : List ℕ) → HoldsSamples words.now listed samples.now → histogram_view hist ≡ histogram_of head.now.version words.now listed at) }
{
    let name = read_name(alloc, words, at, words[at + HISTOGRAM_NAME_LENGTH])?;
    let spec = spec_at(alloc, words, at)?;
    let (counts, marks) = if words[at + HISTOGRAM_KIND] == KIND_SPARSE {
        samples.of(alloc, at as u32)?
    } else {
        bucket_lists(alloc, words, head, at, &spec)?
    };
    Ok(HistReading {
        reference: at as u64,
        name,
        spec,
        counts,
        marks,
        sum: i128::from(words[at + HISTOGRAM_SUM].cast_signed()),
        sum_mark: i128::from(words[at + HISTOGRAM_SUM_MARK].cast_signed()),
        redundant: words[at + HISTOGRAM_REDUNDANT],
    })
}

// The ranges of a valid spec. The only error is that memory runs out.
fn ranges_of(alloc: Global, spec: &Spec) -> Result<Ranges, AllocError>
    requires { spec_fault spec.now ≡ None }
    ensures value { IfOk result (λ ranges. ranges ≡ boundaries_of spec.now) }
    ensures buckets { IfOk result (λ ranges. length ranges - 1 ≡ buckets_of spec.now) }
{
    match Ranges::of(alloc, spec) {
        Ok(ranges) => Ok(ranges),
        Err(fault) => match fault {
            SpecFault::NoMemory => Err(AllocError),
            _ => unreachable!(),
        },
    }
}

// The totals of the buckets of a record without a fault, and their marks.
fn bucket_lists(
    alloc: Global,
    words: &[u64],
    head: &SegmentHead,
    at: usize,
    spec: &Spec,
) -> Result<(Vec<(i32, u64)>, Vec<u64>), AllocError>
    requires header { header_of words.now ≡ Ok head.now }
    requires lawful { record_fault words.now head.now at ≡ None }
    requires within { at + field_at words.now at BLOCK_SIZE ≤ length words.now }
    requires kind { field_at words.now at HISTOGRAM_KIND ≢ KIND_SPARSE }
    requires spec { spec.now ≡ spec_of words.now at }
    ensures { IfOk result (λ lists. (lists.0.items ≡ bucket_counts head.now.version words.now at) × (lists.1.items ≡ bucket_marks head.now.version words.now at)) }
{
    let buckets = Buckets::at(head.version, words, at);
    let ranges = ranges_of(alloc, spec)?;
    let counts = counts_of(alloc, words, &buckets, &ranges)?;
    Ok((counts, marks_of(alloc, words, &buckets)?))
}
