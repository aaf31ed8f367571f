//! Why a record of a segment can be refused. The definition of a reading is in `specs/Reading.antt`; its parts are
//! defined in `specs/Listed.antt`, `Record.antt`, `Units.antt`, `RecordChecks.antt` and `Sample.antt`.

use thiserror::Error;

/// Why a record is not read: the first of these that holds.
#[derive(Clone, Copy, Debug, PartialEq, Eq, Error)]
pub enum RecordFault {
    /// The block is shorter than a record's fields, or there is no such kind.
    #[error("BadKind")]
    BadKind = 1,
    /// The name is invalid, or its words do not fit in the block.
    #[error("BadName")]
    BadName = 2,
    /// The words of the spec are those of no valid spec or do not fit in the block, or its counts do not fit in a
    /// page.
    #[error("BadSpec")]
    BadSpec = 3,
    /// The counts reference is not 0 and names no block of counts of that size, or a bucket's total passes 2^32 - 1; or
    /// a sparse histogram has a counts reference, a single word or a single mark.
    #[error("BadCounts")]
    BadCounts = 4,
    /// The single word has no valid form, or it is disabled while there are no counts.
    #[error("BadSingle")]
    BadSingle = 5,
    /// There is a single mark while no bucket is or was packed, or a bucket's mark is above its total; for the packed
    /// bucket of a segment of version 1, only if it is above 65,535 as well.
    #[error("BadMark")]
    BadMark = 6,
    /// The sum, the sum mark or their difference is beyond 2^31 * (2^32 - 1) in size.
    #[error("BadSum")]
    BadSum = 7,
    /// A record of a sample is too short, its value is no `i32`, its count is above 2^32 - 1, its mark is above its
    /// count, or it names no sparse histogram that is read before it.
    #[error("BadSample")]
    BadSample = 8,
}

impl RecordFault {
    ghost use Rattle.std.specs.Prelude.{◌≡◌};
    ghost use Rattle.bucket_ranges.specs.Fault.{record_fault_number};

    /// Returns the fault's number, from 1.
    pub fn number(&self) -> u32
        ensures { result ≡ record_fault_number self.now }
    {
        *self as u32
    }
}

ghost use Rattle.std.specs.Prelude.{◌≡◌, true, ℕ, ℤ, List, [], ◌∷◌, ◌++◌, None};
ghost use Rattle.std.specs.List.{find};
ghost use Rattle.std.specs.List.Sorted.{IsStrictlySortedBy};
ghost use Rattle.std.specs.Ordering.{int_eq};
ghost use Rattle.segment_image.specs.declared.head.SegmentHead.{SegmentHead};
ghost use Rattle.bucket_ranges.specs.declared.spec.Spec.TheVariants.{Custom};
ghost use Rattle.bucket_ranges.specs.Spec.{spec_fault, buckets_of};
ghost use Rattle.bucket_ranges.specs.Ranges.{boundaries_of};
ghost use Rattle.bucket_ranges.specs.Reading.{IsListed, IsReading, Reading, is_custom_named, is_spec_named, spec_named, sample_value, by_value, samples_of, first_samples};

use crate::limits::LAST_BOUNDARY;

/// A segment's list of records is settled by its words: any two lists of the same words are the same.
///
/// It does nothing: what it promises is a law of the definitions.
pub fn one_list()
    ensures { (words : List ℕ) (head : SegmentHead) (a b : List ℕ) → IsListed words head a → IsListed words head b → a ≡ b }
{}

/// What a segment reads as is settled by its words: any two readings of the same words are the same. So two readers, or
/// a reader and a writer, that follow the definition of a reading cannot differ.
///
/// It does nothing: what it promises is a law of the definitions.
pub fn one_reading()
    ensures { (words : List ℕ) (head : SegmentHead) (a b : Reading) → IsReading words head a → IsReading words head b → a ≡ b }
{}

/// The words of a record that are those of a valid spec name a spec without a fault [lawful], which has the number of
/// buckets that they say [buckets].
///
/// It does nothing: what it promises are laws of the definitions.
pub fn named_specs_are_lawful()
    ensures lawful { (kind min max n : ℕ) (inner : List ℕ) → is_spec_named kind min max n inner ≡ true → spec_fault (spec_named kind min max n inner) ≡ None }
    ensures buckets { (kind min max n : ℕ) (inner : List ℕ) → is_spec_named kind min max n inner ≡ true → buckets_of (spec_named kind min max n inner) ≡ n }
{}

/// The inner ranges that a custom record names validly are the boundaries of its spec between 0 and 2,147,483,647.
///
/// It does nothing: what it promises is a law of the definitions.
pub fn inner_ranges_are_boundaries()
    ensures { (min max n : ℕ) (inner : List ℕ) → is_custom_named min max n inner ≡ true → boundaries_of (Custom inner) ≡ 0 ∷ (inner ++ LAST_BOUNDARY ∷ []) }
{}

/// The samples that count for a sparse histogram are in the order of their values, each value once [ascending]. The
/// one of a value is the first of that value among the samples that name the histogram [first].
///
/// It does nothing: what it promises are laws of the definitions.
pub fn first_samples_are_first()
    ensures ascending { (words samples : List ℕ) (histogram : ℕ) → IsStrictlySortedBy (by_value words) (first_samples words samples histogram) }
    ensures first { (words samples : List ℕ) (histogram : ℕ) (value : ℤ) → find (λ sample. int_eq value (sample_value words sample)) (first_samples words samples histogram)
        ≡ find (λ sample. int_eq value (sample_value words sample)) (samples_of words samples histogram) }
{}
