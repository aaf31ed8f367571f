//! What a `hist` asks for: a name and a spec, with the words that the record is to have.

ghost use Rattle.std.specs.Prelude.{◌≡◌, ◌≤◌, ◌<◌, ◌+◌, ◌-◌, ◌*◌, ◌⊎◌, true, false, ◌++◌, ◌∷◌, [], ℕ, List, length, drop, take, replicate, slice_index, None, IfOk, OnOk, MatchResult};
ghost use Rattle.std.specs.List.{list_all};
ghost use Rattle.byteorder.specs.Endian.{little_bytes};
ghost use Rattle.bucket_ranges.specs.Ranges.{boundaries_of};
ghost use Rattle.bucket_ranges.specs.Reading.{is_name, is_name_byte};
ghost use Rattle.bucket_ranges.specs.Spec.{spec_fault, spec_fields, spec_ranges, buckets_of};
ghost use Rattle.segment_calls.specs.Asked.{AreNameWords, IsPayloadFor, IsAskedFor, IsRefusedFor};

use crate::refusal::Refusal;
use bucket_ranges::limits::MAX_NAME;
use bucket_ranges::{CustomValues, Ranges, Spec};
use byteorder::{ByteOrder, LittleEndian};
use segment_image::Shape;
use segment_image::layout::{BLOCK_HEADER, KIND_BOOLEAN, KIND_CUSTOM, KIND_LINEAR, KIND_SPARSE};
use std::alloc::{AllocError, Global};

/// What a `hist` asks for.
#[derive(Drop)]
pub struct Asked {
    /// The name.
    pub name: Vec<u8>,
    /// The spec.
    pub spec: Spec,
    /// The ranges of the spec.
    pub ranges: Ranges,
    /// The words of its record after the header.
    pub payload: Vec<u64>,
    /// How many of these words are the name's.
    pub letters: usize,
}

impl Asked {
    /// Returns what asks for the histogram of a name and a spec, in a segment of a shape; or why this may not be asked
    /// for.
    ///
    /// `BadName`, then `BadSpec`; then `NoMemory` if memory runs out; then `TooLarge` if the record or its counts do
    /// not fit in a page.
    pub fn of(alloc: Global, shape: Shape, name: &[u8], spec: &Spec) -> Result<Asked, Refusal>
        ensures { MatchResult result (IsAskedFor shape name.now spec.now) (IsRefusedFor shape name.now spec.now) }
    {
        if !is_lawful_name(name) {
            return Err(Refusal::BadName);
        }
        let ranges = Ranges::of(alloc, spec)?;
        let (payload, letters) = payload_of(alloc, name, spec, &ranges)?;
        let asked = Asked {
            name: Vec::from_slice(alloc, name)?,
            spec: copy_of(alloc, spec)?,
            ranges,
            payload,
            letters,
        };
        if asked.is_larger_than(shape.page()) {
            return Err(Refusal::TooLarge);
        }
        Ok(asked)
    }

    // Whether its record or its counts have more words than a page.
    fn is_larger_than(&self, page: u64) -> bool
        requires { BLOCK_HEADER ≤ page }
        ensures within { result ≡ false → (BLOCK_HEADER + length self.now.payload.items ≤ page) × (BLOCK_HEADER + 2 * (length self.now.ranges - 1) ≤ page) }
        ensures beyond { result ≡ true → (page < BLOCK_HEADER + length self.now.payload.items) ⊎ (page < BLOCK_HEADER + 2 * (length self.now.ranges - 1)) }
    {
        let room = page as usize - BLOCK_HEADER;
        self.payload.len() > room || self.ranges.len() > room / 2
    }
}

fn is_lawful_name(name: &[u8]) -> bool
    ensures { result ≡ is_name name.now }
{
    if name.is_empty() || name.len() as u64 > MAX_NAME || name[0] == b'!' {
        return false;
    }
    has_lawful_bytes(name)
}

fn has_lawful_bytes(name: &[u8]) -> bool
    ensures { result ≡ list_all is_name_byte name.now }
{
    name.iter().all(|byte| is_lawful_byte(*byte))
}

fn is_lawful_byte(byte: u8) -> bool
    ensures { result ≡ is_name_byte byte }
{
    (0x21..=0x7E).contains(&byte) && byte != b',' && byte != b'"'
}

// A copy of a spec.
fn copy_of(alloc: Global, spec: &Spec) -> Result<Spec, AllocError>
    ensures { IfOk result (λ copy. copy ≡ spec.now) }
{
    Ok(match spec {
        Spec::Linear { min, max, n } => Spec::Linear {
            min: *min,
            max: *max,
            n: *n,
        },
        Spec::Boolean => Spec::Boolean,
        Spec::Custom(values) => {
            Spec::Custom(CustomValues::from(Vec::from_slice(alloc, values.as_slice())?))
        }
        Spec::Sparse => Spec::Sparse,
    })
}

// The word whose eight bytes these are, the least first.
fn whole_word(bytes: &[u8]) -> u64
    requires { length bytes.now ≡ 8 }
    ensures { little_bytes 8 result ≡ bytes.now }
{
    LittleEndian::read_u64(bytes)
}

// The word of up to eight bytes, the least first, with zeros after them.
fn word_of(bytes: &[u8]) -> u64
    requires { length bytes.now ≤ 8 }
    ensures { little_bytes 8 result ≡ bytes.now ++ replicate (8 - length bytes.now) 0 }
{
    let mut eight = [0u8; 8];
    eight[..bytes.len()].copy_from_slice(bytes);
    whole_word(&eight)
}

// The words of a name.
fn name_words(alloc: Global, name: &[u8]) -> Result<Vec<u64>, AllocError>
    ensures { IfOk result (λ words. AreNameWords name.now words.items) }
{
    let mut words = Vec::with_capacity(alloc, name.len().div_ceil(8))?;
    for chunk in name.chunks(8) {
        words.push(word_of(chunk))?;
    }
    Ok(words)
}

// The kind, the minimum, the maximum and the number of buckets of a custom spec with these ranges.
fn custom_fields(ranges: &Ranges) -> [u64; 4]
    requires { 3 ≤ length ranges.now }
    ensures { result ≡ KIND_CUSTOM ∷ slice_index ranges.now 1 ∷ slice_index ranges.now (length ranges.now - 2) ∷ (length ranges.now - 1) ∷ [] }
{
    let n = ranges.len();
    [
        KIND_CUSTOM,
        ranges.low(1) as u64,
        ranges.low(n - 1) as u64,
        n as u64,
    ]
}

// The kind, the minimum, the maximum and the number of buckets of a spec.
fn fields_of(spec: &Spec, ranges: &Ranges) -> [u64; 4]
    requires lawful { spec_fault spec.now ≡ None }
    requires ranges { ranges.now ≡ boundaries_of spec.now }
    ensures { result ≡ spec_fields spec.now }
{
    match spec {
        Spec::Linear { min, max, n } => {
            [KIND_LINEAR, u64::from(*min), u64::from(*max), u64::from(*n)]
        }
        Spec::Boolean => [KIND_BOOLEAN, 1, 2, 3],
        Spec::Custom(_) => custom_fields(ranges),
        Spec::Sparse => [KIND_SPARSE, 0, 0, 0],
    }
}

// Appends the least values of all buckets but the first.
fn push_ranges(words: &mut Vec<u64>, ranges: &Ranges) -> Result<(), AllocError>
    requires { 3 ≤ length ranges.now }
    ensures { OnOk result (words.new.items ≡ words.old.items ++ take (length ranges.now - 2) (drop 1 ranges.now)) }
{
    for i in 1..ranges.len() {
        words.push(u64::from(ranges.low(i).unsigned_abs()))?;
    }
    Ok(())
}

// Appends the ranges of a spec that follow the name in its record.
fn push_spec_ranges(words: &mut Vec<u64>, spec: &Spec, ranges: &Ranges) -> Result<(), AllocError>
    requires lawful { spec_fault spec.now ≡ None }
    requires ranges { ranges.now ≡ boundaries_of spec.now }
    ensures { OnOk result (words.new.items ≡ words.old.items ++ spec_ranges spec.now) }
{
    match spec {
        Spec::Custom(_) => push_ranges(words, ranges),
        _ => Ok(()),
    }
}

// The words of a record after its header, and how many of them are the name's.
fn payload_of(
    alloc: Global,
    name: &[u8],
    spec: &Spec,
    ranges: &Ranges,
) -> Result<(Vec<u64>, usize), AllocError>
    requires lawful { spec_fault spec.now ≡ None }
    requires ranges { ranges.now ≡ boundaries_of spec.now }
    ensures { IfOk result (λ made. IsPayloadFor name.now spec.now made.0.items made.1) }
{
    let letters = name_words(alloc, name)?;
    let mut payload = Vec::new(alloc);
    payload.extend_from_slice(&fields_of(spec, ranges))?;
    payload.extend_from_slice(&[0, 0, 0, 0, 0, 0, name.len() as u64])?;
    payload.extend_from_slice(&letters)?;
    push_spec_ranges(&mut payload, spec, ranges)?;
    Ok((payload, letters.len()))
}
