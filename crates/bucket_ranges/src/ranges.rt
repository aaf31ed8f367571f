//! The ranges of a histogram's buckets.

use crate::limits::{LAST_BOUNDARY, MAX_BUCKETS, MAX_CUSTOM_VALUES, MAX_VALUE};
use crate::spec::{Spec, SpecFault};
use std::alloc::{AllocError, Global};
use std::marker::Model;

/// The boundaries of a histogram's buckets, ascending: bucket i has the values from boundary i up to boundary
/// i + 1. A clause sees the list of boundaries.
#[derive(Drop)]
pub struct Ranges {
    boundaries: Vec<u32>,
}

impl Model for Ranges {
    ghost use Rattle.std.specs.Prelude.{ℕ, List};
    ghost use Rattle.bucket_ranges.specs.Ranges.{AreBoundaries};

    ghost Value = { List ℕ };

    ghost view = { λ ranges. ranges.boundaries.items };

    ghost invariant = { λ ranges. AreBoundaries ranges.boundaries.items };
}

impl Ranges {
    ghost use Rattle.std.specs.Prelude.{◌≡◌, ℕ, ◌+◌, ◌-◌, ◌<◌, length, pos, slice_index, MatchResult, MatchOption, IfOk, Err};
    ghost use Rattle.bucket_ranges.specs.Spec.{spec_fault, buckets_of};
    ghost use Rattle.bucket_ranges.specs.Ranges.{boundaries_of, clamped, IsBucketOf};

    /// Returns the ranges of a spec: its boundaries as they are defined, or its first fault: `BadMin`, `BadMax`,
    /// `TooFew`, `TooMany`, `BadRange`, `Empty`; then `NoMemory` if memory runs out [boundaries]. There are as many
    /// buckets as the spec has, none for a sparse one [buckets].
    pub fn of(alloc: Global, spec: &Spec) -> Result<Ranges, SpecFault>
        ensures boundaries { MatchOption (spec_fault spec.now) (MatchResult result (λ ranges. ranges ≡ boundaries_of spec.now) (λ fault. fault ≡ SpecFault.NoMemory)) (λ fault. result ≡ Err fault) }
        ensures buckets { IfOk result (λ ranges. length ranges - 1 ≡ buckets_of spec.now) }
    {
        match spec {
            Spec::Linear { min, max, n } => {
                check_linear(*min, *max, *n)?;
                linear(alloc, *min, *max, *n).map_err(|_| SpecFault::NoMemory)
            }
            Spec::Boolean => linear(alloc, 1, 2, 3).map_err(|_| SpecFault::NoMemory),
            Spec::Custom(values) => {
                let values = values.as_slice();
                check_custom(values)?;
                custom(alloc, values).map_err(|_| SpecFault::NoMemory)
            }
            Spec::Sparse => Ok(Ranges {
                boundaries: Vec::new(alloc),
            }),
        }
    }

    /// Returns the number of buckets.
    pub fn len(&self) -> usize
        ensures { result ≡ length self.now - 1 }
    {
        self.boundaries.len().saturating_sub(1)
    }

    /// Returns the least value of bucket `i` [value], which is below that of the next bucket [below].
    pub fn low(&self, i: usize) -> i32
        requires { i + 1 < length self.now }
        ensures value { result ≡ pos (slice_index self.now i) }
        ensures below { slice_index self.now i < slice_index self.now (i + 1) }
    {
        self.boundaries[i] as i32
    }

    /// Returns the boundary after bucket `i`: its values are below this one.
    pub fn high(&self, i: usize) -> i32
        requires { i + 1 < length self.now }
        ensures { result ≡ pos (slice_index self.now (i + 1)) }
    {
        self.boundaries[i + 1] as i32
    }

    /// Returns the bucket that holds the clamped value: a value below 0 counts as 0, and one above 2,147,483,646 as
    /// that (Chromium's histograms) [found]. No other bucket holds it [only]. It is found by halving, without memory
    /// and without a branch on the value.
    pub fn bucket(&self, value: i32) -> usize
        requires { 1 < length self.now }
        ensures found { IsBucketOf self.now (clamped value) result }
        ensures only { (other : ℕ) → IsBucketOf self.now (clamped value) other → other ≡ result }
    {
        self.bucket_of_clamped(clamp(value))
    }

    // The bucket of a value that is not above the greatest: one of the `count` buckets from `low` on has it, and their
    // number is halved until it is one.
    fn bucket_of_clamped(&self, value: u32) -> usize
        requires buckets { 1 < length self.now }
        requires value { value < LAST_BOUNDARY }
        ensures found { IsBucketOf self.now value result }
        ensures only { (other : ℕ) → IsBucketOf self.now value other → other ≡ result }
    {
        let mut low = 0;
        let mut count = self.len();
        while count > 1 {
            let half = count / 2;
            low += half_where_reached(half, self.boundaries[low + half], value);
            count -= half;
        }
        low
    }
}

ghost use Rattle.std.specs.Prelude.{◌≡◌, ◌≢◌, if◌then◌else◌, ◌+◌, ◌<◌, ◌≤◌, ◌++◌, ◌∷◌, [], nat_lt, nat_le, ℕ, List, length, None, IfOk};
ghost use Rattle.std.specs.List.{list_any};
ghost use Rattle.segment_image.specs.Checks.{checked};
ghost use Rattle.bucket_ranges.specs.declared.spec.Spec.{Spec};
ghost use Rattle.bucket_ranges.specs.declared.spec.Spec.TheVariants.{Sparse};
ghost use Rattle.bucket_ranges.specs.Spec.{linear_checks, custom_checks, IsLinear, IsCustom, spec_fault, buckets_of};
ghost use Rattle.bucket_ranges.specs.Ranges.{inner_boundary as inner_boundary_of, linear_boundaries, custom_boundaries, boundaries_of, clamped, SplitsValues, IsAscending, IsBucketOf};

/// The buckets of a spec without a fault, other than a sparse one, split the values from 0 to 2,147,483,646, and none
/// of them is empty.
///
/// It does nothing: what it promises is a law of the definitions.
pub fn buckets_split_values()
    ensures { (spec : Spec) → spec_fault spec ≡ None → spec ≢ Sparse → SplitsValues (buckets_of spec) (boundaries_of spec) }
{}

/// A value lies in one bucket alone.
///
/// It does nothing: what it promises is a law of the definitions.
pub fn one_bucket_has_a_value()
    ensures { (boundaries : List ℕ) (value i j : ℕ) → IsAscending boundaries → IsBucketOf boundaries value i → IsBucketOf boundaries value j → i ≡ j }
{}

// `half` if a value reaches a boundary, and 0 otherwise. No branch depends on the value: the difference is taken in
// 64 bits, so its upper half is all ones if it would be below 0, and 0 otherwise.
fn half_where_reached(half: usize, boundary: u32, value: u32) -> usize
    requires { half < 4294967296 }
    ensures { result ≡ (if nat_le boundary value then half else 0) }
{
    let difference = u64::from(boundary).wrapping_sub(u64::from(value) + 1);
    half & (difference >> 32) as usize
}

// A value as it is counted.
pub(crate) fn clamp(value: i32) -> u32
    ensures value { result ≡ clamped value }
    ensures small { result ≤ MAX_VALUE }
{
    value.max(0).min(MAX_VALUE as i32) as u32
}

// The first fault of a linear spec.
fn check_linear(min: u32, max: u32, n: u32) -> Result<(), SpecFault>
    ensures { result ≡ checked (linear_checks min max n) tt }
{
    if min == 0 {
        return Err(SpecFault::BadMin);
    }
    if max <= min || max > MAX_VALUE {
        return Err(SpecFault::BadMax);
    }
    if n < 3 {
        return Err(SpecFault::TooFew);
    }
    if n > MAX_BUCKETS || n > max - min + 2 {
        return Err(SpecFault::TooMany);
    }
    Ok(())
}

// Whether one of the values is above a limit.
fn has_above(values: &[u32], limit: u32) -> bool
    ensures { result ≡ list_any (λ value. nat_lt limit value) values.now }
{
    values.iter().any(|value| *value > limit)
}

// The first fault of the values of a custom spec.
fn check_custom(values: &[u32]) -> Result<(), SpecFault>
    ensures { result ≡ checked (custom_checks values.now) tt }
{
    if values.len() > MAX_CUSTOM_VALUES {
        return Err(SpecFault::TooMany);
    }
    if has_above(values, MAX_VALUE) {
        return Err(SpecFault::BadRange);
    }
    if !has_above(values, 0) {
        return Err(SpecFault::Empty);
    }
    Ok(())
}

// Boundary i of a valid linear spec, for i from 1 to n - 1.
fn inner_boundary(min: u32, max: u32, n: u32, i: u32) -> u32
    requires lawful { IsLinear min max n }
    requires from { 1 ≤ i }
    requires below { i < n }
    ensures value { result ≡ inner_boundary_of min max n i }
    ensures small { result ≤ 2147483646 }
{
    let steps = u64::from(n - 2);
    let sum = u64::from(min) * u64::from(n - 1 - i) + u64::from(max) * u64::from(i - 1);
    ((2 * sum + steps) / (2 * steps)) as u32
}

// The boundaries of a valid linear spec.
fn linear(alloc: Global, min: u32, max: u32, n: u32) -> Result<Ranges, AllocError>
    requires { IsLinear min max n }
    ensures boundaries { IfOk result (λ ranges. ranges ≡ linear_boundaries min max n) }
    ensures len { IfOk result (λ ranges. length ranges ≡ n + 1) }
{
    let mut boundaries = Vec::with_capacity(alloc, n as usize + 1)?;
    boundaries.push(0)?;
    for i in 1..n {
        boundaries.push(inner_boundary(min, max, n, i))?;
    }
    boundaries.push(LAST_BOUNDARY)?;
    Ok(Ranges { boundaries })
}

// The values of a custom spec between both ends.
fn between_ends(alloc: Global, values: &[u32]) -> Result<Vec<u32>, AllocError>
    requires { length values.now ≤ MAX_CUSTOM_VALUES }
    ensures { IfOk result (λ list. list.items ≡ 0 ∷ (values.now ++ LAST_BOUNDARY ∷ [])) }
{
    let mut list = Vec::with_capacity(alloc, values.len() + 2)?;
    list.push(0)?;
    list.extend_from_slice(values)?;
    list.push(LAST_BOUNDARY)?;
    Ok(list)
}

// The boundaries of a valid custom spec: sorted with both ends, and each value once.
fn custom(alloc: Global, values: &[u32]) -> Result<Ranges, AllocError>
    requires { IsCustom values.now }
    ensures boundaries { IfOk result (λ ranges. ranges ≡ custom_boundaries values.now) }
{
    let mut boundaries = between_ends(alloc, values)?;
    boundaries.sort_unstable();
    boundaries.dedup();
    Ok(Ranges { boundaries })
}
