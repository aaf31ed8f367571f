//! Custom specs whose values are as far apart as a share of their size.

use crate::custom::CustomValues;
use crate::limits::{MAX_CUSTOM_VALUES, MAX_VALUE};
use crate::spec::{Spec, SpecFault};
use std::alloc::{AllocError, Global};

/// The most bits of a scale.
pub const MAX_SCALE_BITS: u32 = 8;

ghost use Rattle.std.specs.Prelude.{◌≡◌, true, false, if◌then◌else◌, nat_lt, ℕ, ◌+◌, ◌-◌, ◌*◌, ◌^◌, ◌<◌, ◌≤◌, min as min_of, length, None, Err, IfOk, MatchResult, MatchOption};
ghost use Rattle.std.specs.List.{All};
ghost use Rattle.std.specs.List.Sorted.{IsStrictlyIncreasing};
ghost use Rattle.segment_image.specs.Checks.{checked};
ghost use Rattle.bucket_ranges.specs.declared.spec.Spec.TheVariants.{Custom};
ghost use Rattle.bucket_ranges.specs.Spec.{spec_fault, buckets_of};
ghost use Rattle.bucket_ranges.specs.Scale.{is_scale_value, scale_last, values_up_to, scale_values, bound_checks, scale_fault, IsScaleDistance, IsNextValue, HaveScaleSteps};

/// Returns a custom spec of a scale from `min` to `max`: its values are the numbers m * 2^e with m below 2^(bits + 1),
/// from `min` up to the first at or above `max`, or up to `max` itself if that number is above 2,147,483,646
/// [values]. They ascend [ascending]. Each is at most 1 + 2^-bits times the one before it, or 1 above that
/// [steps]. The spec is valid, so there are at most 999 values [valid].
///
/// Or it returns the first fault: `BadMin` if `min` is 0; `BadMax` if `max` is not above `min` or above
/// 2,147,483,646; `TooFew` for 0 bits; `TooMany` for over 8 bits or over 999 values; then `NoMemory` if memory runs
/// out [values].
pub fn log_linear(alloc: Global, min: u32, max: u32, bits: u32) -> Result<Spec, SpecFault>
    ensures values { MatchOption (scale_fault min max bits) (MatchResult result (λ spec. spec ≡ Custom (scale_values min max bits)) (λ fault. fault ≡ SpecFault.NoMemory)) (λ fault. result ≡ Err fault) }
    ensures ascending { IfOk result (λ _. IsStrictlyIncreasing (scale_values min max bits)) }
    ensures steps { IfOk result (λ _. HaveScaleSteps bits (scale_values min max bits)) }
    ensures valid { IfOk result (λ spec. spec_fault spec ≡ None) }
{
    check_scale(min, max, bits)?;
    let last = last_value(max, bits);
    if is_too_long(min, last, bits) {
        return Err(SpecFault::TooMany);
    }
    match scale_list(alloc, min, last, bits) {
        Ok(values) => Ok(Spec::Custom(CustomValues::from(values))),
        Err(_) => Err(SpecFault::NoMemory),
    }
}

// The first fault of a scale but for the number of its values.
fn check_scale(min: u32, max: u32, bits: u32) -> Result<(), SpecFault>
    ensures { result ≡ checked (bound_checks min max bits) tt }
{
    if min == 0 {
        return Err(SpecFault::BadMin);
    }
    if max <= min || max > MAX_VALUE {
        return Err(SpecFault::BadMax);
    }
    if bits == 0 {
        return Err(SpecFault::TooFew);
    }
    if bits > MAX_SCALE_BITS {
        return Err(SpecFault::TooMany);
    }
    Ok(())
}

// How far apart the values of a scale are in the octave of a number.
fn distance_at(number: u32, bits: u32) -> u32
    requires bits { bits ≤ MAX_SCALE_BITS }
    requires number { (0 < number) × (number ≤ MAX_VALUE) }
    ensures { IsScaleDistance bits number result }
{
    let values = 2 << bits;
    let mut distance = 1;
    while number / values >= distance {
        distance *= 2;
    }
    distance
}

// The first number of a scale from a number on.
fn value_from(number: u32, bits: u32) -> u32
    requires bits { bits ≤ MAX_SCALE_BITS }
    requires number { (0 < number) × (number ≤ MAX_VALUE) }
    ensures found { is_scale_value bits result ≡ true }
    ensures above { number ≤ result }
    ensures first { (n : ℕ) → number ≤ n → n < result → is_scale_value bits n ≡ false }
{
    let distance = distance_at(number, bits);
    number.div_ceil(distance) * distance
}

// The last value of a scale.
fn last_value(max: u32, bits: u32) -> u32
    requires bits { bits ≤ MAX_SCALE_BITS }
    requires max { (0 < max) × (max ≤ MAX_VALUE) }
    ensures last { result ≡ scale_last max bits }
    ensures above { (max ≤ result) × (result ≤ MAX_VALUE) }
{
    let value = value_from(max, bits);
    if value > MAX_VALUE { max } else { value }
}

// The next value of a scale from a number on.
fn next_value(from: u32, last: u32, bits: u32) -> u32
    requires bits { bits ≤ MAX_SCALE_BITS }
    requires ends { (0 < from) × (from ≤ last) × (last ≤ MAX_VALUE) }
    ensures { IsNextValue bits from last result }
{
    let value = value_from(from, bits);
    if value < last { value } else { last }
}

// Whether a scale has more values than a custom spec may have.
fn is_too_long(min: u32, last: u32, bits: u32) -> bool
    requires bits { bits ≤ MAX_SCALE_BITS }
    requires ends { (0 < min) × (min ≤ last) × (last ≤ MAX_VALUE) }
    ensures { result ≡ nat_lt MAX_CUSTOM_VALUES (length (values_up_to min last bits)) }
{
    let mut count = 1;
    let mut value = next_value(min, last, bits);
    while value < last {
        if count == MAX_CUSTOM_VALUES {
            return true;
        }
        count += 1;
        value = next_value(value + 1, last, bits);
    }
    false
}

// The values of a scale.
fn scale_list(alloc: Global, min: u32, last: u32, bits: u32) -> Result<Vec<u32>, AllocError>
    requires bits { bits ≤ MAX_SCALE_BITS }
    requires ends { (0 < min) × (min ≤ last) × (last ≤ MAX_VALUE) }
    ensures values { IfOk result (λ values. values.items ≡ values_up_to min last bits) }
    ensures steps { IfOk result (λ values. HaveScaleSteps bits values.items) }
{
    let mut values = Vec::new(alloc);
    let mut value = next_value(min, last, bits);
    while value < last {
        values.push(value)?;
        value = next_value(value + 1, last, bits);
    }
    values.push(last)?;
    Ok(values)
}
