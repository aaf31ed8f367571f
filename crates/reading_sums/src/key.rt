//! The keys of histograms, and their sums.

ghost use Rattle.std.specs.Prelude.{◌≡◌, ◌∷◌, ◌++◌, ◌+◌, ◌<◌, ◌≤◌, ◌^◌, ◌↔◌, true, min, drop, length, slice_index, IfOk, IfErr, IfSome, IfNone, OnErr, ◌⊎◌};
ghost use Rattle.std.specs.List.Sorted.{IsStrictlySortedBy};
ghost use Rattle.reading_sums.specs.Fitting.{IfTooMany, KeysDoNotFit};
ghost use Rattle.reading_sums.specs.Keys.{keys_from, IsKeyOfBoth, SameKeys, IsSide};
ghost use Rattle.reading_sums.specs.Orders.{key_cmp, ComesNext};
ghost use Rattle.reading_sums.specs.Shown.{counts_of, marks_of};
ghost use Rattle.reading_sums.specs.Whole.{units_of, AreMarksInRange};

use crate::fault::SumsFault;
use crate::order::Side;
use std::alloc::{AllocError, Global};

/// What images have of one key together: of a bucket, or of a value of a sparse histogram.
#[derive(Clone, Copy, PartialEq, Eq)]
pub struct KeySum {
    /// The least value of the bucket, or the value.
    pub value: i32,
    /// The units.
    pub units: u64,
    /// The units that deltas have taken.
    pub marks: u64,
}

// The mark of the key at an index, or 0.
fn mark_beside(marks: &[u64], index: usize) -> u64
    ensures { result ≡ slice_index marks.now index }
{
    marks.get(index).copied().unwrap_or(0)
}

/// The keys of a histogram, in their order. A key that has no mark gets the mark 0.
pub(crate) fn keys_of(
    alloc: Global,
    counts: &[(i32, u64)],
    marks: &[u64],
) -> Result<Vec<KeySum>, AllocError>
    ensures keys { IfOk result (λ keys. keys.items ≡ keys_from counts.now marks.now) }
    ensures range { IfOk result (λ keys. AreMarksInRange keys.items) }
{
    let mut keys = Vec::with_capacity(alloc, counts.len())?;
    for i in 0..counts.len() {
        let (value, units) = counts[i];
        let marks = mark_beside(marks, i);
        keys.push(KeySum {
            value,
            units,
            marks,
        })?;
    }
    Ok(keys)
}

// What two keys of one value have together; refused if a total would pass 64 bits.
fn key_of_both(left: &KeySum, right: &KeySum) -> Result<KeySum, SumsFault>
    requires { left.now.value ≡ right.now.value }
    ensures both { IfOk result (IsKeyOfBoth left.now right.now) }
    ensures too_many { OnErr result ((2 ^ 64 ≤ left.now.units + right.now.units) ⊎ (2 ^ 64 ≤ left.now.marks + right.now.marks)) }
{
    let units = left.units.checked_add(right.units);
    let marks = left.marks.checked_add(right.marks);
    match (units, marks) {
        (Some(units), Some(marks)) => Ok(KeySum {
            value: left.value,
            units,
            marks,
        }),
        _ => Err(SumsFault::TooMany),
    }
}

/// Which of two lists, each of which ascends, begins with the least key.
pub(crate) fn side_of(left: &[KeySum], right: &[KeySum]) -> Side
    requires { 0 < length left.now + length right.now }
    ensures { IsSide left.now right.now result }
{
    if right.is_empty() {
        return Side::Left;
    }
    if left.is_empty() || right[0].value < left[0].value {
        return Side::Right;
    }
    if left[0].value < right[0].value {
        return Side::Left;
    }
    Side::Both
}

// The least key of two lists, and how many keys of each it takes.
fn next_key(left: &[KeySum], right: &[KeySum]) -> Result<(KeySum, usize, usize), SumsFault>
    requires { 0 < length left.now + length right.now }
    ensures left { IfOk result (λ next. next.1 ≤ length left.now) }
    ensures right { IfOk result (λ next. next.2 ≤ length right.now) }
    ensures some { IfOk result (λ next. 0 < next.1 + next.2) }
    ensures same { IfOk result (λ next. SameKeys (next.0 ∷ (drop next.1 left.now ++ drop next.2 right.now)) (left.now ++ right.now)) }
    ensures units { IfOk result (λ next. units_of (next.0 ∷ (drop next.1 left.now ++ drop next.2 right.now)) ≡ units_of (left.now ++ right.now)) }
    ensures ordered { IfOk result (λ next. ComesNext key_cmp next.0 next.1 next.2 left.now right.now) }
    ensures too_many { OnErr result (KeysDoNotFit (left.now ++ right.now)) }
{
    match side_of(left, right) {
        Side::Left => Ok((left[0], 1, 0)),
        Side::Right => Ok((right[0], 0, 1)),
        Side::Both => Ok((key_of_both(&left[0], &right[0])?, 1, 1)),
    }
}

// The keys of two lists together: each has the units and the marks of both. If both lists ascend, so do they.
fn keys_of_both(alloc: Global, left: &[KeySum], right: &[KeySum]) -> Result<Vec<KeySum>, SumsFault>
    ensures same { IfOk result (λ keys. SameKeys keys.items (left.now ++ right.now)) }
    ensures units { IfOk result (λ keys. units_of keys.items ≡ units_of (left.now ++ right.now)) }
    ensures ordered { IfOk result (λ keys. IsStrictlySortedBy key_cmp left.now → IsStrictlySortedBy key_cmp right.now → IsStrictlySortedBy key_cmp keys.items) }
    ensures too_many { IfErr result (λ fault. IfTooMany fault (KeysDoNotFit (left.now ++ right.now))) }
{
    let mut keys = Vec::with_capacity(alloc, left.len().max(right.len()))?;
    let (mut left_rest, mut right_rest) = (left, right);
    while !(left_rest.is_empty() && right_rest.is_empty()) {
        let (key, of_left, of_right) = next_key(left_rest, right_rest)?;
        keys.push(key)?;
        left_rest = left_rest.split_at(of_left).1;
        right_rest = right_rest.split_at(of_right).1;
    }
    Ok(keys)
}

// Units and those of a key together, if they fit 64 bits.
fn units_with(units: u64, key: KeySum) -> Option<u64>
    ensures sum { IfSome result (λ sum. sum ≡ units + key.units) }
    ensures fits { IfSome result (λ sum. sum < 2 ^ 64) }
    ensures many { IfNone result (2 ^ 64 ≤ units + key.units) }
    ensures range { key.marks < 2 ^ 64 }
{
    units.checked_add(key.units)
}

/// Whether the units of all keys together fit 64 bits.
pub(crate) fn units_fit(keys: &[KeySum]) -> bool
    ensures fit { (result ≡ true) ↔ (units_of keys.now < 2 ^ 64) }
    ensures range { result ≡ true → AreMarksInRange keys.now }
{
    let mut units: u64 = 0;
    for key in keys {
        match units_with(units, *key) {
            Some(more) => units = more,
            None => return false,
        }
    }
    true
}

/// The keys of two lists together, if their units together fit 64 bits.
pub(crate) fn fitting_keys_of_both(
    alloc: Global,
    left: &[KeySum],
    right: &[KeySum],
) -> Result<Vec<KeySum>, SumsFault>
    ensures same { IfOk result (λ keys. SameKeys keys.items (left.now ++ right.now)) }
    ensures ordered { IfOk result (λ keys. IsStrictlySortedBy key_cmp left.now → IsStrictlySortedBy key_cmp right.now → IsStrictlySortedBy key_cmp keys.items) }
    ensures small { IfOk result (λ keys. units_of keys.items < 2 ^ 64) }
    ensures range { IfOk result (λ keys. AreMarksInRange keys.items) }
    ensures too_many { IfErr result (λ fault. IfTooMany fault (KeysDoNotFit (left.now ++ right.now))) }
{
    let keys = keys_of_both(alloc, left, right)?;
    if units_fit(&keys) {
        Ok(keys)
    } else {
        Err(SumsFault::TooMany)
    }
}

/// The keys as a reading has them: each value with its units.
pub(crate) fn counts_in(alloc: Global, keys: &[KeySum]) -> Result<Vec<(i32, u64)>, AllocError>
    ensures { IfOk result (λ counts. counts.items ≡ counts_of keys.now) }
{
    let mut counts = Vec::with_capacity(alloc, keys.len())?;
    for key in keys {
        counts.push((key.value, key.units))?;
    }
    Ok(counts)
}

/// The marks of the keys.
pub(crate) fn marks_in(alloc: Global, keys: &[KeySum]) -> Result<Vec<u64>, AllocError>
    ensures { IfOk result (λ marks. marks.items ≡ marks_of keys.now) }
{
    let mut marks = Vec::with_capacity(alloc, keys.len())?;
    for key in keys {
        marks.push(key.marks)?;
    }
    Ok(marks)
}

/// The units of all keys, or the greatest number of 64 bits if they would pass it.
pub(crate) fn units_in(keys: &[KeySum]) -> u64
    ensures { result ≡ min (units_of keys.now) 18446744073709551615 }
{
    let mut units: u64 = 0;
    for key in keys {
        units = units.saturating_add(key.units);
    }
    units
}
