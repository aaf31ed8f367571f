//! What was counted in the histograms of a sum since an earlier one.

ghost use Rattle.std.specs.Prelude.{◌≡◌, ◌≢◌, ◌⊎◌, ℤ, true, false, ◌-◌, ◌+ℤ◌, ◌∷◌, ◌++◌, [], ◌+◌, ◌^◌, ◌<◌, ◌≤◌, ◌-ℤ◌, FitsSigned, List, slice_index_or, length, take, map, IfOk, IfErr, IfSome, IfNone, OnOk};
ghost use Rattle.std.specs.Option.{option_to_list};
ghost use Rattle.std.specs.List.Sorted.{IsStrictlySortedBy};
ghost use Rattle.std.specs.List.{All};
ghost use Rattle.std.specs.Bool.{MatchBool};
ghost use Rattle.std.specs.Int.{w128};
ghost use Rattle.reading_sums.specs.Keys.{units_at, marks_at, IsKeyOfBoth};
ghost use Rattle.reading_sums.specs.Orders.{key_cmp, hist_cmp};
ghost use Rattle.reading_sums.specs.Since.{AreKeysSince, HasKeyFallen, IsSince, AreSince, HasLess, HasSomething, HasLongAmount, HasHistNamed, IsGrown, MatchFault, IsReason, IsNoReason, StandsBetween, GoesOnAscending};
ghost use Rattle.reading_sums.specs.Views.{part_of};
ghost use Rattle.reading_sums.specs.Whole.{AreMarksInRange, AreWhole, IsInRange, IsWholeHist};

use crate::fault::MinusFault;
use crate::hist::{HistSum, copy_of, copy_of_spec};
use crate::key::KeySum;
use crate::order::Side;
use crate::{hist, key};
use std::alloc::{AllocError, Global};

// What a later key has more than an earlier one of its value, if nothing of it fell.
fn key_since(later: &KeySum, earlier: &KeySum) -> Option<KeySum>
    requires { later.now.value ≡ earlier.now.value }
    ensures value { IfSome result (λ since. since.value ≡ later.now.value) }
    ensures both { IfSome result (λ since. IsKeyOfBoth earlier.now since later.now) }
    ensures range { IfSome result (λ since. later.now.marks < 2 ^ 64 → since.marks < 2 ^ 64) }
    ensures fell { IfNone result ((later.now.units < earlier.now.units) ⊎ (later.now.marks < earlier.now.marks)) }
{
    let units = later.units.checked_sub(earlier.units);
    let marks = later.marks.checked_sub(earlier.marks);
    match (units, marks) {
        (Some(units), Some(marks)) => Some(KeySum {
            value: later.value,
            units,
            marks,
        }),
        _ => None,
    }
}

// What the least key of two lists has more than an earlier one, and how many keys of each it takes; or nothing if a key
// fell.
fn next_key_since(later: &[KeySum], earlier: &[KeySum]) -> Option<(Option<KeySum>, usize, usize)>
    requires { 0 < length later.now + length earlier.now }
    ensures later { IfSome result (λ next. next.1 ≤ length later.now) }
    ensures earlier { IfSome result (λ next. next.2 ≤ length earlier.now) }
    ensures some { IfSome result (λ next. 0 < next.1 + next.2) }
    ensures since { IfSome result (λ next. AreKeysSince (take next.1 later.now) (take next.2 earlier.now) (option_to_list next.0)) }
    ensures ordered { IfSome result (λ next. GoesOnAscending key_cmp next.1 next.2 later.now earlier.now) }
    ensures range { IfSome result (λ next. AreMarksInRange later.now → AreMarksInRange (option_to_list next.0)) }
    ensures fell { IfNone result ((done : List _) → IsStrictlySortedBy key_cmp (done ++ later.now) → IsStrictlySortedBy key_cmp (done ++ earlier.now) → HasKeyFallen (done ++ later.now) earlier.now) }
{
    match key::side_of(later, earlier) {
        Side::Left => Some((Some(later[0]), 1, 0)),
        Side::Right => {
            if earlier[0].units == 0 && earlier[0].marks == 0 {
                Some((None, 0, 1))
            } else {
                None
            }
        }
        Side::Both => match key_since(&later[0], &earlier[0]) {
            Some(key) => Some((Some(key), 1, 1)),
            None => None,
        },
    }
}

// Puts a key after others, if there is one.
fn put_key(keys: &mut Vec<KeySum>, key: Option<KeySum>) -> Result<(), AllocError>
    ensures { OnOk result (keys.new.items ≡ keys.old.items ++ option_to_list key) }
{
    if let Some(key) = key {
        keys.push(key)?;
    }
    Ok(())
}

// The keys of a later list, each with what it has more than that of an earlier list; or nothing if a key fell.
fn keys_since(
    alloc: Global,
    later: &[KeySum],
    earlier: &[KeySum],
) -> Result<Option<Vec<KeySum>>, AllocError>
    ensures since { IfOk result (λ found. IfSome found (λ keys. AreKeysSince later.now earlier.now keys.items)) }
    ensures range { IfOk result (λ found. IfSome found (λ keys. AreMarksInRange later.now → AreMarksInRange keys.items)) }
    ensures fell { IfOk result (λ found. IfNone found (IsStrictlySortedBy key_cmp later.now → IsStrictlySortedBy key_cmp earlier.now → HasKeyFallen later.now earlier.now)) }
{
    let mut keys = Vec::with_capacity(alloc, later.len())?;
    let (mut i, mut j) = (0, 0);
    while i < later.len() || j < earlier.len() {
        let next = next_key_since(later.split_at(i).1, earlier.split_at(j).1);
        let Some((key, of_later, of_earlier)) = next else {
            return Ok(None);
        };
        put_key(&mut keys, key)?;
        i += of_later;
        j += of_earlier;
    }
    Ok(Some(keys))
}

// The fault that something of a name fell.
fn fell(alloc: Global, name: &[u8]) -> MinusFault
    ensures { MatchFault result ⊥ (λ told. told ≡ name.now) (λ told. ⊥) }
{
    match Vec::from_slice(alloc, name) {
        Ok(name) => MinusFault::Fell(name),
        Err(_) => MinusFault::NoMemory,
    }
}

// The fault that the earlier histogram of a name has another spec.
fn other_spec(alloc: Global, name: &[u8]) -> MinusFault
    ensures { MatchFault result ⊥ (λ told. ⊥) (λ told. told ≡ name.now) }
{
    match Vec::from_slice(alloc, name) {
        Ok(name) => MinusFault::OtherSpec(name),
        Err(_) => MinusFault::NoMemory,
    }
}

// What a later amount is more than an earlier one.
fn amount_since(later: &i128, earlier: &i128) -> Result<i128, MinusFault>
    ensures since { IfOk result (λ since. later.now ≡ earlier.now +ℤ since) }
    ensures fits { IfOk result (FitsSigned w128) }
    ensures short { IfOk result (λ since. FitsSigned w128 (later.now -ℤ earlier.now)) }
    ensures long { IfErr result (λ fault. MatchFault fault (¬ FitsSigned w128 (later.now -ℤ earlier.now)) (λ told. ⊥) (λ told. ⊥)) }
{
    later.checked_sub(*earlier).ok_or(MinusFault::TooMany)
}

// What a later histogram has more than an earlier one of its name and spec.
fn hist_since(alloc: Global, later: &HistSum, earlier: &HistSum) -> Result<HistSum, MinusFault>
    ensures since { IfOk result (λ since. IsSince (part_of later.now) (part_of earlier.now) (part_of since)) }
    ensures whole { IfOk result (λ since. IsWholeHist later.now → IsWholeHist since) }
    ensures range { IfOk result (λ since. IsInRange later.now → IsInRange since) }
    ensures short { IfOk result (λ since. ¬ HasLongAmount (part_of later.now) (part_of earlier.now)) }
    ensures refused { IfErr result (λ fault. IsWholeHist later.now → IsWholeHist earlier.now → MatchFault fault (HasLongAmount (part_of later.now) (part_of earlier.now)) (λ told. (told ≡ later.now.name.items) × HasLess (part_of later.now) (part_of earlier.now)) (λ told. ⊥)) }
{
    let Some(keys) = keys_since(alloc, &later.keys, &earlier.keys)? else {
        return Err(fell(alloc, &later.name));
    };
    let Some(redundant) = later.redundant.checked_sub(earlier.redundant) else {
        return Err(fell(alloc, &later.name));
    };
    Ok(HistSum {
        name: Vec::from_slice(alloc, &later.name)?,
        spec: copy_of_spec(alloc, &later.spec)?,
        keys,
        sum: amount_since(&later.sum, &earlier.sum)?,
        sum_mark: amount_since(&later.sum_mark, &earlier.sum_mark)?,
        redundant,
        images: later.images,
        least: later.least,
    })
}

// Whether each key has no units and no marks.
fn are_empty(keys: &[KeySum]) -> bool
    ensures { MatchBool result ((value : ℤ) → (units_at keys.now value ≡ 0) × (marks_at keys.now value ≡ 0)) ((value : ℤ) × ((0 < units_at keys.now value) ⊎ (0 < marks_at keys.now value))) }
{
    for key in keys {
        if key.units > 0 {
            return false;
        }
        if key.marks > 0 {
            return false;
        }
    }
    true
}

// Whether a histogram has nothing: no units, no marks, no amounts and no redundant count.
fn is_empty(hist: &HistSum) -> bool
    ensures { MatchBool result (¬ HasSomething (part_of hist.now)) (HasSomething (part_of hist.now)) }
{
    if hist.sum != 0 {
        return false;
    }
    if hist.sum_mark != 0 {
        return false;
    }
    if hist.redundant > 0 {
        return false;
    }
    are_empty(&hist.keys)
}

// Whether the first histogram of a list has a name.
fn begins_with(hists: &[HistSum], name: &[u8]) -> bool
    ensures { MatchBool result (HasHistNamed hists.now name.now) ((d : _) → 0 < length hists.now → (slice_index_or hists.now 0 d).name.items ≢ name.now) }
{
    !hists.is_empty() && hists[0].name.as_slice() == name
}

// Whether the last histogram of a list has a name.
fn ends_with(hists: &[HistSum], name: &[u8]) -> bool
    ensures { MatchBool result (HasHistNamed hists.now name.now) ((d : _) → 0 < length hists.now → (slice_index_or hists.now (length hists.now - 1) d).name.items ≢ name.now) }
{
    !hists.is_empty() && hists[hists.len() - 1].name.as_slice() == name
}

// Skips an earlier histogram that has no later one of its name and spec. Refuses it if its name is among the later
// ones, or if it has something.
fn pass_over(
    alloc: Global,
    before: &[HistSum],
    later: &[HistSum],
    earlier: &HistSum,
) -> Result<(), MinusFault>
    ensures nothing { OnOk result (¬ HasSomething (part_of earlier.now)) }
    ensures unnamed { OnOk result (StandsBetween before.now earlier.now later.now → ¬ HasHistNamed (before.now ++ later.now) earlier.now.name.items) }
    ensures refused { IfErr result (λ fault. StandsBetween before.now earlier.now later.now → MatchFault fault ⊥ (λ told. (told ≡ earlier.now.name.items) × ((¬ HasHistNamed (before.now ++ later.now) told) × HasSomething (part_of earlier.now))) (λ told. (told ≡ earlier.now.name.items) × HasHistNamed (before.now ++ later.now) told)) }
{
    if ends_with(before, &earlier.name) {
        return Err(other_spec(alloc, &earlier.name));
    }
    if begins_with(later, &earlier.name) {
        return Err(other_spec(alloc, &earlier.name));
    }
    if is_empty(earlier) {
        Ok(())
    } else {
        Err(fell(alloc, &earlier.name))
    }
}

// What the least histogram of two lists has more than an earlier one, and how many of each it takes. `before` has those
// of the later list that were taken already.
fn next_hist_since(
    alloc: Global,
    before: &[HistSum],
    later: &[HistSum],
    earlier: &[HistSum],
) -> Result<(Option<HistSum>, usize, usize), MinusFault>
    requires { 0 < length later.now + length earlier.now }
    ensures later { IfOk result (λ next. next.1 ≤ length later.now) }
    ensures earlier { IfOk result (λ next. next.2 ≤ length earlier.now) }
    ensures some { IfOk result (λ next. 0 < next.1 + next.2) }
    ensures since { IfOk result (λ next. AreSince (map part_of (take next.1 later.now)) (map part_of (take next.2 earlier.now)) (map part_of (option_to_list next.0))) }
    ensures ordered { IfOk result (λ next. GoesOnAscending hist_cmp next.1 next.2 later.now earlier.now) }
    ensures whole { IfOk result (λ next. All IsWholeHist later.now → All IsWholeHist (option_to_list next.0)) }
    ensures range { IfOk result (λ next. All IsInRange later.now → All IsInRange (option_to_list next.0)) }
    ensures settled { IfOk result (λ next. IsStrictlySortedBy hist_cmp (before.now ++ later.now) → IsStrictlySortedBy hist_cmp (before.now ++ earlier.now) → All (IsNoReason (before.now ++ later.now)) (take next.2 earlier.now)) }
    ensures refused { IfErr result (λ fault. AreWhole (before.now ++ later.now) → AreWhole (before.now ++ earlier.now) → IsReason (before.now ++ later.now) earlier.now fault) }
{
    match hist::side_of(later, earlier) {
        Side::Left => Ok((Some(copy_of(alloc, &later[0])?), 1, 0)),
        Side::Right => {
            pass_over(alloc, before, later, &earlier[0])?;
            Ok((None, 0, 1))
        }
        Side::Both => Ok((Some(hist_since(alloc, &later[0], &earlier[0])?), 1, 1)),
    }
}

// Puts a histogram after others, if there is one.
fn put_hist(hists: &mut Vec<HistSum>, hist: Option<HistSum>) -> Result<(), AllocError>
    ensures { OnOk result (hists.new.items ≡ hists.old.items ++ option_to_list hist) }
{
    if let Some(hist) = hist {
        hists.push(hist)?;
    }
    Ok(())
}

/// The histograms of a later list, each with what it has more than that of its name and spec in an earlier list.
pub(crate) fn hists_since(
    alloc: Global,
    later: &[HistSum],
    earlier: &[HistSum],
) -> Result<Vec<HistSum>, MinusFault>
    ensures since { IfOk result (λ hists. AreSince (map part_of later.now) (map part_of earlier.now) (map part_of hists.items)) }
    ensures whole { IfOk result (λ hists. AreWhole later.now → AreWhole hists.items) }
    ensures grown { IfOk result (λ hists. AreWhole later.now → AreWhole earlier.now → IsGrown later.now earlier.now) }
    ensures refused { IfErr result (λ fault. AreWhole later.now → AreWhole earlier.now → IsReason later.now earlier.now fault) }
{
    let mut hists = Vec::with_capacity(alloc, later.len())?;
    let (mut i, mut j) = (0, 0);
    while i < later.len() || j < earlier.len() {
        let (before, later_rest) = later.split_at(i);
        let (hist, of_later, of_earlier) = next_hist_since(
            alloc,
            before,
            later_rest,
            earlier.split_at(j).1,
        )?;
        put_hist(&mut hists, hist)?;
        i += of_later;
        j += of_earlier;
    }
    Ok(hists)
}
