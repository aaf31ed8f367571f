//! What is noted of the keys of a histogram, beside the keys that a later reading has of it.

ghost use Rattle.std.specs.Prelude.{◌≤◌, length, IfOk, MatchOption};
ghost use Rattle.segment_merge.specs.Marks.{AreAscending, AreMarksOf, HasFewer, IsGone, IsMark, IsNextNoted};

use std::alloc::{AllocError, Global};

// The index of the first key from there on of which units are noted, or how many keys there are.
fn next_noted(noted: &[(i32, u64)], from: usize) -> usize
    requires { from ≤ length noted.now }
    ensures { IsNextNoted noted.now from result }
{
    for i in from..noted.len() {
        if noted[i].1 > 0 {
            return i;
        }
    }
    noted.len()
}

// The units that are noted of a key, if the next key that is noted is none before it; none if it is, or has more units.
fn mark_of(noted: &[(i32, u64)], next: usize, count: &(i32, u64)) -> Option<u64>
    requires { next ≤ length noted.now }
    ensures { MatchOption result (IsGone noted.now next count.now.0 count.now.1) (IsMark noted.now next count.now.0 count.now.1) }
{
    if next == noted.len() {
        return Some(0);
    }
    let (first, mark) = noted[next];
    if count.0 < first {
        Some(0)
    } else if count.0 == first && mark <= count.1 {
        Some(mark)
    } else {
        None
    }
}

// The units that are noted of each key of a histogram; none if a key has fewer.
pub(crate) fn marks_of(
    alloc: Global,
    noted: &[(i32, u64)],
    counts: &[(i32, u64)],
) -> Result<Option<Vec<u64>>, AllocError>
    ensures { IfOk result (λ found. MatchOption found (AreAscending noted.now → AreAscending counts.now → HasFewer noted.now counts.now) (λ marks. AreMarksOf noted.now counts.now marks.items)) }
{
    let mut marks = Vec::with_capacity(alloc, counts.len())?;
    let mut next = next_noted(noted, 0);
    for count in counts {
        let Some(mark) = mark_of(noted, next, count) else {
            return Ok(None);
        };
        if mark > 0 {
            next = next_noted(noted, next + 1);
        }
        marks.push_reserved(mark);
    }
    if next < noted.len() {
        return Ok(None);
    }
    Ok(Some(marks))
}
