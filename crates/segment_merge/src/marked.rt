//! A reading whose marks are what a follower has noted.

ghost use Rattle.std.specs.Prelude.{◌≡◌, ◌≤◌, IfOk, IsPermutation, MatchOption, length, map};
ghost use Rattle.std.specs.List.{All};
ghost use Rattle.image_reader.specs.Views.{histogram_view};
ghost use Rattle.segment_merge.specs.Marks.{ReachesItsMark};
ghost use Rattle.segment_merge.specs.Noted.{AreByName, AreNotesInOrder, HasFallenBelow, HasNoNote, HasRisen, HaveNotes, IsFallenAt, IsLessThan, IsMarkedAt, IsMarkedBy, IsReadingInOrder, unmarked as without_marks};
ghost use Rattle.segment_merge.specs.Remainder.{marked as with_their_marks};

use crate::marks::marks_of;
use image_reader::HistReading;
use std::alloc::{AllocError, Global};
use std::cmp::Ordering;

// The histograms in the order of their names.
pub(crate) fn by_name(hists: Vec<HistReading>) -> Result<Vec<HistReading>, AllocError>
    ensures moved { IfOk result (λ sorted. IsPermutation hists.items sorted.items) }
    ensures sorted { IfOk result (λ sorted. AreByName sorted.items) }
{
    let mut sorted = hists;
    sorted.sort_by(|a, b| a.name.as_slice().cmp(b.name.as_slice()))?;
    Ok(sorted)
}

// What is noted of a histogram: of each of its keys, and of its sum.
#[derive(Drop)]
struct Marks {
    units: Vec<u64>,
    sum: i128,
}

// A histogram with these marks.
fn with_marks(hist: HistReading, marks: Marks) -> HistReading
    ensures { histogram_view result ≡ record (histogram_view hist) { marks = marks.units.items; sum_mark = marks.sum } }
{
    let Marks {
        units,
        sum: sum_mark,
    } = marks;
    let HistReading {
        reference,
        name,
        spec,
        counts,
        marks: _,
        sum,
        sum_mark: _,
        redundant,
    } = hist;
    HistReading {
        reference,
        name,
        spec,
        counts,
        marks: units,
        sum,
        sum_mark,
        redundant,
    }
}

// A histogram of which nothing is noted.
fn unmarked(alloc: Global, hist: HistReading) -> HistReading
    ensures same { without_marks (histogram_view result) ≡ without_marks (histogram_view hist) }
    ensures none { HasNoNote (histogram_view result) }
    ensures risen { HasRisen (histogram_view result) }
{
    let units = Vec::new(alloc);
    with_marks(hist, Marks { units, sum: 0 })
}

// A histogram with what is noted of it; none if it has another spec, or fewer units of a key.
fn marked_by(
    alloc: Global,
    note: &HistReading,
    hist: HistReading,
) -> Result<Option<HistReading>, AllocError>
    requires { hist.name.items ≡ note.now.name.items }
    ensures { IfOk result (λ found. MatchOption found (IsLessThan (histogram_view note.now) (histogram_view hist)) (λ h. (without_marks (histogram_view h) ≡ without_marks (histogram_view hist)) × HasRisen (histogram_view h) × IsMarkedBy (histogram_view note.now) (histogram_view h))) }
{
    if !note.spec.is_same(&hist.spec) {
        return Ok(None);
    }
    match marks_of(alloc, &note.counts, &hist.counts)? {
        Some(units) => {
            let sum = note.sum;
            Ok(Some(with_marks(hist, Marks { units, sum })))
        }
        None => Ok(None),
    }
}

// A histogram with what is noted of it, if the next one that is noted has its name, and whether it has; none if it is
// less than that, or that is gone.
fn marked_next(
    alloc: Global,
    noted: &[HistReading],
    next: usize,
    hist: HistReading,
) -> Result<Option<(HistReading, bool)>, AllocError>
    requires { next ≤ length noted.now }
    ensures { IfOk result (λ found. MatchOption found (IsFallenAt (map histogram_view noted.now) next (histogram_view hist)) (λ came. (without_marks (histogram_view came.0) ≡ without_marks (histogram_view hist)) × HasRisen (histogram_view came.0) × IsMarkedAt (map histogram_view noted.now) next (histogram_view came.0) came.1)) }
{
    if next == noted.len() {
        return Ok(Some((unmarked(alloc, hist), false)));
    }
    let note = &noted[next];
    match hist.name.as_slice().cmp(note.name.as_slice()) {
        Ordering::Less => Ok(Some((unmarked(alloc, hist), false))),
        Ordering::Equal => match marked_by(alloc, note, hist)? {
            Some(with_notes) => Ok(Some((with_notes, true))),
            None => Ok(None),
        },
        Ordering::Greater => Ok(None),
    }
}

// The histograms of a reading by their names, each with what is noted of it as its marks; none if one that is noted is
// gone or has fallen.
pub(crate) fn marked(
    alloc: Global,
    noted: &[HistReading],
    hists: Vec<HistReading>,
) -> Result<Option<Vec<HistReading>>, AllocError>
    ensures { IfOk result (λ found. MatchOption found (AreNotesInOrder (map histogram_view noted.now) → IsReadingInOrder (map histogram_view hists.items) → HasFallenBelow (map histogram_view noted.now) (map histogram_view hists.items)) (λ all. HaveNotes (map histogram_view noted.now) (map histogram_view hists.items) (map histogram_view all.items))) }
{
    let mut all = Vec::with_capacity(alloc, hists.len())?;
    let mut next = 0;
    for hist in by_name(hists)? {
        let Some(came) = marked_next(alloc, noted, next, hist)? else {
            return Ok(None);
        };
        let is_noted = came.1;
        all.push_reserved(came.0);
        next += usize::from(is_noted);
    }
    if next < noted.len() {
        return Ok(None);
    }
    Ok(Some(all))
}
