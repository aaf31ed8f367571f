//! What deltas took of a segment, as what a follower has noted of it.

ghost use Rattle.std.specs.Prelude.{IfOk, IsPermutation, map};
ghost use Rattle.image_reader.specs.Views.{histogram_view};
ghost use Rattle.segment_merge.specs.Noted.{AreNotesInOrder, IsReadingInOrder};
ghost use Rattle.segment_merge.specs.Taken.{taken};

use crate::marked::by_name;
use crate::noting::noted_cut;
use image_reader::HistReading;
use std::alloc::{AllocError, Global};

// What deltas took of these histograms, by their names.
pub(crate) fn taken_of(
    alloc: Global,
    hists: Vec<HistReading>,
) -> Result<Vec<HistReading>, AllocError>
    ensures taken { IfOk result (λ notes. IsPermutation (map taken (map histogram_view hists.items)) (map histogram_view notes.items)) }
    ensures order { IfOk result (λ notes. IsReadingInOrder (map histogram_view hists.items) → AreNotesInOrder (map histogram_view notes.items)) }
{
    let mut notes = Vec::with_capacity(alloc, hists.len())?;
    for hist in by_name(hists)? {
        notes.push_reserved(noted_cut(hist, 0));
    }
    Ok(notes)
}
