//! The order of the histograms in a report: ascending by the bytes of their names.

ghost use Rattle.std.specs.Prelude.{IfOk, map};
ghost use Rattle.image_reader.specs.Views.{histogram_view, reading_view};
ghost use Rattle.reading_texts.specs.Rows.{AreSortedByName};

use image_reader::{HistReading, Reading};
use std::alloc::{AllocError, Global};

/// The histograms of a reading, ascending by the bytes of their names.
pub(crate) fn in_order(alloc: Global, reading: &Reading) -> Result<Vec<&HistReading>, AllocError>
    ensures { IfOk result (λ hists. AreSortedByName (map (λ hist. histogram_view hist.now) hists.items) (reading_view reading.now)) }
{
    let mut hists: Vec<&HistReading> = reading.hists.iter().collect(alloc)?;
    hists.sort_by(|a, b| a.name.as_slice().cmp(b.name.as_slice()))?;
    Ok(hists)
}
