//! Which histograms are shown.

ghost use Rattle.std.specs.Prelude.{◌≡◌, IfOk, map};
ghost use Rattle.image_reader.specs.Views.{histogram_view, reading_view};
ghost use Rattle.reading_shows.specs.Choice.{has_name, has_part as has_part_of, is_chosen as is_chosen_of};
ghost use Rattle.reading_shows.specs.Showing.{AreShown};

use image_reader::{HistReading, Reading};
use std::alloc::{AllocError, Global};
use text_styles::Choice;

// Whether a part is anywhere in a name.
fn has_part(part: &[u8], name: &[u8]) -> bool
    ensures { result ≡ has_part_of part.now name.now }
{
    for i in 0..name.len() {
        if name.split_at(i).1.starts_with(part) {
            return true;
        }
    }
    false
}

// Whether a name is one of these.
fn is_named(names: &[&str], hist: &HistReading) -> bool
    ensures { result ≡ has_name names.now (histogram_view hist.now) }
{
    for name in names {
        if name.as_bytes() == hist.name.as_slice() {
            return true;
        }
    }
    false
}

// Whether a histogram is chosen.
fn is_chosen(choice: &Choice<'_>, hist: &HistReading) -> bool
    ensures { result ≡ is_chosen_of choice.now (histogram_view hist.now) }
{
    match choice {
        Choice::All => true,
        Choice::Named(names) => is_named(names.as_slice(), hist),
        Choice::Part(part) => has_part(part.as_bytes(), hist.name.as_slice()),
    }
}

// The chosen histograms of a reading, ascending by the bytes of their names.
pub(crate) fn chosen<'a>(
    alloc: Global,
    reading: &'a Reading,
    choice: &Choice<'_>,
) -> Result<Vec<&'a HistReading>, AllocError>
    ensures { IfOk result (λ hists. AreShown choice.now (map (λ hist. histogram_view hist.now) hists.items) (reading_view reading.now)) }
{
    let mut hists: Vec<&HistReading> = Vec::new(alloc);
    for hist in &reading.hists {
        if is_chosen(choice, hist) {
            hists.push(hist)?;
        }
    }
    hists.sort_by(|a, b| a.name.as_slice().cmp(b.name.as_slice()))?;
    Ok(hists)
}
