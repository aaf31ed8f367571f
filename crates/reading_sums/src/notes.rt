//! What images say apart from their histograms.

ghost use Rattle.std.specs.Prelude.{◌≡◌, ◌+◌, ◌<◌, ◌≤◌, ◌^◌, IfOk, OnOk, OnErr};
ghost use Rattle.image_reader.specs.Views.{reading_view};
ghost use Rattle.reading_sums.specs.Addends.{notes_of_one};
ghost use Rattle.reading_sums.specs.Fitting.{NotesDoNotFit};
ghost use Rattle.reading_sums.specs.Notes.{AreNotesOfBoth};

use crate::fault::SumsFault;
use image_reader::Reading;

/// What the images of a sum say apart from their histograms.
#[derive(Clone, Copy, PartialEq, Eq)]
pub struct Notes {
    /// How many images there are.
    pub images: u64,
    /// How many of them had an allocation that did not fit.
    pub full: u64,
    /// How many of them some thread found corrupt.
    pub corrupt: u64,
    /// How many have a list that stops before its end.
    pub stopped: u64,
    /// How many bad records they have together.
    pub bad: u64,
}

/// The notes of one image.
pub(crate) fn notes_of(reading: &Reading) -> Notes
    ensures { result ≡ notes_of_one (reading_view reading.now) }
{
    Notes {
        images: 1,
        full: u64::from(reading.full),
        corrupt: u64::from(reading.corrupt),
        stopped: u64::from(reading.stopped.is_some()),
        bad: reading.bad.len() as u64,
    }
}

/// The sum of two numbers, if it fits 64 bits.
pub(crate) fn number_of_both(left: u64, right: u64) -> Result<u64, SumsFault>
    ensures sum { IfOk result (λ sum. sum ≡ left + right) }
    ensures fits { IfOk result (λ sum. sum < 2 ^ 64) }
    ensures too_many { OnErr result (2 ^ 64 ≤ left + right) }
{
    left.checked_add(right).ok_or(SumsFault::TooMany)
}

/// The notes of two sums together, if each number fits 64 bits.
pub(crate) fn notes_of_both(left: &Notes, right: &Notes) -> Result<Notes, SumsFault>
    ensures both { IfOk result (AreNotesOfBoth left.now right.now) }
    ensures fits { OnOk result (¬ NotesDoNotFit left.now right.now) }
    ensures too_many { OnErr result (NotesDoNotFit left.now right.now) }
{
    Ok(Notes {
        images: number_of_both(left.images, right.images)?,
        full: number_of_both(left.full, right.full)?,
        corrupt: number_of_both(left.corrupt, right.corrupt)?,
        stopped: number_of_both(left.stopped, right.stopped)?,
        bad: number_of_both(left.bad, right.bad)?,
    })
}
