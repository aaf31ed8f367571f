//! What the lines of a histogram have in common.

ghost use Rattle.std.specs.Prelude.{◌≡◌};
ghost use Rattle.image_reader.specs.Views.{histogram_view};
ghost use Rattle.image_reader.specs.Readable.{IsReadable};
ghost use Rattle.reading_texts.specs.Rows.{rows_of as rows_of_histogram};
ghost use Rattle.reading_shows.specs.Showing.{frame_of as frame_of_histogram, shows_all_of as shows_all_of_histogram};

use crate::lines::most;
use crate::row_names::{RowNames, row_names_of};
use image_reader::HistReading;
use reading_texts::{HistRow, is_sparse, units};

// What the rows of a histogram have in common.
#[derive(Clone, Copy, PartialEq, Eq)]
pub(crate) struct Frame {
    // How the values of a row are written.
    pub(crate) row_names: RowNames,
    // The units of all rows.
    pub(crate) total: u64,
    // The units of the row that has the most.
    pub(crate) most: u64,
}

// How wide the columns of a histogram are.
#[derive(Clone, Copy, PartialEq, Eq)]
pub(crate) struct LineColumns {
    // The column of the values.
    pub(crate) values: usize,
    // The longest bar.
    pub(crate) bars: u16,
    // The column of the units.
    pub(crate) units: usize,
    // The column of the units that came, with a blank before them; 0 if these units are not shown.
    pub(crate) came: usize,
}

// What these rows of a histogram have in common.
pub(crate) fn frame_of(hist: &HistReading, rows: &[HistRow]) -> Frame
    requires readable { IsReadable (histogram_view hist.now) }
    requires rows { rows.now ≡ rows_of_histogram (histogram_view hist.now) }
    ensures { result ≡ frame_of_histogram (histogram_view hist.now) }
{
    Frame {
        row_names: row_names_of(&hist.spec),
        total: units(hist),
        most: most(rows),
    }
}

// Whether all rows of a histogram may have lines.
pub(crate) fn shows_all_of(shows_all: bool, hist: &HistReading) -> bool
    ensures { result ≡ shows_all_of_histogram shows_all (histogram_view hist.now) }
{
    shows_all || !is_sparse(&hist.spec)
}
