//! The texts.

ghost use Rattle.std.specs.Prelude.{◌≡◌, map, All, IfOk, MatchOption};
ghost use Rattle.image_reader.specs.Readable.{IsReadable};
ghost use Rattle.image_reader.specs.Views.{histogram_view, reading_view};
ghost use Rattle.reading_texts.specs.Exporting.{IsExportOf};
ghost use Rattle.reading_texts.specs.Labels.{label_view};
ghost use Rattle.reading_texts.specs.Text.{IsTextOf};
ghost use Rattle.reading_shows.specs.Listing.{IsListOf};
ghost use Rattle.reading_shows.specs.Showing.{IsShowOf, IsShowSince};
ghost use Rattle.live_texts.specs.Live.{AreReadable, reading_of as reading_of_live};

use crate::made::reading_of;
use crate::readable::are_readable;
use image_reader::Reading;
use live_reading::LiveReading;
use reading_shows::{Drawn, list_text, show_since_text, show_text};
use reading_texts::{Label, export_text, report_text};
use std::alloc::{AllocError, Global};

// The reading that has these histograms, or none if no segment can have one of them.
fn checked(alloc: Global, live: &LiveReading) -> Result<Option<Reading>, AllocError>
    ensures { IfOk result (λ found. MatchOption found (AreReadable live.now → ⊥) (λ reading. (reading_view reading ≡ reading_of_live live.now) × All IsReadable (map histogram_view reading.hists.items))) }
{
    let reading = reading_of(alloc, live)?;
    let are = are_readable(alloc, reading.hists.as_slice())?;
    Ok(if are { Some(reading) } else { None })
}

/// Returns the report of a live reading as CSV, as `reading_texts::report_text` does for an image.
///
/// If a segment can have each of these histograms, the text is exactly that of the reading that has these names, specs,
/// counts, sums and redundant counts, and no mark, no flag and no bad record. `None` comes only if there is one that no
/// segment can have: its spec is not valid, it does not have one count for each bucket, or its units together do not
/// fit in 64 bits. The only error is that memory runs out.
pub fn report(alloc: Global, live: &LiveReading) -> Result<Option<Vec<u8>>, AllocError>
    ensures { IfOk result (λ found. MatchOption found (AreReadable live.now → ⊥) (λ text. AreReadable live.now × IsTextOf (reading_of_live live.now) text.items)) }
{
    let Some(reading) = checked(alloc, live)? else {
        return Ok(None);
    };
    Ok(Some(report_text(alloc, &reading)?))
}

/// Returns the metrics of a live reading in the Prometheus text format, as `reading_texts::export_text` does for an
/// image: their names begin with `prefix`, and all lines have these labels. Whether these may be asked for,
/// `reading_texts::is_prefix` and `reading_texts::are_line_labels` say.
///
/// The text is exactly that of the reading that [`report`] names, and `None` comes only for the same causes as there.
/// The only error is that memory runs out.
pub fn export(
    alloc: Global,
    live: &LiveReading,
    prefix: &[u8],
    line_labels: &[Label<'_>],
) -> Result<Option<Vec<u8>>, AllocError>
    ensures { IfOk result (λ found. MatchOption found (AreReadable live.now → ⊥) (λ text. AreReadable live.now × IsExportOf prefix.now (map label_view line_labels.now) (reading_of_live live.now) text.items)) }
{
    let Some(reading) = checked(alloc, live)? else {
        return Ok(None);
    };
    Ok(Some(export_text(alloc, &reading, prefix, line_labels)?))
}

/// Returns the text of a live reading for people, as `reading_shows::show_text` does for an image.
///
/// The text is exactly that of the reading that [`report`] names, and `None` comes only for the same causes as there.
/// The only error is that memory runs out.
pub fn show(
    alloc: Global,
    live: &LiveReading,
    drawn: &Drawn<'_>,
) -> Result<Option<Vec<u8>>, AllocError>
    ensures { IfOk result (λ found. MatchOption found (AreReadable live.now → ⊥) (λ text. AreReadable live.now × IsShowOf drawn.now (reading_of_live live.now) text.items)) }
{
    let Some(reading) = checked(alloc, live)? else {
        return Ok(None);
    };
    Ok(Some(show_text(alloc, &reading, drawn)?))
}

/// Returns the same text, with what came since an earlier live reading, as `reading_shows::show_since_text` does for
/// images.
///
/// The text is exactly that of the readings that [`report`] names for the two, and `None` comes only for the same
/// causes as there, in the later one; the earlier one may be any. The only error is that memory runs out.
pub fn show_since(
    alloc: Global,
    live: &LiveReading,
    earlier: &LiveReading,
    drawn: &Drawn<'_>,
) -> Result<Option<Vec<u8>>, AllocError>
    ensures { IfOk result (λ found. MatchOption found (AreReadable live.now → ⊥) (λ text. AreReadable live.now × IsShowSince drawn.now (reading_of_live earlier.now) (reading_of_live live.now) text.items)) }
{
    let Some(reading) = checked(alloc, live)? else {
        return Ok(None);
    };
    let earlier = reading_of(alloc, earlier)?;
    let text = show_since_text(alloc, &reading, &earlier, drawn)?;
    Ok(Some(text))
}

/// Returns a line for each of the chosen histograms of a live reading, as `reading_shows::list_text` does for an image.
///
/// The text is exactly that of the reading that [`report`] names, and `None` comes only for the same causes as there.
/// The only error is that memory runs out.
pub fn list(
    alloc: Global,
    live: &LiveReading,
    drawn: &Drawn<'_>,
) -> Result<Option<Vec<u8>>, AllocError>
    ensures { IfOk result (λ found. MatchOption found (AreReadable live.now → ⊥) (λ text. AreReadable live.now × IsListOf drawn.now (reading_of_live live.now) text.items)) }
{
    let Some(reading) = checked(alloc, live)? else {
        return Ok(None);
    };
    Ok(Some(list_text(alloc, &reading, drawn)?))
}
