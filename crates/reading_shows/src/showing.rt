//! The text of a reading for people.

ghost use Rattle.std.specs.Prelude.{◌≡◌, ◌++◌, All, IfOk, OnOk, map};
ghost use Rattle.std.specs.List.{flat_map};
ghost use Rattle.image_reader.specs.Views.{histogram_view, reading_view};
ghost use Rattle.image_reader.specs.Readable.{IsReadable};
ghost use Rattle.reading_texts.specs.Rows.{rows_of as rows_of_histogram};
ghost use Rattle.reading_shows.specs.Showing.{histogram_text, row_lines, text_behind, IsShowOf, IsShowSince, IsShowTold};
ghost use Rattle.reading_shows.specs.Since.{came_to_all, came_to_rows};
ghost use Rattle.reading_shows.specs.SinceViews.{since_view};

use crate::choice::chosen;
use crate::ending::put_ending;
use crate::frame::{Frame, frame_of, shows_all_of};
use crate::heading::put_numbers;
use crate::lines::{put_left_out, put_rows};
use crate::most::pick;
use crate::redundant::{put_meanwhile, put_redundant};
use crate::since::{Since, came_in_all, cames_of, counts_before};
use image_reader::{HistReading, Reading};
use reading_texts::{HistRow, rows_of};
use std::alloc::{AllocError, Global};
use text_styles::{Drawn, Style};

// The units that came to a histogram with these rows since it had these counts, or 0 if the text does not say them.
fn came_to_histogram(
    alloc: Global,
    is_told: bool,
    before: &[(i32, u64)],
    hist: &HistReading,
    rows: &[HistRow],
) -> Result<u64, AllocError>
    requires readable { IsReadable (histogram_view hist.now) }
    requires rows { rows.now ≡ rows_of_histogram (histogram_view hist.now) }
    ensures { IfOk result (λ came. came ≡ came_to_all is_told before.now rows.now) }
{
    let cames = cames_of(alloc, is_told, before, rows)?;
    Ok(came_in_all(cames.as_slice()))
}

// Puts the lines of those rows of a histogram that have lines.
fn put_shown(
    alloc: Global,
    text: &mut Vec<u8>,
    style: Style,
    frame: Frame,
    is_told: bool,
    before: &[(i32, u64)],
    rows: &[HistRow],
) -> Result<(), AllocError>
    ensures { OnOk result (text.new.items ≡ text.old.items ++ row_lines style frame is_told (came_to_rows is_told before.now rows.now) rows.now) }
{
    let cames = cames_of(alloc, is_told, before, rows)?;
    put_rows(alloc, text, style, frame, is_told, cames.as_slice(), rows)
}

// Puts the text of a histogram that had these counts before.
fn put_behind(
    alloc: Global,
    text: &mut Vec<u8>,
    style: Style,
    is_told: bool,
    before: &[(i32, u64)],
    hist: &HistReading,
) -> Result<(), AllocError>
    requires { IsReadable (histogram_view hist.now) }
    ensures { OnOk result (text.new.items ≡ text.old.items ++ text_behind style is_told before.now (histogram_view hist.now)) }
{
    let rows = rows_of(alloc, hist)?;
    let rows = rows.as_slice();
    text.extend_from_slice(hist.name.as_slice())?;
    text.extend_from_slice(b"\n")?;
    put_meanwhile(text, style, hist)?;
    let came = came_to_histogram(alloc, is_told, before, hist, rows)?;
    put_numbers(text, style.is_human, came, hist, rows)?;
    let picked = pick(alloc, shows_all_of(style.shows_all, hist), rows)?;
    put_shown(
        alloc,
        text,
        style,
        frame_of(hist, rows),
        is_told,
        before,
        picked.shown.as_slice(),
    )?;
    put_left_out(text, style.is_human, picked.left_out.as_slice())?;
    put_redundant(text, style, hist)?;
    text.extend_from_slice(b"\n")?;
    Ok(())
}

// Puts the text of a histogram.
fn put_histogram(
    alloc: Global,
    text: &mut Vec<u8>,
    style: Style,
    since: Since<'_>,
    hist: &HistReading,
) -> Result<(), AllocError>
    requires { IsReadable (histogram_view hist.now) }
    ensures { OnOk result (text.new.items ≡ text.old.items ++ histogram_text style (since_view since.entry) (histogram_view hist.now)) }
{
    let before = counts_before(since, hist);
    put_behind(alloc, text, style, since.is_told, before, hist)
}

// Puts the texts of histograms.
fn put_histograms(
    alloc: Global,
    text: &mut Vec<u8>,
    style: Style,
    since: Since<'_>,
    hists: &[&HistReading],
) -> Result<(), AllocError>
    requires { All IsReadable (map (λ hist. histogram_view hist.now) hists.now) }
    ensures { OnOk result (text.new.items ≡ text.old.items ++ flat_map (histogram_text style (since_view since.entry)) (map (λ hist. histogram_view hist.now) hists.now)) }
{
    for hist in hists {
        put_histogram(alloc, text, style, since, hist)?;
    }
    Ok(())
}

/// Returns the text of a reading for people, byte for byte: for each chosen histogram, by name, its numbers, its
/// quantiles and a bar for each bucket that has units, or for each of the 20 values of a sparse histogram with the most
/// units, unless the style shows all; then the flags that are set, the bad records and why the list of records stops,
/// if it does. If values of a sparse histogram are left out, one line says how many there are, and how many units they
/// have together. If the redundant count of a histogram differs from its units, a style that shows redundant counts
/// adds a line with it, and a style that marks such histograms adds a line after the name. The only error is that
/// memory runs out.
pub fn show_text(alloc: Global, reading: &Reading, drawn: &Drawn<'_>) -> Result<Vec<u8>, AllocError>
    requires { All IsReadable (map histogram_view reading.now.hists.items) }
    ensures { IfOk result (λ text. IsShowOf drawn.now (reading_view reading.now) text.items) }
{
    let nothing = Since {
        is_told: false,
        hists: &[],
    };
    told_text(alloc, reading, nothing, drawn)
}

/// Returns the same text, byte for byte, with what came since an earlier reading. After the units of each bucket, and
/// of each value of a sparse histogram, there is a column with a plus sign and how many more units these are than in
/// the earlier histogram of the same name and spec; and after all units of a histogram, what came to all of its
/// buckets. If nothing came, nothing is written there. A histogram that is new, or has another spec than before, counts
/// from 0. Of two looks at one segment, the second taken after the first has ended, no bucket of the second has fewer
/// units: this is `look_promises::readings_rise`. If one has fewer, as it may in readings of two segments, nothing came
/// to it. The only error is that memory runs out.
pub fn show_since_text(
    alloc: Global,
    reading: &Reading,
    earlier: &Reading,
    drawn: &Drawn<'_>,
) -> Result<Vec<u8>, AllocError>
    requires { All IsReadable (map histogram_view reading.now.hists.items) }
    ensures { IfOk result (λ text. IsShowSince drawn.now (reading_view earlier.now) (reading_view reading.now) text.items) }
{
    let since = Since {
        is_told: true,
        hists: earlier.hists.as_slice(),
    };
    told_text(alloc, reading, since, drawn)
}

// The text of a reading, with what came since an earlier one if `since` has that.
fn told_text(
    alloc: Global,
    reading: &Reading,
    since: Since<'_>,
    drawn: &Drawn<'_>,
) -> Result<Vec<u8>, AllocError>
    requires { All IsReadable (map histogram_view reading.now.hists.items) }
    ensures { IfOk result (λ text. IsShowTold drawn.now (since_view since.entry) (reading_view reading.now) text.items) }
{
    let hists = chosen(alloc, reading, &drawn.choice)?;
    let mut text = Vec::new(alloc);
    put_histograms(alloc, &mut text, drawn.style, since, hists.as_slice())?;
    put_ending(alloc, &mut text, hists.as_slice(), reading)?;
    Ok(text)
}
