//! The web page of an image, and of a sum of images.

ghost use Rattle.std.specs.Prelude.{◌≡◌, ◌++◌, All, IfOk, OnOk, map};
ghost use Rattle.std.specs.List.{flat_map, enumerate_from};
ghost use Rattle.image_reader.specs.Views.{histogram_view, reading_view};
ghost use Rattle.image_reader.specs.Readable.{IsReadable};
ghost use Rattle.reading_shows.specs.Page.{table, title, section, IsPageOf, IsPageOfSum, IsPageWith};
ghost use Rattle.reading_texts.specs.Rows.{rows_of as rows_of_histogram};

use crate::choice::chosen;
use crate::ending::put_ending;
use crate::escapes::escaped;
use crate::frame::{frame_of, shows_all_of};
use crate::heading::put_numbers;
use crate::lines::put_left_out;
use crate::most::pick;
use crate::page_lists::{put_page_list, put_page_overview};
use crate::page_rows::put_page_rows;
use crate::sheet::put_head;
use crate::source::{Source, source_text};
use image_reader::{HistReading, Reading};
use reading_overviews::{SumHead, overview_text, sum_overview_text};
use reading_texts::{HistRow, put_parts, rows_of};
use segment_image::SegmentHead;
use std::alloc::{AllocError, Global};
use text_styles::Drawn;

// Puts the table of a histogram with these rows, and how many others there are.
fn put_table(
    alloc: Global,
    text: &mut Vec<u8>,
    shows_all: bool,
    hist: &HistReading,
    rows: &[HistRow],
) -> Result<(), AllocError>
    requires readable { IsReadable (histogram_view hist.now) }
    requires rows { rows.now ≡ rows_of_histogram (histogram_view hist.now) }
    ensures { OnOk result (text.new.items ≡ text.old.items ++ table shows_all (histogram_view hist.now)) }
{
    let picked = pick(alloc, shows_all_of(shows_all, hist), rows)?;
    text.extend_from_slice(
        b"<table>\n<tr><th>values</th><th></th><th>units</th><th>percent</th><th>up to here</th></tr>\n",
    )?;
    put_page_rows(text, frame_of(hist, rows), picked.shown.as_slice())?;
    text.extend_from_slice(b"</table>\n<p>")?;
    put_left_out(text, true, picked.left_out.as_slice())?;
    text.extend_from_slice(b"</p>\n</section>\n")?;
    Ok(())
}

// Puts the name of a numbered histogram, to which the list has a link.
fn put_title(
    alloc: Global,
    text: &mut Vec<u8>,
    number: usize,
    hist: &HistReading,
) -> Result<(), AllocError>
    ensures { OnOk result (text.new.items ≡ text.old.items ++ title (number, histogram_view hist.now)) }
{
    let number = number.to_string(alloc)?;
    let name = escaped(alloc, hist.name.as_slice())?;
    put_parts(
        text,
        &[
            b"<section id=\"h",
            number.as_bytes(),
            b"\">\n<h2>",
            name.as_slice(),
            b"</h2>\n<p>",
        ],
    )
}

// Puts a numbered histogram: its name, its numbers and its table.
fn put_section(
    alloc: Global,
    text: &mut Vec<u8>,
    shows_all: bool,
    number: usize,
    hist: &HistReading,
) -> Result<(), AllocError>
    requires { IsReadable (histogram_view hist.now) }
    ensures { OnOk result (text.new.items ≡ text.old.items ++ section shows_all (number, histogram_view hist.now)) }
{
    let rows = rows_of(alloc, hist)?;
    let rows = rows.as_slice();
    put_title(alloc, text, number, hist)?;
    put_numbers(text, true, 0, hist, rows)?;
    text.extend_from_slice(b"</p>\n")?;
    put_table(alloc, text, shows_all, hist, rows)?;
    Ok(())
}

// Puts histograms, numbered from 0.
fn put_sections(
    alloc: Global,
    text: &mut Vec<u8>,
    shows_all: bool,
    hists: &[&HistReading],
) -> Result<(), AllocError>
    requires { All IsReadable (map (λ hist. histogram_view hist.now) hists.now) }
    ensures { OnOk result (text.new.items ≡ text.old.items ++ flat_map (section shows_all) (enumerate_from 0 (map (λ hist. histogram_view hist.now) hists.now))) }
{
    for (i, hist) in hists.iter().enumerate() {
        put_section(alloc, text, shows_all, i, hist)?;
    }
    Ok(())
}

// Composes the page of a reading, whose overview has these lines.
fn page_with(
    alloc: Global,
    lines: &[u8],
    reading: &Reading,
    source: Source<'_>,
    drawn: &Drawn<'_>,
) -> Result<Vec<u8>, AllocError>
    requires { All IsReadable (map histogram_view reading.now.hists.items) }
    ensures { IfOk result (λ page. IsPageWith source.entry drawn.now lines.now (reading_view reading.now) page.items) }
{
    let hists = chosen(alloc, reading, &drawn.choice)?;
    let hists = hists.as_slice();
    let mut text = Vec::new(alloc);
    let named = source_text(alloc, source)?;
    put_head(&mut text, named.as_slice())?;
    put_page_overview(&mut text, lines)?;
    put_page_list(alloc, &mut text, hists)?;
    text.extend_from_slice(b"<main>\n")?;
    put_sections(alloc, &mut text, drawn.style.shows_all, hists)?;
    text.extend_from_slice(b"</main>\n<footer>")?;
    put_ending(alloc, &mut text, hists, reading)?;
    text.extend_from_slice(b"</footer>\n</body>\n</html>\n")?;
    Ok(text)
}

/// Returns the web page of an image, byte for byte: one self-contained HTML document. It names where the image comes
/// from, and begins with the overview of `reading_overviews` and the list of [`list_text`](crate::list_text), whose
/// names are links to the histograms. Then come the numbers and sentences of [`show_text`](crate::show_text), for the
/// same histograms in the same order. Numbers have commas, bars are SVG, and names are escaped. All values of a sparse
/// histogram have rows, or only the 20 with the most units. The only error is that memory runs out.
pub fn page_text(
    alloc: Global,
    head: &SegmentHead,
    reading: &Reading,
    source: Source<'_>,
    drawn: &Drawn<'_>,
) -> Result<Vec<u8>, AllocError>
    requires { All IsReadable (map histogram_view reading.now.hists.items) }
    ensures { IfOk result (λ page. IsPageOf source.entry drawn.now head.now (reading_view reading.now) page.items) }
{
    let lines = overview_text(alloc, true, head, reading)?;
    page_with(alloc, lines.as_slice(), reading, source, drawn)
}

/// Returns the web page of a sum of images, byte for byte: the page of [`page_text`] for the reading of the sum, with
/// the overview of a sum (`reading_overviews::sum_overview_text`) instead of that of an image. It names where the sum
/// comes from: its input, or the first of several and how many more there are. The only error is that memory runs out.
pub fn page_of_sum(
    alloc: Global,
    head: &SumHead,
    reading: &Reading,
    source: Source<'_>,
    drawn: &Drawn<'_>,
) -> Result<Vec<u8>, AllocError>
    requires { All IsReadable (map histogram_view reading.now.hists.items) }
    ensures { IfOk result (λ page. IsPageOfSum source.entry drawn.now head.now (reading_view reading.now) page.items) }
{
    let lines = sum_overview_text(alloc, true, head, reading)?;
    page_with(alloc, lines.as_slice(), reading, source, drawn)
}
