//! What a page begins with, after its title.

ghost use Rattle.std.specs.Prelude.{◌≡◌, ◌++◌, All, OnOk, map};
ghost use Rattle.std.specs.List.{flat_map, enumerate_from};
ghost use Rattle.image_reader.specs.Readable.{IsReadable};
ghost use Rattle.image_reader.specs.Views.{histogram_view};
ghost use Rattle.reading_shows.specs.ListViews.{entry_view};
ghost use Rattle.reading_shows.specs.PageLists.{list_row, page_list, page_overview, row_of_numbered};

use crate::escapes::escaped;
use crate::listing::{ListEntry, entry_of};
use image_reader::HistReading;
use reading_texts::put_parts;
use std::alloc::{AllocError, Global};

// Puts an overview with these lines.
pub(crate) fn put_page_overview(text: &mut Vec<u8>, lines: &[u8]) -> Result<(), AllocError>
    ensures { OnOk result (text.new.items ≡ text.old.items ++ page_overview lines.now) }
{
    text.extend_from_slice(b"<header>\n<p>")?;
    text.extend_from_slice(lines)?;
    text.extend_from_slice(b"</p>\n</header>\n")?;
    Ok(())
}

// Puts the row of a numbered line in the list.
fn put_list_row(
    alloc: Global,
    text: &mut Vec<u8>,
    number: usize,
    entry: &ListEntry,
) -> Result<(), AllocError>
    ensures { OnOk result (text.new.items ≡ text.old.items ++ list_row number (entry_view entry.now)) }
{
    let number = number.to_string(alloc)?;
    let name = escaped(alloc, entry.name.as_slice())?;
    put_parts(
        text,
        &[
            b"<tr><td><a href=\"#h",
            number.as_bytes(),
            b"\">",
            name.as_slice(),
            b"</a></td><td>",
            entry.kind.as_slice(),
            b"</td><td>",
            entry.units.as_slice(),
            b"</td><td>",
            entry.mean.as_slice(),
            b"</td><td>",
            entry.median.as_slice(),
            b"</td><td>",
            entry.high.as_slice(),
            b"</td><td>",
            entry.greatest.as_slice(),
            b"</td></tr>\n",
        ],
    )
}

// Puts the row of a numbered histogram.
fn put_row_of(
    alloc: Global,
    text: &mut Vec<u8>,
    number: usize,
    hist: &HistReading,
) -> Result<(), AllocError>
    requires { IsReadable (histogram_view hist.now) }
    ensures { OnOk result (text.new.items ≡ text.old.items ++ row_of_numbered (number, histogram_view hist.now)) }
{
    let entry = entry_of(alloc, true, hist)?;
    put_list_row(alloc, text, number, &entry)
}

// Puts the rows of histograms, numbered from 0.
fn put_list_rows(
    alloc: Global,
    text: &mut Vec<u8>,
    hists: &[&HistReading],
) -> Result<(), AllocError>
    requires { All IsReadable (map (λ hist. histogram_view hist.now) hists.now) }
    ensures { OnOk result (text.new.items ≡ text.old.items ++ flat_map row_of_numbered (enumerate_from 0 (map (λ hist. histogram_view hist.now) hists.now))) }
{
    for (i, hist) in hists.iter().enumerate() {
        put_row_of(alloc, text, i, hist)?;
    }
    Ok(())
}

// Puts the list of histograms.
pub(crate) fn put_page_list(
    alloc: Global,
    text: &mut Vec<u8>,
    hists: &[&HistReading],
) -> Result<(), AllocError>
    requires { All IsReadable (map (λ hist. histogram_view hist.now) hists.now) }
    ensures { OnOk result (text.new.items ≡ text.old.items ++ page_list (map (λ hist. histogram_view hist.now) hists.now)) }
{
    text.extend_from_slice(
        b"<nav>\n<table>\n<tr><th>name</th><th>kind</th><th>units</th><th>mean</th><th>50%</th><th>99%</th><th>greatest</th></tr>\n",
    )?;
    put_list_rows(alloc, text, hists)?;
    text.extend_from_slice(b"</table>\n</nav>\n")?;
    Ok(())
}
