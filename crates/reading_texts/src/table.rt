//! The rows of a reading as a table, for engines that read CSV.

ghost use Rattle.std.specs.Prelude.{◌≡◌, ◌++◌, All, IfOk, OnOk, map};
ghost use Rattle.std.specs.List.{flat_map};
ghost use Rattle.image_reader.specs.Readable.{IsReadable};
ghost use Rattle.image_reader.specs.Views.{histogram_view, reading_view};
ghost use Rattle.reading_texts.specs.Table.{table_head, table_rows, IsTableOf};

use crate::lines::put_line;
use crate::order::in_order;
use crate::text::put_buckets;
use image_reader::{HistReading, Reading};
use std::alloc::{AllocError, Global};

// The line of the columns.
fn put_head(text: &mut Vec<u8>) -> Result<(), AllocError>
    ensures { OnOk result (text.new.items ≡ text.old.items ++ table_head) }
{
    put_line(text, b"name", &[b"kind", b"low", b"high", b"count"])
}

// The rows of all histograms.
fn put_tables(alloc: Global, text: &mut Vec<u8>, hists: &[&HistReading]) -> Result<(), AllocError>
    requires { All IsReadable (map (λ hist. histogram_view hist.now) hists.now) }
    ensures { OnOk result (text.new.items ≡ text.old.items ++ flat_map table_rows (map (λ hist. histogram_view hist.now) hists.now)) }
{
    for hist in hists {
        put_buckets(alloc, text, hist)?;
    }
    Ok(())
}

/// Returns the rows of a reading as a table: a head line with the names of the columns, and then for each bucket that
/// has units its line in the report, in the same order. It has no totals and no line that begins with `!`. The one
/// error is that memory runs out.
pub fn table_text(alloc: Global, reading: &Reading) -> Result<Vec<u8>, AllocError>
    requires { All IsReadable (map histogram_view reading.now.hists.items) }
    ensures { IfOk result (λ text. IsTableOf (reading_view reading.now) text.items) }
{
    let hists = in_order(alloc, reading)?;
    let mut text = Vec::new(alloc);
    put_head(&mut text)?;
    put_tables(alloc, &mut text, &hists)?;
    Ok(text)
}
