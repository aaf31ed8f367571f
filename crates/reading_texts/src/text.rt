//! The text of a report.

ghost use Rattle.std.specs.Prelude.{◌≡◌, [], ◌∷◌, ◌++◌, All, IfOk, OnOk, map, codes};
ghost use Rattle.std.specs.Fmt.{decimal, signed_decimal};
ghost use Rattle.std.specs.List.{flat_map};
ghost use Rattle.image_reader.specs.Views.{histogram_view, bad_view, reading_view};
ghost use Rattle.reading_texts.specs.Text.{line, bucket_text, units_of, histogram_text, flag_text, redundant_text, bad_text, stopped_text, IsTextOf};
ghost use Rattle.image_reader.specs.Readable.{IsReadable};
ghost use Rattle.reading_texts.specs.Rows.{rows_of as rows_of_histogram};

use crate::lines::put_line;
use crate::order::in_order;
use crate::rows::{HistRow, rows_of, units};
use crate::words::{image_fault_word, kind_word, record_fault_word};
use image_reader::{BadRecord, HistReading, Reading};
use segment_image::ImageFault;
use std::alloc::{AllocError, Global};

// The line of a bucket that has units: its least value, the boundary after it, and its units.
fn put_bucket(
    alloc: Global,
    text: &mut Vec<u8>,
    hist: &HistReading,
    row: &HistRow,
) -> Result<(), AllocError>
    ensures { OnOk result (text.new.items ≡ text.old.items ++ bucket_text (histogram_view hist.now) row.now) }
{
    if row.units == 0 {
        return Ok(());
    }
    let low = row.low.to_string(alloc)?;
    let high = row.high.to_string(alloc)?;
    let count = row.units.to_string(alloc)?;
    put_line(
        text,
        &hist.name,
        &[
            kind_word(&hist.spec),
            low.as_bytes(),
            high.as_bytes(),
            count.as_bytes(),
        ],
    )
}

// The lines of the rows that have units.
fn put_rows(
    alloc: Global,
    text: &mut Vec<u8>,
    hist: &HistReading,
    rows: &[HistRow],
) -> Result<(), AllocError>
    ensures { OnOk result (text.new.items ≡ text.old.items ++ flat_map (bucket_text (histogram_view hist.now)) rows.now) }
{
    for row in rows {
        put_bucket(alloc, text, hist, row)?;
    }
    Ok(())
}

// The lines of the buckets that have units.
pub(crate) fn put_buckets(
    alloc: Global,
    text: &mut Vec<u8>,
    hist: &HistReading,
) -> Result<(), AllocError>
    requires { IsReadable (histogram_view hist.now) }
    ensures { OnOk result (text.new.items ≡ text.old.items ++ flat_map (bucket_text (histogram_view hist.now)) (rows_of_histogram (histogram_view hist.now))) }
{
    let rows = rows_of(alloc, hist)?;
    put_rows(alloc, text, hist, &rows)
}

// The line of the total.
fn put_total(alloc: Global, text: &mut Vec<u8>, hist: &HistReading) -> Result<(), AllocError>
    requires { IsReadable (histogram_view hist.now) }
    ensures { OnOk result (text.new.items ≡ text.old.items ++ line (hist.now.name.items ∷ codes "total" ∷ decimal (units_of (histogram_view hist.now)) ∷ signed_decimal hist.now.sum ∷ [])) }
{
    let units = units(hist).to_string(alloc)?;
    let sum = hist.sum.to_string(alloc)?;
    put_line(
        text,
        &hist.name,
        &[b"total", units.as_bytes(), sum.as_bytes()],
    )
}

// The lines of all histograms.
fn put_histograms(
    alloc: Global,
    text: &mut Vec<u8>,
    hists: &[&HistReading],
) -> Result<(), AllocError>
    requires { All IsReadable (map (λ hist. histogram_view hist.now) hists.now) }
    ensures { OnOk result (text.new.items ≡ text.old.items ++ flat_map histogram_text (map (λ hist. histogram_view hist.now) hists.now)) }
{
    for hist in hists {
        put_buckets(alloc, text, hist)?;
        put_total(alloc, text, hist)?;
    }
    Ok(())
}

// The line of a flag, if it is set.
fn put_flag(text: &mut Vec<u8>, word: &[u8], flag: bool) -> Result<(), AllocError>
    ensures { OnOk result (text.new.items ≡ text.old.items ++ flag_text word.now flag) }
{
    if flag {
        put_line(text, b"!flag", &[word])?;
    }
    Ok(())
}

// The line of a redundant count, if it differs from the units.
fn put_redundant(alloc: Global, text: &mut Vec<u8>, hist: &HistReading) -> Result<(), AllocError>
    requires { IsReadable (histogram_view hist.now) }
    ensures { OnOk result (text.new.items ≡ text.old.items ++ redundant_text (histogram_view hist.now)) }
{
    if hist.redundant != units(hist) {
        let redundant = hist.redundant.to_string(alloc)?;
        put_line(text, b"!redundant", &[&hist.name, redundant.as_bytes()])?;
    }
    Ok(())
}

// The lines of all redundant counts that differ from the units.
fn put_redundants(
    alloc: Global,
    text: &mut Vec<u8>,
    hists: &[&HistReading],
) -> Result<(), AllocError>
    requires { All IsReadable (map (λ hist. histogram_view hist.now) hists.now) }
    ensures { OnOk result (text.new.items ≡ text.old.items ++ flat_map redundant_text (map (λ hist. histogram_view hist.now) hists.now)) }
{
    for hist in hists {
        put_redundant(alloc, text, hist)?;
    }
    Ok(())
}

// The lines of all bad records.
fn put_all_bad(alloc: Global, text: &mut Vec<u8>, all: &[BadRecord]) -> Result<(), AllocError>
    ensures { OnOk result (text.new.items ≡ text.old.items ++ flat_map bad_text (map bad_view all.now)) }
{
    for bad in all {
        let reference = bad.reference.to_string(alloc)?;
        let fault = record_fault_word(bad.fault);
        put_line(text, b"!bad", &[reference.as_bytes(), fault])?;
    }
    Ok(())
}

// The line of why the list stopped, if it did.
fn put_stopped(text: &mut Vec<u8>, stopped: Option<ImageFault>) -> Result<(), AllocError>
    ensures { OnOk result (text.new.items ≡ text.old.items ++ stopped_text stopped) }
{
    if let Some(fault) = stopped {
        put_line(text, b"!stopped", &[image_fault_word(fault)])?;
    }
    Ok(())
}

/// The text of the report of a reading: the histograms by name, then the flags that are set, the redundant counts that
/// differ, the bad records and why the list stopped. The only error is that memory runs out.
pub fn report_text(alloc: Global, reading: &Reading) -> Result<Vec<u8>, AllocError>
    requires { All IsReadable (map histogram_view reading.now.hists.items) }
    ensures { IfOk result (λ text. IsTextOf (reading_view reading.now) text.items) }
{
    let hists = in_order(alloc, reading)?;
    let mut text = Vec::new(alloc);
    put_histograms(alloc, &mut text, &hists)?;
    put_flag(&mut text, b"corrupt", reading.corrupt)?;
    put_flag(&mut text, b"full", reading.full)?;
    put_redundants(alloc, &mut text, &hists)?;
    put_all_bad(alloc, &mut text, &reading.bad)?;
    put_stopped(&mut text, reading.stopped)?;
    Ok(text)
}
