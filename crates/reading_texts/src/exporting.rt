//! The text of a reading for programs that scrape metrics: the Prometheus text format, version 0.0.4.

ghost use Rattle.std.specs.Prelude.{◌≡◌, ◌++◌, ◌≤ℤ◌, ◌-ℤ◌, All, IfOk, List, OnOk, pos, map, true, ℕ};
ghost use Rattle.std.specs.Fmt.{decimal};
ghost use Rattle.std.specs.List.{flat_map};
ghost use Rattle.segment_image.specs.declared.head.SegmentHead.{SegmentHead};
ghost use Rattle.bucket_ranges.specs.Reading.{IsReading};
ghost use Rattle.image_reader.specs.Views.{histogram_view, reading_view};
ghost use Rattle.image_reader.specs.Readable.{IsReadable};
ghost use Rattle.reading_texts.specs.Labels.{label_view, are_line_labels as are_line_labels_of};
ghost use Rattle.reading_texts.specs.Series.{IsTextOfDistinctSeries};
ghost use Rattle.reading_texts.specs.Lines.{row_line, bucket_row, value_row, bucket_line, value_line, total_line, total_lines};
ghost use Rattle.reading_texts.specs.Exporting.{heading_text, family_text, sample_text, inner_text, labels_text, labels_of, ranged_samples, sparse_samples, flag_sample, units_family, sparse_family, bad_family, flag_family, bad_records as bad_records_of, total_sample, flag_value as value_of_flag, AreFamiliesOf, IsExportOf};

use crate::labels::{Label, put_label, put_labels, read_name, text_of_name};
use crate::order::in_order;
use crate::parts::put_parts;
use crate::rows::{HistRow, rows_of, units};
use crate::words::is_sparse;
use image_reader::{HistReading, Reading};
use itoa::Buffer;
use std::alloc::{AllocError, Global};

/// The two lines before the samples of a family: its help and its type.
pub(crate) fn put_heading(
    text: &mut Vec<u8>,
    name: &[u8],
    help: &[u8],
    kind: &[u8],
) -> Result<(), AllocError>
    ensures { OnOk result (text.new.items ≡ text.old.items ++ heading_text name.now help.now kind.now) }
{
    put_parts(
        text,
        &[
            b"# HELP ",
            name,
            b" ",
            help,
            b"\n# TYPE ",
            name,
            b" ",
            kind,
            b"\n",
        ],
    )
}

// The greatest value of a bucket: one less than the boundary after it.
fn before(high: i64) -> i64
    requires { pos 0 ≤ℤ high }
    ensures { result ≡ high -ℤ pos 1 }
{
    high - 1
}

// Puts the line of a row: this start, then a number and units.
fn put_row(text: &mut Vec<u8>, start: &[u8], number: i64, units: u64) -> Result<(), AllocError>
    ensures { OnOk result (text.new.items ≡ text.old.items ++ row_line start.now number units) }
{
    let mut digits = Buffer::new();
    let mut unit_digits = Buffer::new();
    text.extend_from_slice(start)?;
    text.extend_from_slice(digits.format(number).as_bytes())?;
    text.extend_from_slice(b"\"} ")?;
    text.extend_from_slice(unit_digits.format(units).as_bytes())?;
    text.push(b'\n')?;
    Ok(())
}

// Puts the line of a bucket, from this start: the units up to its greatest value.
fn put_bucket(text: &mut Vec<u8>, start: &[u8], row: &HistRow) -> Result<(), AllocError>
    requires { pos 0 ≤ℤ row.now.high }
    ensures { OnOk result (text.new.items ≡ text.old.items ++ bucket_row start.now row.now) }
{
    put_row(text, start, before(row.high), row.up_to)
}

/// Puts the lines of buckets, each from this start.
pub(crate) fn put_bucket_rows(
    text: &mut Vec<u8>,
    start: &[u8],
    rows: &[HistRow],
) -> Result<(), AllocError>
    requires { All (λ row. pos 0 ≤ℤ row.high) rows.now }
    ensures { OnOk result (text.new.items ≡ text.old.items ++ flat_map (bucket_row start.now) rows.now) }
{
    for row in rows {
        put_bucket(text, start, row)?;
    }
    Ok(())
}

// The lines of all buckets.
fn put_buckets(
    alloc: Global,
    text: &mut Vec<u8>,
    name: &[u8],
    labels: &[u8],
    rows: &[HistRow],
) -> Result<(), AllocError>
    requires { All (λ row. pos 0 ≤ℤ row.high) rows.now }
    ensures { OnOk result (text.new.items ≡ text.old.items ++ flat_map (bucket_line name.now labels.now) rows.now) }
{
    let mut start = Vec::new(alloc);
    put_parts(&mut start, &[name, b"_bucket{", labels, b",le=\""])?;
    put_bucket_rows(text, &start, rows)?;
    Ok(())
}

// Puts a line of a histogram as a whole: the name of its metrics with a suffix, the labels with what follows them in
// the braces, and the number.
fn put_total(
    text: &mut Vec<u8>,
    name: &[u8],
    suffix: &[u8],
    labels: &[u8],
    end: &[u8],
    number: &[u8],
) -> Result<(), AllocError>
    ensures { OnOk result (text.new.items ≡ text.old.items ++ total_line name.now suffix.now labels.now end.now number.now) }
{
    put_parts(
        text,
        &[name, suffix, b"{", labels, end, b"} ", number, b"\n"],
    )
}

// The lines of all units, of the sum and of the count.
fn put_totals(
    alloc: Global,
    text: &mut Vec<u8>,
    name: &[u8],
    labels: &[u8],
    hist: &HistReading,
) -> Result<(), AllocError>
    requires { IsReadable (histogram_view hist.now) }
    ensures { OnOk result (text.new.items ≡ text.old.items ++ total_lines name.now labels.now (histogram_view hist.now)) }
{
    let units = units(hist).to_string(alloc)?;
    let sum = hist.sum.to_string(alloc)?;
    let units = units.as_bytes();
    put_total(text, name, b"_bucket", labels, b",le=\"+Inf\"", units)?;
    put_total(text, name, b"_sum", labels, b"", sum.as_bytes())?;
    put_total(text, name, b"_count", labels, b"", units)?;
    Ok(())
}

// The labels of a histogram, without braces: the name that it gets, its own labels, and those of all lines.
fn labels_text_of(
    alloc: Global,
    hist: &HistReading,
    line_labels: &[Label<'_>],
) -> Result<Vec<u8>, AllocError>
    ensures { IfOk result (λ text. text.items ≡ inner_text (labels_of (map label_view line_labels.now) (histogram_view hist.now))) }
{
    let name = text_of_name(alloc, &hist.name)?;
    let named = read_name(alloc, &name, line_labels)?;
    let mut text = Vec::new(alloc);
    put_label(&mut text, b"histogram", named.base)?;
    put_labels(&mut text, &named.own)?;
    put_labels(&mut text, line_labels)?;
    Ok(text)
}

// The lines of a histogram that has ranges; none for a sparse one.
fn put_ranged(
    alloc: Global,
    text: &mut Vec<u8>,
    name: &[u8],
    line_labels: &[Label<'_>],
    hist: &HistReading,
) -> Result<(), AllocError>
    requires { IsReadable (histogram_view hist.now) }
    ensures { OnOk result (text.new.items ≡ text.old.items ++ flat_map sample_text (ranged_samples name.now (map label_view line_labels.now) (histogram_view hist.now))) }
{
    if is_sparse(&hist.spec) {
        return Ok(());
    }
    let labels = labels_text_of(alloc, hist, line_labels)?;
    let rows = rows_of(alloc, hist)?;
    put_buckets(alloc, text, name, &labels, &rows)?;
    put_totals(alloc, text, name, &labels, hist)?;
    Ok(())
}

// The lines of all histograms that have ranges.
fn put_all_ranged(
    alloc: Global,
    text: &mut Vec<u8>,
    name: &[u8],
    line_labels: &[Label<'_>],
    hists: &[&HistReading],
) -> Result<(), AllocError>
    requires { All IsReadable (map (λ hist. histogram_view hist.now) hists.now) }
    ensures { OnOk result (text.new.items ≡ text.old.items ++ flat_map (λ hist. flat_map sample_text (ranged_samples name.now (map label_view line_labels.now) hist)) (map (λ hist. histogram_view hist.now) hists.now)) }
{
    for hist in hists {
        put_ranged(alloc, text, name, line_labels, hist)?;
    }
    Ok(())
}

// Puts the line of a value of a sparse histogram, from this start: its units.
fn put_value(text: &mut Vec<u8>, start: &[u8], row: &HistRow) -> Result<(), AllocError>
    ensures { OnOk result (text.new.items ≡ text.old.items ++ value_row start.now row.now) }
{
    put_row(text, start, i64::from(row.low), row.units)
}

/// Puts the lines of values of a sparse histogram, each from this start.
pub(crate) fn put_value_rows(
    text: &mut Vec<u8>,
    start: &[u8],
    rows: &[HistRow],
) -> Result<(), AllocError>
    ensures { OnOk result (text.new.items ≡ text.old.items ++ flat_map (value_row start.now) rows.now) }
{
    for row in rows {
        put_value(text, start, row)?;
    }
    Ok(())
}

// The lines of all values.
fn put_values(
    alloc: Global,
    text: &mut Vec<u8>,
    name: &[u8],
    labels: &[u8],
    rows: &[HistRow],
) -> Result<(), AllocError>
    ensures { OnOk result (text.new.items ≡ text.old.items ++ flat_map (value_line name.now labels.now) rows.now) }
{
    let mut start = Vec::new(alloc);
    put_parts(&mut start, &[name, b"{", labels, b",value=\""])?;
    put_value_rows(text, &start, rows)?;
    Ok(())
}

// The lines of a sparse histogram; none for one that has ranges.
fn put_sparse(
    alloc: Global,
    text: &mut Vec<u8>,
    name: &[u8],
    line_labels: &[Label<'_>],
    hist: &HistReading,
) -> Result<(), AllocError>
    requires { IsReadable (histogram_view hist.now) }
    ensures { OnOk result (text.new.items ≡ text.old.items ++ flat_map sample_text (sparse_samples name.now (map label_view line_labels.now) (histogram_view hist.now))) }
{
    if !is_sparse(&hist.spec) {
        return Ok(());
    }
    let labels = labels_text_of(alloc, hist, line_labels)?;
    let rows = rows_of(alloc, hist)?;
    put_values(alloc, text, name, &labels, &rows)?;
    Ok(())
}

// The lines of all sparse histograms.
fn put_all_sparse(
    alloc: Global,
    text: &mut Vec<u8>,
    name: &[u8],
    line_labels: &[Label<'_>],
    hists: &[&HistReading],
) -> Result<(), AllocError>
    requires { All IsReadable (map (λ hist. histogram_view hist.now) hists.now) }
    ensures { OnOk result (text.new.items ≡ text.old.items ++ flat_map (λ hist. flat_map sample_text (sparse_samples name.now (map label_view line_labels.now) hist)) (map (λ hist. histogram_view hist.now) hists.now)) }
{
    for hist in hists {
        put_sparse(alloc, text, name, line_labels, hist)?;
    }
    Ok(())
}

// Puts the labels of all lines in braces; nothing if there are none.
fn put_line_labels(text: &mut Vec<u8>, labels: &[Label<'_>]) -> Result<(), AllocError>
    ensures { OnOk result (text.new.items ≡ text.old.items ++ labels_text (map label_view labels.now)) }
{
    if let [first, more @ ..] = labels {
        text.push(b'{')?;
        put_label(text, first.key, first.value)?;
        put_labels(text, more)?;
        text.push(b'}')?;
    }
    Ok(())
}

// How many records are bad; a list that stops counts as one more.
fn bad_records(reading: &Reading) -> usize
    ensures { result ≡ bad_records_of (reading_view reading.now) }
{
    let stops = if reading.stopped.is_some() { 1 } else { 0 };
    stops + reading.bad.len()
}

// The line of a number of the whole segment.
fn put_number(
    alloc: Global,
    text: &mut Vec<u8>,
    name: &[u8],
    line_labels: &[Label<'_>],
    number: usize,
) -> Result<(), AllocError>
    ensures { OnOk result (text.new.items ≡ text.old.items ++ sample_text (total_sample name.now (map label_view line_labels.now) (decimal number))) }
{
    let digits = number.to_string(alloc)?;
    text.extend_from_slice(name)?;
    put_line_labels(text, line_labels)?;
    put_parts(text, &[b" ", digits.as_bytes(), b"\n"])?;
    Ok(())
}

/// The family of how many records are bad.
pub(crate) fn put_bad(
    alloc: Global,
    text: &mut Vec<u8>,
    prefix: &[u8],
    line_labels: &[Label<'_>],
    reading: &Reading,
) -> Result<(), AllocError>
    ensures { OnOk result (text.new.items ≡ text.old.items ++ family_text (bad_family prefix.now (map label_view line_labels.now) (reading_view reading.now))) }
{
    let mut name = Vec::new(alloc);
    put_parts(&mut name, &[prefix, b"_bad_records"])?;
    put_heading(
        text,
        &name,
        b"Records that could not be read, and one more where their list stops early.",
        b"gauge",
    )?;
    put_number(alloc, text, &name, line_labels, bad_records(reading))?;
    Ok(())
}

// The value of a flag.
fn flag_value(flag: bool) -> &'static [u8]
    ensures { result.now ≡ value_of_flag flag }
{
    if flag { b"1" } else { b"0" }
}

// The line of a flag.
fn put_flag(
    text: &mut Vec<u8>,
    name: &[u8],
    line_labels: &[Label<'_>],
    word: &[u8],
    flag: bool,
) -> Result<(), AllocError>
    ensures { OnOk result (text.new.items ≡ text.old.items ++ sample_text (flag_sample name.now (map label_view line_labels.now) word.now flag)) }
{
    put_parts(text, &[name, b"{"])?;
    put_label(text, b"flag", word)?;
    put_labels(text, line_labels)?;
    put_parts(text, &[b"} ", flag_value(flag), b"\n"])?;
    Ok(())
}

/// The family of the flags.
pub(crate) fn put_flags(
    alloc: Global,
    text: &mut Vec<u8>,
    prefix: &[u8],
    line_labels: &[Label<'_>],
    reading: &Reading,
) -> Result<(), AllocError>
    ensures { OnOk result (text.new.items ≡ text.old.items ++ family_text (flag_family prefix.now (map label_view line_labels.now) (reading_view reading.now))) }
{
    let mut name = Vec::new(alloc);
    put_parts(&mut name, &[prefix, b"_segment_flag"])?;
    put_heading(
        text,
        &name,
        b"Whether a flag of the segment is set.",
        b"gauge",
    )?;
    put_flag(text, &name, line_labels, b"corrupt", reading.corrupt)?;
    put_flag(text, &name, line_labels, b"full", reading.full)?;
    Ok(())
}

// The family of the histograms that have ranges.
fn put_units(
    alloc: Global,
    text: &mut Vec<u8>,
    prefix: &[u8],
    line_labels: &[Label<'_>],
    hists: &[&HistReading],
) -> Result<(), AllocError>
    requires { All IsReadable (map (λ hist. histogram_view hist.now) hists.now) }
    ensures { OnOk result (text.new.items ≡ text.old.items ++ family_text (units_family prefix.now (map label_view line_labels.now) (map (λ hist. histogram_view hist.now) hists.now))) }
{
    let mut name = Vec::new(alloc);
    put_parts(&mut name, &[prefix, b"_units"])?;
    put_heading(
        text,
        &name,
        b"Units of a histogram up to the greatest value of each bucket.",
        b"histogram",
    )?;
    put_all_ranged(alloc, text, &name, line_labels, hists)?;
    Ok(())
}

// The family of the sparse histograms.
fn put_sparse_total(
    alloc: Global,
    text: &mut Vec<u8>,
    prefix: &[u8],
    line_labels: &[Label<'_>],
    hists: &[&HistReading],
) -> Result<(), AllocError>
    requires { All IsReadable (map (λ hist. histogram_view hist.now) hists.now) }
    ensures { OnOk result (text.new.items ≡ text.old.items ++ family_text (sparse_family prefix.now (map label_view line_labels.now) (map (λ hist. histogram_view hist.now) hists.now))) }
{
    let mut name = Vec::new(alloc);
    put_parts(&mut name, &[prefix, b"_sparse_total"])?;
    put_heading(
        text,
        &name,
        b"Units of each value of a sparse histogram.",
        b"counter",
    )?;
    put_all_sparse(alloc, text, &name, line_labels, hists)?;
    Ok(())
}

/// Returns the text of a reading in the Prometheus text format, version 0.0.4: the buckets of the histograms by name,
/// the values of the sparse ones, how many records are bad, and the flags. The names of all metrics begin with
/// `prefix`, which has to satisfy [`is_prefix`](crate::is_prefix), and all lines get these labels, which have to
/// satisfy [`are_line_labels`](crate::are_line_labels).
///
/// The text is exactly the one that is defined [text]. If the reading is that of words and all lines may have these
/// labels, then no two lines are of one series, which is one name of a metric with one set of labels [series]. The one
/// error is that memory runs out.
pub fn export_text(
    alloc: Global,
    reading: &Reading,
    prefix: &[u8],
    line_labels: &[Label<'_>],
) -> Result<Vec<u8>, AllocError>
    requires { All IsReadable (map histogram_view reading.now.hists.items) }
    ensures text { IfOk result (λ text. IsExportOf prefix.now (map label_view line_labels.now) (reading_view reading.now) text.items) }
    ensures series { (words : List ℕ) → (head : SegmentHead) → IsReading words head (reading_view reading.now) → are_line_labels_of (map label_view line_labels.now) ≡ true → IfOk result (λ text. IsTextOfDistinctSeries (AreFamiliesOf prefix.now (map label_view line_labels.now) (reading_view reading.now)) text.items) }
{
    let hists = in_order(alloc, reading)?;
    let mut text = Vec::new(alloc);
    put_units(alloc, &mut text, prefix, line_labels, &hists)?;
    put_sparse_total(alloc, &mut text, prefix, line_labels, &hists)?;
    put_bad(alloc, &mut text, prefix, line_labels, reading)?;
    put_flags(alloc, &mut text, prefix, line_labels, reading)?;
    Ok(text)
}
