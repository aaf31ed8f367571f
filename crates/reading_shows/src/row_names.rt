//! How the values of a row are written.

ghost use Rattle.std.specs.Prelude.{◌≡◌, ◌++◌, OnOk};
ghost use Rattle.reading_shows.specs.RowNames.{row_names_of as row_names_of_spec, is_truth as is_truth_of, bucket_text, truth_text, range_text, has_line as has_line_of};

use bucket_ranges::Spec;
use bucket_ranges::limits::LAST_BOUNDARY;
use itoa::Buffer;
use reading_texts::{HistRow, put_parts};
use std::alloc::AllocError;

// How the values of a row are written.
#[derive(Clone, Copy, PartialEq, Eq)]
pub(crate) enum RowNames {
    // As one value, in a sparse histogram.
    Value,
    // As false or true.
    Truth,
    // As a range.
    Range,
}

// How the rows of a histogram are named.
pub(crate) fn row_names_of(spec: &Spec) -> RowNames
    ensures { result ≡ row_names_of_spec spec.now }
{
    match spec {
        Spec::Boolean => RowNames::Truth,
        Spec::Sparse => RowNames::Value,
        Spec::Linear { .. } | Spec::Custom(_) => RowNames::Range,
    }
}

// Whether rows are named false and true.
pub(crate) fn is_truth(row_names: RowNames) -> bool
    ensures { result ≡ is_truth_of row_names }
{
    matches!(row_names, RowNames::Truth)
}

// Whether a row has a line of its own.
pub(crate) fn has_line(row_names: RowNames, row: &HistRow) -> bool
    ensures { result ≡ has_line_of row_names row.now }
{
    row.units != 0 || (is_truth(row_names) && row.low < 2)
}

// Puts the values of a bucket.
fn put_bucket(text: &mut Vec<u8>, row: &HistRow) -> Result<(), AllocError>
    ensures { OnOk result (text.new.items ≡ text.old.items ++ bucket_text row.now) }
{
    let mut low = Buffer::new();
    let low = low.format(row.low).as_bytes();
    if row.high == i64::from(LAST_BOUNDARY) {
        return put_parts(text, &[b">= ", low]);
    }
    let mut high = Buffer::new();
    put_parts(
        text,
        &[b"[", low, b", ", high.format(row.high).as_bytes(), b")"],
    )
}

// Puts the values of a bucket of a boolean histogram.
fn put_truth(text: &mut Vec<u8>, row: &HistRow) -> Result<(), AllocError>
    ensures { OnOk result (text.new.items ≡ text.old.items ++ truth_text row.now) }
{
    match row.low {
        0 => text.extend_from_slice(b"false")?,
        1 => text.extend_from_slice(b"true")?,
        _ => put_bucket(text, row)?,
    }
    Ok(())
}

// Puts the values of a row.
pub(crate) fn put_range(
    text: &mut Vec<u8>,
    row_names: RowNames,
    row: &HistRow,
) -> Result<(), AllocError>
    ensures { OnOk result (text.new.items ≡ text.old.items ++ range_text row_names row.now) }
{
    match row_names {
        RowNames::Value => {
            let mut low = Buffer::new();
            text.extend_from_slice(low.format(row.low).as_bytes())
        }
        RowNames::Truth => put_truth(text, row),
        RowNames::Range => put_bucket(text, row),
    }
}
