//! The metrics of a reading, as an export is asked for.

ghost use Rattle.std.specs.Prelude.{◌≡◌, All, IfErr, IfOk, map};
ghost use Rattle.image_reader.specs.Readable.{IsReadable};
ghost use Rattle.image_reader.specs.Views.{histogram_view, reading_view};
ghost use Rattle.reading_texts.specs.Labels.{are_line_labels as are_line_labels_of, is_metric_word, label_view};
ghost use Rattle.reading_shows.specs.Exported.{AreMetricsOf, HasNoMetrics, IsExportedAs, line_label, line_labels};

use image_reader::Reading;
use reading_texts::{FamilyFault, Label, are_line_labels, export_text, families_text, is_prefix};
use std::alloc::{AllocError, Global};
use text_styles::{Exported, LineLabel};

// A label as the renderer takes it.
fn label_of<'a>(label: &LineLabel<'a>) -> Label<'a>
    ensures { label_view result ≡ line_label label.now }
{
    Label {
        key: label.key.as_bytes(),
        value: label.value.as_bytes(),
    }
}

// The labels that all lines get.
fn labels_of<'a>(alloc: Global, exported: &Exported<'a>) -> Result<Vec<Label<'a>>, AllocError>
    ensures { IfOk result (λ labels. map label_view labels.items ≡ line_labels exported.now) }
{
    let mut labels = Vec::new(alloc);
    for label in &exported.labels {
        labels.push(label_of(label))?;
    }
    Ok(labels)
}

/// Returns whether the names of an export's metrics may begin with its prefix, as `reading_texts::is_prefix` says.
pub fn has_prefix(exported: &Exported<'_>) -> bool
    ensures { result ≡ is_metric_word exported.now.prefix.now }
{
    is_prefix(exported.prefix)
}

/// Returns whether all lines of an export may get its labels, as `reading_texts::are_line_labels` says. The only error
/// is that memory runs out.
pub fn has_line_labels(alloc: Global, exported: &Exported<'_>) -> Result<bool, AllocError>
    ensures { IfOk result (λ has. has ≡ are_line_labels_of (line_labels exported.now)) }
{
    let labels = labels_of(alloc, exported)?;
    Ok(are_line_labels(labels.as_slice()))
}

// The metrics of a reading, in the families that every export has.
pub(crate) fn export_of(
    alloc: Global,
    reading: &Reading,
    exported: &Exported<'_>,
) -> Result<Vec<u8>, AllocError>
    requires { All IsReadable (map histogram_view reading.now.hists.items) }
    ensures { IfOk result (λ text. IsExportedAs exported.now (reading_view reading.now) text.items) }
{
    let labels = labels_of(alloc, exported)?;
    export_text(alloc, reading, exported.prefix, labels.as_slice())
}

/// Returns the metrics of a reading in the Prometheus text format, byte for byte: the text of
/// `reading_texts::families_text` if a family for each histogram is asked for, and else that of
/// `reading_texts::export_text` [text]. The prefix and the labels have to satisfy [`has_prefix`] and
/// [`has_line_labels`]. `Clash` is returned only if a family for each histogram is asked for, with the names of the first
/// that clash [clash]. The other error is that memory runs out.
pub fn metrics_text(
    alloc: Global,
    reading: &Reading,
    exported: &Exported<'_>,
) -> Result<Vec<u8>, FamilyFault>
    requires { All IsReadable (map histogram_view reading.now.hists.items) }
    ensures text { IfOk result (λ text. AreMetricsOf exported.now (reading_view reading.now) text.items) }
    ensures clash { IfErr result (HasNoMetrics exported.now (reading_view reading.now)) }
{
    if !exported.has_families {
        return Ok(export_of(alloc, reading, exported)?);
    }
    let labels = labels_of(alloc, exported)?;
    families_text(alloc, reading, exported.prefix, labels.as_slice())
}
