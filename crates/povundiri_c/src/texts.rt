//! The texts of an image; C asks for one of them.

ghost use Rattle.std.specs.Prelude.{◌≡◌, ◌≢◌, [], false, true, IfOk, IfErr};
ghost use Rattle.image_reader.specs.Views.{reading_view};
ghost use Rattle.segment_image.specs.Head.{header_of};
ghost use Rattle.reading_shows.specs.Exported.{AreMetricsOf};
ghost use Rattle.reading_shows.specs.Showing.{IsShowOf};
ghost use Rattle.text_forms.specs.Forms.{fits, IsTextIn};
ghost use Rattle.povundiri_c.specs.Reports.{IsAskedOf, IsSaidOfValid, IsTextAsked, IsTextTooLong, IsTextWritten, drawn_asked};
ghost use Rattle.povundiri_c.specs.Status.{status_of_image_fault};

use crate::status::{DONE, NO_MEMORY, SHORT, of_image_fault};
use image_reader::read;
use std::alloc::Global;
use text_forms::{Form, Subject};
use text_styles::{Choice, Drawn, Exported, Style};

// A text of an image.
#[derive(Clone, Copy)]
pub(crate) enum TextAsked<'a> {
    // Its report.
    Report,
    // Its metrics, whose names begin with this prefix.
    Export { prefix: &'a [u8] },
    // Its text for people, in lines of this many cells.
    Show { width: u16 },
}

// How all histograms are drawn in lines of this many cells; 80 if that is 0.
fn drawn_of(width: u16) -> Drawn<'static>
    ensures { result ≡ drawn_asked width }
{
    let style = Style {
        width: if width == 0 { 80 } else { width },
        is_ascii: false,
        is_human: false,
        is_log: false,
        shows_all: false,
        shows_redundant: false,
        marks_meanwhile: false,
    };
    Drawn {
        style,
        is_by_units: false,
        choice: Choice::All,
    }
}

// The metrics whose names begin with this prefix, in the families that every export has.
fn exported_of<'a>(alloc: Global, prefix: &'a [u8]) -> Exported<'a>
    ensures { (result.prefix.now ≡ prefix.now) × (result.labels.items ≡ []) × (result.has_families ≡ false) }
{
    Exported {
        prefix,
        labels: Vec::new(alloc),
        has_families: false,
    }
}

// The text of a subject in a form that fits it, or the status of memory that ran out for it.
fn text_in(alloc: Global, form: Form<'_>, subject: &Subject) -> Result<Vec<u8>, u32>
    requires { fits form subject.now.head ≡ true }
    ensures text { IfOk result (λ text. IsTextIn form.entry subject.now.head (reading_view subject.now.reading) text.items) }
    ensures status { IfErr result (λ status. status ≡ 13) }
{
    form.text_of(alloc, subject).map_err(|_| NO_MEMORY)
}

// Its metrics.
fn metrics_in(alloc: Global, exported: &Exported<'_>, subject: &Subject) -> Result<Vec<u8>, u32>
    ensures text { IfOk result (λ text. AreMetricsOf exported.now (reading_view subject.now.reading) text.items) }
    ensures status { IfErr result (λ status. status ≡ 13) }
{
    text_in(alloc, Form::Export(exported), subject)
}

// Its text for people.
fn shown_in(alloc: Global, drawn: &Drawn<'_>, subject: &Subject) -> Result<Vec<u8>, u32>
    ensures text { IfOk result (λ text. IsShowOf drawn.now (reading_view subject.now.reading) text.items) }
    ensures status { IfErr result (λ status. status ≡ 13) }
{
    text_in(alloc, Form::Show(drawn), subject)
}

// The text of a subject that is asked for, or the status of memory that ran out for it.
pub(crate) fn text_of(
    alloc: Global,
    asked: TextAsked<'_>,
    subject: &Subject,
) -> Result<Vec<u8>, u32>
    ensures text { IfOk result (λ text. IsAskedOf asked.entry subject.now.head (reading_view subject.now.reading) text.items) }
    ensures status { IfErr result (λ status. status ≡ 13) }
{
    match asked {
        TextAsked::Report => text_in(alloc, Form::Report, subject),
        TextAsked::Export { prefix } => metrics_in(alloc, &exported_of(alloc, prefix), subject),
        TextAsked::Show { width } => shown_in(alloc, &drawn_of(width), subject),
    }
}

// Writes a text of an image, if there is room for it, and how many bytes it has.
pub(crate) fn write_text(
    alloc: Global,
    asked: TextAsked<'_>,
    words: &[u64],
    text: &mut [u8],
    needed: &mut usize,
) -> u32
    ensures fault { IfErr (header_of words.now) (λ fault. result ≡ status_of_image_fault fault) }
    ensures done { result ≡ 0 → IsTextWritten (IsTextAsked asked.entry) words.now text.old text.new needed.new }
    ensures short { result ≡ 7 → IsTextTooLong (IsTextAsked asked.entry) words.now text.old needed.new }
    ensures valid { IfOk (header_of words.now) (λ _. IsSaidOfValid result) }
    ensures not_many { result ≢ 17 }
    ensures no_prefix { result ≢ 18 }
    ensures untouched { result ≢ 0 → text.new ≡ text.old }
    ensures alone { result ≢ 0 → result ≢ 7 → needed.new ≡ needed.old }
{
    let reading = match read(alloc, words) {
        Ok(reading) => reading,
        Err(fault) => return of_image_fault(fault),
    };
    let subject = Subject::of_reading(reading);
    let found = match text_of(alloc, asked, &subject) {
        Ok(found) => found,
        Err(status) => return status,
    };
    *needed = found.len();
    if text.len() < found.len() {
        return SHORT;
    }
    text[..found.len()].copy_from_slice(&found);
    DONE
}
