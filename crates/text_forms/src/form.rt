//! The forms in which a subject is written.

ghost use Rattle.std.specs.Prelude.{◌≡◌, true, IfErr, IfOk};
ghost use Rattle.image_reader.specs.Views.{reading_view};
ghost use Rattle.text_forms.specs.Forms.{fits as fits_head, text_or_fault as text_or_fault_of, HasNoTextIn, IsTextIn};
ghost use Rattle.reading_shows.specs.Exported.{AreMetricsOf};

use crate::headed::{overview_in, page_in, report_in};
use crate::subject::Subject;
use image_reader::Reading;
use persist_report_core::CliFault;
use reading_shows::{Source, list_text, metrics_text, show_since_text, show_text};
use reading_texts::{FamilyFault, table_text};
use std::alloc::{AllocError, Global};
use text_styles::{Drawn, Exported};

/// The form in which a subject is written.
#[derive(Clone, Copy)]
pub enum Form<'a> {
    /// Its report, as CSV. After that of a sum come lines of what its reading leaves out.
    Report,
    /// The rows of its report alone, as CSV with a head line.
    Rows,
    /// The overview of an image, with commas in numbers if it is for people.
    Info {
        is_human: bool,
    },
    /// Its metrics in the Prometheus text format. [`has_prefix`](reading_shows::has_prefix) and
    /// [`has_line_labels`](reading_shows::has_line_labels) have to hold.
    Export(&'a Exported<'a>),
    /// The chosen histograms as a text for people.
    Show(&'a Drawn<'a>),
    /// The same, with what came to them since an earlier reading.
    ShowSince {
        drawn: &'a Drawn<'a>,
        earlier: &'a Reading,
    },
    /// A line for each of the chosen histograms.
    List(&'a Drawn<'a>),
    /// The overview and the chosen histograms of an image or of a sum as a web page, which names where that comes from.
    Page {
        source: Source<'a>,
        drawn: &'a Drawn<'a>,
    },
}

// A text, or the fault that memory ran out for it.
fn text_or_fault(text: Result<Vec<u8>, AllocError>) -> Result<Vec<u8>, CliFault>
    ensures { result ≡ text_or_fault_of text }
{
    match text {
        Ok(text) => Ok(text),
        Err(AllocError) => Err(CliFault::NoMemory),
    }
}

// The metrics of a subject.
fn metrics_in(
    alloc: Global,
    subject: &Subject,
    exported: &Exported<'_>,
) -> Result<Vec<u8>, CliFault>
    ensures text { IfOk result (λ text. AreMetricsOf exported.now (reading_view subject.now.reading) text.items) }
    ensures cause { IfErr result (HasNoTextIn (Form.Export exported.entry) (reading_view subject.now.reading)) }
{
    match metrics_text(alloc, &subject.reading, exported) {
        Ok(text) => Ok(text),
        Err(FamilyFault::Clash { first, second }) => Err(CliFault::Clash { first, second }),
        Err(FamilyFault::NoMemory) => Err(CliFault::NoMemory),
    }
}

impl Form<'_> {
    /// Returns whether a subject has a text in this form: of an overview whether it is an image, of a page whether it is
    /// an image or a sum, and of any other form always.
    pub fn fits(self, subject: &Subject) -> bool
        ensures { result ≡ fits_head self.entry subject.now.head }
    {
        match self {
            Form::Info { .. } => subject.head.is_image(),
            Form::Page { .. } => subject.head.is_known(),
            Form::Report | Form::Rows | Form::Export(_) => true,
            Form::Show(_) | Form::ShowSince { .. } | Form::List(_) => true,
        }
    }

    /// Returns the text of a subject in this form, byte for byte [text]. The form has to fit it.
    ///
    /// The fault is `Clash` only if each histogram is to have a family, with the names of the first that clash; or it is
    /// `NoMemory`, if memory runs out. There is no other fault [cause].
    pub fn text_of(self, alloc: Global, subject: &Subject) -> Result<Vec<u8>, CliFault>
        requires { fits_head self subject.now.head ≡ true }
        ensures text { IfOk result (λ text. IsTextIn self.entry subject.now.head (reading_view subject.now.reading) text.items) }
        ensures cause { IfErr result (HasNoTextIn self.entry (reading_view subject.now.reading)) }
    {
        let reading = &subject.reading;
        match self {
            Form::Report => text_or_fault(report_in(alloc, subject)),
            Form::Rows => text_or_fault(table_text(alloc, reading)),
            Form::Info { is_human } => text_or_fault(overview_in(alloc, subject, is_human)),
            Form::Export(exported) => metrics_in(alloc, subject, exported),
            Form::Show(drawn) => text_or_fault(show_text(alloc, reading, drawn)),
            Form::ShowSince { drawn, earlier } => {
                text_or_fault(show_since_text(alloc, reading, earlier, drawn))
            }
            Form::List(drawn) => text_or_fault(list_text(alloc, reading, drawn)),
            Form::Page { source, drawn } => text_or_fault(page_in(alloc, subject, source, drawn)),
        }
    }
}
