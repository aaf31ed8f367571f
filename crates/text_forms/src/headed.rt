//! The texts that say what a subject says beside its reading: its report, its overview and its page.

ghost use Rattle.std.specs.Prelude.{◌≡◌, true, IfOk};
ghost use Rattle.image_reader.specs.Views.{reading_view};
ghost use Rattle.text_forms.specs.Forms.{IsOverviewIn, IsPageIn, IsReportIn};
ghost use Rattle.text_forms.specs.Heads.{is_known, is_of_image};

use crate::head::{Head, sum_head};
use crate::subject::Subject;
use reading_overviews::overview_text;
use reading_shows::{Source, page_of_sum, page_text};
use reading_texts::report_text;
use std::alloc::{AllocError, Global};
use sum_texts::put_ending;
use text_styles::Drawn;

// The report of a subject, with the lines of what a sum leaves out after it.
pub(crate) fn report_in(alloc: Global, subject: &Subject) -> Result<Vec<u8>, AllocError>
    ensures { IfOk result (λ text. IsReportIn subject.now.head (reading_view subject.now.reading) text.items) }
{
    let mut text = report_text(alloc, &subject.reading)?;
    if let Head::Sum(said) = &subject.head {
        put_ending(&mut text, said.notes.images, &said.others, said.left)?;
    }
    Ok(text)
}

// The overview of an image.
pub(crate) fn overview_in(
    alloc: Global,
    subject: &Subject,
    is_human: bool,
) -> Result<Vec<u8>, AllocError>
    requires { is_of_image subject.now.head ≡ true }
    ensures { IfOk result (λ text. IsOverviewIn is_human subject.now.head (reading_view subject.now.reading) text.items) }
{
    match &subject.head {
        Head::Image(head) => overview_text(alloc, is_human, head, &subject.reading),
        Head::Sum(_) | Head::Unknown => unreachable!(),
    }
}

// The page of an image, or of a sum.
pub(crate) fn page_in(
    alloc: Global,
    subject: &Subject,
    source: Source<'_>,
    drawn: &Drawn<'_>,
) -> Result<Vec<u8>, AllocError>
    requires { is_known subject.now.head ≡ true }
    ensures { IfOk result (λ text. IsPageIn source.entry drawn.now subject.now.head (reading_view subject.now.reading) text.items) }
{
    let reading = &subject.reading;
    match &subject.head {
        Head::Image(head) => page_text(alloc, head, reading, source, drawn),
        Head::Sum(said) => page_of_sum(alloc, &sum_head(said), reading, source, drawn),
        Head::Unknown => unreachable!(),
    }
}
