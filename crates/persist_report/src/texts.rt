//! The texts of what was read, on standard output or in a file that is replaced when the text is complete.

ghost use Rattle.std.specs.Prelude.{◌≡◌, false};
ghost use Rattle.segment_image.specs.Watched.{has_failed};

use image_reader::Reading;
use persist_report_core::{CliFault, write_and_flush};
use report_asks::Wrong;
use report_requests::{Ask, Options, Text};
use report_sources::Found;
use report_streams::{Context, Failure, FaultContext, Output, Stream, System, failure_of};
use std::alloc::Global;
use std::fs::File;
use std::io::{Printer, Write};
use sum_texts::{Totals, totals_text};
use text_forms::{Form, Subject, write_form};

/// Where a text goes.
pub type Out<'a, 'r, R> = Stream<'a, Output<File, Printer<'r, R>>>;

// The form of the text that is asked for, with what came since an earlier reading if there is one.
fn form_of<'a>(ask: &'a Ask<'_>, found: &'a Found, earlier: Option<&'a Reading>) -> Form<'a> {
    let Options { drawn, exported } = &ask.options;
    match (ask.text, earlier) {
        (Text::Report, _) => Form::Report,
        (Text::Rows, _) => Form::Rows,
        (Text::Info, _) => Form::Info {
            is_human: drawn.style.is_human,
        },
        (Text::Export, _) => Form::Export(exported),
        (Text::Show, None) => Form::Show(drawn),
        (Text::Show, Some(earlier)) => Form::ShowSince { drawn, earlier },
        (Text::List, _) => Form::List(drawn),
        (Text::Page, _) => Form::Page {
            source: found.source(),
            drawn,
        },
    }
}

// Writes a sum whole.
fn write_totals<W: Write>(
    alloc: Global,
    totals: &Totals,
    writer: &mut Stream<'_, W>,
) -> Result<(), CliFault>
    requires { has_failed writer.old ≡ false }
{
    let text = totals_text(alloc, totals)?;
    write_and_flush(writer, &text)
}

// Ends the output of a text with how its writing ended: a file is replaced if the text is complete.
fn end_text<'a, R: System>(
    context: &Context<'_, R>,
    found: &'a Found,
    writer: Out<'a, '_, R>,
    written: Result<(), CliFault>,
) -> Result<(), Failure> {
    let output = writer.into_inner();
    let (device, reason) = (output.origin(), output.reason());
    let Err(cause) = output.into_inner().end(context.rt, written) else {
        return Ok(());
    };
    let known = FaultContext {
        input: found.input(),
        base: None,
        device,
        reason: cause.reason.or(reason),
    };
    Err(failure_of(context, cause.fault, known))
}

/// Writes the text of what was read that is asked for, with what came since an earlier text if there is one, and ends
/// the output. What is wrong with what was read is not looked at.
pub fn write_found<'a, R: System>(
    context: &Context<'_, R>,
    ask: &Ask<'_>,
    found: &'a Found,
    earlier: Option<&Subject>,
    mut writer: Out<'a, '_, R>,
) -> Result<(), Failure>
    requires { has_failed writer ≡ false }
{
    let form = form_of(ask, found, earlier.map(|earlier| earlier.reading()));
    let subject = found.subject();
    if !form.fits(subject) {
        writer.into_inner().into_inner().discard(context.rt);
        return Err(Failure::Usage(Wrong::NoOverview));
    }
    let written = match found.totals() {
        Some(totals) if ask.inputs.has_totals => {
            write_totals(context.alloc(), totals, &mut writer)
        }
        _ => write_form(context.alloc(), form, subject, &mut writer),
    };
    end_text(context, found, writer, written)
}
