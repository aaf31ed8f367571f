//! What a command that writes a text is asked for.

use crate::export::exported_found;
use crate::show::drawn_found;
use crate::sum_options::inputs_found;
use crate::text_options::repeat_found;
use clap::ArgMatches;
use report_asks::{Inputs, Repeat};
use std::alloc::{AllocError, Global};
use text_styles::{Drawn, Exported};

/// Which text it is.
#[derive(Clone, Copy, PartialEq, Eq)]
pub enum Text {
    /// The report; or the sum whole, if the inputs say so.
    Report,
    /// The rows of the report alone.
    Rows,
    /// The overview.
    Info,
    /// The metrics.
    Export,
    /// Histograms for people, with bars.
    Show,
    /// A line for each histogram.
    List,
    /// A web page.
    Page,
}

/// How texts are written. Each part goes whole to the texts that ask it.
#[derive(Drop)]
pub struct Options<'a> {
    /// How those for people are.
    pub drawn: Drawn<'a>,
    /// How an export is.
    pub exported: Exported<'a>,
}

/// What a command that writes a text is asked for.
#[derive(Drop)]
pub struct Ask<'a> {
    pub text: Text,
    /// What is read.
    pub inputs: Inputs<'a>,
    pub options: Options<'a>,
    /// Whether an image that is not whole is a fault.
    pub wants_whole: bool,
    /// The file that the text goes to; standard output if there is none.
    pub to: Option<&'a str>,
    /// How often it is written; once if this is none.
    pub repeat: Option<Repeat>,
}

// The text that a command of this name writes; none if it writes something else.
fn text_found(name: &str, found: &ArgMatches<'_>) -> Option<Text> {
    match name {
        "report" if found.get_flag("rows") => Some(Text::Rows),
        "report" => Some(Text::Report),
        "info" => Some(Text::Info),
        "export" => Some(Text::Export),
        "show" if found.get_flag("html") => Some(Text::Page),
        "show" if found.get_flag("list") => Some(Text::List),
        "show" => Some(Text::Show),
        _ => None,
    }
}

/// Returns what a command of this name is asked for, if it writes a text: in lines of `columns` columns unless the words
/// say how many, and with redundant counts if it is asked to explain. The only error is that memory runs out.
pub fn ask_found<'a>(
    alloc: Global,
    name: &str,
    found: &ArgMatches<'a>,
    columns: u16,
    explains: bool,
) -> Result<Option<Ask<'a>>, AllocError> {
    let Some(text) = text_found(name, found) else {
        return Ok(None);
    };
    let inputs = inputs_found(alloc, found, text == Text::Info)?;
    let drawn = drawn_found(alloc, found, columns, explains)?;
    let exported = exported_found(alloc, found)?;
    Ok(Some(Ask {
        text,
        inputs,
        options: Options { drawn, exported },
        wants_whole: found.get_flag("whole"),
        to: found.get_str("to"),
        repeat: repeat_found(found),
    }))
}
