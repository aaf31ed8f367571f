//! The command `show`.

use crate::arguments::{excluding, explain_flag, flag, image, option, put};
use crate::list::put_list_options;
use crate::sum_options::also_option;
use crate::text_options::put_text_options;
use clap::{Arg, ArgMatches, Command, value_parser};
use std::alloc::{AllocError, Global};
use text_styles::{Choice, Drawn, Style};

// What the command does.
const DETAILS: &str = "Show the histograms of an image, or of the sum of several: numbers, quantiles
and bars. A line is a bucket with its values, a bar, its units, their percent of
all, and the percent of those up to it. With --live --every each text but the
first has a column 'new': what came since the look before, as +N.";

// How wide a line is.
fn width_option<'a>(alloc: Global) -> Arg<'a> {
    option(
        alloc,
        "width",
        "COLUMNS",
        "Width of a line, 40 to 200 [default: COLUMNS, or 80]",
    )
    .value_parser(value_parser!(u16).range(40..=200))
    .long_help("Width of a line, 40 to 200 [default: COLUMNS of the environment, or\n80]")
}

// How histograms are drawn.
fn put_style_options<'a>(alloc: Global, args: &mut Vec<Arg<'a>>) -> Result<(), AllocError> {
    put(args, width_option(alloc))?;
    put(
        args,
        flag(alloc, "all", "Show all values of sparse histograms").long_help(
            "Show all values of a sparse histogram, not only the 20 with the most\nunits",
        ),
    )?;
    put(
        args,
        flag(
            alloc,
            "log",
            "Draw bars in proportion to the logarithms of units",
        ),
    )?;
    put(
        args,
        flag(alloc, "ascii", "Draw bars with # instead of blocks"),
    )
}

// Asks for the lines that follow the line of a fault, and for those of redundant counts.
fn explain_counts_flag<'a>(alloc: Global) -> Arg<'a> {
    explain_flag(alloc)
        .help("Explain errors, and show redundant counts that differ")
        .long_help(
            "Explain errors: file, line, reason and what to do (on by default in a\nterminal). Also show the redundant count of a histogram, where it\ndiffers from the units",
        )
}

// The part of the names of those histograms that are shown.
fn part_option<'a>(alloc: Global) -> Result<Arg<'a>, AllocError> {
    option(
        alloc,
        "match",
        "PART",
        "Show the histograms whose name contains PART",
    )
    .conflicts_with("NAME")
}

// Asks for a web page.
fn html_flag<'a>(alloc: Global) -> Result<Arg<'a>, AllocError> {
    let html = flag(alloc, "html", "Write one self-contained HTML page").long_help(
        "Write one self-contained HTML page (not with --width, --ascii or\n--log)",
    );
    excluding(html, &["width", "ascii", "log"])
}

// The histograms that are shown.
fn names_argument<'a>(alloc: Global) -> Arg<'a> {
    Arg::new(alloc, "NAME")
        .num_args(0..)
        .help("Histograms to show; all if none is given")
}

// The arguments that say what is shown, and as what.
fn put_choice<'a>(alloc: Global, args: &mut Vec<Arg<'a>>) -> Result<(), AllocError> {
    put(args, image(alloc))?;
    put(args, names_argument(alloc))?;
    put(args, also_option(alloc))?;
    put(args, part_option(alloc)?)?;
    put(args, html_flag(alloc)?)
}

// The arguments of the command.
fn put_args<'a>(alloc: Global, args: &mut Vec<Arg<'a>>) -> Result<(), AllocError> {
    put_choice(alloc, args)?;
    put_list_options(alloc, args)?;
    put_style_options(alloc, args)?;
    put_text_options(alloc, args, true)?;
    put(args, explain_counts_flag(alloc))
}

/// The command that writes histograms for people.
pub fn show_command<'a>(alloc: Global) -> Result<Command<'a>, AllocError> {
    let mut args = Vec::new(alloc);
    put_args(alloc, &mut args)?;
    Command::new(alloc, "show")
        .about("Show the histograms of an image: numbers, quantiles and bars")
        .long_about(DETAILS)
        .after_long_help("Example:\n  persist_report show my.img A --width 60")
        .args(args)
}

// Which histograms are shown. The only error is that memory runs out.
fn choice_found<'a>(alloc: Global, found: &ArgMatches<'a>) -> Result<Choice<'a>, AllocError> {
    if let Some(part) = found.get_str("match") {
        return Ok(Choice::Part(part));
    }
    match found.get_strs("NAME") {
        Some(names) if !names.is_empty() => Ok(Choice::Named(Vec::from_slice(alloc, names)?)),
        _ => Ok(Choice::All),
    }
}

/// What a text for people is asked for, in lines of `columns` columns unless the words say how many. The only error is
/// that memory runs out.
pub fn drawn_found<'a>(
    alloc: Global,
    found: &ArgMatches<'a>,
    columns: u16,
    explains: bool,
) -> Result<Drawn<'a>, AllocError> {
    Ok(Drawn {
        style: Style {
            width: found.get_one::<u16>("width").unwrap_or(columns),
            is_ascii: found.get_flag("ascii"),
            is_human: found.get_flag("human"),
            is_log: found.get_flag("log"),
            shows_all: found.get_flag("all"),
            shows_redundant: explains,
            marks_meanwhile: found.get_flag("live"),
        },
        is_by_units: matches!(found.get_str("sort"), Some("units")),
        choice: choice_found(alloc, found)?,
    })
}
