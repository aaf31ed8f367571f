//! The command `export`.

use crate::arguments::{command_with, explain_flag, flag, option, put};
use crate::sum_options::images;
use crate::text_options::put_text_options;
use clap::{Arg, ArgAction, ArgMatches, Command};
use std::alloc::{AllocError, Global};
use text_styles::{Exported, LineLabel};

// What the names of metrics begin with, if nothing else is asked for.
const PREFIX: &str = "povundiri";

// What the command does.
const DETAILS: &str = "Print the histograms of an image, or of the sum of several, in the Prometheus
text format: each bucket with the units up to it, the sum and the count, the
values of sparse histograms, and how many records are bad.";

// What the names of all metrics begin with.
fn prefix_option<'a>(alloc: Global) -> Arg<'a> {
    option(alloc, "prefix", "PREFIX", "Prefix of all metric names")
        .default_value(PREFIX)
        .long_help("Prefix of all metric names: letters, digits and _, no digit first")
}

// The labels that all lines of an export get.
fn label_option<'a>(alloc: Global) -> Arg<'a> {
    option(
        alloc,
        "label",
        "KEY=VALUE",
        "Label that all lines get; may be given more than once",
    )
    .action(ArgAction::Append)
}

// Asks for a family for each histogram.
fn families_flag<'a>(alloc: Global) -> Arg<'a> {
    flag(
        alloc,
        "families",
        "Name metrics after the histograms: PREFIX_NAME",
    )
    .long_help(
        "Name metrics after the histograms: PREFIX_NAME, with _ for each byte\nof NAME but letters and digits",
    )
}

// The arguments of the command.
fn put_args<'a>(alloc: Global, args: &mut Vec<Arg<'a>>) -> Result<(), AllocError> {
    put(args, images(alloc))?;
    put(args, prefix_option(alloc))?;
    put(args, label_option(alloc))?;
    put(args, families_flag(alloc))?;
    put_text_options(alloc, args, true)?;
    put(args, explain_flag(alloc))
}

/// The command that writes the metrics of an image, or of a sum.
pub fn export_command<'a>(alloc: Global) -> Result<Command<'a>, AllocError> {
    let mut args = Vec::new(alloc);
    put_args(alloc, &mut args)?;
    let command = command_with(
        alloc,
        "export",
        "Print the histograms of an image in the Prometheus text format",
        "Example:\n  persist_report export my.img --prefix my",
        args,
    )?;
    Ok(command.long_about(DETAILS))
}

// The labels that were given, each as KEY=VALUE: one without an equals sign has no value, which no label may lack.
fn labels_found<'a>(
    alloc: Global,
    found: &ArgMatches<'a>,
) -> Result<Vec<LineLabel<'a>>, AllocError> {
    let mut labels = Vec::new(alloc);
    for word in found.get_strs("label").unwrap_or_default() {
        let (key, value) = word.split_once('=').unwrap_or((*word, ""));
        labels.push(LineLabel { key, value })?;
    }
    Ok(labels)
}

/// What an export is asked for. The only error is that memory runs out.
pub fn exported_found<'a>(
    alloc: Global,
    found: &ArgMatches<'a>,
) -> Result<Exported<'a>, AllocError> {
    Ok(Exported {
        prefix: found.get_str("prefix").unwrap_or(PREFIX).as_bytes(),
        labels: labels_found(alloc, found)?,
        has_families: found.get_flag("families"),
    })
}
