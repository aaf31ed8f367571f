//! The commands that record: a script in a new segment or in that of an image, and two images in one. Each opens its
//! inputs in the order of its arguments, and then the file that it writes, before it reads anything. That file is
//! unchanged until the command has done all else. `-` is standard input, and as OUT standard output.

use persist_commands::{OpenGate, merge_files, resume_script, run_script};
use report_asks::Workers;
use report_streams::{Context, Failure, System, end, open, open_out};
use std::sync::Wait;
use std::thread::Threads;

/// Runs the script in a file, and writes the image to another and its report to standard output. The image takes the
/// other file's place after the report.
pub fn run_file<'a, R: System + Threads + Wait>(
    context: &Context<'_, R>,
    script: &'a str,
    out: &'a str,
    workers: Workers,
) -> Result<(), Failure> {
    let mut reader = open(context, script, context.copy())?;
    let mut image = open_out(context, out)?;
    let mut report = context.output();
    let outcome = run_script(
        context.rt,
        context.alloc(),
        &mut reader,
        &mut image,
        &mut report,
        workers.count(),
        &OpenGate,
    );
    let reason = report.into_inner().reason();
    end(
        context,
        outcome,
        None,
        &reader.into_inner(),
        image.into_inner(),
        reason,
    )
}

/// Continues from the image in a file and runs the script in another on it. Writes the new image to a third file and
/// its report to standard output. The image takes the third file's place after the report.
pub fn resume_file<'a, R: System + Threads + Wait>(
    context: &Context<'_, R>,
    base: &'a str,
    script: &'a str,
    out: &'a str,
    workers: Workers,
) -> Result<(), Failure> {
    let mut first = open(context, base, context.copy())?;
    let mut second = open(context, script, context.copy())?;
    let mut image = open_out(context, out)?;
    let mut report = context.output();
    let outcome = resume_script(
        context.rt,
        context.alloc(),
        &mut first,
        &mut second,
        &mut image,
        &mut report,
        workers.count(),
        &OpenGate,
    );
    let reason = report.into_inner().reason();
    end(
        context,
        outcome,
        Some(&first.into_inner()),
        &second.into_inner(),
        image.into_inner(),
        reason,
    )
}

/// Merges the images in two files into a new one, and writes it to a third.
pub fn merge_files_into<'a, R: System>(
    context: &Context<'_, R>,
    base: &'a str,
    dead: &'a str,
    out: &'a str,
) -> Result<(), Failure> {
    let mut first = open(context, base, context.copy())?;
    let mut second = open(context, dead, context.copy())?;
    let mut image = open_out(context, out)?;
    let outcome = merge_files(context.alloc(), &mut first, &mut second, &mut image);
    end(
        context,
        outcome,
        Some(&first.into_inner()),
        &second.into_inner(),
        image.into_inner(),
        None,
    )
}
