//! The inputs of a command that writes a text: files, lists of files and folders.

use crate::recorded::{Recorded, read_folder};
use crate::standing::{is_recording, names_in, path_in};
use persist_report_core::CliFault;
use report_asks::{DASH, Inputs, Wrong};
use report_streams::{Cause, Context, Failure, System, is_new_name, unopened};
use std::alloc::AllocError;
use std::fs::File;
use std::rt::Files;
use std::{fs, io};

/// Returns whether a sum is asked for, or the one input is a folder; never if it has to be one image alone.
pub fn is_of_many<R: Files>(rt: &R, inputs: &Inputs<'_>) -> bool {
    !inputs.is_image_alone && (inputs.is_sum() || is_folder(rt, inputs.first().unwrap_or(DASH)))
}

/// What an input is.
#[derive(Drop)]
pub enum What {
    /// A file that was named, or standard input.
    Named,
    /// A file that was found in a folder. Of these, files that are neither images nor totals are passed over.
    Found,
    /// A recording's folder, which was read.
    Recorded(Recorded),
}

impl What {
    /// Returns whether it was found in a folder.
    pub fn is_found(&self) -> bool {
        matches!(self, What::Found)
    }
}

/// An input by its name.
#[derive(Drop)]
pub struct Named {
    /// Its path, or `-`.
    pub path: String,
    pub what: What,
}

/// Whether a folder is at a path.
pub fn is_folder<R: Files>(rt: &R, path: &str) -> bool {
    match fs::metadata(rt, path) {
        Ok(found) => path != DASH && found.is_dir(),
        Err(_) => false,
    }
}

// Appends an input.
fn put_named(names: &mut Vec<Named>, path: String, what: What) -> Result<(), AllocError> {
    names.push(Named { path, what })?;
    Ok(())
}

// Appends the path of a name in a folder, if it is a regular file that no running command is writing.
fn put_found<R: Files + AllocGlobal>(
    rt: &R,
    names: &mut Vec<Named>,
    folder: &str,
    name: &[u8],
) -> io::Result<()> {
    let Ok(name) = str::from_utf8(name) else {
        return Err(io::Error::from(io::ErrorKind::InvalidFilename));
    };
    let path = path_in(rt.alloc(), folder, name)?;
    let is_file = match fs::symlink_metadata(rt, path.as_str()) {
        Ok(found) => found.is_file(),
        Err(_) => false,
    };
    if is_file && !is_new_name(name) {
        put_named(names, path, What::Found)?;
    }
    Ok(())
}

// Appends the regular files in a folder, in the order of their names.
fn put_folder<R: Files + AllocGlobal>(
    rt: &R,
    names: &mut Vec<Named>,
    folder: &str,
) -> io::Result<()> {
    let mut found = names_in(rt, folder)?;
    found.sort_by(|a, b| a.as_slice().cmp(b.as_slice()))?;
    for name in &found {
        put_found(rt, names, folder, name)?;
    }
    Ok(())
}

// Appends the regular files in a folder, unless it is a recording's. Returns whether it is.
fn put_folder_unless_recording<R: Files + AllocGlobal>(
    rt: &R,
    names: &mut Vec<Named>,
    folder: &str,
) -> io::Result<bool> {
    let is_recorded = is_recording(rt, folder)?;
    if !is_recorded {
        put_folder(rt, names, folder)?;
    }
    Ok(is_recorded)
}

// Appends what a recording's folder has, and then its segments that could not be looked at: these are read as any other
// input is, or reported.
fn put_recorded<R: Files<File = File> + AllocGlobal>(
    context: &Context<'_, R>,
    names: &mut Vec<Named>,
    folder: &str,
) -> Result<(), Failure> {
    let reading = read_folder(context, folder)?;
    let path = String::from_str(context.alloc(), folder)?;
    put_named(names, path, What::Recorded(reading.recorded))?;
    for path in reading.others {
        put_named(names, path, What::Named)?;
    }
    Ok(())
}

/// Appends a file, what a recording's folder has, or the regular files in another folder in the order of their names.
/// `Busy` comes if folds kept ending while a folder was read.
pub fn put_input<R: Files<File = File> + AllocGlobal>(
    context: &Context<'_, R>,
    names: &mut Vec<Named>,
    path: &str,
) -> Result<(), Failure> {
    if !is_folder(context.rt, path) {
        put_named(names, String::from_str(context.alloc(), path)?, What::Named)?;
        return Ok(());
    }
    match put_folder_unless_recording(context.rt, names, path) {
        Ok(true) => put_recorded(context, names, path),
        Ok(false) => Ok(()),
        Err(error) => Err(unopened(context, Cause::of(CliFault::Read, error), path)),
    }
}

// The bytes of a list of files.
fn list_bytes<R: System>(rt: &R, list: &str) -> io::Result<String> {
    if list == DASH {
        return io::read_to_string(rt.alloc(), rt.reader());
    }
    fs::read_to_string(rt, list)
}

// Appends what the lines of a text name; empty lines name nothing.
fn put_lines<R: Files<File = File> + AllocGlobal>(
    context: &Context<'_, R>,
    names: &mut Vec<Named>,
    lines: &str,
) -> Result<(), Failure> {
    for line in lines.lines() {
        if !line.is_empty() {
            put_input(context, names, line)?;
        }
    }
    Ok(())
}

// Appends what the lines of a list name.
fn put_list<R: System>(
    context: &Context<'_, R>,
    names: &mut Vec<Named>,
    list: &str,
) -> Result<(), Failure> {
    match list_bytes(context.rt, list) {
        Ok(lines) => put_lines(context, names, lines.as_str()),
        Err(error) => Err(unopened(context, Cause::of(CliFault::Read, error), list)),
    }
}

// How many of some names are standard input, and of the others together.
fn dashes_among(names: &[Named], others: usize) -> usize {
    let mut count = others;
    for name in names {
        if name.path.as_str() == DASH {
            count = count.saturating_add(1);
        }
    }
    count
}

// Refuses standard input if it is named twice: among some names, and by the others, which name it `others` times.
fn check_dashes_among(names: &[Named], others: usize) -> Result<(), Failure> {
    if dashes_among(names, others) > 1 {
        return Err(Failure::Usage(Wrong::TwoInputs));
    }
    Ok(())
}

// Appends files, each by its name, or what is in the folder.
fn put_files<R: Files<File = File> + AllocGlobal>(
    context: &Context<'_, R>,
    names: &mut Vec<Named>,
    files: &[&str],
) -> Result<(), Failure> {
    for file in files {
        put_input(context, names, file)?;
    }
    Ok(())
}

// Appends the files that are named, or standard input if nothing is.
fn put_named_files<R: Files<File = File> + AllocGlobal>(
    context: &Context<'_, R>,
    names: &mut Vec<Named>,
    inputs: &Inputs<'_>,
) -> Result<(), Failure> {
    if inputs.files.is_empty() && inputs.list.is_none() {
        return put_input(context, names, DASH);
    }
    put_files(context, names, &inputs.files)
}

// Appends what the list names, if there is one. Standard input may be named once, by these and the others together.
fn put_listed_files<R: System>(
    context: &Context<'_, R>,
    names: &mut Vec<Named>,
    list: Option<&str>,
    others: usize,
) -> Result<(), Failure> {
    let Some(list) = list else { return Ok(()) };
    put_list(context, names, list)?;
    check_dashes_among(names, others)
}

// Appends the names of all inputs, in their order.
fn put_names<R: System>(
    context: &Context<'_, R>,
    names: &mut Vec<Named>,
    inputs: &Inputs<'_>,
) -> Result<(), Failure> {
    let others = inputs.other_dashes();
    put_named_files(context, names, inputs)?;
    check_dashes_among(names, others)?;
    put_listed_files(context, names, inputs.list, others)
}

/// Returns the names of all inputs, in their order. `Usage` comes if standard input is named twice.
pub fn names_of<R: System>(
    context: &Context<'_, R>,
    inputs: &Inputs<'_>,
) -> Result<Vec<Named>, Failure> {
    let mut names = Vec::new(context.alloc());
    match put_names(context, &mut names, inputs) {
        Ok(()) => Ok(names),
        Err(failure) => Err(failure),
    }
}
