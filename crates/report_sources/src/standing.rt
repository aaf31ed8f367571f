//! What is in a recording's folder. `docs/FORMAT.md` has the names.

use crate::left_out::input_failure;
use persist_report_core::{CliFault, image_in};
use reading_sums::Sums;
use recording_folders::{FileKind, Mark, kind_of, mark_of, was_recorded};
use report_streams::{Cause, Context, Failure, unopened};
use segment_image::layout::ID_WORD;
use segment_image::push_words;
use std::alloc::{AllocError, Global};
use std::fs::File;
use std::io::{BufRead, BufReader, ErrorKind, Read, Seek, SeekFrom};
use std::path::PathBuf;
use std::rt::Files;
use std::{fs, io};
use sum_commands::InputFault;
use sum_texts::{Totals, totals_of};

/// The file that says what the folder is.
pub const MARK: &str = "recording";

// The most bytes of a mark.
const MARK_BYTES: u64 = 4096;

/// The totals.
pub const TOTALS: &str = "totals";

/// Totals that are being written.
pub const NEW_TOTALS: &str = "totals.new";

/// The file whose lock a fold has.
pub const FOLD_LOCK: &str = "fold.lock";

// The bytes that are read to see the id of a segment: those of a word of zeros, and of the first words of an image.
const FRONT: usize = 8 * (1 + ID_WORD + 1);

/// A segment: its number, the path of its file, and how many bytes that had when it was listed.
#[derive(Drop)]
pub struct Segment {
    pub number: u64,
    pub path: PathBuf,
    pub bytes: u64,
}

/// The path of a name in a folder.
pub fn path_in(alloc: Global, folder: &str, name: &str) -> Result<String, AllocError> {
    let mut path = String::from_str(alloc, folder)?;
    if !folder.ends_with('/') {
        path.push('/')?;
    }
    path.push_str(name)?;
    Ok(path)
}

// What the bytes of a file `recording` are. One that may not be read is taken by its length.
fn mark_at<R: Files + AllocGlobal>(rt: &R, path: &str) -> io::Result<Mark> {
    match fs::read(rt, path) {
        Ok(bytes) => Ok(mark_of(rt.alloc(), &bytes)?),
        Err(error) if error.kind() == ErrorKind::PermissionDenied => Ok(Mark::Empty),
        Err(error) => Err(error),
    }
}

/// Returns what the file `recording` in a folder is; none if there is no such file.
pub fn mark_in<R: Files + AllocGlobal>(rt: &R, folder: &str) -> io::Result<Option<Mark>> {
    let path = path_in(rt.alloc(), folder, MARK)?;
    match fs::symlink_metadata(rt, path.as_str()) {
        Ok(found) if !found.is_file() || found.len() > MARK_BYTES => Ok(Some(Mark::Foreign)),
        Ok(_) => Ok(Some(mark_at(rt, path.as_str())?)),
        Err(error) if error.kind() == ErrorKind::NotFound => Ok(None),
        Err(error) => Err(error),
    }
}

/// Returns whether the folder at a path is a recording's: by its mark, or, if that is missing, by the names of all that
/// is in it.
pub fn is_recording<R: Files + AllocGlobal>(rt: &R, folder: &str) -> io::Result<bool> {
    match mark_in(rt, folder)? {
        Some(mark) => Ok(mark != Mark::Foreign),
        None => Ok(was_recorded(rt.alloc(), &names_in(rt, folder)?)?),
    }
}

/// Returns the cause of a read that failed for this reason.
pub fn cause_of_read(reason: io::Error) -> Cause {
    match reason.kind() {
        ErrorKind::OutOfMemory => Cause::from(CliFault::NoMemory),
        _ => Cause::of(CliFault::Read, reason),
    }
}

// Appends a segment, if its name is that of a regular file, or its file is gone.
fn put_segment<R: Files + AllocGlobal>(
    rt: &R,
    segments: &mut Vec<Segment>,
    folder: &str,
    number: u64,
    name: &str,
) -> Result<(), AllocError> {
    let path = path_in(rt.alloc(), folder, name)?;
    let bytes = match fs::symlink_metadata(rt, path.as_str()) {
        Ok(found) if !found.is_file() => return Ok(()),
        Ok(found) => found.len(),
        Err(_) => 0,
    };
    let path = PathBuf::from_str(rt.alloc(), path.as_str())?;
    segments.push(Segment {
        number,
        path,
        bytes,
    })?;
    Ok(())
}

// The names of a folder itself and of the one that it is in, as the system lists them.
const ITSELF: &[u8] = b".";

const ABOVE: &[u8] = b"..";

/// Returns the names of what is in a folder, in any order.
pub fn names_in<R: Files + AllocGlobal>(rt: &R, folder: &str) -> io::Result<Vec<Vec<u8>>> {
    let alloc = rt.alloc();
    let mut names = Vec::new(alloc);
    for name in BufReader::new(alloc, rt.open_dir(folder)?)?.split(alloc, 0) {
        let name = name?;
        if name.as_slice() != ITSELF && name.as_slice() != ABOVE {
            names.push(name)?;
        }
    }
    Ok(names)
}

/// Returns the segments in a folder, in the order of their numbers.
pub fn segments_in<R: Files + AllocGlobal>(rt: &R, folder: &str) -> io::Result<Vec<Segment>> {
    let alloc = rt.alloc();
    let names = names_in(rt, folder)?;
    let mut segments = Vec::new(alloc);
    for name in &names {
        if let FileKind::Segment(number) = kind_of(alloc, name)?
            && let Ok(name) = str::from_utf8(name)
        {
            put_segment(rt, &mut segments, folder, number, name)?;
        }
    }
    segments.sort_by(|a, b| a.number.cmp(&b.number))?;
    Ok(segments)
}

// The bytes of the totals at a path; none if there is no such file.
fn read_totals<R: Files + AllocGlobal>(rt: &R, path: &str) -> io::Result<Option<Vec<u8>>> {
    if fs::symlink_metadata(rt, path).is_ok_and(|found| !found.is_file()) {
        return Err(io::Error::from(ErrorKind::InvalidInput));
    }
    match fs::read(rt, path) {
        Ok(text) => Ok(Some(text)),
        Err(error) if error.kind() == ErrorKind::NotFound => Ok(None),
        Err(error) => Err(error),
    }
}

/// Returns the text of the totals of a folder; none if there is no such file.
pub fn totals_text_in<R: Files + AllocGlobal>(
    context: &Context<'_, R>,
    folder: &str,
) -> Result<Option<Vec<u8>>, Failure> {
    let path = path_in(context.alloc(), folder, TOTALS)?;
    match read_totals(context.rt, path.as_str()) {
        Ok(text) => Ok(text),
        Err(error) => Err(unopened(context, cause_of_read(error), path.as_str())),
    }
}

/// Returns what the text of the totals of a folder says: without a text, that nothing was folded.
pub fn totals_from<R: AllocGlobal>(
    context: &Context<'_, R>,
    folder: &str,
    text: Option<&[u8]>,
) -> Result<Totals, Failure> {
    let alloc = context.alloc();
    let Some(text) = text else {
        return Ok(Totals {
            sums: Sums::new(alloc),
            of: Vec::new(alloc),
            fold: None,
        });
    };
    match totals_of(alloc, text) {
        Ok(totals) => Ok(totals),
        Err(fault) => {
            let path = path_in(alloc, folder, TOTALS)?;
            Err(input_failure(context, InputFault::from(fault), path.as_str()))
        }
    }
}

/// Returns the id of the segment in an open file that is at its start, and sets it back there; none if the file is too
/// short to have one.
pub fn id_in(alloc: Global, file: &mut File) -> io::Result<Option<u64>> {
    let mut front = [0; FRONT];
    match file.read_exact(&mut front) {
        Ok(()) => {}
        Err(error) if error.kind() == ErrorKind::UnexpectedEof => return Ok(None),
        Err(error) => return Err(error),
    }
    file.seek(SeekFrom::Start(0))?;
    let mut words = Vec::new(alloc);
    push_words(&mut words, &front)?;
    Ok(image_in(&words).get(ID_WORD).copied())
}
