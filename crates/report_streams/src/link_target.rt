//! Where a path leads, when its links are followed.

use crate::cause::Cause;
use persist_report_core::CliFault;
use std::fs::Metadata;
use std::io::ErrorKind;
use std::os::unix::fs::MetadataExt;
use std::path::{Path, PathBuf};
use std::rt::Files;
use std::{fs, io};

// How many links are followed in a row: as many as the system follows.
const MOST_LINKS: u32 = 40;

/// The path to which a path leads when its links are followed. None if one of the links is to an open file, as for
/// `/dev/stdout`.
///
/// `Write` if a link cannot be read, or too many follow one another.
pub fn end_of_links<R: Files + AllocGlobal>(rt: &R, path: &str) -> Result<Option<PathBuf>, Cause> {
    let mut target = PathBuf::from_str(rt.alloc(), path)?;
    for _ in 0..MOST_LINKS {
        let link = match fs::symlink_metadata(rt, &target) {
            Ok(found) if found.is_symlink() => found,
            Ok(_) => return Ok(Some(target)),
            Err(error) if error.kind() == ErrorKind::NotFound => return Ok(Some(target)),
            Err(error) => return Err(Cause::of_write(error)),
        };
        if is_open_file(rt, &link) {
            return Ok(None);
        }
        target = target_of(rt, &target)?;
    }
    Err(Cause::from(CliFault::Write))
}

// Whether a link is one by which the system shows an open file: only these are in /proc.
fn is_open_file<R: Files>(rt: &R, link: &Metadata) -> bool {
    fs::metadata(rt, "/proc").is_ok_and(|proc| proc.dev() == link.dev())
}

// The path to which one link leads.
fn target_of<R: Files + AllocGlobal>(rt: &R, link: &PathBuf) -> Result<PathBuf, Cause> {
    let text = fs::read_link(rt, link).map_err(cause_of)?;
    let folder = link.parent().unwrap_or(Path::new(""));
    Ok(folder.join(rt.alloc(), text)?)
}

fn cause_of(error: io::Error) -> Cause {
    match error.kind() {
        ErrorKind::OutOfMemory => Cause::from(CliFault::NoMemory),
        _ => Cause::of_write(error),
    }
}

/// Whether a path ends with the name of a file, and not with a slash or a dot.
pub fn has_name(path: &PathBuf) -> bool {
    match path.file_name() {
        Some(name) => path.as_str().ends_with(name),
        None => false,
    }
}
