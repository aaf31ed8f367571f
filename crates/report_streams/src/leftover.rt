//! The new files that killed runs left in a folder.
//!
//! A run has the lock of its new file until that has OUT's name, or is removed. So a file with such a name whose lock
//! is free was left by a run that was killed. The next run of the same user that writes into the folder removes it.

use std::fs::{File, Metadata, OpenOptions};
use std::io::{BufRead, BufReader};
use std::os::unix::fs::MetadataExt;
use std::path::PathBuf;
use std::rt::Files;
use std::{fs, io};

/// What the name of a new file begins with. Sixteen hexadecimal digits follow.
pub const PREFIX: &str = ".persist_report-";

const DIGITS: usize = 16;

/// Whether a new file of a running command may have this name.
pub fn is_new_name(name: &str) -> bool {
    match name.strip_prefix(PREFIX) {
        Some(number) => {
            let mut digits = number.bytes();
            number.len() == DIGITS && digits.all(|byte| matches!(byte, b'0'..=b'9' | b'a'..=b'f'))
        }
        None => false,
    }
}

/// Whether the file with this metadata is the one at a path, which is no link to it.
pub fn is_at<R: Files>(rt: &R, found: &Metadata, path: &PathBuf) -> io::Result<bool> {
    match fs::symlink_metadata(rt, path) {
        Ok(named) => Ok(named.dev() == found.dev() && named.ino() == found.ino()),
        Err(error) if error.kind() == io::ErrorKind::NotFound => Ok(false),
        Err(error) => Err(error),
    }
}

// The folder in which a path is.
fn folder_of(path: &PathBuf) -> &str {
    match path.parent() {
        Some(folder) if !folder.as_str().is_empty() => folder.as_str(),
        _ => ".",
    }
}

// Removes the file at a path if a killed run of this owner left it. It is opened for reading and writing, since that
// waits for nobody, even if it were a pipe by now.
fn remove_left<R: Files<File = File>>(rt: &R, owner: u32, path: &PathBuf) -> io::Result<()> {
    let seen = fs::symlink_metadata(rt, path)?;
    if !seen.is_file() || seen.uid() != owner {
        return Ok(());
    }
    let file = OpenOptions::new().read(true).write(true).open(rt, path)?;
    if file.try_lock().is_err() {
        return Ok(());
    }
    let locked = file.metadata()?;
    if locked.is_file() && locked.uid() == owner && is_at(rt, &locked, path)? {
        fs::remove_file(rt, path)?;
    }
    Ok(())
}

// Removes what this owner's killed runs left in the folder of a new file.
fn remove_beside<R: Files<File = File> + AllocGlobal>(
    rt: &R,
    owner: u32,
    new: &PathBuf,
) -> io::Result<()> {
    let names = BufReader::new(rt.alloc(), rt.open_dir(folder_of(new))?)?;
    for name in names.split(rt.alloc(), 0) {
        let name = name?;
        let Ok(name) = str::from_utf8(&name) else {
            continue;
        };
        if is_new_name(name) && new.file_name() != Some(name) {
            // What cannot be removed stays.
            let _ = remove_left(rt, owner, &new.with_file_name(rt.alloc(), name)?);
        }
    }
    Ok(())
}

/// Removes what killed runs of the same user left in the folder of a new file: regular files with such names, of the
/// new file's owner, whose lock is free. What cannot be removed stays, and nothing is reported.
pub fn tidy<R: Files<File = File> + AllocGlobal>(rt: &R, file: &File, new: &PathBuf) {
    if let Ok(own) = file.metadata() {
        let _ = remove_beside(rt, own.uid(), new);
    }
}
