//! The file that a command writes. OUT is the old file or the whole new one, whatever happens.
//!
//! So no byte is written to OUT itself. The bytes go to a new file in its folder, and a flush syncs them. The new file
//! takes OUT's name when all else is done, and is removed if the command fails. A kill may leave it there, and leaves
//! OUT unchanged. So the new file is locked until then, and what killed runs left is removed (`leftover.rt`).
//!
//! An OUT that has no bytes to keep, such as a device or a pipe, is written directly.
//!
//! A process that records into a file has its lock. So a command takes the lock of an old OUT before it does anything
//! else, and has it until the new file has OUT's name. It replaces no file that another process has locked, and none
//! that appeared at OUT meanwhile.

ghost use Rattle.std.specs.Prelude.{◌≡◌, IfErr, IsErrAnd, OnOk};

use crate::cause::Cause;
use crate::leftover::{PREFIX, is_at, tidy};
use crate::link_target::{end_of_links, has_name};
use crate::lock::{Unopened, take_lock};
use crate::system::System;
use persist_report_core::CliFault;
use std::alloc::AllocError;
use std::fs::{File, OpenFile, OpenOptions, Permissions, TryLockError};
use std::io::{ErrorKind, Write};
use std::os::unix::fs::OpenOptionsExt;
use std::path::PathBuf;
use std::random::RandomSource;
use std::rt::Files;
use std::{fs, io};

// How many names are tried for a new file. They are random, so that two hardly ever clash.
const MOST_NAMES: u32 = 16;

// How often OUT is opened, if another file takes its name each time before it is locked.
const MOST_OPENINGS: u32 = 16;

// Who may use a new file before it gets the permissions of the old one.
const OWNER_ALONE: u32 = 0o600;

/// The file that a command writes, or standard output.
#[derive(Drop)]
pub enum Output<F, P> {
    /// A new file at the path `new`, which is to take the path `out`, and the locked file that is there, if there is
    /// one.
    New {
        file: F,
        new: PathBuf,
        out: PathBuf,
        old: Option<F>,
    },
    /// What OUT leads to.
    Itself(F),
    /// Standard output.
    Standard(P),
}

impl<F: Write + OpenFile, P: Write> Write for Output<F, P> {
    fn write(&mut self, buf: &[u8]) -> io::Result<usize> {
        match self {
            Output::New { file, .. } | Output::Itself(file) => file.write(buf),
            Output::Standard(printer) => printer.write(buf),
        }
    }

    // After this, the bytes of a new file are on its device.
    fn flush(&mut self) -> io::Result<()> {
        match self {
            Output::New { file, .. } => file.sync_all(),
            Output::Itself(file) => file.flush(),
            Output::Standard(printer) => printer.flush(),
        }
    }
}

impl<F: Drop, P: Drop> Output<F, P> {
    /// Ends the output of a command with this outcome. If the command failed, the new file is removed, and the fault
    /// is that of the command [same]. Else the new file takes OUT's name, and the fault is `Write` if it cannot
    /// [write].
    pub fn end<R: Files>(self, rt: &R, outcome: Result<(), CliFault>) -> Result<(), Cause>
        ensures same { IfErr outcome (λ fault. IsErrAnd result (λ cause. cause.fault ≡ fault)) }
        ensures write { OnOk outcome (IfErr result (λ cause. cause.fault ≡ CliFault.Write)) }
    {
        let Output::New {
            file,
            new,
            out,
            old,
        } = self
        else {
            return match outcome {
                Ok(()) => Ok(()),
                Err(fault) => Err(Cause::from(fault)),
            };
        };
        let ended = match outcome {
            Ok(()) => rename(rt, &new, &out, old.is_some()),
            Err(fault) => Err(Cause::from(fault)),
        };
        if ended.is_err() {
            remove(rt, &new);
        }
        // Until here both are locked.
        drop(file);
        drop(old);
        ended
    }
}

impl<F: Drop, P: Drop> Output<F, P> {
    /// Removes the new file, so that OUT is unchanged: of a command that failed before it wrote anything.
    pub fn discard<R: Files>(self, rt: &R) {
        let _ = self.end(rt, Err(CliFault::Write));
    }
}

// Gives a new file OUT's name. If OUT was not there at first, a file that appeared meanwhile is not replaced.
fn rename<R: Files>(rt: &R, new: &PathBuf, out: &PathBuf, stood: bool) -> Result<(), Cause>
    ensures { IfErr result (λ cause. cause.fault ≡ CliFault.Write) }
{
    if !stood && fs::symlink_metadata(rt, out).is_ok() {
        let error = io::Error::from(ErrorKind::AlreadyExists);
        return Err(Cause::of_write(error));
    }
    match fs::rename(rt, new, out) {
        Ok(()) => Ok(()),
        Err(error) => Err(Cause::of_write(error)),
    }
}

/// Opens the output for OUT, which is unchanged. What killed runs left in its folder is removed.
///
/// `Busy` if another process has had the lock of OUT for 100 ms. `Write` if OUT cannot be written, or no new file can
/// be made in its folder.
pub fn open_output<P: Drop, R: System>(rt: &R, out: &str) -> Result<Output<File, P>, Unopened> {
    for _ in 0..MOST_OPENINGS {
        let opened = try_output(rt, out)?;
        if let Some(output) = opened {
            return Ok(output);
        }
    }
    Err(Unopened::Busy)
}

// The same; none if another file took the name of the one that was opened before it was locked.
fn try_output<P: Drop, R: System>(rt: &R, out: &str) -> Result<Option<Output<File, P>>, Unopened> {
    match OpenOptions::new().write(true).open(rt, out) {
        Ok(file) => open_for(rt, out, file),
        Err(error) if error.kind() == ErrorKind::NotFound => match end_of_links(rt, out)? {
            Some(place) => Ok(Some(create_beside(rt, place, None)?)),
            None => Err(Unopened::from(Cause::of_write(error))),
        },
        Err(error) => Err(Unopened::from(Cause::of_write(error))),
    }
}

// The output if OUT is there, as this open file.
fn open_for<P: Drop, R: System>(
    rt: &R,
    out: &str,
    file: File,
) -> Result<Option<Output<File, P>>, Unopened> {
    let found = file.metadata().map_err(Cause::of_write)?;
    if !found.is_file() {
        return Ok(Some(Output::Itself(file)));
    }
    take_lock(rt, &file)?;
    match end_of_links(rt, out)? {
        Some(place) if !is_at(rt, &found, &place).map_err(Cause::of_write)? => Ok(None),
        Some(place) => {
            let output = create_beside(rt, place, Some((file, found.permissions())))?;
            Ok(Some(output))
        }
        None => {
            file.set_len(0).map_err(Cause::of_write)?;
            Ok(Some(Output::Itself(file)))
        }
    }
}

// A new file in the folder of `out`, with the permissions of the old one if there is one.
fn create_beside<P: Drop, R: System>(
    rt: &R,
    out: PathBuf,
    old: Option<(File, Permissions)>,
) -> Result<Output<File, P>, Cause> {
    if !has_name(&out) {
        return Err(Cause::from(CliFault::Write));
    }
    let (file, new) = create_new(rt, &out, old.is_some())?;
    tidy(rt, &file, &new);
    let Some((old, permissions)) = old else {
        return Ok(Output::New {
            file,
            new,
            out,
            old: None,
        });
    };
    if let Err(error) = file.set_permissions(permissions) {
        remove(rt, &new);
        return Err(Cause::of_write(error));
    }
    Ok(Output::New {
        file,
        new,
        out,
        old: Some(old),
    })
}

// Removes a new file after a fault. The fault is reported; if this fails too, nothing is left to do.
fn remove<R: Files>(rt: &R, new: &PathBuf) {
    let _ = fs::remove_file(rt, new);
}

// A new file in the folder of `out`, and its path. It is locked, so that no other run takes it for one that was left.
fn create_new<R: System>(
    rt: &R,
    out: &PathBuf,
    is_private: bool,
) -> Result<(File, PathBuf), Cause> {
    let mut options = OpenOptions::new();
    options.write(true).create_new(true);
    if is_private {
        options.mode(OWNER_ALONE);
    }
    for _ in 0..MOST_NAMES {
        let name = new_name(rt)?;
        let new = out.with_file_name(rt.alloc(), name.as_str())?;
        match options.open(rt, &new) {
            Ok(file) => {
                if is_kept(rt, &file, &new) {
                    return Ok((file, new));
                }
                remove(rt, &new);
            }
            Err(error) if error.kind() == ErrorKind::AlreadyExists => {}
            Err(error) => return Err(Cause::of_write(error)),
        }
    }
    Err(Cause::from(CliFault::Write))
}

// Takes the lock of a new file; whether it has that, and still its name. Before it was locked, another run could take
// it for one that was left, and remove it. If the system has no locks, no other run takes it.
fn is_kept<R: Files>(rt: &R, file: &File, new: &PathBuf) -> bool {
    if let Err(TryLockError::WouldBlock) = file.try_lock() {
        return false;
    }
    match file.metadata() {
        Ok(found) => is_at(rt, &found, new).unwrap_or(false),
        Err(_) => false,
    }
}

// A name that hardly any other file has.
fn new_name<R: RandomSource + AllocGlobal>(rt: &R) -> Result<String, Cause> {
    let mut bytes = [0u8; 8];
    rt.fill_bytes(&mut bytes).map_err(Cause::of_write)?;
    let number = u64::from_le_bytes(bytes);
    let name: Result<String, AllocError> = format!(in rt.alloc(); "{PREFIX}{number:016x}");
    Ok(name?)
}
