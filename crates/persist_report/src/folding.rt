//! The fold of a recording's folder: segments that are final are added to its totals, and removed.
//!
//! The new totals are written to a file of their own, synced, and renamed over the old ones; only then is a segment
//! removed. They name the segments that they have, so a fold that is killed at any moment leaves a folder with the same
//! sum, and the next one removes what this one did not.
//!
//! A segment that somebody records into has its lock, and stays. A fold waits for none.

use image_reader::Reading;
use persist_report_core::{CliFault, read_image, read_input};
use recording_folders::{Mark, fold_of, folded_totals, is_named, serial_of};
use report_sources::{
    FOLD_LOCK, MARK, NEW_TOTALS, Named, Segment, TOTALS, What, cause_of_read, id_in, input_failure,
    mark_in, path_in, segments_in, tell_left, totals_from, totals_text_in,
};
use report_streams::{
    Cause, Context, Failure, System, is_at, remedies_of, take_lock, unopened, unopened_out,
};
use segment_image::Watched;
use std::alloc::{AllocError, Global};
use std::fs::{File, OpenOptions, TryLockError};
use std::io::{ErrorKind, Write};
use std::os::unix::fs::OpenOptionsExt;
use std::path::PathBuf;
use std::rt::Files;
use std::{fs, io};
use sum_commands::{InputFault, Left};
use sum_texts::{Totals, totals_text};

// How many segments are added at once: each is open until it is removed.
const MOST_AT_ONCE: usize = 256;

// Who may use a new file.
const OWNER_ALONE: u32 = 0o600;

// What came of taking the lock of a segment.
#[derive(Drop)]
enum Locked {
    Held(File),
    // Somebody has the lock.
    Busy,
    // The file is gone, or another one is at its path.
    Gone,
}

// A segment that is final: its lock is held, and its id is known.
#[derive(Drop)]
struct Final<'s> {
    segment: &'s Segment,
    id: u64,
    // Has the lock.
    file: File,
}

// A fold at work.
#[derive(Drop)]
struct Work {
    totals: Totals,
    // The segments that the totals name, and that could not be removed.
    standing: Vec<(u64, u64)>,
    // The segments that cannot be added, and why.
    names: Vec<Named>,
    left: Vec<Left>,
}

// Takes the lock of the file of a segment, without waiting.
fn lock_segment<R: Files<File = File>>(rt: &R, path: &PathBuf) -> io::Result<Locked> {
    let file = match fs::open(rt, path) {
        Ok(file) => file,
        Err(error) if error.kind() == ErrorKind::NotFound => return Ok(Locked::Gone),
        Err(error) => return Err(error),
    };
    match file.try_lock() {
        Ok(()) => {}
        Err(TryLockError::WouldBlock) => return Ok(Locked::Busy),
        Err(TryLockError::Error(error)) => return Err(error),
    }
    let found = file.metadata()?;
    if is_at(rt, &found, path)? {
        Ok(Locked::Held(file))
    } else {
        Ok(Locked::Gone)
    }
}

// Removes a segment if it has the id that the totals name with its number. Returns whether the named one may still be
// there.
fn still_stands<R: Files<File = File> + AllocGlobal>(rt: &R, segment: &Segment, id: u64) -> bool {
    let mut file = match lock_segment(rt, &segment.path) {
        Ok(Locked::Held(file)) => file,
        Ok(Locked::Gone) => return false,
        Ok(Locked::Busy) | Err(_) => return true,
    };
    match id_in(rt.alloc(), &mut file) {
        Ok(Some(found)) if found == id => fs::remove_file(rt, &segment.path).is_err(),
        Ok(_) => false,
        Err(_) => true,
    }
}

// Removes the segments that totals name already. Returns those that may still be there.
fn remove_named<R: Files<File = File> + AllocGlobal>(
    rt: &R,
    segments: &[Segment],
    named: &[(u64, u64)],
) -> Result<Vec<(u64, u64)>, AllocError> {
    let mut standing = Vec::new(rt.alloc());
    for (number, id) in named {
        if let Some(segment) = segments.iter().find(|segment| segment.number == *number)
            && still_stands(rt, segment, *id)
        {
            standing.push((*number, *id))?;
        }
    }
    Ok(standing)
}

// What the image in an open file reads as, and the file.
fn read_file(alloc: Global, file: File) -> (Result<Reading, CliFault>, File) {
    let mut reader = Watched::new(file);
    let reading = match read_input(alloc, &mut reader) {
        Ok(words) => read_image(alloc, &words),
        Err(fault) => Err(fault),
    };
    (reading, reader.into_inner())
}

impl Work {
    // Notes a segment that cannot be added.
    fn put_left(
        &mut self,
        alloc: Global,
        path: &PathBuf,
        fault: InputFault,
    ) -> Result<(), AllocError> {
        let place = self.names.len();
        self.names.push(Named {
            path: String::from_str(alloc, path.as_str())?,
            what: What::Named,
        })?;
        self.left.push(Left { place, fault })?;
        Ok(())
    }

    // Adds a reading of the segment of a number, or says why it cannot be added.
    fn add(&mut self, number: u64, reading: &Reading) -> Result<(), InputFault> {
        self.totals.sums.add(number, reading)?;
        Ok(())
    }

    // Adds a segment, if it is final and the totals do not name it. The one fault is `NoMemory`.
    fn add_final<'s, R: Files<File = File> + AllocGlobal>(
        &mut self,
        rt: &R,
        segment: &'s Segment,
    ) -> Result<Option<Final<'s>>, AllocError> {
        let alloc = rt.alloc();
        let file = match lock_segment(rt, &segment.path) {
            Ok(Locked::Held(file)) => file,
            Ok(Locked::Busy | Locked::Gone) => return Ok(None),
            Err(_) => {
                self.put_left(alloc, &segment.path, InputFault::Image(CliFault::Read))?;
                return Ok(None);
            }
        };
        let (reading, file) = read_file(alloc, file);
        let added = match reading {
            Ok(reading) if is_named(&self.totals.of, segment.number, reading.id) => {
                return Ok(None);
            }
            Ok(reading) => match self.add(segment.number, &reading) {
                Ok(()) => Ok(reading.id),
                Err(fault) => Err(fault),
            },
            Err(fault) => Err(InputFault::Image(fault)),
        };
        match added {
            Ok(id) => Ok(Some(Final { segment, id, file })),
            Err(fault) if fault.is_no_memory() => Err(AllocError),
            Err(fault) => {
                self.put_left(alloc, &segment.path, fault)?;
                Ok(None)
            }
        }
    }

    // Adds the final ones among some segments.
    fn add_finals<'s, R: Files<File = File> + AllocGlobal>(
        &mut self,
        rt: &R,
        segments: &'s [Segment],
    ) -> Result<Vec<Final<'s>>, AllocError> {
        let mut finals = Vec::new(rt.alloc());
        for segment in segments {
            if let Some(one) = self.add_final(rt, segment)? {
                finals.push(one)?;
            }
        }
        Ok(finals)
    }

    // Removes segments that the totals have by now.
    fn remove_finals<R: Files>(&mut self, rt: &R, finals: &[Final<'_>]) -> Result<(), AllocError> {
        for one in finals {
            if fs::remove_file(rt, &one.segment.path).is_err() {
                self.standing.push((one.segment.number, one.id))?;
            }
        }
        Ok(())
    }
}

// Syncs a folder: what was removed from it, or got a name there.
fn sync_folder<R: Files<File = File>>(rt: &R, folder: &str) -> io::Result<()> {
    fs::open(rt, folder)?.sync_all()
}

// Writes a new file, and syncs it.
fn write_new<R: Files<File = File>>(rt: &R, path: &str, text: &[u8]) -> io::Result<()> {
    match fs::remove_file(rt, path) {
        Ok(()) => {}
        Err(error) if error.kind() == ErrorKind::NotFound => {}
        Err(error) => return Err(error),
    }
    let mut options = OpenOptions::new();
    options.write(true).create_new(true).mode(OWNER_ALONE);
    let mut file = options.open(rt, path)?;
    file.write_all(text)?;
    file.sync_all()
}

// Gives the totals of a folder a new text. If that fails, the new file is removed.
fn replace_totals<R: Files<File = File> + AllocGlobal>(
    rt: &R,
    folder: &str,
    text: &[u8],
) -> io::Result<()> {
    let new = path_in(rt.alloc(), folder, NEW_TOTALS)?;
    let place = path_in(rt.alloc(), folder, TOTALS)?;
    let written = match write_new(rt, new.as_str(), text) {
        Ok(()) => fs::rename(rt, new.as_str(), place.as_str()),
        Err(error) => Err(error),
    };
    if let Err(error) = written {
        let _ = fs::remove_file(rt, new.as_str());
        return Err(error);
    }
    sync_folder(rt, folder)
}

// The failure of a write in a folder.
fn unwritten<R: AllocGlobal>(
    context: &Context<'_, R>,
    error: io::Error,
    folder: &str,
    name: &str,
) -> Failure {
    match path_in(context.alloc(), folder, name) {
        Ok(path) => unopened(context, Cause::of_write(error), path.as_str()),
        Err(_) => Failure::Fault(CliFault::NoMemory),
    }
}

// The totals of a sum with a fold of segments that are final: what comes after these totals.
fn next_totals<R: AllocGlobal>(
    context: &Context<'_, R>,
    folder: &str,
    totals: Totals,
    standing: &[(u64, u64)],
    finals: &[Final<'_>],
) -> Result<Totals, Failure> {
    let alloc = context.alloc();
    let added: Vec<(u64, u64)> = finals
        .iter()
        .map(|one| (one.segment.number, one.id))
        .collect(alloc)?;
    let Some(next) = fold_of(alloc, serial_of(&totals), &totals.of, standing, &added)? else {
        let path = path_in(alloc, folder, TOTALS)?;
        return Err(input_failure(context, InputFault::TooMany, path.as_str()));
    };
    if !totals.sums.is_well_formed()? {
        return Err(Failure::NotWhole(remedies_of(context, "NotWhole")));
    }
    Ok(folded_totals(totals.sums, next))
}

// Folds the final ones among some segments.
fn fold_some<R: Files<File = File> + AllocGlobal>(
    context: &Context<'_, R>,
    folder: &str,
    mut work: Work,
    segments: &[Segment],
) -> Result<Work, Failure> {
    let finals = work.add_finals(context.rt, segments)?;
    if finals.is_empty() {
        return Ok(work);
    }
    let Work {
        totals,
        standing,
        names,
        left,
    } = work;
    // The next totals do not name what is gone: so it has to be gone whatever happens.
    if !totals.of.is_empty()
        && let Err(error) = sync_folder(context.rt, folder)
    {
        return Err(unopened(context, Cause::of_write(error), folder));
    }
    let totals = next_totals(context, folder, totals, &standing, &finals)?;
    let text = totals_text(context.alloc(), &totals)?;
    if let Err(error) = replace_totals(context.rt, folder, &text) {
        return Err(unwritten(context, error, folder, TOTALS));
    }
    let mut work = Work {
        totals,
        standing,
        names,
        left,
    };
    work.remove_finals(context.rt, &finals)?;
    Ok(work)
}

// Folds a folder whose lock is held. Returns what is left.
fn fold_locked<R: Files<File = File> + AllocGlobal>(
    context: &Context<'_, R>,
    folder: &str,
) -> Result<Work, Failure> {
    let text = totals_text_in(context, folder)?;
    let totals = totals_from(context, folder, text.as_deref())?;
    let segments = match segments_in(context.rt, folder) {
        Ok(segments) => segments,
        Err(error) => return Err(unopened(context, cause_of_read(error), folder)),
    };
    let standing = remove_named(context.rt, &segments, &totals.of)?;
    let alloc = context.alloc();
    let mut work = Work {
        totals,
        standing,
        names: Vec::new(alloc),
        left: Vec::new(alloc),
    };
    for some in segments.chunks(MOST_AT_ONCE) {
        work = fold_some(context, folder, work, some)?;
    }
    Ok(work)
}

// Why a folder is not marked as a recording's, if it is not.
fn unmarked<R: Files + AllocGlobal>(rt: &R, folder: &str) -> Option<io::Error> {
    match mark_in(rt, folder) {
        Ok(Some(Mark::Empty | Mark::Whole { .. })) => None,
        Ok(Some(Mark::Foreign)) => Some(io::Error::from(ErrorKind::InvalidData)),
        Ok(None) => Some(io::Error::from(ErrorKind::NotFound)),
        Err(error) => Some(error),
    }
}

// Checks that a folder is marked as a recording's.
fn check_mark<R: Files + AllocGlobal>(
    context: &Context<'_, R>,
    folder: &str,
) -> Result<(), Failure> {
    let Some(error) = unmarked(context.rt, folder) else {
        return Ok(());
    };
    let mark = path_in(context.alloc(), folder, MARK)?;
    Err(unopened(context, cause_of_read(error), mark.as_str()))
}

// Takes the lock of folds, which the file has until it is closed.
fn lock_folds<R: System>(context: &Context<'_, R>, folder: &str) -> Result<File, Failure> {
    let path = path_in(context.alloc(), folder, FOLD_LOCK)?;
    let mut options = OpenOptions::new();
    options
        .read(true)
        .write(true)
        .create(true)
        .mode(OWNER_ALONE);
    let file = match options.open(context.rt, path.as_str()) {
        Ok(file) => file,
        Err(error) => return Err(unopened(context, Cause::of_write(error), path.as_str())),
    };
    match take_lock(context.rt, &file) {
        Ok(()) => Ok(file),
        Err(why) => Err(unopened_out(context, why, path.as_str())),
    }
}

/// Adds the final segments of a recording's folder to its totals, and removes them. Those that cannot be read stay, and
/// are reported: then it ends with `Left`. `Busy` comes if another fold is at work.
pub fn fold_folder<R: System>(context: &Context<'_, R>, folder: &str) -> Result<(), Failure> {
    check_mark(context, folder)?;
    let lock = lock_folds(context, folder)?;
    let work = fold_locked(context, folder)?;
    drop(lock);
    tell_left(context.rt, &work.names, &work.left);
    if work.left.is_empty() {
        Ok(())
    } else {
        Err(Failure::Left)
    }
}
