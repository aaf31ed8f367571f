//! The lines that follow the line of a fault, if they are asked for.

ghost use Rattle.stepped.specs.Failure.{UsageIsMistake};

use crate::failure::Failure;
use crate::fault::ReplayFault;
use fault_texts::{Origin, device_lines, line_of, record_of, remedy_lines_of};
use std::alloc::{AllocError, Global};
use std::cell::Cell;
use std::io;

/// What a replay has seen when it ends with a fault.
#[derive(Drop)]
pub struct Seen {
    /// Whether faults are to be explained.
    pub explains: bool,
    /// The schedule, as far as it was read; empty if faults are not explained.
    pub text: Vec<u8>,
    /// The file of the image in which the world continues, once it is to be read.
    pub image: Option<String>,
    /// Why a file or standard output failed.
    pub reason: Cell<Option<io::Error>>,
}

impl Seen {
    /// Returns that nothing was seen yet.
    pub fn nothing(alloc: Global, explains: bool) -> Seen {
        Seen {
            explains,
            text: Vec::new(alloc),
            image: None,
            reason: Cell::new(None),
        }
    }

    /// Returns an empty copy, into which a reader puts what is read, if faults are explained.
    pub fn copy(&self, alloc: Global) -> Option<Vec<u8>> {
        if self.explains {
            Some(Vec::new(alloc))
        } else {
            None
        }
    }

    // The file that was read last.
    fn input<'a>(&'a self, schedule: &'a str) -> Origin<'a> {
        match &self.image {
            Some(image) => Origin::File(image.as_str()),
            None => Origin::File(schedule),
        }
    }

    // Whether a write failed because nobody reads standard output any more.
    fn is_unread(&self, fault: ReplayFault) -> bool {
        match (fault, self.reason.get()) {
            (ReplayFault::Write, Some(reason)) => reason.kind() == io::ErrorKind::BrokenPipe,
            _ => false,
        }
    }
}

// The line of the record of a schedule that has this number.
fn record_lines(
    alloc: Global,
    schedule: &str,
    text: &[u8],
    number: u64,
) -> Result<String, AllocError> {
    let origin = Origin::File(schedule);
    if let Ok(number) = u32::try_from(number)
        && let Some(record) = record_of(alloc, text, number)?
    {
        let line = line_of(text, record.start);
        return format!(in alloc; "  {origin}, line {line}\n");
    }
    device_lines(alloc, origin, None)
}

// The lines that follow the line of a fault.
fn lines_of(
    alloc: Global,
    fault: ReplayFault,
    schedule: &str,
    seen: &Seen,
) -> Result<String, AllocError> {
    let mut lines = match fault {
        ReplayFault::Read => device_lines(alloc, seen.input(schedule), seen.reason.get())?,
        ReplayFault::Write => device_lines(alloc, Origin::Output, seen.reason.get())?,
        ReplayFault::TooLong | ReplayFault::NotWords => {
            device_lines(alloc, seen.input(schedule), None)?
        }
        ReplayFault::BadLine(number) | ReplayFault::World(number, _) => {
            record_lines(alloc, schedule, &seen.text, number)?
        }
        ReplayFault::NoMemory => String::new(alloc),
    };
    let line: String = format!(in alloc; "{fault}")?;
    let more = remedy_lines_of(alloc, line.as_str())?;
    lines.push_str(more.as_str())?;
    Ok(lines)
}

/// Returns the failure of a fault, with the lines that follow it if faults are explained. `Usage` comes only for a
/// mistake on the command line. If memory runs out for the lines, there are none; nor are there if standard output is a
/// pipe whose reader has closed it.
pub fn failure_of(alloc: Global, fault: ReplayFault, schedule: &str, seen: &Seen) -> Failure
    ensures { UsageIsMistake result }
{
    if !seen.explains || seen.is_unread(fault) {
        return Failure::Fault(fault);
    }
    match lines_of(alloc, fault, schedule, seen) {
        Ok(lines) => Failure::Explained(fault, lines),
        Err(_) => Failure::Fault(fault),
    }
}
