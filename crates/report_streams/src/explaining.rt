//! The lines that follow the line of a fault, if they are asked for.

use crate::cause::Cause;
use crate::context::Context;
use crate::failure::Failure;
use crate::lock::Unopened;
use fault_texts::{
    Origin, Source, adopt_lines, bad_lines, base_lines, device_lines, image_lines, merge_lines,
    merge_size_lines, missing_lines, remedy_lines, remedy_lines_of, script_lines, size_lines,
    stopped_lines,
};
use persist_report_core::CliFault;
use segment_calls::Refusal;
use std::alloc::{AllocError, Global};
use std::io;

/// What a command knows of a fault.
#[derive(Clone, Copy)]
pub struct FaultContext<'a, 'b> {
    /// The input that was read last.
    pub input: Source<'a, 'b>,
    /// Of two inputs, the image that was read first.
    pub base: Option<Source<'a, 'b>>,
    /// What failed, if it is a fault of a device.
    pub device: Origin<'a>,
    /// The reason that the system gave for it.
    pub reason: Option<io::Error>,
}

// The lines of a record of a script, and what BASE has of it, if there is one.
fn record_lines(
    alloc: Global,
    fault: &CliFault,
    number: u32,
    known: FaultContext<'_, '_>,
) -> Result<String, AllocError> {
    let mut lines = script_lines(alloc, known.input, number, fault)?;
    if let Some(base) = known.base {
        let more = base_lines(alloc, base, known.input, fault)?;
        lines.push_str(more.as_str())?;
    }
    Ok(lines)
}

// What both images have of the name at which a merge stopped, and how many words it needs if it is too large.
fn merged_lines(
    alloc: Global,
    base: Source<'_, '_>,
    dead: Source<'_, '_>,
    name: &[u8],
    why: Refusal,
) -> Result<String, AllocError> {
    let mut lines = merge_lines(alloc, base, dead, name)?;
    if let Refusal::TooLarge = why {
        let more = merge_size_lines(alloc, base, dead, name)?;
        lines.push_str(more.as_str())?;
    }
    Ok(lines)
}

// The lines that follow the line of a fault.
fn lines_of(
    alloc: Global,
    fault: &CliFault,
    known: FaultContext<'_, '_>,
) -> Result<String, AllocError> {
    let mut lines = match fault {
        CliFault::Read | CliFault::Write => device_lines(alloc, known.device, known.reason)?,
        CliFault::Image(fault) => image_lines(alloc, known.input, *fault)?,
        CliFault::NotWords | CliFault::TooLong => size_lines(alloc, known.input)?,
        CliFault::BadLine(number) | CliFault::Refused { number, .. } => {
            record_lines(alloc, fault, *number, known)?
        }
        CliFault::Adopt(fault) => adopt_lines(alloc, known.input, *fault)?,
        CliFault::Merge { name, why } => {
            let base = known.base.unwrap_or(known.input);
            merged_lines(alloc, base, known.input, name.as_slice(), *why)?
        }
        CliFault::NoHistogram(name) => missing_lines(alloc, known.input, name.as_slice())?,
        CliFault::Bad { reference, fault } => bad_lines(alloc, known.input, *reference, *fault)?,
        CliFault::Stopped(fault) => stopped_lines(alloc, known.input, *fault)?,
        CliFault::Gate | CliFault::NoThread | CliFault::NoMemory => String::new(alloc),
        CliFault::NoSegment | CliFault::Changed | CliFault::Clash { .. } => String::new(alloc),
    };
    let more = remedy_lines(alloc, fault)?;
    lines.push_str(more.as_str())?;
    Ok(lines)
}

// Whether a write failed because nobody reads standard output any more, as in `report IMAGE | head -1`.
fn is_unread(fault: &CliFault, known: FaultContext<'_, '_>) -> bool {
    match (fault, known.device, known.reason) {
        (CliFault::Write, Origin::Output, Some(reason)) => {
            reason.kind() == io::ErrorKind::BrokenPipe
        }
        _ => false,
    }
}

/// Returns the failure of a fault, with the lines that follow it if the command explains its faults. If memory runs out
/// for the lines, there are none; nor are there if standard output is a pipe whose reader has closed it.
pub fn failure_of<R: AllocGlobal>(
    context: &Context<'_, R>,
    fault: CliFault,
    known: FaultContext<'_, '_>,
) -> Failure {
    if !context.explains || is_unread(&fault, known) {
        return Failure::Fault(fault);
    }
    match lines_of(context.alloc(), &fault, known) {
        Ok(lines) => Failure::Explained(fault, lines),
        Err(_) => Failure::Fault(fault),
    }
}

/// Returns the lines that say what the fault with this line means, if the command explains its faults; none if memory
/// runs out.
pub fn remedies_of<R: AllocGlobal>(context: &Context<'_, R>, line: &str) -> String {
    if !context.explains {
        return String::new(context.alloc());
    }
    match remedy_lines_of(context.alloc(), line) {
        Ok(lines) => lines,
        Err(_) => String::new(context.alloc()),
    }
}

/// Returns the failure of a file that could not be opened.
pub fn unopened<R: AllocGlobal>(context: &Context<'_, R>, cause: Cause, path: &str) -> Failure {
    let Cause { fault, reason } = cause;
    let device = Origin::File(path);
    let input = Source {
        origin: device,
        bytes: &[],
    };
    let known = FaultContext {
        input,
        base: None,
        device,
        reason,
    };
    failure_of(context, fault, known)
}

// The lines that follow if another process has the lock of a file.
fn busy_lines(alloc: Global, path: &str) -> Result<String, AllocError> {
    let mut lines = device_lines(alloc, Origin::File(path), None)?;
    let more = remedy_lines_of(alloc, "Busy")?;
    lines.push_str(more.as_str())?;
    Ok(lines)
}

/// Returns the failure of a file to be written that was not opened.
pub fn unopened_out<R: AllocGlobal>(
    context: &Context<'_, R>,
    why: Unopened,
    path: &str,
) -> Failure {
    match why {
        Unopened::Failed(cause) => unopened(context, cause, path),
        Unopened::Busy if context.explains => match busy_lines(context.alloc(), path) {
            Ok(lines) => Failure::Busy(lines),
            Err(_) => Failure::Busy(String::new(context.alloc())),
        },
        Unopened::Busy => Failure::Busy(String::new(context.alloc())),
    }
}
