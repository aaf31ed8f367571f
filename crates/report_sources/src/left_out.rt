//! Inputs that cannot be read: the failure of one, and what is reported of those that a sum leaves out.

use crate::inputs::Named;
use fault_texts::Origin;
use persist_report_core::CliFault;
use report_asks::DASH;
use report_streams::{Context, Failure, Sentence, remedies_of};
use std::alloc::{AllocError, Global};
use std::fmt;
use sum_commands::{InputFault, Left};

// The line of an input that is left out.
#[derive(Drop)]
struct LeftLine<'a, 'b> {
    fault: &'b InputFault,
    origin: Origin<'a>,
}

impl fmt::Display for LeftLine<'_, '_> {
    fn fmt<W: fmt::Write>(&self, f: &mut fmt::Formatter<W>) -> fmt::Result {
        writeln!(f, "persist_report: {}: {}", self.fault, self.origin)
    }
}

/// Returns where an input comes from.
pub fn origin_of(path: &str) -> Origin<'_> {
    if path == DASH {
        Origin::Input
    } else {
        Origin::File(path)
    }
}

/// Returns the path that leads there: `-` of a standard stream.
pub fn path_of<'a>(origin: Origin<'a>) -> &'a str {
    match origin {
        Origin::File(path) => path,
        Origin::Input | Origin::Output => DASH,
    }
}

/// Returns the failure of an input.
pub fn input_failure<R: AllocGlobal>(
    context: &Context<'_, R>,
    fault: InputFault,
    path: &str,
) -> Failure {
    if fault.is_no_memory() {
        return Failure::Fault(CliFault::NoMemory);
    }
    let line: String = match format!(in context.alloc(); "{fault}") {
        Ok(line) => line,
        Err(_) => String::new(context.alloc()),
    };
    let lines = remedies_of(context, line.as_str());
    match format!(in context.alloc(); "{}", origin_of(path)) {
        Ok(name) => Failure::Input { fault, name, lines },
        Err(_) => Failure::Fault(CliFault::NoMemory),
    }
}

/// Returns the failure of the first input that is left out, if one is.
pub fn first_failure<R: AllocGlobal>(
    context: &Context<'_, R>,
    names: &[Named],
    left: Vec<Left>,
) -> Result<(), Failure> {
    for one in left {
        if let Some(name) = names.get(one.place) {
            return Err(input_failure(context, one.fault, name.path.as_str()));
        }
    }
    Ok(())
}

/// Appends what is reported of inputs that are left out, a sentence each. The only error is that memory runs out.
pub fn put_left(
    alloc: Global,
    names: &[Named],
    left: &[Left],
    sentences: &mut Vec<Sentence>,
) -> Result<(), AllocError> {
    for one in left {
        if let Some(name) = names.get(one.place) {
            let line = LeftLine {
                fault: &one.fault,
                origin: origin_of(name.path.as_str()),
            };
            let text: String = format!(in alloc; "{line}")?;
            sentences.push(Sentence::of(alloc, text.as_str())?)?;
        }
    }
    Ok(())
}

/// Reports which inputs are left out, a line each, on the error stream. If that cannot be written, nothing is reported.
pub fn tell_left<R: Eprint>(rt: &R, names: &[Named], left: &[Left]) {
    for one in left {
        if let Some(name) = names.get(one.place) {
            let line = LeftLine {
                fault: &one.fault,
                origin: origin_of(name.path.as_str()),
            };
            let _ = rt.eprint(line);
        }
    }
}
