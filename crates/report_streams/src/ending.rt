//! How a command over files ends.

use crate::context::Context;
use crate::explaining::{FaultContext, failure_of};
use crate::failure::Failure;
use crate::noted::Noted;
use crate::output::Output;
use fault_texts::Origin;
use persist_report_core::CliFault;
use std::fs::File;
use std::io;
use std::rt::Files;

/// Returns the failure of a fault. BASE, if there is one, is read before the input; `output` is where a write failed,
/// and why.
pub fn failed<'a, R: AllocGlobal, I>(
    context: &Context<'_, R>,
    fault: CliFault,
    base: Option<&Noted<'a, I>>,
    input: &Noted<'a, I>,
    output: (Origin<'a>, Option<io::Error>),
) -> Failure {
    let last = match base {
        Some(base) if !input.is_used() => base,
        _ => input,
    };
    let (device, reason) = match &fault {
        CliFault::Read => (last.origin(), last.reason()),
        _ => output,
    };
    let known = FaultContext {
        input: last.source(),
        base: base.map(|base| base.source()),
        device,
        reason,
    };
    failure_of(context, fault, known)
}

/// Ends a command over files with this outcome: the image that it wrote takes its place, or is removed. BASE, if there
/// is one, was read before the input; `reason` is why standard output failed.
pub fn end<'a, R: Files<File = File> + AllocGlobal, I, P: Drop>(
    context: &Context<'_, R>,
    outcome: Result<(), CliFault>,
    base: Option<&Noted<'a, I>>,
    input: &Noted<'a, I>,
    image: Noted<'a, Output<File, P>>,
    reason: Option<io::Error>,
) -> Result<(), Failure> {
    let (out, written) = (image.origin(), image.reason());
    let Err(cause) = image.into_inner().end(context.rt, outcome) else {
        return Ok(());
    };
    let output = match reason {
        Some(reason) => (Origin::Output, Some(reason)),
        None => (out, cause.reason.or(written)),
    };
    Err(failed(context, cause.fault, base, input, output))
}
