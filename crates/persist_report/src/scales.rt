//! The command that prints the record of a histogram of a scale.

use crate::scaling::custom_record_of;
use bucket_ranges::{Spec, SpecFault, log_linear};
use fault_texts::{Origin, Source, remedy_lines_of};
use persist_report_core::{CliFault, write_and_flush};
use report_requests::Scale;
use report_streams::{Context, Failure, FaultContext, failure_of};
use std::alloc::{AllocError, Global};

// What the fault of a scale means, and what to do.
fn lines_of(alloc: Global, fault: SpecFault) -> Result<String, AllocError> {
    let word: String = format!(in alloc; "{fault}")?;
    remedy_lines_of(alloc, word.as_str())
}

// The failure of a fault of a scale. If memory runs out for the lines that explain it, there are none.
fn refused<R: AllocGlobal>(context: &Context<'_, R>, fault: SpecFault) -> Failure {
    let alloc = context.alloc();
    match fault {
        SpecFault::NoMemory => Failure::Fault(CliFault::NoMemory),
        fault if context.explains => match lines_of(alloc, fault) {
            Ok(lines) => Failure::Scale(fault, lines),
            Err(_) => Failure::Scale(fault, String::new(alloc)),
        },
        fault => Failure::Scale(fault, String::new(alloc)),
    }
}

// Writes a text to standard output.
fn write_text<R: Print + AllocGlobal>(
    context: &Context<'_, R>,
    text: &[u8],
) -> Result<(), Failure> {
    let mut output = context.output();
    let Err(fault) = write_and_flush(&mut output, text) else {
        return Ok(());
    };
    let known = FaultContext {
        input: Source {
            origin: Origin::Output,
            bytes: &[],
        },
        base: None,
        device: Origin::Output,
        reason: output.into_inner().reason(),
    };
    Err(failure_of(context, fault, known))
}

/// Writes the record of a script that asks for a custom histogram of a name, whose values are those of a scale.
///
/// `Scale` comes if the scale has a fault.
pub fn print_scale<R: Print + AllocGlobal>(
    context: &Context<'_, R>,
    name: &str,
    scale: Scale,
) -> Result<(), Failure> {
    let Scale { min, max, bits } = scale;
    match log_linear(context.alloc(), min, max, bits) {
        Ok(Spec::Custom(values)) => {
            let text = custom_record_of(context.alloc(), name, values.as_slice())?;
            write_text(context, text.as_slice())
        }
        Ok(_) => Ok(()),
        Err(fault) => Err(refused(context, fault)),
    }
}
