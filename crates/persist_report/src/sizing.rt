//! The command that says how large a segment has to be.

ghost use Rattle.std.specs.Prelude.{◌≡◌, false};
ghost use Rattle.segment_image.specs.Watched.{has_failed};

use bucket_ranges::limits::MAX_UNITS;
use fault_texts::Origin;
use persist_report_core::{CliFault, Script, ScriptFault, read_script, write_and_flush};
use report_asks::Wrong;
use report_requests::SizeTask;
use report_streams::{Context, Failure, FaultContext, Stream, System, failure_of, open};
use segment_calls::Refusal;
use segment_image::Watched;
use size_texts::{Sizes, sizes_of, values_of};
use std::alloc::{AllocError, Global};
use std::io::{Read, Write};

// The words of a page if neither an option nor a script says how many.
const USUAL_PAGE: u64 = 4096;

// The fault of the program for a fault of a script.
fn fault_of(fault: ScriptFault) -> CliFault {
    match fault {
        ScriptFault::Read => CliFault::Read,
        ScriptFault::TooLong => CliFault::TooLong,
        ScriptFault::NoMemory => CliFault::NoMemory,
        ScriptFault::BadLine(number) => CliFault::BadLine(number),
        ScriptFault::ZeroCount(number) => CliFault::Refused {
            number,
            why: Refusal::ZeroCount,
        },
        ScriptFault::NoUnits(number) => CliFault::Refused {
            number,
            why: Refusal::NoUnits,
        },
    }
}

// The fault of the first histogram that does not fit in a page, or of the last if a segment has no room for all; none
// if there is a size.
fn fault_in(sizes: &Sizes<'_>) -> Option<CliFault> {
    if sizes.needed.is_ok() {
        return None;
    }
    for hist in &sizes.hists {
        if !hist.fits {
            return Some(CliFault::Refused {
                number: hist.number,
                why: Refusal::TooLarge,
            });
        }
    }
    let last = sizes.hists.last()?;
    Some(CliFault::Refused {
        number: last.number,
        why: Refusal::Full,
    })
}

// A script of the histograms of options, one after the other, in a segment of one page.
fn script_text(alloc: Global, hists: &[&str], page: u64) -> Result<String, AllocError> {
    let mut text: String = format!(in alloc; "segment,{page},{page},0\n")?;
    for hist in hists {
        text.push_str("hist,")?;
        text.push_str(hist)?;
        text.push_str("\n")?;
    }
    Ok(text)
}

// How many values each sparse histogram of a script has: these, or those that the script records.
fn values_in(alloc: Global, script: &Script, all: Option<u64>) -> Result<Vec<u64>, AllocError> {
    let Some(all) = all else {
        return values_of(alloc, script);
    };
    let mut values = Vec::new(alloc);
    for _ in &script.hists {
        values.push(all)?;
    }
    Ok(values)
}

// Writes the sizes of the histograms of a script.
fn write_sizes<W: Write>(
    alloc: Global,
    script: &Script,
    task: &SizeTask<'_>,
    output: &mut Watched<W>,
) -> Result<(), CliFault>
    requires { has_failed output.old ≡ false }
{
    let page = task.page.unwrap_or(script.shape.page());
    let values = values_in(alloc, script, task.values)?;
    let sizes = sizes_of(alloc, script, &values, page)?;
    let text: String = format!(in alloc; "{sizes}")?;
    write_and_flush(output, text.as_bytes())?;
    match fault_in(&sizes) {
        Some(fault) => Err(fault),
        None => Ok(()),
    }
}

// Says how large a segment has to be for the script that a reader has left.
fn size_from<R: Print + AllocGlobal, I: Read + Drop>(
    context: &Context<'_, R>,
    mut reader: Stream<'_, I>,
    task: &SizeTask<'_>,
) -> Result<(), Failure>
    requires { has_failed reader ≡ false }
{
    let mut output = context.output();
    let alloc = context.alloc();
    let outcome = match read_script(alloc, &mut reader, MAX_UNITS) {
        Ok(script) => write_sizes(alloc, &script, task, &mut output),
        Err(fault) => Err(fault_of(fault)),
    };
    let Err(fault) = outcome else {
        return Ok(());
    };
    let input = reader.into_inner();
    let (device, reason) = match &fault {
        CliFault::Read => (input.origin(), input.reason()),
        _ => (Origin::Output, output.into_inner().reason()),
    };
    let known = FaultContext {
        input: input.source(),
        base: None,
        device,
        reason,
    };
    Err(failure_of(context, fault, known))
}

// Says how large a segment has to be for the histograms of options.
fn size_hists<R: Print + AllocGlobal>(
    context: &Context<'_, R>,
    task: &SizeTask<'_>,
) -> Result<(), Failure> {
    let alloc = context.alloc();
    let text = script_text(alloc, &task.hists, task.page.unwrap_or(USUAL_PAGE))?;
    match read_script(alloc, &mut Watched::new(text.as_bytes()), MAX_UNITS) {
        Ok(script) => {
            let mut output = context.output();
            Ok(write_sizes(alloc, &script, task, &mut output)?)
        }
        Err(ScriptFault::NoMemory) => Err(Failure::Fault(CliFault::NoMemory)),
        Err(_) => Err(Failure::Usage(Wrong::NoHist)),
    }
}

/// Says how large a segment has to be: for the script in a file, or for the histograms of options.
pub fn size_of_task<R: System>(
    context: &Context<'_, R>,
    task: &SizeTask<'_>,
) -> Result<(), Failure> {
    if task.page.is_some_and(|page| page % 16 != 0) {
        return Err(Failure::Usage(Wrong::NoPage));
    }
    match task.script {
        Some(path) => {
            let reader = open(context, path, context.copy())?;
            size_from(context, reader, task)
        }
        None => size_hists(context, task),
    }
}
