//! The command that takes a segment out of any file.

ghost use Rattle.std.specs.Prelude.{◌≡◌, false};
ghost use Rattle.segment_image.specs.Watched.{has_failed};

use persist_report_core::CliFault;
use report_requests::Nth;
use report_streams::{Context, Failure, System, end, open, open_out};
use segment_image::Watched;
use segment_search::{SearchFault, extract};
use std::alloc::Global;
use std::io::{Read, Write};

// The fault of the program for a fault of a search.
fn fault_of(fault: SearchFault) -> CliFault {
    match fault {
        SearchFault::NoMemory => CliFault::NoMemory,
        SearchFault::Device => CliFault::Read,
        SearchFault::NoSegment => CliFault::NoSegment,
        SearchFault::TooLong => CliFault::TooLong,
        SearchFault::Write => CliFault::Write,
    }
}

// Writes the image of a segment, and then to the error stream a line with the number of bytes before it.
fn extract_both<E: Eprint, I: Read, W: Write>(
    rt: &E,
    alloc: Global,
    reader: &mut Watched<I>,
    nth: Nth,
    image: &mut Watched<W>,
) -> Result<(), CliFault>
    requires reader { has_failed reader.old ≡ false }
    requires image { has_failed image.old ≡ false }
{
    let place = extract(alloc, reader, nth.number(), image).map_err(fault_of)?;
    let text: String = format!(in alloc; "{place}\n")?;
    rt.eprint(text).map_err(|_| CliFault::Write)
}

/// Finds a segment in a file, writes its image to another, and to the error stream how many bytes come before it. The
/// image takes the other file's place after that line. No copy is kept of what is read: it may be long.
pub fn extract_file<'a, R: System>(
    context: &Context<'_, R>,
    file: &'a str,
    out: &'a str,
    nth: Nth,
) -> Result<(), Failure> {
    let mut reader = open(context, file, None)?;
    let mut image = open_out(context, out)?;
    let outcome = extract_both(context.rt, context.alloc(), &mut reader, nth, &mut image);
    end(
        context,
        outcome,
        None,
        &reader.into_inner(),
        image.into_inner(),
        None,
    )
}
