//! The command that looks at the segment in a file that is in use, and writes its image.

use persist_report_core::look_file;
use report_asks::DASH;
use report_sources::{Looks, last_used, open_looks};
use report_streams::{Context, Failure, System, end, open_out};

/// Looks at the segment in a file that is in use, which is read three times, and writes its image to another, or to
/// standard output if none is named. If a byte is named, the segment begins there, as in the memory of a process.
pub fn look_into<'a, R: System>(
    context: &Context<'_, R>,
    file: &'a str,
    at: Option<u64>,
    out: Option<&'a str>,
) -> Result<(), Failure> {
    let Looks {
        path: _,
        mut first,
        mut second,
        mut third,
    } = open_looks(context, file, at)?;
    let mut image = open_out(context, out.unwrap_or(DASH))?;
    let outcome = look_file(
        context.alloc(),
        &mut first,
        &mut second,
        &mut third,
        &mut image,
    );
    let (first, second, third) = (first.into_inner(), second.into_inner(), third.into_inner());
    let last = last_used(&first, &second, &third);
    end(context, outcome, None, last, image.into_inner(), None)
}
