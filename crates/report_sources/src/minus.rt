//! What came since an earlier sum: a sum less that.

use crate::inputs::put_input;
use crate::left_out::first_failure;
use crate::summing::{HowRead, sum_of_names};
use persist_report_core::CliFault;
use reading_sums::{MinusFault, Sums};
use report_streams::{Context, Failure, System, remedies_of};
use std::sync::Wait;
use std::thread::Threads;

// The failure of a subtraction: the sum to subtract is not part of the other, or the difference does not fit.
fn minus_failure<R: AllocGlobal>(context: &Context<'_, R>, fault: MinusFault) -> Failure {
    match fault {
        MinusFault::NoMemory => Failure::Fault(CliFault::NoMemory),
        MinusFault::TooMany => Failure::TooMany(remedies_of(context, "TooMany")),
        MinusFault::Fell(name) => Failure::Since {
            fault: "Fell",
            name,
            lines: remedies_of(context, "Fell"),
        },
        MinusFault::OtherSpec(name) => Failure::Since {
            fault: "OtherSpec",
            name,
            lines: remedies_of(context, "OtherSpec"),
        },
    }
}

/// Returns the sum less that of an earlier file or folder, each of whose inputs has to be read.
pub fn less_earlier<R: System + Threads + Wait>(
    context: &Context<'_, R>,
    sums: Sums,
    earlier: &str,
    workers: usize,
) -> Result<Sums, Failure> {
    let mut names = Vec::new(context.alloc());
    put_input(context, &mut names, earlier)?;
    let how = HowRead {
        is_live: false,
        at: None,
        is_strict: true,
        workers,
    };
    let before = sum_of_names(context, &names, how)?;
    first_failure(context, &names, before.left)?;
    match sums.minus(&before.sums) {
        Ok(since) => Ok(since),
        Err(fault) => Err(minus_failure(context, fault)),
    }
}
