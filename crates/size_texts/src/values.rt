//! How many values a script records in its sparse histograms.

use persist_report_core::{CallKind, Script};
use std::alloc::{AllocError, Global};

// The values of all `add` records with their histograms, in ascending order.
fn recorded(alloc: Global, script: &Script) -> Result<Vec<(u32, i32)>, AllocError> {
    let mut recorded = Vec::new(alloc);
    for call in &script.calls {
        if let CallKind::Add { value, .. } = call.kind {
            recorded.push((call.hist, value))?;
        }
    }
    recorded.sort_unstable();
    Ok(recorded)
}

/// Returns for each `hist` record of a script how many different values the `add` records have for it; for a name that
/// has several `hist` records, all are at the first. The error is that memory ran out.
pub fn values_of(alloc: Global, script: &Script) -> Result<Vec<u64>, AllocError> {
    let mut values = Vec::new(alloc);
    for _ in &script.hists {
        values.push(0u64)?;
    }
    let mut last = None;
    for found in &recorded(alloc, script)? {
        if last != Some(*found)
            && let Some(count) = values.get_mut(found.0 as usize)
        {
            *count = count.saturating_add(1);
        }
        last = Some(*found);
    }
    Ok(values)
}
