//! Scripts of `add` records.

use std::alloc::{AllocError, Global};

const NAMES: usize = 1000;

// A script of about this many bytes: a segment, the histograms, and then `add` records over all of their names, each
// for the histogram `step` places after that of the record before.
pub(crate) fn script(alloc: Global, bytes: usize, step: usize) -> Result<Vec<u8>, AllocError> {
    let mut script = Vec::with_capacity(alloc, bytes)?;
    script.extend_from_slice(b"segment,1048576,65536,7\n")?;
    for i in 0..NAMES {
        let line = format!(in alloc; "hist,Page.Load.{i:03},boolean\n")?;
        script.extend_from_slice(line.as_bytes())?;
    }
    for i in 0..bytes {
        let name = i.wrapping_mul(step) % NAMES;
        let value = i.wrapping_mul(7919) % 100_000;
        let line = format!(in alloc; "add,Page.Load.{name:03},{value},1\n")?;
        if line.len() > bytes.saturating_sub(script.len()) {
            break;
        }
        script.extend_from_slice(line.as_bytes())?;
    }
    Ok(script)
}
