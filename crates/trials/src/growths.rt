//! Calls that take memory, so that a growth of it can be refused from outside: those of worlds, of what is made before
//! there is a segment, and of a merge. Those of a segment are tried from C.
//!
//! Before a call is the line `try NAME`: all memory that is asked for up to the next line is asked for by that call. If
//! it is refused, the line `refused NAME WHY` follows, and the call is made again. After that is what it returned, with
//! all that it has changed. So a run in which one growth is refused prints the lines of any other run and that one,
//! except for a merge: what it added before stays, and it is made again into another segment.

mod again;
mod merging;
mod new_values;
mod recording;
mod stepping;

use anyhow::Result;

/// Makes each call once, and again if it is refused.
pub(crate) fn show(rt: &(impl Print + AllocGlobal)) -> Result<()> {
    new_values::show(rt)?;
    recording::show(rt)?;
    let world = stepping::show(rt)?;
    merging::show(rt, world.words())
}
