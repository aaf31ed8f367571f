//! Which folders are a recording's though they have no mark.

ghost use Rattle.std.specs.Prelude.{IfOk, map};
ghost use Rattle.std.specs.Bool.{Decides};
ghost use Rattle.recording_folders.specs.Belonging.{AreInTable, HasRecorded, IsInTable, IsRecorded, WasRecorded};

use crate::kind::{FileKind, kind_of};
use std::alloc::{AllocError, Global};

// Whether a file of this name has what was recorded.
fn is_recorded(alloc: Global, name: &[u8]) -> Result<bool, AllocError>
    ensures { IfOk result (λ is. Decides is (IsRecorded name.now)) }
{
    match kind_of(alloc, name)? {
        FileKind::Segment(_) | FileKind::Damaged(_) | FileKind::Totals => Ok(true),
        FileKind::Spare
        | FileKind::NewTotals
        | FileKind::FoldLock
        | FileKind::Mark
        | FileKind::NewMark
        | FileKind::History
        | FileKind::Other => Ok(false),
    }
}

// Whether a file of this name may be in a recording's folder.
fn is_in_table(alloc: Global, name: &[u8]) -> Result<bool, AllocError>
    ensures { IfOk result (λ is. Decides is (IsInTable name.now)) }
{
    Ok(kind_of(alloc, name)? != FileKind::Other)
}

// Whether some of these files has what was recorded.
fn has_recorded(alloc: Global, names: &[Vec<u8>]) -> Result<bool, AllocError>
    ensures { IfOk result (λ has. Decides has (HasRecorded (map (λ name. name.items) names.now))) }
{
    let mut rest = names;
    while let [name, more @ ..] = rest {
        if is_recorded(alloc, name)? {
            return Ok(true);
        }
        rest = more;
    }
    Ok(false)
}

// Whether each of these files may be in a recording's folder.
fn are_in_table(alloc: Global, names: &[Vec<u8>]) -> Result<bool, AllocError>
    ensures { IfOk result (λ are. Decides are (AreInTable (map (λ name. name.items) names.now))) }
{
    let mut rest = names;
    while let [name, more @ ..] = rest {
        if !is_in_table(alloc, name)? {
            return Ok(false);
        }
        rest = more;
    }
    Ok(true)
}

/// Returns whether a folder that has no mark is a recording's all the same, by the names of all that is in it: some file
/// has what was recorded, and each has a name that a recording's folder has [decides]. The only error is that memory
/// runs out.
pub fn was_recorded(alloc: Global, names: &[Vec<u8>]) -> Result<bool, AllocError>
    ensures decides { IfOk result (λ was. Decides was (WasRecorded (map (λ name. name.items) names.now))) }
{
    Ok(has_recorded(alloc, names)? && are_in_table(alloc, names)?)
}
